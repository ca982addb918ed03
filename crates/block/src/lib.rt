// Blocks of an image: their addresses and indexes, and the linked block with its next address.
// Stores are functions of specs/ on the list of bytes; what a store leaves is said by `Kept` over (block, offset).
// (`BlockSize` is asked where a bare size comes in, here and in limits: SuperBlock has it as a number, and so has every definition.)
#![tactic(auto)]

ghost use Rattle.std.specs.Prelude.{◌≡◌, ◌+◌, ◌-◌, ◌*◌, ◌≤◌, ◌<◌, ◌^◌, length};
ghost use Rattle.block.specs.Block.{BlockSize, next, linked, zeroed};
ghost use Rattle.block.specs.One.{size_is_one};

// The bytes of a block where the size code is 0.
pub const BLOCK_SIZE: u32 = 512;

// A block counted from the start of the image.
#[derive(Clone, Copy, PartialEq, Eq)]
pub struct Addr(pub u32);

// A block counted from the start of the data area.
#[derive(Clone, Copy)]
pub struct Index(pub u32);

impl Addr {
    // The index of a data block; D is the data area's first address.
    pub fn index(self, data_area: Addr) -> Index
        requires { data_area.0 ≤ self.0 }
        ensures { result.0 ≡ self.0 - data_area.0 }
    {
        Index(self.0 - data_area.0)
    }
}

impl Index {
    // The address of a data block.
    pub fn addr(self, data_area: Addr) -> Addr
        requires { data_area.0 + self.0 < 2 ^ 32 }
        ensures { result.0 ≡ data_area.0 + self.0 }
    {
        Addr(data_area.0 + self.0)
    }
}

// The byte where a block begins.
pub fn offset(size: u32, a: Addr) -> usize
    requires { BlockSize size }
    ensures { result ≡ size * a.0 }
{
    (size as usize) * (a.0 as usize)
}

// Zeroes the k blocks from a on.
pub fn clear(img: &mut [u8], size: u32, a: Addr, k: u32)
    requires block_size { BlockSize size }
    requires k_in_bounds { size * a.0 + size * k ≤ length img.old }
    ensures { img.new ≡ zeroed size img.old a.0 k }
{
    wire::fill(img, offset(size, a), offset(size, Addr(k)), 0);
}

// A block of a chain: a next address, then data bytes to the block's end.
#[derive(Clone, Copy)]
pub struct LinkedBlock {
    pub size: u32,
    pub addr: Addr,
}

// A linked block of a volume: its size is one that a volume's blocks can have, so that nothing is asked of it anew.
#[derive(Clone, Copy)]
pub struct VolumeBlock {
    pub size: u32,
    pub addr: Addr,
    ghost known: { BlockSize size } by { size_is_one size },
}

// (Any size makes one, as it always did; what works in a block asks for the size, and a `VolumeBlock` has it.)
impl LinkedBlock {
    // The bytes of the next address, which stand before a block's data.
    pub const LINK: u32 = 4;

    pub fn new(size: u32, addr: Addr) -> Self
        ensures { (result.size ≡ size) × (result.addr.0 ≡ addr.0) }
    {
        LinkedBlock { size, addr }
    }

    // The same block as one of a volume.
    pub fn known(self) -> VolumeBlock
        requires { BlockSize self.size }
        ensures { (result.size ≡ self.size) × (result.addr.0 ≡ self.addr.0) }
    {
        VolumeBlock::new(self.size, self.addr)
    }

    // How many data bytes it has.
    pub fn capacity(self) -> u32
        requires { BlockSize self.size }
        ensures { result ≡ self.size - 4 }
    {
        self.known().capacity()
    }

    // The next address, 0 at the end of the chain.
    pub fn next_addr(self, img: &[u8]) -> Addr
        requires block_size { BlockSize self.size }
        requires size_in_bounds { self.size * self.addr.0 + self.size ≤ length img.now }
        ensures { result.0 ≡ next self.size img.now self.addr.0 }
    {
        self.known().next_addr(img)
    }

    pub fn set_next_addr(self, img: &mut [u8], to: Addr)
        requires block_size { BlockSize self.size }
        requires size_in_bounds { self.size * self.addr.0 + self.size ≤ length img.old }
        ensures { img.new ≡ linked self.size img.old self.addr.0 to.0 }
    {
        self.known().set_next_addr(img, to)
    }
}

impl VolumeBlock {
    pub fn new(size: u32, addr: Addr) -> Self
        requires { BlockSize size }
        ensures { (result.size ≡ size) × (result.addr.0 ≡ addr.0) }
    {
        VolumeBlock { size, addr }
    }

    // How many data bytes it has.
    pub fn capacity(self) -> u32
        ensures { result ≡ self.size - 4 }
    {
        self.size - LinkedBlock::LINK
    }

    // The next address, 0 at the end of the chain.
    pub fn next_addr(self, img: &[u8]) -> Addr
        requires { self.size * self.addr.0 + self.size ≤ length img.now }
        ensures { result.0 ≡ next self.size img.now self.addr.0 }
    {
        Addr(wire::get32(img, offset(self.size, self.addr)))
    }

    pub fn set_next_addr(self, img: &mut [u8], to: Addr)
        requires { self.size * self.addr.0 + self.size ≤ length img.old }
        ensures { img.new ≡ linked self.size img.old self.addr.0 to.0 }
    {
        wire::put(img, offset(self.size, self.addr), 4, u64::from(to.0));
    }
}
