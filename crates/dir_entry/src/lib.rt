// One directory entry: its kind, its fixed part, decoding by the four stop rules, and encoding.
// (That a block lies in the image is a clause: it ties the block to one image, and stores have another behind them.)
#![tactic(auto)]

ghost use Rattle.std.specs.Prelude.{◌≡◌, ◌+◌, ◌*◌, ◌≤◌, ◌<◌, length};
ghost use Rattle.wire.specs.Be.{splice};
ghost use Rattle.dir_entry.specs.Entry.{kind_at, kind_byte, entry_at, head_bytes, place_at, slot_at};

use block::{Addr, LinkedBlock, VolumeBlock};

// What an entry stands for.
#[derive(Clone, Copy, PartialEq, Eq)]
pub enum Kind {
    Dir,
    File,
    Device,
}

// The fixed part of an entry; the name of len bytes follows it in the block. (The fields that are bytes stand first: `len` at the
// end would leave a gap of seven bytes behind it, which a compiler fills before it looks at what it needs no more of an entry for.)
#[derive(Clone, Copy)]
pub struct DirEntry {
    pub kind: Kind,
    pub len: u8,
    pub addr: Addr,
    pub size: u32,
    pub time: u64,
}

// A name that an entry may have: its length is a byte.
#[derive(Clone, Copy)]
pub struct Name<'a> {
    pub bytes: &'a [u8],
    ghost short: { length bytes.now ≤ 255 },
}

impl Name<'_> {
    // How many bytes it has.
    pub fn len(self) -> u8
        ensures { result ≡ length self.entry.bytes.now }
    {
        self.bytes.len() as u8
    }
}

// The byte of the image where an offset of a block's data stands.
pub fn place(block: VolumeBlock, offset: usize) -> usize
    requires { offset ≤ block.size }
    ensures { result ≡ place_at block.size block.addr.0 offset }
{
    block::offset(block.size, block.addr) + (LinkedBlock::LINK as usize) + offset
}

// The kind that a byte of at most 2 stands for.
impl From<u8> for Kind {
    ghost from_gives = { λ b k. k ≡ kind_at b };

    fn from(b: u8) -> Kind {
        match b {
            0 => Kind::Dir,
            1 => Kind::File,
            _ => Kind::Device,
        }
    }
}

// The byte of a kind.
impl From<Kind> for u8 {
    ghost from_gives = { λ k b. b ≡ kind_byte k };

    fn from(k: Kind) -> u8 {
        k as u8
    }
}

impl DirEntry {
    // The bytes of the fixed part.
    pub const HEADER: usize = 18;

    // The fixed part at a byte of the image.
    pub fn read(img: &[u8], at: usize) -> DirEntry
        requires { at + 18 ≤ length img.now }
        ensures { result ≡ entry_at img.now at }
    {
        DirEntry {
            kind: Kind::from(img[at]),
            addr: Addr(wire::get32(img, at + 1)),
            size: wire::get32(img, at + 5),
            time: wire::get(img, at + 9, 8),
            len: img[at + 17],
        }
    }

    // The entry at an offset of a block's data, unless one of the four stop rules says that the block's entries end there.
    // (Inlined, and so is `ReadDir::next`: what its caller does not use of an entry is then not read.)
    #[inline(always)]
    pub fn decode(img: &[u8], block: VolumeBlock, offset: usize) -> Option<DirEntry>
        requires { block.size * block.addr.0 + block.size ≤ length img.now }
        ensures { result ≡ slot_at block.size img.now block.addr.0 offset }
    {
        let capacity = block.capacity() as usize;
        if capacity - DirEntry::HEADER <= offset {
            return None;
        }
        let at = place(block, offset);
        if 2 < img[at] {
            return None;
        }
        let n = usize::from(img[at + 17]);
        if n == 0 {
            return None;
        }
        if capacity - 1 < offset + DirEntry::HEADER + n {
            return None;
        }
        Some(DirEntry::read(img, at))
    }

    // Stores the fixed part at a byte of the image.
    pub fn store(self, img: &mut [u8], at: usize)
        requires { at + 18 ≤ length img.old }
        ensures { img.new ≡ splice img.old at (head_bytes self) }
    {
        let k = self.kind;
        let a = self.addr;
        img[at] = u8::from(k);
        wire::put(img, at + 1, 4, a.0 as u64);
        wire::put(img, at + 5, 4, self.size as u64);
        wire::put(img, at + 9, 8, self.time);
        img[at + 17] = self.len;
    }
}
