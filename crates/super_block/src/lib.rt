// The superblock: the numbers of a volume, or why there are none (refusals 1, 2, 3); the used count.
// Only this crate computes D and the reach; all others take them from the struct.
#![tactic(auto)]

ghost use Rattle.std.specs.Prelude.{◌≡◌, ◌+◌, ◌-◌, ◌*◌, ◌/◌, ◌≤◌, eqb, leb, ltb, ◌&&◌, ◌<◌, length, IfOk, IfErr};
ghost use Rattle.wire.specs.Pick.{pick};
ghost use Rattle.block.specs.Block.{BlockSize, next};
ghost use Rattle.model.specs.Geometry.{mount, numbered, code_size, last_code, rest, bad_image, bad_version, bad_mark};
ghost use Rattle.model.specs.Geometry.{bad_count, used_count};
ghost use Rattle.limits.specs.Refusals.{refusal_number};
ghost use Rattle.super_block.specs.One.{fit_is_one};
ghost use Rattle.super_block.specs.Super.{geo_of, super_block, Fair, Fit, OpenedIs, MadeIs, counted, super_written};

use block::{Addr, VolumeBlock};
use limits::Refusal;

// Bytes of the largest image.
const MAX_IMAGE: usize = 4_294_967_296;

// The letters that a superblock begins with.
const SIGNATURE: [u8; 8] = *b"MOROS FS";

// The version that is written, and the one before it, which is read too.
const VERSION: u8 = 2;

const OLD_VERSION: u8 = 1;

// The last size code. (The old version has code 0 alone.)
const MAX_CODE: u32 = 1;

// Where a caller says that a volume stands in an image: the block of its superblock, in blocks of the size that the code says.
// Any code may be named.
#[derive(Clone, Copy)]
pub struct Mount {
    pub k: u32,
    pub code: u32,
}

// A mount whose size code is known. `Mount::known` alone makes one; any other code is refused by 2.
#[derive(Clone, Copy)]
struct Known {
    m: Mount,
    ghost known: { m.code ≤ last_code },
}

// The numbers of a volume.
#[derive(Clone, Copy)]
pub struct SuperBlock {
    // where the superblock stands
    pub addr: Addr,
    // how many blocks the volume has
    pub blocks: u32,
    // the bytes of a block, the version and the size code
    pub size: u32,
    pub version: u8,
    pub code: u8,
    // the first bitmap block and the first data block
    pub bitmap: Addr,
    pub area: Addr,
    // how many bits the bitmap has
    pub bits: u32,
    // how many indexes allocation looks at
    pub reach: u32,
}

// An image with the numbers of its volume, which fit: every block of the volume lies in the image.
#[derive(Clone, Copy)]
pub struct Volume<'a> {
    pub img: &'a [u8],
    pub s: SuperBlock,
    ghost fit: { Fit s img.now } by { fit_is_one s img.now },
}

// Whether no volume of that size code has this version.
fn bad_version(v: u8, code: u32) -> bool
    ensures { result ≡ bad_version v code }
{
    match v {
        VERSION => false,
        OLD_VERSION => code != 0,
        _ => true,
    }
}

// The blocks from the bitmap on.
fn after_bitmap(n: u32, k: u32) -> u32
    ensures { result ≡ n - (k + 2) }
{
    n.saturating_sub(k).saturating_sub(2)
}

// The blocks of the bitmap, of so many for it and the data. A bitmap block has so many bits.
fn map_blocks(left: u32, span: u32, v: u8) -> u32
    requires left_bound { left ≤ 8388608 }
    requires span_bound { span ≤ 8192 }
    ensures { result ≡ pick (eqb v 1) (left / (span + 1)) ((left + span) / (span + 1)) }
{
    if v == OLD_VERSION {
        left / (span + 1)
    } else {
        (left + span) / (span + 1)
    }
}

impl Mount {
    // The same, where its size code is known: refusal 2, before all that is said of an image.
    fn known(self) -> Result<Known, Refusal>
        ensures ok { IfOk result (λ x. x.m ≡ self) }
        ensures err { IfErr result (λ r. (last_code < self.code) × (refusal_number r ≡ 2)) }
    {
        if MAX_CODE < self.code {
            return Err(Refusal::NotMfs);
        }
        Ok(Known { m: self })
    }
}

impl Known {
    // The bytes of a block.
    fn block_size(self) -> u32
        ensures { (result ≡ code_size self.m.code) × BlockSize result }
    {
        if self.m.code == 0 {
            block::BLOCK_SIZE
        } else {
            2 * block::BLOCK_SIZE
        }
    }

    // Refusal 1, by the image's length alone.
    fn bad_image(self, len: usize) -> bool
        ensures { result ≡ bad_image (mount self.m.k self.m.code) len }
    {
        if len == 0 {
            return true;
        }
        let size = self.block_size() as usize;
        if len % size != 0 {
            return true;
        }
        if MAX_IMAGE < len {
            return true;
        }
        len / size <= (self.m.k as usize) + 2
    }

    // Refusal 2, by what stands in block k.
    fn bad_mark(self, img: &[u8]) -> bool
        requires { code_size self.m.code * self.m.k + 10 ≤ length img.now }
        ensures { result ≡ bad_mark (mount self.m.k self.m.code) img.now }
    {
        let code = self.m.code;
        let at = block::offset(self.block_size(), Addr(self.m.k));
        if !wire::same_bytes(img, at, &SIGNATURE) {
            return true;
        }
        u32::from(img[at + 9]) != code || bad_version(img[at + 8], code)
    }

    // Refusal 3.
    fn bad_count(self, n: u32, v: u8, len: usize) -> bool
        ensures { result ≡ bad_count (numbered (mount self.m.k self.m.code) v n) len }
    {
        let size = self.block_size();
        if len / (size as usize) < (n as usize) {
            return true;
        }
        let left = after_bitmap(n, self.m.k);
        let unit = 8 * size + 1;
        if v == OLD_VERSION {
            return left < unit;
        }
        if left < 2 {
            return true;
        }
        left % unit == 1
    }
}

impl SuperBlock {
    // The numbers of n blocks.
    fn new(known: Known, n: u32, v: u8) -> Self
        requires { Fair (numbered (mount known.m.k known.m.code) v n) }
        ensures { result ≡ super_block (numbered (mount known.m.k known.m.code) v n) }
    {
        let size = known.block_size();
        let Mount { k, code } = known.m;
        let span = 8 * size;
        let a = k + 2;
        let b = map_blocks(n - a, span, v);
        let d = a + b;
        let bits = span * b;
        let whole = span * (n / span);
        let reach = (n - d).min(whole).min(bits);
        SuperBlock {
            addr: Addr(k),
            blocks: n,
            size,
            version: v,
            code: code as u8,
            bitmap: Addr(a),
            area: Addr(d),
            bits,
            reach,
        }
    }

    // The numbers of the image's superblock, where it is mounted so.
    pub fn read(img: &[u8], m: Mount) -> Result<SuperBlock, Refusal>
        ensures { OpenedIs (mount m.k m.code) img.now result }
    {
        let known = m.known()?;
        let len = img.len();
        if known.bad_image(len) {
            return Err(Refusal::BadImage);
        }
        if known.bad_mark(img) {
            return Err(Refusal::NotMfs);
        }
        let at = block::offset(known.block_size(), Addr(known.m.k));
        let v = img[at + 8];
        let n = wire::get32(img, at + 10);
        if known.bad_count(n, v, len) {
            return Err(Refusal::BadCount);
        }
        Ok(SuperBlock::new(known, n, v))
    }

    // The numbers that a volume over a whole image of len bytes would have, to be mounted so.
    pub fn for_image(len: usize, m: Mount) -> Result<SuperBlock, Refusal>
        ensures { MadeIs (mount m.k m.code) len result }
    {
        let known = m.known()?;
        if known.bad_image(len) {
            return Err(Refusal::BadImage);
        }
        let n = (len / (known.block_size() as usize)) as u32;
        if known.bad_count(n, VERSION, len) {
            return Err(Refusal::BadCount);
        }
        Ok(SuperBlock::new(known, n, VERSION))
    }

    // The used count.
    pub fn alloc_count(self, img: &[u8]) -> u32
        requires { Fit self img.now }
        ensures { result ≡ used_count (geo_of self) img.now }
    {
        let a = self.addr;
        let at = block::offset(self.size, a) + 14;
        wire::get32(img, at)
    }

    // Stores the used count.
    pub fn set_alloc_count(self, img: &mut [u8], v: u32)
        requires { Fit self img.old }
        ensures { img.new ≡ counted (geo_of self) img.old v }
    {
        let a = self.addr;
        let at = block::offset(self.size, a) + 14;
        wire::put(img, at, 4, v as u64);
    }

    // Writes the superblock with used count v.
    pub fn write(self, img: &mut [u8], v: u32)
        requires { Fit self img.old }
        ensures { img.new ≡ super_written (geo_of self) img.old v }
    {
        let a = self.addr;
        let n = self.blocks;
        let at = block::offset(self.size, a);
        wire::copy(img, at, &SIGNATURE, 0, 8);
        wire::copy(img, at + 8, &[self.version, self.code], 0, 2);
        wire::put(img, at + 10, 4, n as u64);
        wire::put(img, at + 14, 4, v as u64);
        let rest = (self.size - 18) as usize;
        wire::fill(img, at + 18, rest, 0);
    }
}

impl<'a> Volume<'a> {
    // Whether a block is one of the data area's.
    pub fn has(self, a: Addr) -> bool
        ensures { result ≡ (leb self.entry.s.area.0 a.0 && ltb a.0 self.entry.s.blocks) }
    {
        let d = self.s.area;
        d.0 <= a.0 && a.0 < self.s.blocks
    }

    // The block of an address, as one of a chain.
    pub fn block(self, a: Addr) -> VolumeBlock
        ensures { (result.size ≡ self.entry.s.size) × (result.addr.0 ≡ a.0) }
    {
        VolumeBlock::new(self.s.size, a)
    }

    // The next address of a block, 0 at the end of its chain.
    pub fn next_addr(self, a: Addr) -> Addr
        requires { a.0 < self.s.blocks }
        ensures { result.0 ≡ next self.entry.s.size self.entry.img.now a.0 }
    {
        self.block(a).next_addr(self.img)
    }
}
