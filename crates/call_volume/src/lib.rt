// The public calls on a volume as a whole: format, usage and the check; and the check that a changing call runs first.
// Their answers for a caller are those of `mfs`, which passes them on.
// (Image and numbers are lent apart, as bitmap_block says.)
#![tactic(auto)]

ghost use Rattle.std.specs.Prelude.{◌≡◌, Ok};
ghost use Rattle.model.specs.Geometry.{mount, block_size};
ghost use Rattle.super_block.specs.Super.{geo_of, Fit, OpenedIs};
ghost use Rattle.model.specs.Answers.{reply};
ghost use Rattle.limits.specs.Says.{says};
ghost use Rattle.call_volume.specs.Checking.{Checks, Checked};
ghost use Rattle.call_volume.specs.Format.{formatted, Formats, Uses, overused, sizes_of};

use block::Index;
use limits::Refusal;
use super_block::{Mount, SuperBlock, Volume};

// Bytes of the volume, bytes of its used blocks, and the rest; wide enough for 4 GiB.
#[derive(Clone, Copy)]
pub struct Space {
    pub size: u64,
    pub used: u64,
    pub free: u64,
}

// The stores of a format.
fn lay(img: &mut [u8], s: SuperBlock)
    requires { Fit s img.old }
    ensures { img.new ≡ formatted (geo_of s) img.old }
{
    let a = s.bitmap;
    let d = s.area;
    s.write(img, d.0);
    block::clear(img, s.size, a, d.0 - a.0);
    bitmap_block::take(img, s, Index(0));
}

// Makes the whole image a volume with an empty root directory. Refusals: 1, 3; as in every call that
// takes a mount, 2 before them where its size code is not known.
pub fn format(img: &mut [u8], m: Mount) -> Result<(), Refusal>
    ensures { Formats (mount m.k m.code) img.old result img.new }
{
    let s = SuperBlock::for_image(img.len(), m)?;
    lay(img, s);
    Ok(())
}

// The sizes of an opened volume, or 17 for a used count above the volume's blocks.
fn sizes_of(s: SuperBlock, used: u32) -> Result<Space, Refusal>
    requires { s.size ≡ block_size (geo_of s) }
    ensures { says result ≡ reply (overused (geo_of s) used) (sizes_of (geo_of s) used) }
{
    let n = s.blocks;
    if n < used {
        return Err(Refusal::Damaged);
    }
    let bytes = u64::from(s.size);
    let size = u64::from(n) * bytes;
    let taken = u64::from(used) * bytes;
    Ok(Space {
        size,
        used: taken,
        free: size - taken,
    })
}

// How much of the volume is used. Refusals: 1, 2, 3, 17.
pub fn usage(img: &[u8], m: Mount) -> Result<Space, Refusal>
    ensures { Uses (mount m.k m.code) img.now result }
{
    let s = SuperBlock::read(img, m)?;
    sizes_of(s, s.alloc_count(img))
}

// The whole check of an opened volume, and its work buffer's length before that.
fn check_opened(img: &[u8], m: Mount, s: SuperBlock, work: &mut [u8]) -> Result<SuperBlock, Refusal>
    requires { OpenedIs (mount m.k m.code) img.now (Ok s) }
    ensures { Checked (mount m.k m.code) img.now work.old result work.new }
{
    if work.len() < check_bitmap::mark_bytes(s) {
        return Err(Refusal::ShortWork);
    }
    if check_volume::check(Volume { img, s }, work) {
        Ok(s)
    } else {
        Err(Refusal::Damaged)
    }
}

// Opens a volume and checks it whole: what a changing call does first.
pub fn open_checked(img: &[u8], m: Mount, work: &mut [u8]) -> Result<SuperBlock, Refusal>
    ensures { Checked (mount m.k m.code) img.now work.old result work.new }
{
    let s = SuperBlock::read(img, m)?;
    check_opened(img, m, s, work)
}

// Whether the image is a well-formed volume, W1 to W5. One bit a block is marked in the work buffer, and is zero again
// afterwards. Refusals: 1, 2, 3, 16, 17.
pub fn check(img: &[u8], m: Mount, work: &mut [u8]) -> Result<(), Refusal>
    ensures { Checks (mount m.k m.code) img.now work.old result work.new }
{
    open_checked(img, m, work)?;
    Ok(())
}
