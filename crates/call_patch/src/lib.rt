// The public call that puts bytes over bytes of a file and keeps the rest of it, after the whole check. Its answers for a caller
// are those of `mfs`, which passes it on.
#![tactic(auto)]

ghost use Rattle.model.specs.Geometry.{mount};
ghost use Rattle.call_patch.specs.Patches.{Patches};

use handle::{CountedOut, Handle};
use limits::Refusal;
use super_block::Mount;

// Patches on a volume that is checked first: the handle is moved where the patch is not refused.
fn patch_on(
    img: &mut [u8],
    m: Mount,
    handle: &mut Handle,
    buf: &[u8],
    time: u64,
    work: &mut [u8],
) -> Result<usize, Refusal>
    ensures { Patches (mount m.k m.code) img.old work.old handle.old buf.now time
        (record { answer = result; handle = handle.new }) img.new work.new }
{
    let s = call_volume::open_checked(img, m, work)?;
    patch::patch(handle, img, s, buf, time)
}

// Puts buf over the file's bytes from the handle's position on; the file keeps its size. Refusals: 1, 2, 3, 16, 17, 13, 11, 19; a
// refused patch hands back the very handle.
pub fn patch(
    img: &mut [u8],
    m: Mount,
    mut handle: Handle,
    buf: &[u8],
    time: u64,
    work: &mut [u8],
) -> CountedOut
    ensures { Patches (mount m.k m.code) img.old work.old handle buf.now time result
        img.new
        work.new }
{
    let answer = patch_on(img, m, &mut handle, buf, time, work);
    CountedOut { answer, handle }
}
