// Patching by a handle, on a checked volume: the refusals in order, then the stores of `patch_store`.
// A refusal leaves the handle as it was.
// (Image and numbers are lent apart, as bitmap_block says.)
#![tactic(auto)]

ghost use Rattle.std.specs.Prelude.{◌≡◌};
ghost use Rattle.super_block.specs.Super.{geo_of, Ready};
ghost use Rattle.limits.specs.Says.{says};
ghost use Rattle.patch.specs.Patching.{past_end, patch_target, PatchIs};

use handle::Handle;
use limits::Refusal;
use read_dir::Placed;
use super_block::{SuperBlock, Volume};

// Whether len bytes at the position would end past the file's size. A length that passes it alone is told before the sum.
fn past_end(h: Handle, len: usize) -> bool
    ensures { result ≡ past_end h len }
{
    let size = h.size as usize;
    size < len || size < (h.position as usize) + len
}

// Where a patch of len bytes goes, or the first of 13, 11, 19 that refuses it.
fn target_of(h: Handle, v: Volume, len: usize) -> Result<Placed, Refusal>
    ensures { says result ≡ patch_target (geo_of v.entry.s) v.entry.img.now h len }
{
    if len == 0 {
        return Err(Refusal::EmptyWrite);
    }
    let at = write::held(h, v)?;
    if past_end(h, len) {
        return Err(Refusal::PastEnd);
    }
    Ok(at)
}

// The buffer lies over the file's bytes from the position on. Refused by 13, 11 or 19, or the handle is past what was patched.
pub fn patch(
    handle: &mut Handle,
    img: &mut [u8],
    s: SuperBlock,
    buf: &[u8],
    time: u64,
) -> Result<usize, Refusal>
    requires { Ready s img.old }
    ensures { PatchIs (geo_of s) handle.old buf.now time img.old img.new (record { answer = result; handle = handle.new }) }
{
    let at = target_of(*handle, Volume { img, s }, buf.len())?;
    let c = handle.position;
    patch_store::patch(img, s, at, c, buf, time);
    handle.position = c + (buf.len() as u32);
    Ok(buf.len())
}
