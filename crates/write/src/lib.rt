// Writing by a handle, on a checked volume: the refusals in order, then the stores of `write_store`.
// A refusal leaves the handle as it was.
// (Image and numbers are lent apart, as bitmap_block says.)
#![tactic(auto)]

ghost use Rattle.std.specs.Prelude.{◌≡◌, ◌+◌, ◌≤◌};
ghost use Rattle.super_block.specs.Super.{geo_of, Ready};
ghost use Rattle.write.specs.Writing.{too_long, unreached, no_room, held_at, target_of};
ghost use Rattle.limits.specs.Says.{says};
ghost use Rattle.write.specs.Written.{WriteIs};

use handle::Handle;
use limits::Refusal;
use read_dir::Placed;
use super_block::{SuperBlock, Volume};

// The bytes of the largest file, as ends of buffers are counted.
const END_LIMIT: usize = limits::FILE_LIMIT as usize;

// Whether the file would pass its limit with len bytes at the position. A length that passes it alone is told before the sum.
fn too_long(h: Handle, len: usize) -> bool
    ensures { result ≡ too_long h len }
{
    END_LIMIT < len || END_LIMIT < (h.position as usize) + len
}

// Whether the handle's directory is not one reached from the root.
fn unreached(h: Handle, v: Volume) -> bool
    ensures { result ≡ unreached (geo_of v.entry.s) v.entry.img.now h }
{
    !reached::reached(v, h.dir)
}

// Whether fewer indexes are clear than blocks are to be added for len bytes at the position.
fn no_room(h: Handle, v: Volume, len: u32) -> bool
    requires { h.position + len ≤ 2147483647 }
    ensures { result ≡ no_room (geo_of v.entry.s) v.entry.img.now h len }
{
    let old = limits::blocks_for(v.s.size, h.size);
    let new = limits::blocks_for(v.s.size, h.position + len);
    if new <= old {
        return false;
    }
    bitmap_room::lacks(v, new - old)
}

// The entry of a handle's file, with its place, in a directory that is reached from the root, or 11.
pub fn held(h: Handle, v: Volume) -> Result<Placed, Refusal>
    ensures { says result ≡ held_at (geo_of v.entry.s) v.entry.img.now h }
{
    if h.stale() || unreached(h, v) {
        return Err(Refusal::Stale);
    }
    h.entry(v)?.ok_or(Refusal::Stale)
}

// Where a write of len bytes goes, or the first of 13, 11, 10, 9 that refuses it.
fn target_of(h: Handle, v: Volume, len: usize) -> Result<Placed, Refusal>
    ensures { says result ≡ target_of (geo_of v.entry.s) v.entry.img.now h len }
{
    if len == 0 {
        return Err(Refusal::EmptyWrite);
    }
    let at = held(h, v)?;
    if too_long(h, len) {
        return Err(Refusal::TooLarge);
    }
    if no_room(h, v, len as u32) {
        return Err(Refusal::NoRoom);
    }
    Ok(at)
}

// The file becomes its bytes before the position, and the buffer. Refused by 13, 11, 10 or 9, or the handle is past
// what was written: its file ends there, and so does its position.
pub fn write(
    handle: &mut Handle,
    img: &mut [u8],
    s: SuperBlock,
    buf: &[u8],
    time: u64,
) -> Result<usize, Refusal>
    requires { Ready s img.old }
    ensures { WriteIs (geo_of s) handle.old buf.now time img.old img.new (record { answer = result; handle = handle.new }) }
{
    let at = target_of(*handle, Volume { img, s }, buf.len())?;
    let c = handle.position;
    write_store::write(img, s, at, c, buf, time);
    let end = c + (buf.len() as u32);
    handle.size = end;
    handle.position = end;
    Ok(buf.len())
}
