// Reading by a handle, on any image: the chain of a file is followed before a byte is copied.
// A refusal leaves the handle as it was.
#![tactic(auto)]

ghost use Rattle.std.specs.Prelude.{◌≡◌, false, ◌+◌, ◌-◌, ◌≤◌, ◌<◌, length};
ghost use Rattle.wire.specs.Be.{splice};
ghost use Rattle.super_block.specs.Super.{area_in};
ghost use Rattle.handle.specs.Handles.{stale_fields};
ghost use Rattle.file_read.specs.Read.{to_read};
ghost use Rattle.file_read.specs.Post.{ReadIs, FetchIs, after, part_at, Whole, BeginsIs, WalkedIs};

use block::{Addr, LinkedBlock};
use handle::Handle;
use limits::{Damage, Refusal};
use super_block::Volume;

// The address after the first k blocks of the chain from a on. Each of them is looked at before it is read.
fn follow(v: Volume, a: Addr, k: u32) -> Result<Addr, Damage>
    ensures { WalkedIs (after (area_in v.entry.s) v.entry.img.now k a.0) result }
{
    let mut b = a;
    for _ in 0..k {
        if !v.has(b) {
            return Err(Damage);
        }
        b = v.next_addr(b);
    }
    Ok(b)
}

// The block of byte p of the chain from a on, where the chain has the k bytes from there on; none is walked for 0 bytes.
fn begin(v: Volume, a: Addr, p: u32, k: u32) -> Result<Addr, Damage>
    requires { p + k ≤ 2147483647 }
    ensures { BeginsIs (area_in v.entry.s) v.entry.img.now a.0 p k result }
{
    if k == 0 {
        return Ok(a);
    }
    let d = v.s.area;
    let capacity = v.s.size - LinkedBlock::LINK;
    let first = p / capacity;
    let m = (p + (k - 1)) / capacity + 1;
    if v.s.blocks - d.0 < m {
        return Err(Damage);
    }
    let b = follow(v, a, first)?;
    follow(v, b, m - first)?;
    Ok(b)
}

// k bytes from data byte o of block a on, along the chain, to the start of the buffer: a run of each block at a time.
// Its blocks were looked at before.
fn pour(v: Volume, a: Addr, o: usize, buf: &mut [u8], k: usize)
    requires o_bound { o < v.s.size - 4 }
    requires k_in_bounds { k ≤ length buf.old }
    requires whole { Whole (area_in v.s) v.img.now a.0 o k }
    ensures { buf.new ≡ splice buf.old 0 (part_at (area_in v.entry.s) v.entry.img.now a.0 o k) }
{
    let capacity = (v.s.size - LinkedBlock::LINK) as usize;
    let mut b = a;
    let mut at = o;
    let mut i: usize = 0;
    // Over an index: of the bytes that are written through chunks_mut a proof knows nothing.
    while i < k {
        let run = limits::run_of(capacity, at, k - i);
        wire::copy(buf, i, v.img, dir_entry::place(v.block(b), at), run);
        b = v.next_addr(b);
        at = 0;
        i += run;
    }
}

// How many bytes a read into len bytes gives.
fn count(h: Handle, len: usize) -> u32
    requires { h.position ≤ h.size }
    ensures { result ≡ to_read h len }
{
    len.min((h.size - h.position) as usize) as u32
}

// The bytes of a read whose handle was checked. The chain is followed first, so that damage leaves the buffer as it was.
fn fetch(handle: &mut Handle, v: Volume, buf: &mut [u8]) -> Result<usize, Refusal>
    requires { stale_fields handle.old ≡ false }
    ensures { FetchIs (area_in v.entry.s) v.entry.img.now handle.old buf.old buf.new
        (record { answer = result; handle = handle.new }) }
{
    let p = handle.position;
    let k = count(*handle, buf.len());
    let b = begin(v, handle.addr, p, k)?;
    let capacity = v.s.size - LinkedBlock::LINK;
    pour(v, b, (p % capacity) as usize, buf, k as usize);
    handle.position = p + k;
    Ok(k as usize)
}

// Up to buf.len() bytes from the position on. Refused by 11 or 17, or the handle is past what was read.
pub fn read(handle: &mut Handle, v: Volume, buf: &mut [u8]) -> Result<usize, Refusal>
    ensures { ReadIs (area_in v.entry.s) v.entry.img.now handle.old buf.old buf.new
        (record { answer = result; handle = handle.new }) }
{
    handle.check(v)?;
    fetch(handle, v, buf)
}
