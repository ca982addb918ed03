// The stores of a write, the writing half of file.rs: blocks added or freed,
// the buffer along the chain, size and time into the entry.
// Every store is a function of specs/ on the list of bytes; that they are the edit of `model` is proved in proofs/Writes.antt.
// (Image and numbers are lent apart, as bitmap_block says.)
#![tactic(auto)]

ghost use Rattle.std.specs.Prelude.{◌≡◌, ◌+◌, ◌-◌, ◌*◌, ◌/◌, ◌≤◌, ◌<◌, length, take, drop};
ghost use Rattle.wire.specs.Be.{splice};
ghost use Rattle.bits.specs.Bit.{AllSet};
ghost use Rattle.model.specs.Geometry.{block_size, map_at, data_at};
ghost use Rattle.super_block.specs.Super.{geo_of, Fit};
ghost use Rattle.dir_entry.specs.Entry.{place_at};
ghost use Rattle.bitmap_block.specs.Bitmap.{fresh, Room};
ghost use Rattle.write_store.specs.Write.{hop, Along, grown, extended, cut_after, resized, poured, spread};
ghost use Rattle.write_store.specs.Write.{wrote, Resizable, CanWrite};

use block::{Addr, Index, LinkedBlock, VolumeBlock};
use read_dir::Placed;
use super_block::{SuperBlock, Volume};

// The address k links after a. Its blocks are known to lie in the data area, so that it cannot fail as the one of file_read can.
fn follow(v: Volume, a: Addr, k: u32) -> Addr
    requires { Along (geo_of v.s) v.img.now a.0 k }
    ensures { result.0 ≡ hop v.entry.s.size v.entry.img.now k a.0 }
{
    let mut b = a;
    for _ in 0..k {
        b = v.next_addr(b);
    }
    b
}

// Adds a block after the last one, and answers its index. No index below `from` is clear.
fn grow(img: &mut [u8], s: SuperBlock, last: Addr, from: Index) -> Index
    requires fit { Fit s img.old }
    requires room { Room (geo_of s) img.old 1 }
    requires all_set { AllSet img.old (block_size (geo_of s) * map_at (geo_of s)) 0 from.0 }
    requires last_lt_blocks { last.0 < s.blocks }
    ensures { (img.new ≡ grown (geo_of s) img.old last.0)
        × (data_at (geo_of s) + result.0 ≡ fresh (geo_of s) img.old) }
{
    let d = s.area;
    let x = bitmap_block::alloc(img, s, from);
    VolumeBlock::new(s.size, last).set_next_addr(img, x.addr(d));
    x
}

// Adds k blocks after the last one. Each search of the bitmap begins where the one before it ended.
fn extend(img: &mut [u8], s: SuperBlock, last: Addr, k: u32)
    requires fit { Fit s img.old }
    requires room { Room (geo_of s) img.old k }
    requires s_bound { (data_at (geo_of s) ≤ last.0) × (last.0 < s.blocks) }
    ensures { img.new ≡ extended (geo_of s) img.old last.0 k }
{
    let d = s.area;
    let mut b = last;
    let mut from: u32 = 0;
    for _ in 0..k {
        let x = grow(img, s, b, Index(from));
        b = x.addr(d);
        from = x.0 + 1;
    }
}

// Gives back the k blocks after the last one, which ends its chain then.
fn cut(img: &mut [u8], s: SuperBlock, last: Addr, k: u32)
    requires fit { Fit s img.old }
    requires last_lt_blocks { last.0 < s.blocks }
    ensures { img.new ≡ cut_after (geo_of s) img.old last.0 k }
{
    let a = Volume { img, s }.next_addr(last);
    chain_store::free_chain(img, s, a, k);
    VolumeBlock::new(s.size, last).set_next_addr(img, Addr(0));
}

// The chain from a on gets `new` blocks for its `old`. Where they are as many nothing is stored and no block looked at.
fn resize(img: &mut [u8], s: SuperBlock, a: Addr, old: u32, new: u32)
    requires fit { Fit s img.old }
    requires resizable { Resizable (geo_of s) img.old a.0 old new }
    ensures { img.new ≡ resized (geo_of s) img.old a.0 old new }
{
    if old == new {
        return;
    }
    if old < new {
        let last = follow(Volume { img, s }, a, old - 1);
        extend(img, s, last, new - old);
    } else {
        let last = follow(Volume { img, s }, a, new - 1);
        cut(img, s, last, old - new);
    }
}

// As many of the bytes as a block has room for from data byte `at` on; answers the others.
fn put_run<'a>(img: &mut [u8], block: VolumeBlock, at: usize, bytes: &'a [u8]) -> &'a [u8]
    requires at_bound { at < block.size - 4 }
    requires size_in_bounds { block.size * block.addr.0 + block.size ≤ length img.old }
    ensures { (img.new ≡ splice img.old (place_at block.size block.addr.0 at) (take (block.size - 4 - at) bytes.now))
        × (result.now ≡ drop (block.size - 4 - at) bytes.now) }
{
    let capacity = block.capacity() as usize;
    let (run, rest) = bytes.split_at(limits::run_of(capacity, at, bytes.len()));
    let from = dir_entry::place(block, at);
    wire::copy_all(&mut img[from..from + run.len()], run);
    rest
}

// The buffer into k blocks of the chain from a on, from data byte o of the first on: a run of each block at a time.
fn pour(img: &mut [u8], s: SuperBlock, a: Addr, o: usize, buf: &[u8], k: u32)
    requires fit { Fit s img.old }
    requires o_bound { o < s.size - 4 }
    requires along { Along (geo_of s) img.old a.0 k }
    ensures { img.new ≡ poured s.size img.old a.0 o buf.now k }
{
    let mut b = a;
    let mut at = o;
    let mut rest = buf;
    for _ in 0..k {
        let then = Volume { img, s }.next_addr(b);
        rest = put_run(img, VolumeBlock::new(s.size, b), at, rest);
        b = then;
        at = 0;
    }
}

// The buffer from byte c on of the chain from a on, into its first m blocks.
pub fn put_bytes(img: &mut [u8], s: SuperBlock, a: Addr, c: u32, buf: &[u8], m: u32)
    requires fit { Fit s img.old }
    requires size_bound { c / (s.size - 4) ≤ m }
    requires along { Along (geo_of s) img.old a.0 m }
    ensures { img.new ≡ spread s.size img.old a.0 c buf.now m }
{
    let capacity = s.size - LinkedBlock::LINK;
    let first = c / capacity;
    let b = follow(Volume { img, s }, a, first);
    pour(img, s, b, (c % capacity) as usize, buf, m - first);
}

// C12: the buffer is written at position c of the file that the entry at `at` stands for.
pub fn write(img: &mut [u8], s: SuperBlock, at: Placed, c: u32, buf: &[u8], time: u64)
    requires fit { Fit s img.old }
    requires can_write { CanWrite (geo_of s) img.old at.entry at.place c (length buf.now) }
    ensures { img.new ≡ wrote (geo_of s) img.old at.entry at.place c buf.now time }
{
    let a = at.entry.addr;
    let size = c + (buf.len() as u32);
    let old = limits::blocks_for(s.size, at.entry.size);
    let new = limits::blocks_for(s.size, size);
    resize(img, s, a, old, new);
    put_bytes(img, s, a, c, buf, new);
    let p = at.place;
    own_entry::renew_at(img, VolumeBlock::new(s.size, p.block), p.offset, size, time);
}
