// Deleting a directory's entry: its bytes go, a block that they leave empty is unlinked and freed, its chain is freed,
// and the directory's own entry is renewed (C13). What is refused is looked at before, above this crate.
// (Image and numbers are lent apart, as bitmap_block says.)
#![tactic(auto)]

ghost use Rattle.std.specs.Prelude.{◌≡◌, ◌+◌, ◌-◌, ◌*◌, ◌≤◌, ◌<◌, length};
ghost use Rattle.super_block.specs.Super.{geo_of, Fit};
ghost use Rattle.dir_entry.specs.Entry.{header};
ghost use Rattle.own_entry.specs.Own.{OwnIn};
ghost use Rattle.chain_store.specs.Chain.{chain_freed};
ghost use Rattle.delete_store.specs.Delete.{cut_out, before_from, unlinked, less_bare, entry_gone, removed};

use block::{Addr, VolumeBlock};
use dir_entry::DirEntry;
use read_dir::{Place, Placed};
use super_block::{SuperBlock, Volume};

// The w bytes at an offset of a block go: those after them in the block move down, and the block's end is zeroed.
fn cut_out(img: &mut [u8], block: VolumeBlock, offset: usize, w: usize)
    requires size_in_bounds { block.size * block.addr.0 + block.size ≤ length img.old }
    requires w_bound { offset + w ≤ block.size - 5 }
    ensures { img.new ≡ cut_out block.size img.old block.addr.0 offset w }
{
    let at = dir_entry::place(block, offset);
    let capacity = block.capacity() as usize;
    let after = capacity - (offset + w);
    wire::move_down(img, at, w, after);
    wire::fill(img, at + after, w, 0);
}

// The block before b in the chain from dir on. A chain without b ends at one of its blocks.
fn before(v: Volume, dir: Addr, b: Addr) -> Addr
    requires { dir.0 < v.s.blocks }
    ensures { (result.0 ≡ before_from v.entry.s.size v.entry.s.blocks v.entry.img.now
        (v.entry.s.blocks - v.entry.s.area.0) dir.0 b.0)
        × (result.0 < v.entry.s.blocks) }
{
    let d = v.s.area;
    let mut a = dir;
    for _ in d.0..v.s.blocks {
        let next = v.next_addr(a);
        if next.0 == b.0 || v.s.blocks <= next.0 {
            return a;
        }
        a = next;
    }
    a
}

// Takes block b out of the chain from dir on, and gives it back.
fn unlink(img: &mut [u8], s: SuperBlock, dir: Addr, b: Addr)
    requires fit { Fit s img.old }
    requires dir_lt_blocks { dir.0 < s.blocks }
    requires area_le_b { s.area.0 ≤ b.0 }
    requires b_lt_blocks { b.0 < s.blocks }
    ensures { img.new ≡ unlinked (geo_of s) img.old dir.0 b.0 }
{
    let v = Volume { img, s };
    let to = v.next_addr(b);
    let last = before(v, dir, b);
    VolumeBlock::new(s.size, last).set_next_addr(img, to);
    chain_store::release(img, s, b);
}

// The same where b is not the first block and has no entry any more.
fn drop_bare(img: &mut [u8], s: SuperBlock, dir: Addr, b: Addr)
    requires fit { Fit s img.old }
    requires dir_lt_blocks { dir.0 < s.blocks }
    requires area_le_b { s.area.0 ≤ b.0 }
    requires b_lt_blocks { b.0 < s.blocks }
    ensures { img.new ≡ less_bare (geo_of s) img.old dir.0 b.0 }
{
    if b.0 == dir.0 {
        return;
    }
    let block = VolumeBlock::new(s.size, b);
    let at = dir_entry::place(block, 0);
    if wire::zero_bytes(img, at, block.capacity() as usize) {
        unlink(img, s, dir, b);
    }
}

// The bytes of an entry go, and its block where it is left empty.
fn take_out(img: &mut [u8], s: SuperBlock, dir: Addr, x: Placed)
    requires fit { Fit s img.old }
    requires dir_lt_blocks { dir.0 < s.blocks }
    requires area_le_block { s.area.0 ≤ x.place.block.0 }
    requires block_lt_blocks { x.place.block.0 < s.blocks }
    requires len_bound { x.place.offset + header + x.entry.len ≤ s.size - 5 }
    ensures { img.new ≡ entry_gone (geo_of s) img.old dir.0 x.entry x.place }
{
    let p = x.place;
    cut_out(
        img,
        VolumeBlock::new(s.size, p.block),
        p.offset,
        DirEntry::HEADER + usize::from(x.entry.len),
    );
    drop_bare(img, s, dir, p.block);
}

// Gives back the whole chain from a on.
fn free_all(img: &mut [u8], s: SuperBlock, a: Addr)
    requires { Fit s img.old }
    ensures { img.new ≡ chain_freed (geo_of s) img.old (s.blocks - s.area.0) a.0 }
{
    let d = s.area;
    chain_store::free_chain(img, s, a, s.blocks - d.0);
}

// Deletes an entry of the directory that begins at block dir; that directory's own entry is at `own`.
pub fn remove(img: &mut [u8], s: SuperBlock, dir: Addr, x: Placed, own: Option<Place>, time: u64)
    requires fit { Fit s img.old }
    requires dir_lt_blocks { dir.0 < s.blocks }
    requires area_le_block { s.area.0 ≤ x.place.block.0 }
    requires block_lt_blocks { x.place.block.0 < s.blocks }
    requires len_bound { x.place.offset + header + x.entry.len ≤ s.size - 5 }
    requires own_in { OwnIn s.size img.old own }
    ensures { img.new ≡ removed (geo_of s) img.old dir.0 x.entry x.place own time }
{
    take_out(img, s, dir, x);
    free_all(img, s, x.entry.addr);
    own_entry::renew_sum(img, s, dir, own, time);
}
