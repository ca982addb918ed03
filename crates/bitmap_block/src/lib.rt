// The bitmap: which data blocks are taken. Blocks are taken, given back and counted here, and nowhere else.
// (Image and numbers are lent apart in what stores: lent as one, each contract would have to say that the numbers stay.)
#![tactic(auto)]

ghost use Rattle.std.specs.Prelude.{◌≡◌, ◌+◌, ◌*◌, ◌≤◌, ◌<◌, length, get_or};
ghost use Rattle.bits.specs.Bit.{AllSet};
ghost use Rattle.model.specs.Geometry.{block_size, map_at, data_at, bit_end, used_count};
ghost use Rattle.super_block.specs.Super.{geo_of, Fit};
ghost use Rattle.bitmap_block.specs.Bitmap.{marked, clears, more, fewer, taken, freed, Room};

use block::Index;
use super_block::SuperBlock;

// Sets the bit of index x.
fn set_mark(img: &mut [u8], s: SuperBlock, x: Index)
    requires fit { Fit s img.old }
    requires x_bound { s.area.0 + x.0 < bit_end (geo_of s) }
    ensures { img.new ≡ marked (geo_of s) img.old x.0 1 }
{
    let from = block::offset(s.size, s.bitmap);
    bits::set_bit(img, from, x.0);
}

// Clears it.
fn clear_mark(img: &mut [u8], s: SuperBlock, x: Index)
    requires fit { Fit s img.old }
    requires x_bound { s.area.0 + x.0 < bit_end (geo_of s) }
    ensures { img.new ≡ marked (geo_of s) img.old x.0 0 }
{
    let from = block::offset(s.size, s.bitmap);
    bits::clear_bit(img, from, x.0);
}

// One more in the used count.
fn inc_alloc_count(img: &mut [u8], s: SuperBlock)
    requires fit { Fit s img.old }
    requires img_bound { used_count (geo_of s) img.old < s.blocks }
    ensures { img.new ≡ more (geo_of s) img.old }
{
    let u = s.alloc_count(img);
    s.set_alloc_count(img, u + 1);
}

// One fewer.
fn dec_alloc_count(img: &mut [u8], s: SuperBlock)
    requires fit { Fit s img.old }
    requires img_nonzero { 0 < used_count (geo_of s) img.old }
    ensures { img.new ≡ fewer (geo_of s) img.old }
{
    let u = s.alloc_count(img);
    s.set_alloc_count(img, u - 1);
}

// Takes the block of index x: zeroed, its bit set, one more used.
pub fn take(img: &mut [u8], s: SuperBlock, x: Index)
    requires fit { Fit s img.old }
    requires x_bound { s.area.0 + x.0 < bit_end (geo_of s) }
    requires img_bound { used_count (geo_of s) img.old < s.blocks }
    ensures { img.new ≡ taken (geo_of s) img.old x.0 }
{
    block::clear(img, s.size, x.addr(s.area), 1);
    set_mark(img, s, x);
    inc_alloc_count(img, s);
}

// Gives the block of index x back: wiped, its bit cleared, one fewer used. No block becomes free in any other place, so none
// keeps what it held.
pub fn free(img: &mut [u8], s: SuperBlock, x: Index)
    requires fit { Fit s img.old }
    requires x_bound { s.area.0 + x.0 < bit_end (geo_of s) }
    requires img_nonzero { 0 < used_count (geo_of s) img.old }
    ensures { img.new ≡ freed (geo_of s) img.old x.0 }
{
    let at = x.addr(s.area);
    block::clear(img, s.size, at, 1);
    clear_mark(img, s, x);
    dec_alloc_count(img, s);
}

// The lowest clear index in reach. None below `from` is clear, so that a run of allocations reads the bitmap once.
pub fn next_free(img: &[u8], s: SuperBlock, from: Index) -> Index
    requires fit { Fit s img.now }
    requires in_bounds { 1 ≤ length (clears (geo_of s) img.now) }
    requires all_set { AllSet img.now (block_size (geo_of s) * map_at (geo_of s)) 0 from.0 }
    ensures { data_at (geo_of s) + result.0 ≡ get_or (clears (geo_of s) img.now) 0 0 }
{
    let at = block::offset(s.size, s.bitmap);
    let found = bits::lowest_clear(img, at, from.0, s.reach);
    Index(found.unwrap())
}

// Takes the lowest clear index in reach, and answers it.
pub fn alloc(img: &mut [u8], s: SuperBlock, from: Index) -> Index
    requires fit { Fit s img.old }
    requires room { Room (geo_of s) img.old 1 }
    requires all_set { AllSet img.old (block_size (geo_of s) * map_at (geo_of s)) 0 from.0 }
    ensures { (img.new ≡ taken (geo_of s) img.old result.0)
        × (data_at (geo_of s) + result.0 ≡ get_or (clears (geo_of s) img.old) 0 0) }
{
    let x = next_free(img, s, from);
    take(img, s, x);
    x
}
