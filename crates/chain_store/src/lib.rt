// Giving blocks back: one block of the data area, and the blocks of a chain. Delete and write share it.
// (Image and numbers are lent apart, as bitmap_block says.)
#![tactic(auto)]

ghost use Rattle.std.specs.Prelude.{◌≡◌, ◌≤◌, ◌<◌};
ghost use Rattle.super_block.specs.Super.{geo_of, Fit};
ghost use Rattle.chain_store.specs.Chain.{released, chain_freed};

use block::Addr;
use super_block::{SuperBlock, Volume};

// Gives block a of the data area back. A count of 0, which no volume has, cannot be lowered; and a block without a bit, which
// no volume reaches, cannot be marked.
pub fn release(img: &mut [u8], s: SuperBlock, a: Addr)
    requires fit { Fit s img.old }
    requires area_le_a { s.area.0 ≤ a.0 }
    requires a_lt_blocks { a.0 < s.blocks }
    ensures { img.new ≡ released (geo_of s) img.old a.0 }
{
    if s.alloc_count(img) == 0 {
        return;
    }
    let d = s.area;
    let x = a.index(d);
    if s.bits <= x.0 {
        return;
    }
    bitmap_block::free(img, s, x);
}

// Gives back the blocks of the chain from a on, k of them at most: it ends before where an address is none of the data area's.
// Each next address is read before its block is given back.
pub fn free_chain(img: &mut [u8], s: SuperBlock, a: Addr, k: u32)
    requires { Fit s img.old }
    ensures { img.new ≡ chain_freed (geo_of s) img.old k a.0 }
{
    let mut b = a;
    for _ in 0..k {
        let v = Volume { img, s };
        if !v.has(b) {
            return;
        }
        let next = v.next_addr(b);
        release(img, s, b);
        b = next;
    }
}
