// A directory's own entry, which stands in the directory above it: its size and time are stored here, and nowhere else.
// It is given by its place, and the root, which has none, by None.
// (Image and numbers are lent apart, as bitmap_block says.)
#![tactic(auto)]

ghost use Rattle.std.specs.Prelude.{◌≡◌, ◌+◌, ◌-◌, ◌*◌, ◌≤◌, length};
ghost use Rattle.dir_entry.specs.Entry.{header};
ghost use Rattle.super_block.specs.Super.{geo_of, Fit};
ghost use Rattle.own_entry.specs.Own.{OwnIn, own_renewed, sum_renewed};

use block::{Addr, VolumeBlock};
use dir_entry::DirEntry;
use read_dir::Place;
use super_block::{SuperBlock, Volume};

// Stores the size and the time of the entry at an offset of a block: of a directory, or of a file that was written.
pub fn renew_at(img: &mut [u8], block: VolumeBlock, offset: usize, size: u32, time: u64)
    requires size_in_bounds { block.size * block.addr.0 + block.size ≤ length img.old }
    requires offset_bound { offset + header ≤ block.size - 5 }
    ensures { img.new ≡ own_renewed block.size img.old (Some (record { block = block.addr; offset = offset })) size time }
{
    let at = dir_entry::place(block, offset);
    wire::put(img, at + 5, 4, size as u64);
    wire::put(img, at + 9, 8, time);
}

// C13: the sum of a directory as it is now, and the time, go into its own entry; the root has none.
pub fn renew_sum(img: &mut [u8], s: SuperBlock, dir: Addr, own: Option<Place>, time: u64)
    requires fit { Fit s img.old }
    requires own_in { OwnIn s.size img.old own }
    ensures { img.new ≡ sum_renewed (geo_of s) img.old dir.0 own time }
{
    if let Ok(z) = read_dir::sum(Volume { img, s }, dir) {
        if let Some(p) = own {
            renew_at(img, VolumeBlock::new(s.size, p.block), p.offset, z, time);
        }
    }
}
