// Deleting an entry by its full path, on a volume that is opened and checked: refusals 5, 6, 14 in this order, then the stores
// of `delete_store`. All that may refuse is read before the first store, and the contracts hold on any opened image; on a volume
// they are the tree's delete (proofs/OnVolume.antt).
// (Image and numbers are lent apart, as bitmap_block says.)
#![tactic(auto)]

ghost use Rattle.std.specs.Prelude.{◌≡◌};
ghost use Rattle.limits.specs.Says.{says, says_by};
ghost use Rattle.super_block.specs.Super.{geo_of, Ready};
ghost use Rattle.delete.specs.Deleting.{has_entries, doomed_of, deleted_on, deleted_image};
ghost use Rattle.delete.specs.Post.{doomed};

use dir::Holding;
use dir_entry::{DirEntry, Kind};
use limits::Refusal;
use read_dir::Placed;
use super_block::{SuperBlock, Volume};

// Whether an entry stands for a directory that has entries: its size is their sum.
#[tactic(auto, using(crate::proofs::Answers::above_zero), unfolding(crate::specs::Deleting::has_entries))]
fn has_entries(e: DirEntry) -> bool
    ensures { result ≡ has_entries e }
{
    e.kind == Kind::Dir && 0 < e.size
}

// The entry to delete at a full path, and the directory that holds it. An empty last name is not found, and nothing is
// walked for it.
fn doomed_of(v: Volume, full: &[u8]) -> Result<(Holding, Placed), Refusal>
    ensures { says_by doomed result ≡ doomed_of (geo_of v.entry.s) v.entry.img.now full.now }
{
    let parts = path::parts_of(full);
    if parts.name.is_empty() {
        return Err(Refusal::NotFound);
    }
    let h = dir::hold(v, parts.dir)?;
    let x = dir::entry_in(v, h.dir, parts.name)?;
    if has_entries(x.entry) {
        return Err(Refusal::NotEmpty);
    }
    Ok((h, x))
}

// Deletes the entry at a full path. Any refusal comes before the first store.
pub fn delete(img: &mut [u8], s: SuperBlock, full: &[u8], time: u64) -> Result<(), Refusal>
    requires { Ready s img.old }
    ensures result_value { says result ≡ deleted_on (geo_of s) img.old full.now }
    ensures img_after { img.new ≡ deleted_image (geo_of s) img.old full.now time }
{
    let (h, x) = doomed_of(Volume { img, s }, full)?;
    delete_store::remove(img, s, h.dir, x, h.own, time);
    Ok(())
}
