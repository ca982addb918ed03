// The stores of a patch: the buffer over bytes that a file has, and the time into its entry. No block is added or given back, and
// of the chain no block behind the buffer's last byte is looked at.
// (Image and numbers are lent apart, as bitmap_block says.)
#![tactic(auto)]

ghost use Rattle.std.specs.Prelude.{◌≡◌, length};
ghost use Rattle.super_block.specs.Super.{geo_of, Fit};
ghost use Rattle.patch_store.specs.Patch.{patched, CanPatch};

use block::VolumeBlock;
use read_dir::Placed;
use super_block::SuperBlock;

// C19: the buffer is put over the bytes from position c on of the file that the entry at `at` stands for. The size that goes
// into the entry with the time is the one that it has.
pub fn patch(img: &mut [u8], s: SuperBlock, at: Placed, c: u32, buf: &[u8], time: u64)
    requires fit { Fit s img.old }
    requires can_patch { CanPatch (geo_of s) img.old at.entry at.place c (length buf.now) }
    ensures { img.new ≡ patched (geo_of s) img.old at.entry at.place c buf.now time }
{
    let a = at.entry.addr;
    let size = at.entry.size;
    let end = c + (buf.len() as u32);
    let count = limits::blocks_for(s.size, end);
    write_store::put_bytes(img, s, a, c, buf, count);
    let p = at.place;
    own_entry::renew_at(img, VolumeBlock::new(s.size, p.block), p.offset, size, time);
}
