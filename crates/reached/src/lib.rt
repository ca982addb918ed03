// Whether a block is the first of a directory that is reached from the root: what a write asks of its handle.
// Each directory entered leaves one level less.
#![tactic(auto)]

ghost use Rattle.std.specs.Prelude.{◌≡◌, ℕ, ◌+◌, ◌*◌, ◌≤◌, ◌<◌, length, get_or};
ghost use Rattle.dir_entry.specs.Entry.{is_dir, kind_at, place_at};
ghost use Rattle.model.specs.Tree.{Tree};
ghost use Rattle.model.specs.Volume.{Laid, max_depth};
ghost use Rattle.model.specs.Calls.{path_to};
ghost use Rattle.super_block.specs.Super.{area_in, geo_of};
ghost use Rattle.reached.specs.Reach.{reaches, has_path};
ghost use Rattle.reached.specs.Passing.{SteppedDir};

use block::Addr;
use dir_entry::Kind;
use limits::Damage;
use read_dir::{Placed, ReadDir};
use super_block::Volume;

// Whether the entry at an offset of a block is a directory's.
fn is_dir(v: Volume, b: Addr, o: usize) -> bool
    requires size_in_bounds { v.s.size * b.0 + v.s.size ≤ length v.img.now }
    requires o_bound { o + 22 < v.s.size }
    ensures { result ≡ is_dir (kind_at (get_or v.entry.img.now (place_at v.entry.s.size b.0 o) 0)) }
{
    let kind = Kind::from(v.img[dir_entry::place(v.block(b), o)]);
    matches!(kind, Kind::Dir)
}

// The next entry that matters here: a directory's, or the first of another block. Of the others only the kind and the length
// are read.
fn next_dir(v: Volume, c: &mut ReadDir) -> Result<Option<Placed>, Damage>
    ensures { SteppedDir (area_in v.entry.s) v.entry.img.now c.old c.new result }
{
    let b = c.block;
    *c = dir_lookup::pass(v, *c, |o, _| is_dir(v, b, o));
    c.next(v)
}

// Whether the directory target is the one at dir, or one below it by at most depth levels. A file and a device lead nowhere, and
// a walk that ends in damage has no more entries.
fn dir_reaches(v: Volume, target: Addr, depth: u32, dir: Addr) -> bool
    ensures { result ≡ reaches (area_in v.entry.s) v.entry.img.now target.0 depth dir.0 }
{
    if target == dir {
        return true;
    }
    if depth == 0 {
        return false;
    }
    let mut c = ReadDir::new(v.s, dir);
    while let Ok(Some(x)) = next_dir(v, &mut c) {
        let e = x.entry;
        if matches!(e.kind, Kind::Dir) && dir_reaches(v, target, depth - 1, e.addr) {
            return true;
        }
    }
    false
}

// Whether the directory target is reached from the root. On every tree that the image lays out: whether there is a path to it.
pub fn reached(v: Volume, target: Addr) -> bool
    ensures value { result ≡ reaches (area_in v.entry.s) v.entry.img.now target.0 max_depth v.entry.s.area.0 }
    ensures value_2 { (t : Tree max_depth) (u : ℕ) → Laid (geo_of v.entry.s) v.entry.img.now max_depth t u
        → result ≡ has_path (path_to max_depth target.0 t) }
{
    dir_reaches(v, target, limits::MAX_DEPTH, v.s.area)
}
