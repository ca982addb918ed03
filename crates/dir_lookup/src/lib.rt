// A directory's entry by its name, read from any image. Entries of other names are passed over by their lengths alone.
// (A block in the image is a clause and no type: the closures of `pass` get it from the cursor, whose block is tested before.)
#![tactic(auto)]

ghost use Rattle.std.specs.Prelude.{◌≡◌, ℕ, true, false, ◌+◌, ◌-◌, ◌*◌, ◌≤◌, ◌<◌, length};
ghost use Rattle.wire.specs.Pick.{same};
ghost use Rattle.dir_entry.specs.Entry.{header, place_at, name_at, slot_at};
ghost use Rattle.super_block.specs.Super.{area_in};
ghost use Rattle.read_dir.specs.Walk.{walk};
ghost use Rattle.read_dir.specs.Cursor.{len_of, Over};
ghost use Rattle.read_dir.specs.Finds.{find_in};

use block::{Addr, VolumeBlock};
use dir_entry::DirEntry;
use limits::Damage;
use read_dir::{Placed, ReadDir};
use super_block::Volume;

// The length of the name at an offset of a block, 0 where the block's entries stop: all that must be read of an entry to
// go over it.
pub fn entry_len(img: &[u8], block: VolumeBlock, o: usize) -> usize
    requires { block.size * block.addr.0 + block.size ≤ length img.now }
    ensures { result ≡ len_of (slot_at block.size img.now block.addr.0 o) }
{
    let capacity = block.capacity() as usize;
    if capacity - DirEntry::HEADER <= o {
        return 0;
    }
    let at = dir_entry::place(block, o);
    if 2 < img[at] {
        return 0;
    }
    let n = usize::from(img[at + 17]);
    if capacity - 1 < o + DirEntry::HEADER + n {
        return 0;
    }
    n
}

// Whether the name of n bytes at an offset of a block is that one.
fn named_at(v: Volume, b: Addr, o: usize, n: usize, name: &[u8]) -> bool
    requires size_in_bounds { v.s.size * b.0 + v.s.size ≤ length v.img.now }
    requires n_bound { o + header + n ≤ v.s.size - 5 }
    ensures { result ≡ same (name_at v.entry.img.now (place_at v.entry.s.size b.0 o) n) name.now }
{
    if n != name.len() {
        return false;
    }
    wire::same_bytes(
        v.img,
        dir_entry::place(v.block(b), o) + DirEntry::HEADER,
        name,
    )
}

// Over the entries in the cursor's block, up to the first one that `stops`: that is asked for with the entry's offset and the
// length of its name, and no more of an entry is read here.
pub fn pass<F: Fn(usize, usize) -> bool>(v: Volume, c: ReadDir, stops: F) -> ReadDir
    requires { (o n : ℕ) → v.s.area.0 ≤ c.block.0 → c.block.0 < v.s.blocks → o + header + n ≤ v.s.size - 5 → F.pre stops o n }
    ensures { Over (area_in v.entry.s) v.entry.img.now (λ o n. F.post stops o n false) (λ o n. F.post stops o n true) c result }
{
    if !v.has(c.block) {
        return c;
    }
    let mut o = c.offset;
    loop {
        let n = entry_len(v.img, v.block(c.block), o);
        if n == 0 {
            return c.at(o);
        }
        if stops(o, n) {
            return c.at(o);
        }
        o = o + DirEntry::HEADER + n;
    }
}

// The first entry of that name in the directory that begins at block dir.
pub fn lookup(v: Volume, dir: Addr, name: &[u8]) -> Result<Option<Placed>, Damage>
    ensures { result ≡ find_in name.now (walk (area_in v.entry.s) v.entry.img.now dir.0) }
{
    let mut c = ReadDir::new(v.s, dir);
    loop {
        let b = c.block;
        c = pass(v, c, |o, n| named_at(v, b, o, n, name));
        match c.next(v)? {
            None => return Ok(None),
            Some(x) => {
                if x.named(v, name) {
                    return Ok(Some(x));
                }
            }
        }
    }
}
