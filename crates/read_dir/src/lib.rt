// The entries of a directory, read from any image: the cursor, the names, the sum. Lookup and listing stand on it, each in a
// crate of its own (dir_lookup, dir_list). Damage is met on the walk, and a walk goes no further than its answer needs (O12).
#![tactic(auto)]

ghost use Rattle.std.specs.Prelude.{◌≡◌, ◌+◌, ◌-◌, ◌*◌, ◌≤◌, ◌<◌, ◌^◌, length};
ghost use Rattle.wire.specs.Pick.{same};
ghost use Rattle.dir_entry.specs.Entry.{header, place_at, name_at};
ghost use Rattle.super_block.specs.Super.{area_in};
ghost use Rattle.read_dir.specs.Walk.{walk};
ghost use Rattle.read_dir.specs.Cursor.{start, at_offset, hop_move, over_move, move_at, Stepped};
ghost use Rattle.read_dir.specs.Finds.{sum_from};

use block::Addr;
use dir_entry::DirEntry;
use limits::Damage;
use super_block::{SuperBlock, Volume};

// The bytes of a record before the name.
pub const RECORD: usize = 14;

// Where reading goes on, and how many blocks of the chain may still be read, this one counted.
#[derive(Clone, Copy)]
pub struct ReadDir {
    pub block: Addr,
    pub offset: usize,
    pub left: u32,
}

// Where an entry stands: its block, and its offset in the block's data.
#[derive(Clone, Copy)]
pub struct Place {
    pub block: Addr,
    pub offset: usize,
}

// An entry with the place where it stands.
#[derive(Clone, Copy)]
pub struct Placed {
    pub entry: DirEntry,
    pub place: Place,
}

// One move of reading: an entry with the cursor past it, another place, the end, or damage. (Damage is a case and no Err, so
// that the loop of `next` goes straight on from a block to the next one, with no answer to be taken apart between.)
#[derive(Clone, Copy)]
enum Move {
    Entry(Placed, ReadDir),
    Go(ReadDir),
    End,
    Damaged,
}

// How many bytes the records of a listing have, and the number of the entry after them.
#[derive(Clone, Copy)]
pub struct Listed {
    pub bytes: usize,
    pub next: u32,
}

impl ReadDir {
    // At the first entry of the directory that begins at block dir.
    pub fn new(s: SuperBlock, dir: Addr) -> ReadDir
        requires { s.area.0 ≤ s.blocks }
        ensures { result ≡ start (area_in s) dir }
    {
        let d = s.area;
        ReadDir {
            block: dir,
            offset: 0,
            left: s.blocks - d.0,
        }
    }

    // At another offset of its block.
    pub fn at(mut self, o: usize) -> ReadDir
        ensures { result ≡ at_offset self o }
    {
        self.offset = o;
        self
    }

    // From a block whose entries have stopped: to the next one, unless there is none.
    fn hop(self, v: Volume) -> Move
        requires block_lt_blocks { self.block.0 < v.s.blocks }
        requires left_nonzero { 0 < self.left }
        ensures { result ≡ hop_move v.entry.s.size v.entry.img.now self }
    {
        let next = v.next_addr(self.block);
        if next.0 == 0 {
            return Move::End;
        }
        Move::Go(ReadDir {
            block: next,
            offset: 0,
            left: self.left - 1,
        })
    }

    // Over an entry that was read here. One with address 0 is not shown.
    fn over(self, e: DirEntry) -> Move
        requires { self.offset + header + e.len < 2 ^ 64 }
        ensures { result ≡ over_move self e }
    {
        let b = self.block;
        let at = self.offset;
        let c = ReadDir {
            block: b,
            offset: at + DirEntry::HEADER + (e.len as usize),
            left: self.left,
        };
        let a = e.addr;
        if a.0 == 0 {
            return Move::Go(c);
        }
        let place = Place {
            block: b,
            offset: at,
        };
        Move::Entry(Placed { entry: e, place }, c)
    }

    // One move. The block is looked at anew each time, so a cursor needs no promise.
    fn advance(self, v: Volume) -> Move
        ensures { result ≡ move_at (area_in v.entry.s) v.entry.img.now self }
    {
        if self.left == 0 {
            return Move::Damaged;
        }
        if !v.has(self.block) {
            return Move::Damaged;
        }
        match DirEntry::decode(v.img, v.block(self.block), self.offset) {
            None => self.hop(v),
            Some(e) => self.over(e),
        }
    }

    // The next entry, with the cursor past it then, or the end.
    #[inline(always)]
    pub fn next(&mut self, v: Volume) -> Result<Option<Placed>, Damage>
        ensures { Stepped (area_in v.entry.s) v.entry.img.now self.old self.new result }
    {
        loop {
            match self.advance(v) {
                Move::Entry(x, past) => {
                    *self = past;
                    return Ok(Some(x));
                }
                Move::Go(on) => *self = on,
                Move::End => return Ok(None),
                Move::Damaged => return Err(Damage),
            }
        }
    }
}

impl Placed {
    // The name of an entry at its place.
    pub fn name<'a>(self, v: Volume<'a>) -> &'a [u8]
        requires size_in_bounds { v.s.size * self.place.block.0 + v.s.size ≤ length v.img.now }
        requires len_bound { self.place.offset + header + self.entry.len ≤ v.s.size - 5 }
        ensures { result.now ≡ name_at v.entry.img.now
            (place_at v.entry.s.size self.place.block.0 self.place.offset) self.entry.len }
    {
        let p = self.place;
        let from = dir_entry::place(v.block(p.block), p.offset) + DirEntry::HEADER;
        &v.img[from..from + (self.entry.len as usize)]
    }

    // Whether an entry has that name.
    pub fn named(self, v: Volume, name: &[u8]) -> bool
        requires size_in_bounds { v.s.size * self.place.block.0 + v.s.size ≤ length v.img.now }
        requires len_bound { self.place.offset + header + self.entry.len ≤ v.s.size - 5 }
        ensures { result ≡ same (name_at v.entry.img.now
            (place_at v.entry.s.size self.place.block.0 self.place.offset) self.entry.len) name.now }
    {
        let x = self.name(v);
        if x.len() != name.len() {
            return false;
        }
        wire::same_bytes(x, 0, name)
    }
}

// The bytes of its entries, which are a directory's size.
pub fn sum(v: Volume, dir: Addr) -> Result<u32, Damage>
    ensures { result ≡ sum_from 0 (walk (area_in v.entry.s) v.entry.img.now dir.0) }
{
    let mut c = ReadDir::new(v.s, dir);
    let mut total: u32 = 0;
    while let Some(x) = c.next(v)? {
        total += (DirEntry::HEADER as u32) + (x.entry.len as u32);
    }
    Ok(total)
}
