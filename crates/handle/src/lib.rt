// The handle of a file: its own fields, seeking, and its entry in the directory that holds it.
// A seek takes a handle by value and hands it back moved; a refusal hands back the very handle that was given.
#![tactic(auto)]

ghost use Rattle.std.specs.Prelude.{◌≡◌, ◌&&◌, ◌+◌, ◌-◌, ◌*◌, ◌≤◌, ◌<◌, eqb, length};
ghost use Rattle.std.specs.Bool.{then_some};
ghost use Rattle.wire.specs.Be.{be};
ghost use Rattle.wire.specs.Pick.{same};
ghost use Rattle.dir_entry.specs.Entry.{header, place_at, name_at};
ghost use Rattle.model.specs.Render.{padded};
ghost use Rattle.super_block.specs.Super.{area_in};
ghost use Rattle.read_dir.specs.Walk.{walk};
ghost use Rattle.read_dir.specs.Cursor.{Passed};
ghost use Rattle.handle.specs.Handles.{name_of, new_handle, stale_fields, moved, target, within, place_in, current, current_in};
ghost use Rattle.handle.specs.Post.{answer_number, AimedIs, SoughtIs, handle_refusal};

use block::Addr;
use dir_entry::{Kind, Name};
use limits::{Damage, Refusal};
use read_dir::{Placed, ReadDir};
use super_block::Volume;

// What an open file is known by. The name stands in the first len bytes: an array and a length, as C keeps them, so that a wrong
// length can be told (H2), and a clause where it must be right.
#[derive(Clone, Copy)]
pub struct Handle {
    pub dir: Addr,
    pub name: [u8; 255],
    pub len: usize,
    pub addr: Addr,
    pub size: u32,
    pub position: u32,
}

// Where a seek goes: from the start, from the position, from the end.
#[derive(Clone, Copy)]
pub enum SeekFrom {
    Start(u32),
    Current(i32),
    End(i32),
}

// What a seek gives: its answer, and the handle after it. A struct and no Result: by H6 a refused call hands back a handle too.
#[derive(Clone, Copy)]
pub struct Sought {
    pub answer: Result<(), Refusal>,
    pub handle: Handle,
}

// What a read or a write gives: how many bytes, and the handle after it, which by H6 a refused call hands back too.
#[derive(Clone, Copy)]
pub struct CountedOut {
    pub answer: Result<usize, Refusal>,
    pub handle: Handle,
}

// The position of a target, where it lies in a file of that size.
fn position(size: u32, to: i64) -> Option<u32>
    ensures { result ≡ then_some (within size to) (place_in to) }
{
    u32::try_from(to).ok().filter(|p| *p <= size)
}

// A name in an array of its own.
pub fn name_array(name: Name) -> [u8; 255]
    ensures { result ≡ padded 255 name.entry.bytes.now }
{
    let mut all = [0u8; 255];
    all[..name.bytes.len()].copy_from_slice(name.bytes);
    all
}

impl Handle {
    // At position 0, on the file of that name in the directory at `dir`.
    pub fn new(dir: Addr, name: Name, addr: Addr, size: u32) -> Handle
        ensures { result ≡ new_handle dir name.entry.bytes.now addr size }
    {
        Handle {
            dir,
            name: name_array(name),
            len: name.bytes.len(),
            addr,
            size,
            position: 0,
        }
    }

    // Refusal 11, as far as the handle's own fields tell.
    pub fn stale(self) -> bool
        ensures { result ≡ stale_fields self }
    {
        self.size < self.position
            || limits::FILE_LIMIT < self.size
            || self.len == 0
            || 255 < self.len
    }

    // The handle at another position.
    pub fn at(mut self, p: u32) -> Handle
        ensures { result ≡ moved self p }
    {
        self.position = p;
        self
    }

    // Where a seek would go. No sum of a u32 and an i32 passes an i64.
    fn reach(self, from: SeekFrom) -> i64
        ensures { result ≡ target self from }
    {
        match from {
            SeekFrom::Start(k) => i64::from(k),
            SeekFrom::Current(i) => i64::from(self.position) + i64::from(i),
            SeekFrom::End(i) => i64::from(self.size) + i64::from(i),
        }
    }

    // The position where a seek goes, or the first of 11 and 12 that refuses it.
    fn aim(self, from: SeekFrom) -> Result<u32, Refusal>
        ensures { AimedIs self from result }
    {
        if self.stale() {
            return Err(Refusal::Stale);
        }
        position(self.size, self.reach(from)).ok_or(Refusal::BadSeek)
    }

    // Refused by 11 or 12, or the handle at its target.
    pub fn seek(self, from: SeekFrom) -> Sought
        ensures { SoughtIs self from result }
    {
        match self.aim(from) {
            Ok(p) => Sought {
                answer: Ok(()),
                handle: self.at(p),
            },
            Err(r) => Sought {
                answer: Err(r),
                handle: self,
            },
        }
    }

    // Whether an entry has the handle's name. (By itself, so that the handle is copied for it alone, and not for each entry.)
    fn named(self, v: Volume, x: Placed) -> bool
        requires len_bound { self.len ≤ 255 }
        requires size_in_bounds { v.s.size * x.place.block.0 + v.s.size ≤ length v.img.now }
        requires len_bound_2 { x.place.offset + header + x.entry.len ≤ v.s.size - 5 }
        ensures { result ≡ same (name_at v.entry.img.now (place_at v.entry.s.size x.place.block.0 x.place.offset) x.entry.len)
            (name_of self) }
    {
        let name = self.name;
        x.named(v, &name[..self.len])
    }

    // Whether an entry is the handle's: a file's, with its name, address and size.
    fn current(self, v: Volume, x: Placed) -> bool
        requires len_bound { self.len ≤ 255 }
        requires size_in_bounds { v.s.size * x.place.block.0 + v.s.size ≤ length v.img.now }
        requires len_bound_2 { x.place.offset + header + x.entry.len ≤ v.s.size - 5 }
        ensures { result ≡ current self x.entry
            (name_at v.entry.img.now (place_at v.entry.s.size x.place.block.0 x.place.offset) x.entry.len) }
    {
        let e = x.entry;
        matches!(e.kind, Kind::File)
            && e.addr == self.addr
            && e.size == self.size
            && self.named(v, x)
    }

    // Whether the entry at an offset of a block can be the handle's by the length of its name, n, and its address: all that is
    // read of most others.
    fn alike(self, v: Volume, b: Addr, o: usize, n: usize) -> bool
        requires size_in_bounds { v.s.size * b.0 + v.s.size ≤ length v.img.now }
        requires n_bound { o + header + n ≤ v.s.size - 5 }
        ensures { result ≡ (eqb (length (name_at v.entry.img.now (place_at v.entry.s.size b.0 o) n)) self.len
            && eqb (be 4 v.entry.img.now (place_at v.entry.s.size b.0 o + 1)) self.addr.0) }
    {
        n == self.len && wire::get32(v.img, dir_entry::place(v.block(b), o) + 1) == self.addr.0
    }

    // Over the entries in the cursor's block that are not the handle's by their length or their address.
    fn pass_others(self, v: Volume, c: ReadDir) -> ReadDir
        requires { self.len ≤ 255 }
        ensures { Passed (area_in v.entry.s) v.entry.img.now (current_in self) c result }
    {
        let b = c.block;
        dir_lookup::pass(v, c, |o, n| self.alike(v, b, o, n))
    }

    // The handle's entry in its directory, with its place.
    pub fn entry(self, v: Volume) -> Result<Option<Placed>, Damage>
        requires { self.len ≤ 255 }
        ensures { result ≡ current_in self (walk (area_in v.entry.s) v.entry.img.now self.dir.0) }
    {
        let mut c = ReadDir::new(v.s, self.dir);
        loop {
            c = self.pass_others(v, c);
            let Some(x) = c.next(v)? else {
                return Ok(None);
            };
            if self.current(v, x) {
                return Ok(Some(x));
            }
        }
    }

    // Refusal 11 by the handle's own fields, then 11 where its directory ends without its entry, 17 where it is damaged before.
    pub fn check(self, v: Volume) -> Result<(), Refusal>
        ensures { answer_number result ≡ handle_refusal (area_in v.entry.s) v.entry.img.now self }
    {
        if self.stale() {
            return Err(Refusal::Stale);
        }
        let found = self.entry(v)?;
        match found {
            Some(_) => Ok(()),
            None => Err(Refusal::Stale),
        }
    }
}
