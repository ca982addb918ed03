// A directory's entries as records in a lent buffer, from any number on, read from any image. The records are measured first and
// stored then, so that damage leaves the buffer as it was.
#![tactic(auto)]

ghost use Rattle.std.specs.Prelude.{◌≡◌, ◌+◌, ◌-◌, ◌*◌, ◌≤◌, ◌<◌, ◌^◌, length};
ghost use Rattle.wire.specs.Be.{splice};
ghost use Rattle.dir_entry.specs.Entry.{header, place_at, name_at};
ghost use Rattle.super_block.specs.Super.{area_in};
ghost use Rattle.read_dir.specs.Walk.{walk};
ghost use Rattle.read_dir.specs.Cursor.{cursor_walk, items};
ghost use Rattle.read_dir.specs.Finds.{record_of, skip, list_from, records_from, on_listed};

use block::Addr;
use limits::Damage;
use read_dir::{Listed, Placed, ReadDir};
use super_block::Volume;

// The bytes of a record before the name.
const RECORD: usize = read_dir::RECORD;

// To entry number i: past the last one, to where the walk ends or is damaged.
fn seek(v: Volume, dir: Addr, i: u32) -> ReadDir
    ensures { cursor_walk (area_in v.entry.s) v.entry.img.now result ≡ skip i (walk (area_in v.entry.s) v.entry.img.now dir.0) }
{
    let mut c = ReadDir::new(v.s, dir);
    for _ in 0..i {
        match c.next(v) {
            Ok(Some(_)) => {}
            Ok(None) => return c,
            Err(_) => return c,
        }
    }
    c
}

// How many bytes the records from a cursor take in a buffer of cap bytes, and the number after the last.
fn measure(v: Volume, from: ReadDir, i: u32, cap: usize) -> Result<Listed, Damage>
    requires { i + items (cursor_walk (area_in v.s) v.img.now from) < 2 ^ 32 }
    ensures { result ≡ list_from cap 0 i (cursor_walk (area_in v.entry.s) v.entry.img.now from) }
{
    let mut c = from;
    let mut used: usize = 0;
    let mut k = i;
    while let Some(x) = c.next(v)? {
        let need = RECORD + (x.entry.len as usize);
        if cap - used <= need {
            return Ok(Listed {
                bytes: used,
                next: k,
            });
        }
        used += need;
        k += 1;
    }
    Ok(Listed {
        bytes: used,
        next: k,
    })
}

// Stores the record of an entry.
fn put_record(buf: &mut [u8], at: usize, v: Volume, x: Placed)
    requires len_in_bounds { at + (14 + x.entry.len) ≤ length buf.old }
    requires size_in_bounds { v.s.size * x.place.block.0 + v.s.size ≤ length v.img.now }
    requires len_bound { x.place.offset + header + x.entry.len ≤ v.s.size - 5 }
    ensures { buf.new ≡ splice buf.old at
        (record_of x.entry (name_at v.entry.img.now (place_at v.entry.s.size x.place.block.0 x.place.offset) x.entry.len)) }
{
    let e = x.entry;
    buf[at] = u8::from(e.kind);
    wire::put(buf, at + 1, 4, e.size as u64);
    wire::put(buf, at + 5, 8, e.time);
    buf[at + 13] = e.len;
    let name = x.name(v);
    wire::copy(buf, at + RECORD, name, 0, name.len());
}

// The records from a cursor, while they fit.
fn fill(v: Volume, from: ReadDir, buf: &mut [u8])
    ensures { buf.new ≡ splice buf.old 0 (records_from (length buf.old) 0
        (cursor_walk (area_in v.entry.s) v.entry.img.now from)) }
{
    let cap = buf.len();
    let mut c = from;
    let mut used: usize = 0;
    loop {
        match c.next(v) {
            Ok(Some(x)) => {
                let need = RECORD + (x.entry.len as usize);
                if cap - used <= need {
                    return;
                }
                put_record(buf, used, v, x);
                used += need;
            }
            Ok(None) => return,
            Err(_) => return,
        }
    }
}

// The directory that begins at block dir, from entry number i on: its records into the buffer, while they fit. What
// they take is measured first, so that damage leaves the buffer as it was.
pub fn list(v: Volume, dir: Addr, i: u32, buf: &mut [u8]) -> Result<Listed, Damage>
    ensures value { result ≡ list_from (length buf.old) 0 i (skip i (walk (area_in v.entry.s) v.entry.img.now dir.0)) }
    ensures buf_after { buf.new ≡ on_listed result
        (records_from (length buf.old) 0 (skip i (walk (area_in v.entry.s) v.entry.img.now dir.0)))
        buf.old }
{
    let c = seek(v, dir, i);
    let listed = measure(v, c, i, buf.len())?;
    fill(v, c, buf);
    Ok(listed)
}
