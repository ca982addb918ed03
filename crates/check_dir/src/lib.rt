// A directory in the check of a volume, before its entries are walked: its blocks are claimed and what each holds is looked at,
// its names are distinct, and its sum is what the entry above says.
#![tactic(auto)]

ghost use Rattle.std.specs.Prelude.{◌≡◌, ◌+◌, ◌-◌, ◌*◌, ◌≤◌, length};
ghost use Rattle.super_block.specs.Super.{area_in};
ghost use Rattle.check_bitmap.specs.Tally.{mark_bytes};
ghost use Rattle.dir_entry.specs.Entry.{header, place_at, name_at};
ghost use Rattle.read_dir.specs.Walk.{walk};
ghost use Rattle.read_dir.specs.Finds.{sum_from};
ghost use Rattle.thm_survey.specs.Survey.{passes, raws_from, later_of, blocks_of, seen_of};
ghost use Rattle.check_chain.specs.Marks.{MarksAnswer, Inside};
ghost use Rattle.check_dir.specs.Blocks.{may_stand, block_check};
ghost use Rattle.thm_survey.specs.Steps.{open_dir, is_total};

use block::Addr;
use check_names::Filter;
use dir_entry::DirEntry;
use read_dir::{Place, Placed};
use super_block::Volume;

// Whether an entry's address is not 0 and its bytes are a name's.
fn passes(v: Volume, a: Addr, o: usize, e: DirEntry) -> bool
    requires size_in_bounds { v.s.size * a.0 + v.s.size ≤ length v.img.now }
    requires len_bound { o + header + e.len ≤ v.s.size - 5 }
    ensures { result ≡ passes e (name_at v.entry.img.now (place_at v.entry.s.size a.0 o) e.len) }
{
    let to = e.addr;
    let place = Place {
        block: a,
        offset: o,
    };
    to.0 != 0 && text::name(Placed { entry: e, place }.name(v))
}

// Whether a block of a directory may stand there: each of its entries passes, and zeros alone stand behind the last one; a later
// block must have an entry.
fn stands(v: Volume, a: Addr, later: bool) -> bool
    requires { v.s.size * a.0 + v.s.size ≤ length v.img.now }
    ensures { result ≡ may_stand later (raws_from v.entry.s.size v.entry.img.now v.entry.s.size a.0 0) }
{
    let block = v.block(a);
    let capacity = block.capacity() as usize;
    let mut o: usize = 0;
    while let Some(e) = DirEntry::decode(v.img, block, o) {
        if !passes(v, a, o, e) {
            return false;
        }
        o += DirEntry::HEADER + (e.len as usize);
    }
    if later && o == 0 {
        return false;
    }
    wire::zero_bytes(v.img, dir_entry::place(block, o), capacity - o)
}

// Claims block a of a directory and looks at its entries.
fn block(v: Volume, work: &mut [u8], a: Addr, later: bool) -> bool
    requires { mark_bytes (area_in v.s) ≤ length work.old }
    ensures marks_answer { MarksAnswer (area_in v.entry.s) (block_check (area_in v.entry.s) v.entry.img.now later a.0)
        work.old work.new result }
    ensures inside { Inside (area_in v.entry.s) a.0 result }
{
    check_chain::claim(work, v.s, a) && stands(v, a, later)
}

// The later blocks of a directory from a on, at most k.
fn later(v: Volume, work: &mut [u8], a: Addr, k: u32) -> bool
    requires { mark_bytes (area_in v.s) ≤ length work.old }
    ensures { MarksAnswer (area_in v.entry.s)
        (λ seen. seen_of (later_of (area_in v.entry.s) v.entry.img.now k a.0 seen))
        work.old work.new result }
{
    let mut b = a;
    for _ in 0..k {
        if b.0 == 0 {
            return true;
        }
        if !block(v, work, b, true) {
            return false;
        }
        b = v.next_addr(b);
    }
    b.0 == 0
}

// The blocks of a directory from its first on.
fn blocks(v: Volume, work: &mut [u8], a: Addr) -> bool
    requires { mark_bytes (area_in v.s) ≤ length work.old }
    ensures { MarksAnswer (area_in v.entry.s)
        (λ seen. seen_of (blocks_of (area_in v.entry.s) v.entry.img.now a.0 seen))
        work.old work.new result }
{
    let d = v.s.area;
    block(v, work, a, false) && later(v, work, v.next_addr(a), v.s.blocks - d.0 - 1)
}

// A directory before its entries are walked: its blocks are claimed, and its names are distinct.
pub fn open_dir(v: Volume, work: &mut [u8], filter: &mut Filter, a: Addr) -> bool
    requires { mark_bytes (area_in v.s) ≤ length work.old }
    ensures { MarksAnswer (area_in v.entry.s)
        (λ seen. seen_of (open_dir (area_in v.entry.s) v.entry.img.now a.0 seen))
        work.old work.new result }
{
    blocks(v, work, a) && check_names::distinct(v, a, filter)
}

// Whether a directory's entries sum up to that size.
pub fn sized(v: Volume, a: Addr, size: u32) -> bool
    ensures { result ≡ is_total size (sum_from 0 (walk (area_in v.entry.s) v.entry.img.now a.0)) }
{
    match read_dir::sum(v, a) {
        Ok(t) => size == t,
        Err(_) => false,
    }
}
