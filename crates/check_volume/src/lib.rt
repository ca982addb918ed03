// The whole check of a volume: W1 to W5 decided on the bytes of an image.
// thm_survey/specs says what it computes; the marks of claimed blocks stand in the work buffer.
// Two functions call each other: one for a directory, one for an entry of it; each directory entered leaves one level less.
#![tactic(auto)]

ghost use Rattle.std.specs.Prelude.{◌≡◌, ◌-◌, ◌≤◌, [], length};
ghost use Rattle.wire.specs.Be.{zeros, splice};
ghost use Rattle.model.specs.Volume.{max_depth};
ghost use Rattle.super_block.specs.Super.{area_in, geo_of, Fit};
ghost use Rattle.check_bitmap.specs.Tally.{mark_bytes};
ghost use Rattle.read_dir.specs.Walk.{walk};
ghost use Rattle.thm_survey.specs.Survey.{survey, seen_of};
ghost use Rattle.check_chain.specs.Marks.{Marks, Beyond, MarksAnswer};
ghost use Rattle.thm_survey.specs.Steps.{through, entry_check};
ghost use Rattle.thm_survey.specs.Whole.{whole};

use block::Addr;
use check_names::Filter;
use dir_entry::{DirEntry, Kind};
use read_dir::ReadDir;
use super_block::{SuperBlock, Volume};

// Walks an entry of a directory that may have `depth` levels below it: the chain of a file or a device, or a
// directory in its turn.
#[cycle(walk_dir_walk_entry)]
fn walk_entry(v: Volume, work: &mut [u8], filter: &mut Filter, e: DirEntry, depth: u32) -> bool
    requires { mark_bytes (area_in v.s) ≤ length work.old }
    ensures { MarksAnswer (area_in v.entry.s) (entry_check (area_in v.entry.s) v.entry.img.now depth e)
        work.old work.new result }
{
    let a = e.addr;
    match e.kind {
        Kind::File => check_chain::file_chain(v, work, a, e.size),
        Kind::Device => check_chain::chain(v, work, a),
        Kind::Dir => {
            if depth == 0 {
                return false;
            }
            if !check_dir::open_dir(v, work, filter, a) {
                return false;
            }
            check_dir::sized(v, a, e.size) && walk_dir(v, work, filter, a, depth - 1)
        }
    }
}

// Walks the entries of the directory at a, with at most `depth` levels below it.
#[cycle(walk_dir_walk_entry)]
fn walk_dir(v: Volume, work: &mut [u8], filter: &mut Filter, a: Addr, depth: u32) -> bool
    requires { mark_bytes (area_in v.s) ≤ length work.old }
    ensures { MarksAnswer (area_in v.entry.s)
        (through (entry_check (area_in v.entry.s) v.entry.img.now depth) (walk (area_in v.entry.s) v.entry.img.now a.0))
        work.old work.new result }
{
    let mut c = ReadDir::new(v.s, a);
    loop {
        match c.next(v) {
            Ok(Some(x)) => {
                if !walk_entry(v, work, filter, x.entry, depth) {
                    return false;
                }
            }
            Ok(None) => return true,
            Err(_) => return false,
        }
    }
}

// The tree from the root on: W2 to W4.
fn tree(v: Volume, work: &mut [u8], filter: &mut Filter) -> bool
    requires { mark_bytes (area_in v.s) ≤ length work.old }
    ensures { MarksAnswer (area_in v.entry.s)
        (λ seen. seen_of (survey (area_in v.entry.s) v.entry.img.now max_depth v.entry.s.area.0 seen))
        work.old work.new result }
{
    check_dir::open_dir(v, work, filter, v.s.area)
        && walk_dir(v, work, filter, v.s.area, limits::MAX_DEPTH)
}

// W1 to W5, where nothing is marked yet. The filter of names stands here once, outside the walk: made anew for each directory
// its 16,384 bytes would cost more than the test. The image is lent by itself, since what is proved of the bitmap asks that its
// bytes are bytes, which is known of a slice and not of one within a struct.
fn decide(img: &[u8], s: SuperBlock, work: &mut [u8]) -> bool
    requires fit { Fit s img.now }
    requires s_in_bounds { mark_bytes (area_in s) ≤ length work.old }
    requires marks { Marks (area_in s) work.old [] }
    ensures value { result ≡ whole (geo_of s) img.now }
    ensures beyond { Beyond (area_in s) work.old work.new }
{
    let v = Volume { img, s };
    if !check_bitmap::rest_clear(v) {
        return false;
    }
    let mut filter = Filter::new();
    if !tree(v, work, &mut filter) {
        return false;
    }
    check_bitmap::agrees(v, work) && check_bitmap::count_right(v)
}

// Whether the image is a well-formed volume: W1 to W5. The bytes of marks in the work buffer are zero afterwards, whatever stood
// in them, and the others stay.
pub fn check(v: Volume, work: &mut [u8]) -> bool
    requires { mark_bytes (area_in v.s) ≤ length work.old }
    ensures value { result ≡ whole (geo_of v.entry.s) v.entry.img.now }
    ensures work_after { work.new ≡ splice work.old 0 (zeros (mark_bytes (area_in v.entry.s))) }
{
    let m = check_bitmap::mark_bytes(v.s);
    wire::fill(work, 0, m, 0);
    let r = decide(v.img, v.s, work);
    wire::fill(work, 0, m, 0);
    r
}
