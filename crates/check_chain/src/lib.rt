// The blocks of files and devices, claimed for the check of a volume: a bit in the work buffer for each block (specs/Marks.antt).
// thm_survey/specs/Survey.antt says what is computed.
// (The work buffer is a slice whose length is a clause: as a struct with its volume each call would have to say that this stays,
// and behind a loan of it nothing was known of its bytes.)
#![tactic(auto)]

ghost use Rattle.std.specs.Prelude.{◌-◌, ◌≤◌, ◌<◌, [], leb, length};
ghost use Rattle.std.proofs.Math.Option.{none};
ghost use Rattle.wire.specs.Pick.{pick};
ghost use Rattle.model.specs.Volume.{file_limit, blocks_for};
ghost use Rattle.super_block.specs.Super.{area_in};
ghost use Rattle.check_bitmap.specs.Tally.{mark_bytes};
ghost use Rattle.thm_survey.specs.Survey.{claim, cells_of, chain_of, seen_of};
ghost use Rattle.check_chain.specs.Marks.{MarksAnswer, Inside};

use block::Addr;
use super_block::{SuperBlock, Volume};

// Claims block a: marked, unless it is outside the data area or claimed already.
pub fn claim(work: &mut [u8], s: SuperBlock, a: Addr) -> bool
    requires blocks_bound { s.blocks ≤ 8388608 }
    requires s_in_bounds { mark_bytes (area_in s) ≤ length work.old }
    ensures marks_answer { MarksAnswer (area_in s) (claim (area_in s) [] a.0) work.old work.new result }
    ensures inside { Inside (area_in s) a.0 result }
{
    let d = s.area;
    if a.0 < d.0 || s.blocks <= a.0 {
        return false;
    }
    let x = a.index(d);
    if bits::bit_at(work, 0, x.0) == 1 {
        return false;
    }
    bits::set_bit(work, 0, x.0);
    true
}

// The chain of a file: exactly k blocks from a on, each claimed, and then its end.
fn cells(v: Volume, work: &mut [u8], a: Addr, k: u32) -> bool
    requires { mark_bytes (area_in v.s) ≤ length work.old }
    ensures { MarksAnswer (area_in v.entry.s)
        (λ seen. seen_of (cells_of (area_in v.entry.s) v.entry.img.now k a.0 seen))
        work.old work.new result }
{
    let mut b = a;
    for _ in 0..k {
        if !claim(work, v.s, b) {
            return false;
        }
        b = v.next_addr(b);
    }
    b.0 == 0
}

// Whether a file of that size is within the limit and has the blocks for it, from a on.
pub fn file_chain(v: Volume, work: &mut [u8], a: Addr, size: u32) -> bool
    requires { mark_bytes (area_in v.s) ≤ length work.old }
    ensures { MarksAnswer (area_in v.entry.s)
        (λ seen. pick (leb size file_limit)
        (seen_of (cells_of (area_in v.entry.s) v.entry.img.now (blocks_for v.entry.s.size size) a.0 seen)) none)
        work.old work.new result }
{
    size <= limits::FILE_LIMIT && cells(v, work, a, limits::blocks_for(v.s.size, size))
}

// The chain of a device: as many blocks as there are, from a on, each claimed.
pub fn chain(v: Volume, work: &mut [u8], a: Addr) -> bool
    requires { mark_bytes (area_in v.s) ≤ length work.old }
    ensures { MarksAnswer (area_in v.entry.s)
        (λ seen. seen_of (chain_of (area_in v.entry.s) v.entry.img.now (v.entry.s.blocks - v.entry.s.area.0) a.0 seen))
        work.old work.new result }
{
    let d = v.s.area;
    let mut b = a;
    for _ in 0..v.s.blocks - d.0 {
        if !claim(work, v.s, b) {
            return false;
        }
        b = v.next_addr(b);
        if b.0 == 0 {
            return true;
        }
    }
    false
}
