// The zeros of W1, and W5, decided on the bytes of a volume's image: the superblock's last bytes, the bitmap against the marks
// of a walk, and the used count. The marks stand in the work buffer: bit x is that of address D + x.
// What the answers say of the definitions of a volume is in proofs/Top.antt and proofs/Marks.antt.
#![tactic(auto)]

ghost use Rattle.std.specs.Prelude.{◌≡◌, ◌+◌, ◌-◌, ◌*◌, ◌≤◌, eqb, length};
ghost use Rattle.wire.specs.Pick.{zero_from};
ghost use Rattle.model.specs.Geometry.{data_at, set_bits, used_count};
ghost use Rattle.super_block.specs.Super.{area_in, geo_of};
ghost use Rattle.check_bitmap.specs.Tally.{mark_bytes, agreed};

use super_block::{SuperBlock, Volume};

// The bytes of a superblock that hold something: signature, version, size code, block count, used count.
const HEAD: usize = 18;

// Whether the rest of the superblock is zero.
pub fn rest_clear(v: Volume) -> bool
    ensures { result ≡ zero_from v.entry.img.now (v.entry.s.size * v.entry.s.addr.0 + 18) (v.entry.s.size - 18) }
{
    let at = block::offset(v.s.size, v.s.addr) + HEAD;
    wire::zero_bytes(v.img, at, v.s.size as usize - HEAD)
}

// How many bytes of a work buffer hold marks.
pub fn mark_bytes(s: SuperBlock) -> usize
    requires area_le_blocks { s.area.0 ≤ s.blocks }
    requires blocks_bound { s.blocks ≤ 8388608 }
    ensures { result ≡ mark_bytes (area_in s) }
{
    ((s.blocks - s.area.0 + 7) / 8) as usize
}

// Whether the bitmap has the marks of the work buffer, no bit past them, and a bit for each of them.
pub fn agrees(v: Volume, work: &[u8]) -> bool
    requires { mark_bytes (area_in v.s) ≤ length work.now }
    ensures { result ≡ agreed (geo_of v.entry.s) v.entry.img.now work.now }
{
    let m = mark_bytes(v.s);
    // The bytes that bitmap and marks have both.
    let both = m.min((v.s.bits / 8) as usize);
    let from = block::offset(v.s.size, v.s.bitmap);
    let past = from + both;
    let end = block::offset(v.s.size, v.s.area);
    wire::same_bytes(v.img, from, &work[..both])
        && wire::zero_bytes(work, both, m - both)
        && wire::zero_bytes(v.img, past, end - past)
}

// W5: whether the used count is the true one.
pub fn count_right(v: Volume) -> bool
    ensures { result ≡ eqb (used_count (geo_of v.entry.s) v.entry.img.now)
        (data_at (geo_of v.entry.s) + set_bits v.entry.img.now (geo_of v.entry.s)) }
{
    let from = block::offset(v.s.size, v.s.bitmap);
    let set = bits::count(v.img, from, v.s.bits);
    v.s.alloc_count(v.img) == v.s.area.0 + set
}
