// Whether so many indexes in reach are clear. The bitmap's bytes are read in order, and none after the byte that has the last one
// asked for. Eight are counted together where the eighth is needed whatever they hold, since more than 64 are still to find;
// eight full ones are passed together, each read only where those before it are full; all others are counted singly.
// (No contract can say what is not read: judge/damaged shows it, with a guard page behind the last byte.)
#![tactic(auto)]

ghost use Rattle.std.specs.Prelude.{◌≡◌, true, ◌+◌, ◌*◌, ◌≤◌, ◌<◌, ltb, length};
ghost use Rattle.bits.specs.Bit.{ones, BitsFit};
ghost use Rattle.super_block.specs.Super.{geo_of};
ghost use Rattle.bitmap_block.specs.Bitmap.{clears};
ghost use Rattle.bitmap_room.specs.Search.{clear_in, Together, told_of, room_in};

use super_block::Volume;

// Whether there are enough clear bits, and how many bytes were read to tell. (No Option of the bytes: on a no they count too.)
#[derive(Clone, Copy)]
pub struct Told {
    pub enough: bool,
    pub bytes: u32,
}

// Bytes that are looked at together, and how many of their bits in reach are clear.
#[derive(Clone, Copy)]
struct Piece {
    bytes: u32,
    clear: u32,
}

// Whether the eight bytes at `at` are full.
fn full_eight(s: &[u8], at: usize) -> bool
    requires { at + 8 ≤ length s.now }
    ensures { result ≡ true → ones s.now at 64 ≡ 64 }
{
    s[at..at + 8].iter().all(|b| *b == 255)
}

// The clear bits of byte i that are below the limit.
fn clear_in_byte(s: &[u8], from: usize, limit: u32, i: u32) -> u32
    requires bits_fit { BitsFit s.now from limit }
    requires i_bound { 8 * i < limit }
    ensures { clear_in s.now from limit i + result ≡ clear_in s.now from limit (i + 1) }
{
    let at = from + (i as usize);
    let rest = limit - 8 * i;
    if rest < 8 {
        return rest - bits::count(s, at, rest);
    }
    8 - bits::ones_in(s, at, 1)
}

// The next piece, where so many clear bits are still to find.
fn next_piece(s: &[u8], from: usize, limit: u32, i: u32, left: u32) -> Piece
    requires bits_fit { BitsFit s.now from limit }
    requires i_bound { 8 * i < limit }
    requires left_nonzero { 0 < left }
    ensures { Together s.now from limit i left result.bytes result.clear }
{
    let at = from + (i as usize);
    if 64 <= limit - 8 * i {
        if 64 < left {
            let c = 64 - bits::ones_in(s, at, 8);
            return Piece { bytes: 8, clear: c };
        }
        if full_eight(s, at) {
            return Piece { bytes: 8, clear: 0 };
        }
    }
    let c = clear_in_byte(s, from, limit, i);
    Piece { bytes: 1, clear: c }
}

// The search among the first `limit` bits from byte `from` on. (Not a `for`: a turn passes one byte or eight.)
fn search(s: &[u8], from: usize, limit: u32, count: u32) -> Told
    requires bits_fit { BitsFit s.now from limit }
    requires limit_bound { limit ≤ 16777216 }
    ensures { result ≡ told_of s.now from limit count }
{
    if count == 0 {
        return Told {
            enough: true,
            bytes: 0,
        };
    }
    let all = (limit + 7) / 8;
    let mut i: u32 = 0;
    let mut left = count;
    while i < all {
        let p = next_piece(s, from, limit, i, left);
        if left <= p.clear {
            return Told {
                enough: true,
                bytes: i + 1,
            };
        }
        left -= p.clear;
        i += p.bytes;
    }
    Told {
        enough: false,
        bytes: all,
    }
}

// Whether so many indexes in reach are clear, and the bytes of the bitmap that were read to tell.
pub fn room_in(v: Volume, count: u32) -> Told
    ensures { result ≡ room_in (geo_of v.entry.s) v.entry.img.now count }
{
    let from = block::offset(v.s.size, v.s.bitmap);
    search(v.img, from, v.s.reach, count)
}

// Whether fewer than so many are clear, by the same search.
pub fn lacks(v: Volume, need: u32) -> bool
    ensures { result ≡ ltb (length (clears (geo_of v.entry.s) v.entry.img.now)) need }
{
    !room_in(v, need).enough
}
