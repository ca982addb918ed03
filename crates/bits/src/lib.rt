// Bits of a lent slice, numbered from byte `from` on: bit x is in byte x / 8, at x % 8 counted from the lowest.
// The bitmap of a volume and the work buffer of the check are both read and written here, by shifts and masks.
// (Slice, `from` and `limit` are no struct: that its bytes are below 256 is known of a slice that is a parameter alone.)
#![tactic(auto)]

ghost use Rattle.std.specs.Prelude.{◌≡◌, ◌+◌, ◌*◌, ◌/◌, ◌<◌, ◌≤◌, length};
ghost use Rattle.bits.specs.Bit.{with_bit, ones, BitIs, BitsFit, AllSet};
ghost use Rattle.bits.specs.Find.{Lowest};

// The bit, 0 or 1.
pub fn bit_at(s: &[u8], from: usize, x: u32) -> u8
    requires { from + x / 8 < length s.now }
    ensures { BitIs s.now from x result }
{
    let at = from + (x / 8) as usize;
    (s[at] >> (x % 8)) & 1
}

pub fn set_bit(s: &mut [u8], from: usize, x: u32)
    requires { from + x / 8 < length s.old }
    ensures { s.new ≡ with_bit s.old from x 1 }
{
    let at = from + (x / 8) as usize;
    let m = 1u8 << (x % 8);
    s[at] |= m;
}

pub fn clear_bit(s: &mut [u8], from: usize, x: u32)
    requires { from + x / 8 < length s.old }
    ensures { s.new ≡ with_bit s.old from x 0 }
{
    let at = from + (x / 8) as usize;
    let m = 1u8 << (x % 8);
    s[at] &= !m;
}

// The lowest clear bit below the limit, where every bit below `start` is known to be set: in the first byte that is not full.
pub fn lowest_clear(s: &[u8], from: usize, start: u32, limit: u32) -> Option<u32>
    requires bits_fit { BitsFit s.now from limit }
    requires limit_bound { limit ≤ 16777216 }
    requires start_le_limit { start ≤ limit }
    requires all_set { AllSet s.now from 0 start }
    ensures { Lowest s.now from limit result }
{
    let first = from + (start / 8) as usize;
    let end = from + ((limit + 7) / 8) as usize;
    let passed = s[first..end].iter().position(|b| *b != 255)?;
    let at = first + passed;
    let x = 8 * (at - from) as u32 + s[at].trailing_ones();
    (x < limit).then_some(x)
}

// The ones of the n bytes at `at`, counted together.
pub fn ones_in(s: &[u8], at: usize, n: usize) -> u32
    requires n_in_bounds { at + n ≤ length s.now }
    requires n_bound { n ≤ 8 }
    ensures { (result ≡ ones s.now at (8 * n)) × (result ≤ 8 * n) }
{
    wire::get(s, at, n).count_ones()
}

// The ones of the lowest k bits of the byte at `at`, which need not be there where k is 0.
fn low_ones(s: &[u8], at: usize, k: u32) -> u32
    requires k_in_bounds { BitsFit s.now at k }
    requires k_bound { k < 8 }
    ensures { (result ≡ ones s.now at k) × (result ≤ k) }
{
    if k == 0 {
        return 0;
    }
    (s[at] % (1 << k)).count_ones()
}

// How many bits of the k words of eight bytes from `from` on are set.
fn count_words(s: &[u8], from: usize, k: usize) -> u32
    requires k_in_bounds { from + 8 * k ≤ length s.now }
    requires k_bound { k ≤ 67108863 }
    ensures { (result ≡ ones s.now from (64 * k)) × (result ≤ 64 * k) }
{
    let mut n: u32 = 0;
    for i in 0..k {
        n += ones_in(s, from + 8 * i, 8);
    }
    n
}

// How many bits below the limit are set: eight bytes together, then the last few bytes, and of a last part of a byte its bits.
pub fn count(s: &[u8], from: usize, limit: u32) -> u32
    requires { BitsFit s.now from limit }
    ensures { result ≡ ones s.now from limit }
{
    let words = (limit / 64) as usize;
    let bytes = (limit % 64 / 8) as usize;
    let a = count_words(s, from, words);
    let b = ones_in(s, from + 8 * words, bytes);
    let c = low_ones(s, from + 8 * words + bytes, limit % 8);
    a + b + c
}
