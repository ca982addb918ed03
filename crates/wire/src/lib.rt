// Bytes of a lent slice: big-endian numbers at a place, and runs of bytes filled, copied and moved.
// Every store is a `splice` of the list of bytes, and every number read is a `be`; their laws are in proofs/Numbers.antt.
// (A place is given beside the slice, not by a part of it: what is promised is a `splice` of the whole list at that place.)
#![tactic(auto)]

ghost use Rattle.std.specs.Prelude.{◌≡◌, ◌+◌, ◌≤◌, ◌<◌, ◌^◌, length, take, drop, replicate};
ghost use Rattle.wire.specs.Be.{be, bytes, splice};
ghost use Rattle.wire.specs.Pick.{same, zero_from};

// The number in the n bytes at `at`, byte by byte.
fn digits(s: &[u8], at: usize, n: usize) -> u64
    requires n_in_bounds { at + n ≤ length s.now }
    requires n_bound { n ≤ 8 }
    ensures { (result ≡ be n s.now at) × (result < 256 ^ n) }
{
    let mut v: u64 = 0;
    for b in &s[at..at + n] {
        v = v * 256 + u64::from(*b);
    }
    v
}

// The number in the n bytes at `at`, highest byte first, at any width up to 8. Eight bytes are two halves, since the
// compiler sees that four bytes in a row, or two halves, are one load, and that eight bytes are it does not see.
pub fn get(s: &[u8], at: usize, n: usize) -> u64
    requires n_in_bounds { at + n ≤ length s.now }
    requires n_bound { n ≤ 8 }
    ensures { (result ≡ be n s.now at) × (result < 256 ^ n) }
{
    if n == 8 {
        return digits(s, at, 4) * 4294967296 + digits(s, at + 4, 4);
    }
    digits(s, at, n)
}

// The four-byte number at `at`.
pub fn get32(s: &[u8], at: usize) -> u32
    requires { at + 4 ≤ length s.now }
    ensures { result ≡ be 4 s.now at }
{
    get(s, at, 4) as u32
}

// The lowest n bytes of v, highest first, at `at`: any width.
pub fn put(s: &mut [u8], at: usize, n: usize, v: u64)
    requires { at + n ≤ length s.old }
    ensures { s.new ≡ splice s.old at (bytes n v) }
{
    let mut w = v;
    for i in (0..n).rev() {
        s[at + i] = (w % 256) as u8;
        w /= 256;
    }
}

// n bytes from `at` on become b.
pub fn fill(s: &mut [u8], at: usize, n: usize, b: u8)
    requires { at + n ≤ length s.old }
    ensures { s.new ≡ splice s.old at (replicate n b) }
{
    s[at..at + n].fill(b);
}

// The bytes of src become those of dst. By hand: of this loop the compiler makes one over many bytes at a time, of the library's
// copy a call of `memmove`, which the archive for C would then ask of a program.
pub fn copy_all(dst: &mut [u8], src: &[u8])
    requires { length dst.old ≡ length src.now }
    ensures { dst.new ≡ src.now }
{
    for i in 0..src.len() {
        dst[i] = src[i];
    }
}

// n bytes of src from `from` on go to dst from `at` on.
pub fn copy(dst: &mut [u8], at: usize, src: &[u8], from: usize, n: usize)
    requires n_in_bounds { at + n ≤ length dst.old }
    requires n_in_bounds_2 { from + n ≤ length src.now }
    ensures { dst.new ≡ splice dst.old at (take n (drop from src.now)) }
{
    copy_all(&mut dst[at..at + n], &src[from..from + n]);
}

// n bytes from at + gap on move down to `at`: the two runs may overlap.
pub fn move_down(s: &mut [u8], at: usize, gap: usize, n: usize)
    requires { at + gap + n ≤ length s.old }
    ensures { s.new ≡ splice s.old at (take n (drop (at + gap) s.old)) }
{
    s.copy_within(at + gap..at + gap + n, at);
}

// Whether the bytes of t stand in s from `at` on.
pub fn same_bytes(s: &[u8], at: usize, t: &[u8]) -> bool
    requires { at + length t.now ≤ length s.now }
    ensures { result ≡ same (take (length t.now) (drop at s.now)) t.now }
{
    &s[at..at + t.len()] == t
}

// Whether n bytes from `at` on are zero. The loop has no way out but its end: only such a loop does the compiler turn into
// one over many bytes at a time.
pub fn zero_bytes(s: &[u8], at: usize, n: usize) -> bool
    requires { at + n ≤ length s.now }
    ensures { result ≡ zero_from s.now at n }
{
    let mut ok = true;
    for b in &s[at..at + n] {
        ok &= *b == 0;
    }
    ok
}
