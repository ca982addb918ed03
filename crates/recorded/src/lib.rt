// What the recorded list of the original's answers says in short: the digest of bytes, and the bytes of a write.
#![tactic(auto)]

ghost use Rattle.std.specs.Prelude.{◌≡◌, length};
ghost use Rattle.recorded.specs.Texts.{digest_of, Sown};

// A number that changes with any one byte: a polynomial of the bytes modulo a prime.
pub fn digest(s: &[u8]) -> u64
    ensures { result ≡ digest_of (length s.now) s.now }
{
    let mut d: u64 = 0;
    for b in s {
        d = (d * 257 + u64::from(*b)) % 4_294_967_291;
    }
    d
}

// The bytes of a recorded write.
pub fn sow(buf: &mut [u8], seed: u64)
    ensures { Sown seed buf.new }
{
    let mut b = seed % 251;
    for x in buf.iter_mut() {
        *x = b as u8;
        b = (b + 7) % 251;
    }
}
