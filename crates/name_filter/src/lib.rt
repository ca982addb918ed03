// A filter of names: four bits for each name, by its hash, in a lent array. A name of which one bit is clear was never noted.
#![tactic(auto)]

ghost use Rattle.std.specs.Prelude.{◌≡◌};
ghost use Rattle.name_filter.specs.Bits.{hash_of, turned, pair_in, with_pair, less_pair, filtered, noted, wiped};

// The odd factor of the hash.
const SPREAD: u32 = 2654435761;

// The remainder by it is the lowest 17 digits of a hash: one of the filter's 2^17 bits.
const LOW: u32 = 131072;

// The quotient by it is the highest 17: another.
const HIGH: u32 = 32768;

// The bytes of the filter.
pub const BYTES: usize = 16384;

// The hash of a name: its bytes one after the other, each added and then spread by an odd factor, in 32 digits.
pub fn hash(name: &[u8]) -> u32
    ensures { result ≡ hash_of name.now }
{
    let mut h: u32 = 0;
    for b in name {
        h = h.wrapping_add(u32::from(*b)).wrapping_mul(SPREAD);
    }
    h
}

// The hash with its digits turned by eight places: from it come two more bits.
fn turn(h: u32) -> u32
    ensures { result ≡ turned h }
{
    h.rotate_right(8)
}

// Whether the low and the high bit of a hash are set.
fn pair(filter: &[u8; BYTES], h: u32) -> bool
    ensures { result ≡ pair_in filter.now h }
{
    bits::bit_at(filter, 0, h % LOW) == 1 && bits::bit_at(filter, 0, h / HIGH) == 1
}

// Sets them.
fn set_pair(filter: &mut [u8; BYTES], h: u32)
    ensures { filter.new ≡ with_pair filter.old h }
{
    bits::set_bit(filter, 0, h % LOW);
    bits::set_bit(filter, 0, h / HIGH);
}

// Makes the two bytes zero in which they stand.
fn wipe_pair(filter: &mut [u8; BYTES], h: u32)
    ensures { filter.new ≡ less_pair filter.old h }
{
    let low = (h % LOW / 8) as usize;
    let high = (h / HIGH / 8) as usize;
    filter[low] = 0;
    filter[high] = 0;
}

// Whether all four bits of a hash are set.
pub fn maybe(filter: &[u8; BYTES], h: u32) -> bool
    ensures { result ≡ filtered filter.now h }
{
    pair(filter, h) && pair(filter, turn(h))
}

// Sets all four.
pub fn note(filter: &mut [u8; BYTES], h: u32)
    ensures { filter.new ≡ noted filter.old h }
{
    set_pair(filter, h);
    set_pair(filter, turn(h));
}

// Makes the bytes zero in which the four stand.
pub fn wipe(filter: &mut [u8; BYTES], h: u32)
    ensures { filter.new ≡ wiped filter.old h }
{
    wipe_pair(filter, h);
    wipe_pair(filter, turn(h));
}
