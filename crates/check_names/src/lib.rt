// Names in a directory: whether they are distinct.
// A filter of hashed names answers for most of them at once; only where it does not are the earlier names searched.
#![tactic(auto)]

ghost use Rattle.std.specs.Prelude.{◌≡◌, not, ◌&&◌, ◌<◌, take};
ghost use Rattle.super_block.specs.Super.{area_in};
ghost use Rattle.read_dir.specs.Walk.{walk};
ghost use Rattle.check_names.specs.Names.{one_of, distinct, names_in, ends};
ghost use Rattle.check_names.specs.Filter.{clear, met_in, distinct_in, noted_in, Covers, CoversPart, Only};
ghost use Rattle.name_filter.specs.Bits.{hash_of};

use block::Addr;
use name_filter::BYTES;
use read_dir::ReadDir;
use super_block::Volume;

// So many names are forgotten about as soon one by one as with the whole filter.
const FEW: u32 = 96;

// A prime below 2^16: the remainder by it goes by all digits of a hash, so that a part's names share none of their bits.
const PRIME: u32 = 65521;

// A part for each so many bytes of a directory: some 5000 names, which set less than a sixth of the filter.
const PART: u32 = 131072;

// What the bytes of a directory are counted to.
const MANY: u32 = 268435456;

// Part k of m: the names whose hash leaves k (specs/Filter.antt). That there is such a part says that m is not 0.
#[derive(Clone, Copy)]
struct Part {
    k: u32,
    m: u32,
    ghost below: { k < m },
}

// A filter that is clear between two uses, so that one serves for every directory of a volume.
#[derive(Drop)]
pub struct Filter {
    pub bits: [u8; BYTES],
    ghost is_clear: { bits ≡ clear },
}

impl Filter {
    pub fn new() -> Self {
        Filter { bits: [0; BYTES] }
    }
}

// Whether a name is one of the first i of the directory that begins at block dir: the search itself.
fn earlier(v: Volume, dir: Addr, i: u32, name: &[u8]) -> bool
    ensures { result ≡ one_of name.now (take i (names_in (walk (area_in v.entry.s) v.entry.img.now dir.0))) }
{
    let mut c = ReadDir::new(v.s, dir);
    for _ in 0..i {
        match c.next(v) {
            Ok(Some(x)) => {
                if x.named(v, name) {
                    return true;
                }
            }
            Ok(None) => return false,
            Err(_) => return false,
        }
    }
    false
}

// The same with a filter that covers those names: one that has not all its bits need not be searched for.
fn seen(v: Volume, dir: Addr, filter: &[u8; BYTES], i: u32, name: &[u8], h: u32) -> bool
    requires covers { Covers filter.now (take i (names_in (walk (area_in v.s) v.img.now dir.0))) name.now }
    requires h_value { h ≡ hash_of name.now }
    ensures { result ≡ one_of name.now (take i (names_in (walk (area_in v.entry.s) v.entry.img.now dir.0))) }
{
    name_filter::maybe(filter, h) && earlier(v, dir, i, name)
}

// Whether a name that follows the first i is not of part p, or is not one of them. It is noted where it is of that part.
fn fresh(v: Volume, dir: Addr, filter: &mut [u8; BYTES], p: Part, i: u32, name: &[u8]) -> bool
    requires covers_part { CoversPart filter.old (take i (names_in (walk (area_in v.s) v.img.now dir.0))) p.m p.k }
    ensures value { result ≡ not (met_in p.m p.k name.now (take i (names_in (walk (area_in v.entry.s) v.entry.img.now dir.0)))) }
    ensures filter_after { filter.new ≡ noted_in filter.old name.now p.m p.k }
{
    let h = name_filter::hash(name);
    if h % PRIME % p.m != p.k {
        return true;
    }
    let t = seen(v, dir, filter, i, name, h);
    name_filter::note(filter, h);
    !t
}

// The test of a part: each of its names against those before it. It leaves their bits in the filter.
fn tested(v: Volume, dir: Addr, filter: &mut [u8; BYTES], p: Part) -> bool
    requires { filter.old ≡ clear }
    ensures value { result ≡ (ends (walk (area_in v.entry.s) v.entry.img.now dir.0)
        && distinct_in p.m p.k (names_in (walk (area_in v.entry.s) v.entry.img.now dir.0))) }
    ensures only { Only filter.new (names_in (walk (area_in v.entry.s) v.entry.img.now dir.0)) }
{
    let mut c = ReadDir::new(v.s, dir);
    let mut i: u32 = 0;
    loop {
        match c.next(v) {
            Ok(Some(x)) => {
                let name = x.name(v);
                if !fresh(v, dir, filter, p, i, name) {
                    return false;
                }
                i += 1;
            }
            Ok(None) => return true,
            Err(_) => return false,
        }
    }
}

// The undoing, however far the test came: the bytes of a few names become zero again one by one, and those of more all at once.
fn forget(v: Volume, dir: Addr, filter: &mut [u8; BYTES])
    requires { Only filter.old (names_in (walk (area_in v.s) v.img.now dir.0)) }
    ensures { filter.new ≡ clear }
{
    let mut c = ReadDir::new(v.s, dir);
    for _ in 0..FEW {
        match c.next(v) {
            Ok(Some(x)) => {
                let h = name_filter::hash(x.name(v));
                name_filter::wipe(filter, h);
            }
            Ok(None) => return,
            Err(_) => return,
        }
    }
    filter.fill(0);
}

// The test of a part, and the undoing: between the two calls the filter is not clear.
fn distinct_in(v: Volume, dir: Addr, filter: &mut Filter, p: Part) -> bool
    ensures { result ≡ (ends (walk (area_in v.entry.s) v.entry.img.now dir.0)
        && distinct_in p.m p.k (names_in (walk (area_in v.entry.s) v.entry.img.now dir.0))) }
{
    let r = tested(v, dir, &mut filter.bits, p);
    forget(v, dir, &mut filter.bits);
    r
}

// How many bytes the blocks of the chain from dir on have, as far as it goes on in the data area. The count stops at MANY.
fn extent(v: Volume, dir: Addr) -> u32
    ensures { result < 536870912 }
{
    let mut a = dir;
    let mut n: u32 = 0;
    while n < MANY && v.has(a) {
        a = v.next_addr(a);
        n += v.s.size;
    }
    n
}

// Whether the directory that begins at block dir is read to its end and its names are distinct. Any number of parts gives the
// same answer: there are so many that the names of one leave most of the filter clear, and seldom is one searched for in vain.
pub fn distinct(v: Volume, dir: Addr, filter: &mut Filter) -> bool
    ensures { result ≡ (ends (walk (area_in v.entry.s) v.entry.img.now dir.0)
        && distinct (names_in (walk (area_in v.entry.s) v.entry.img.now dir.0))) }
{
    let m = 1 + extent(v, dir) / PART;
    for k in 0..m {
        if !distinct_in(v, dir, filter, Part { k, m }) {
            return false;
        }
    }
    true
}
