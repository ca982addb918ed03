// The lines that the listing program prints, made in a lent buffer: one for a directory entry, one for a refusal.
// A line is a few words, each with the byte that ends it; every word is stored where the one before it ended.
#![tactic(auto)]

ghost use Rattle.std.specs.Prelude.{◌≡◌, ◌+◌, ◌*◌, ◌≤◌, ◌<◌, leb, length, get_or};
ghost use Rattle.wire.specs.Be.{splice};
ghost use Rattle.lsmfs_lines.specs.Line.{digits, letter as Line·letter, decimal, ended, line_of, refused_line};
ghost use Rattle.lsmfs_lines.specs.Text.{next_at, line_at, text_of};

use dir_entry::Kind;

// The fixed part of a listing's record: kind 1, size 4, time 8, length 1.
const RECORD: usize = read_dir::RECORD;

fn letter(kind: Kind) -> u8
    ensures { result ≡ Line·letter kind }
{
    match kind {
        Kind::Dir => b'd',
        Kind::File => b'f',
        Kind::Device => b'v',
    }
}

fn digit(d: u64) -> u8
    requires { d < 10 }
    ensures { result ≡ decimal d }
{
    b'0' + d as u8
}

// How many digits a number has.
fn width(n: u64) -> usize
    ensures { (result ≡ length (digits n)) × (result ≤ 20) }
{
    match n.checked_ilog10() {
        Some(k) => k as usize + 1,
        None => 1,
    }
}

// Stores the k digits of a number, the last one first. `write!` into a lent buffer ensures nothing of its bytes, and out_after of
// `line` is about each.
fn put_digits(out: &mut [u8], at: usize, n: u64, k: usize)
    requires k_value { k ≡ length (digits n) }
    requires k_in_bounds { at + k ≤ length out.old }
    ensures { out.new ≡ splice out.old at (digits n) }
{
    let mut rest = n;
    for i in 0..k {
        out[at + (k - 1 - i)] = digit(rest % 10);
        rest /= 10;
    }
}

// A buffer, and the place in it where the next word is stored.
#[derive(Drop)]
struct Pen<'a> {
    out: &'a mut [u8],
    at: usize,
}

impl Pen<'_> {
    // Stores a number and the byte that ends it.
    fn number(&mut self, n: u64, end: u8)
        requires { self.old.at + length (digits n) < length self.old.out.now }
        ensures same_reference { self.new.out.ghost_name ≡ self.old.out.ghost_name }
        ensures room { length self.new.out.now ≡ length self.old.out.now }
        ensures stored { (self.new.out.now ≡ splice self.old.out.now self.old.at (ended (digits n) end))
            × (self.new.at ≡ self.old.at + length (ended (digits n) end)) }
    {
        let at = self.at;
        let k = width(n);
        let out = &mut *self.out;
        put_digits(out, at, n, k);
        out[at + k] = end;
        self.at = at + k + 1;
    }

    // Stores a word and the byte that ends it.
    fn word(&mut self, word: &[u8], end: u8)
        requires { self.old.at + length word.now < length self.old.out.now }
        ensures same_reference { self.new.out.ghost_name ≡ self.old.out.ghost_name }
        ensures room { length self.new.out.now ≡ length self.old.out.now }
        ensures stored { (self.new.out.now ≡ splice self.old.out.now self.old.at (ended word.now end))
            × (self.new.at ≡ self.old.at + length (ended word.now end)) }
    {
        let at = self.at;
        let k = word.len();
        let out = &mut *self.out;
        wire::copy(out, at, word, 0, k);
        out[at + k] = end;
        self.at = at + k + 1;
    }
}

// Stores the line of an entry from `to` on; answers the place after it. Beside the name a line has 35 bytes at most.
pub fn line(out: &mut [u8], to: usize, kind: Kind, size: u32, time: u64, name: &[u8]) -> usize
    requires { to + 35 + length name.now ≤ length out.old }
    ensures out_after { out.new ≡ splice out.old to (line_of kind size time name.now) }
    ensures value { result ≡ to + length (line_of kind size time name.now) }
    ensures upper_bound { result ≤ to + 35 + length name.now }
{
    let first = [letter(kind)];
    let mut pen = Pen { out, at: to };
    pen.word(&first, b' ');
    pen.number(u64::from(size), b' ');
    pen.number(time, b' ');
    pen.word(name, b'\n');
    pen.at
}

// Stores the line of a refusal at the buffer's start; answers its length.
pub fn refused_line(out: &mut [u8], n: u32) -> usize
    requires { 19 ≤ length out.old }
    ensures out_after { out.new ≡ splice out.old 0 (refused_line n) }
    ensures value { (result ≡ length (refused_line n)) × (result ≤ 19) }
{
    let mut pen = Pen { out, at: 0 };
    pen.word(b"refused", b' ');
    pen.number(u64::from(n), b'\n');
    pen.at
}

// Whether a whole record stands at a byte of a listing.
fn is_whole(records: &[u8], at: usize) -> bool
    requires { at ≤ length records.now }
    ensures { result ≡ leb (next_at records.now at) (length records.now) }
{
    let left = records.len() - at;
    if left < RECORD {
        return false;
    }
    usize::from(records[at + 13]) <= left - RECORD
}

// Where the next record begins.
fn next(records: &[u8], at: usize) -> usize
    requires { next_at records.now at ≤ length records.now }
    ensures { result ≡ next_at records.now at }
{
    at + RECORD + usize::from(records[at + 13])
}

// Stores the line of a record from `to` on; answers the place after it.
fn record_line(out: &mut [u8], to: usize, records: &[u8], at: usize) -> usize
    requires at_in_bounds { next_at records.now at ≤ length records.now }
    requires at_in_bounds_2 { to + 3 * (14 + get_or records.now (at + 13) 0) ≤ length out.old }
    ensures out_after { (out.new ≡ splice out.old to (line_at records.now at))
        × (result ≡ to + length (line_at records.now at)) }
    ensures upper_bound { result ≤ to + 3 * (14 + get_or records.now (at + 13) 0) }
{
    let kind = Kind::from(records[at]);
    let size = wire::get32(records, at + 1);
    let time = wire::get(records, at + 5, 8);
    let from = at + RECORD;
    let end = next(records, at);
    line(out, to, kind, size, time, &records[from..end])
}

// Stores the lines of a listing's records at the buffer's start; answers how many bytes they have. A line is shorter
// than three records.
pub fn text(out: &mut [u8], records: &[u8]) -> usize
    requires { 3 * length records.now ≤ length out.old }
    ensures out_after { out.new ≡ splice out.old 0 (text_of records.now) }
    ensures value { (result ≡ length (text_of records.now)) × (result ≤ 3 * length records.now) }
{
    let mut at: usize = 0;
    let mut used: usize = 0;
    while is_whole(records, at) {
        used = record_line(out, used, records, at);
        at = next(records, at);
    }
    used
}
