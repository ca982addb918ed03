// Text: well-formed UTF-8 by RFC 3629 without controls. A name is text without `/`.
// Most texts have plain bytes alone, so these are passed first; the walk along characters begins at the first other byte.
#![tactic(auto)]

ghost use Rattle.std.specs.Prelude.{◌≡◌};
ghost use Rattle.text.specs.Text.{table, begun, step, is_text, is_name};
ghost use Rattle.text.specs.Awaited.{ranges, due, due_of, Passed};

const SLASH: u8 = b'/';

// The byte 0x7F, which no text has.
const DELETE: u8 = 0x7F;

// What is due of a character: how many bytes, and the range of the next of them. All behind it are from 0x80 to 0xBF.
#[derive(Clone, Copy)]
pub struct Due {
    pub left: u8,
    pub low: u8,
    pub high: u8,
}

fn awaits(left: u8, low: u8, high: u8) -> Option<Due>
    ensures { due_of result ≡ ranges left low high }
{
    Some(Due { left, low, high })
}

// After the first byte of a character: by the rows of the table. E0 and F0 have no longer form of a shorter character, ED no
// surrogate, and none is above F4 8F BF BF. (Plain bytes have two tests of their own before the rows: most bytes are such.)
fn first(c: u8) -> Option<Due>
    ensures { due_of result ≡ begun table c }
{
    if c < 0x20 {
        return None;
    }
    if c < DELETE {
        return awaits(0, 0, 0);
    }
    match c {
        0xC2..=0xDF => awaits(1, 0x80, 0xBF),
        0xE0 => awaits(2, 0xA0, 0xBF),
        0xED => awaits(2, 0x80, 0x9F),
        0xE1..=0xEF => awaits(2, 0x80, 0xBF),
        0xF0 => awaits(3, 0x90, 0xBF),
        0xF1..=0xF3 => awaits(3, 0x80, 0xBF),
        0xF4 => awaits(3, 0x80, 0x8F),
        _ => None,
    }
}

// After one byte more; none where it may not stand there, and then the bytes are no text, whatever follows.
fn next(d: Due, c: u8) -> Option<Due>
    ensures { due_of result ≡ step (due d) c }
{
    if d.left == 0 {
        return first(c);
    }
    if c < d.low || d.high < c {
        return None;
    }
    awaits(d.left - 1, 0x80, 0xBF)
}

// Whether the bytes are text: the walk along their characters.
fn walked(s: &[u8]) -> bool
    ensures { result ≡ is_text s.now }
{
    let mut d = Due {
        left: 0,
        low: 0,
        high: 0,
    };
    for c in s {
        match next(d, *c) {
            Some(after) => d = after,
            None => return false,
        }
    }
    d.left == 0
}

// How many plain bytes stand first: characters of one byte but for the byte `but`.
fn plain(s: &[u8], but: u8) -> usize
    ensures { Passed s.now but result }
{
    s.iter()
        .position(|c| *c < 0x20 || 0x7E < *c || *c == but)
        .unwrap_or(s.len())
}

// Whether the bytes are text.
pub fn text(s: &[u8]) -> bool
    ensures { result ≡ is_text s.now }
{
    let n = plain(s, DELETE);
    n == s.len() || walked(&s[n..])
}

// Whether the bytes may be a name.
pub fn name(s: &[u8]) -> bool
    ensures { result ≡ is_name s.now }
{
    let n = plain(s, SLASH);
    n == s.len() || !s[n..].contains(&SLASH) && walked(&s[n..])
}
