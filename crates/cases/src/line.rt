// The fields of a line, which is lent with its newline: a field is ended by one space or by the newline. Where a field cannot be
// read, nothing behind it is.

ghost use Rattle.std.specs.Prelude.{◌<◌, ◌≤◌, length, IfSome};

// What of a line is still to be read.
#[derive(Drop)]
pub struct Fields<'a> {
    pub rest: &'a [u8],
}

// Whether a byte ends a field.
fn ends(b: u8) -> bool {
    matches!(b, b' ' | b'\n')
}

// What a decimal digit is worth.
fn digit(b: u8) -> Option<u64>
    ensures { IfSome result (λ d. d < 10) }
{
    char::from(b).to_digit(10).map(u64::from)
}

// What a hexadecimal digit is worth, its letters small.
fn hex_digit(b: u8) -> Option<u8>
    ensures { IfSome result (λ d. d < 16) }
{
    match b {
        b'0'..=b'9' => Some(b - b'0'),
        b'a'..=b'f' => Some(b - b'a' + 10),
        _ => None,
    }
}

impl Fields<'_> {
    fn byte(&mut self) -> Option<u8>
        ensures { IfSome result (λ _. length self.new.rest.now < length self.old.rest.now) }
    {
        let (first, rest) = self.rest.split_first()?;
        self.rest = rest;
        Some(*first)
    }

    // The letter of the word that stands next.
    pub(crate) fn word(&mut self) -> Option<u8> {
        let letter = *self.rest.first()?;
        let end = self.rest.iter().position(|b| ends(*b))?;
        self.rest = &self.rest[end + 1..];
        Some(letter)
    }

    // Whether a minus stands next, which is passed then.
    fn minus(&mut self) -> bool {
        let Some(rest) = self.rest.strip_prefix(b"-") else {
            return false;
        };
        self.rest = rest;
        true
    }

    // The decimal number whose digits stand next, where it is below 2^64; the byte that ends it stands next then.
    fn digits(&mut self) -> Option<u64>
        ensures { length self.new.rest.now ≤ length self.old.rest.now }
    {
        let end = self.rest.iter().position(|b| digit(*b).is_none())?;
        let (digits, rest) = self.rest.split_at(end);
        if digits.is_empty() {
            return None;
        }
        self.rest = rest;
        let mut value: u64 = 0;
        for b in digits {
            value = value.checked_mul(10)?.checked_add(digit(*b)?)?;
        }
        Some(value)
    }

    // The same with the byte that ends it.
    fn decimal(&mut self) -> Option<u64> {
        let n = self.digits()?;
        self.byte()?;
        Some(n)
    }

    // A number; a minus before it says nothing.
    pub(crate) fn number(&mut self) -> Option<u64> {
        self.minus();
        self.decimal()
    }

    pub(crate) fn size(&mut self) -> Option<usize> {
        Some(self.number()? as usize)
    }

    // The last 32 bits of a number.
    pub(crate) fn cut(&mut self) -> Option<u32> {
        Some((self.number()? % 4_294_967_296) as u32)
    }

    // A number of 32 bits, below 0 where a minus stands before it; one beyond them is taken as the last.
    pub(crate) fn signed(&mut self) -> Option<i32> {
        let minus = self.minus();
        let n = i32::try_from(self.decimal()?);
        Some(match n {
            Ok(n) if minus => n.wrapping_neg(),
            Ok(n) => n,
            Err(_) if minus => i32::MIN,
            Err(_) => i32::MAX,
        })
    }

    // The byte whose two hexadecimal digits begin with that one.
    fn pair(&mut self, first: u8) -> Option<u8>
        ensures { IfSome result (λ _. length self.new.rest.now ≤ length self.old.rest.now) }
    {
        let high = hex_digit(first)?;
        let low = hex_digit(self.byte()?)?;
        Some(high * 16 + low)
    }

    // What a byte of a string says that is no quote: a byte, and how many of it. Behind `*` stands a number N: the last byte,
    // N - 1 times more.
    fn piece(&mut self, b: u8, quoted: bool, last: u8) -> Option<(u8, usize)>
        ensures { IfSome result (λ _. length self.new.rest.now ≤ length self.old.rest.now) }
    {
        if quoted {
            return Some((b, 1));
        }
        match b {
            b'*' => Some((last, self.digits()?.checked_sub(1)? as usize)),
            b'.' => Some((last, 0)),
            _ => Some((self.pair(b)?, 1)),
        }
    }

    // The string that stands next, in a buffer that has room for it.
    pub(crate) fn text<'b>(&mut self, room: &'b mut [u8]) -> Option<&'b [u8]> {
        let mut len: usize = 0;
        let mut quoted = false;
        let mut last: u8 = 0;
        let mut b = self.byte()?;
        while quoted || !ends(b) {
            if b == b'"' {
                quoted = !quoted;
            } else {
                let (byte, times) = self.piece(b, quoted, last)?;
                if room.len() - len < times {
                    return None;
                }
                room[len..len + times].fill(byte);
                len += times;
                last = byte;
            }
            b = self.byte()?;
        }
        Some(&room[..len])
    }
}
