// How answers are printed.

ghost use Rattle.std.specs.Prelude.{OnOk};
ghost use Rattle.std.specs.Io.KnownBytes.{Appends};

use handle::Handle;
use limits::Refusal;
use std::io;
use std::io::Write;

// An answer stands in the recorded list in short, and else in words.
#[derive(Clone, Copy)]
pub enum Form {
    Recorded,
    Words,
}

impl Form {
    // A step with a small letter is a line of the recorded list.
    pub(crate) fn of_letter(letter: u8) -> Form {
        if letter < b'a' {
            Form::Words
        } else {
            Form::Recorded
        }
    }
}

pub fn put<W: Write>(out: &mut W, text: &[u8]) -> io::Result<()>
    ensures { OnOk result (Appends (W.contents out.old) (W.contents out.new) text.now) }
{
    out.write_all(text)
}

pub(crate) fn unread<W: Write>(out: &mut W) -> io::Result<()> {
    put(out, b" unread")
}

pub(crate) fn put_quoted<W: Write>(out: &mut W, text: &[u8]) -> io::Result<()> {
    put(out, b" \"")?;
    put(out, text)?;
    put(out, b"\"")
}

// A long name is told by its length.
pub(crate) fn put_name<W: Write>(out: &mut W, name: &[u8; 255], len: usize) -> io::Result<()> {
    if len <= 16 {
        put_quoted(out, &name[..len])
    } else {
        write!(out, " of {len}")
    }
}

// A name in hexadecimal; a dot for none.
pub(crate) fn put_hex<W: Write>(out: &mut W, name: &[u8; 255], len: usize) -> io::Result<()> {
    put(out, b" ")?;
    if len == 0 {
        put(out, b".")?;
    }
    for &b in name.iter().take(len) {
        write!(out, "{b:02x}")?;
    }
    Ok(())
}

pub(crate) fn put_handle<W: Write>(out: &mut W, h: &Handle) -> io::Result<()> {
    write!(out, " dir {} name", h.dir.0)?;
    put_name(out, &h.name, h.len)?;
    write!(
        out,
        " addr {} size {} position {}",
        h.addr.0, h.size, h.position
    )
}

pub(crate) fn refuse<W: Write>(out: &mut W, form: Form, r: Refusal) -> io::Result<()> {
    match form {
        Form::Recorded => put(out, b" 0"),
        Form::Words => write!(out, " refused {}", r.number()),
    }
}

pub(crate) fn answer<W: Write>(out: &mut W, form: Form, a: Result<(), Refusal>) -> io::Result<()> {
    match (a, form) {
        (Ok(()), Form::Recorded) => put(out, b" 1"),
        (Ok(()), Form::Words) => put(out, b" success"),
        (Err(r), _) => refuse(out, form, r),
    }
}

// How many bytes were read or written, in words.
pub(crate) fn put_count<W: Write>(out: &mut W, a: Result<usize, Refusal>) -> io::Result<()> {
    match a {
        Ok(n) => write!(out, " {n}"),
        Err(r) => refuse(out, Form::Words, r),
    }
}
