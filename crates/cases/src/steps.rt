// What a line asks for.

use crate::line::Fields;
use block::Addr;
use handle::{Handle, SeekFrom};

// A path, and the directory that it begins at.
#[derive(Clone, Copy)]
pub struct Way<'a> {
    pub cwd: &'a [u8],
    pub path: &'a [u8],
}

// A call through the handle of a slot.
#[derive(Clone, Copy)]
pub enum SlotStep<'a> {
    Open(Way<'a>),
    Create(Way<'a>, u64),
    Read(usize),
    Seek(SeekFrom),
    Sow { len: usize, seed: u64, time: u64 },
    Write(&'a [u8], u64),
    MakeUp(Handle),
}

// A call on what stands at a path.
#[derive(Clone, Copy)]
pub enum PathStep {
    Info,
    List { from: u32, len: usize },
    Mkdir(u64),
    Delete(u64),
}

// What is done on the bytes of the volume alone. A put names no byte where no block has the offset.
#[derive(Clone, Copy)]
pub enum ImageStep<'a> {
    Put(Option<usize>, &'a [u8]),
    Base,
    GoBack,
    Format,
    Usage,
    Digest,
    Nonzero,
    Test { len: usize, from: usize, times: u64 },
    Effect,
    Accept(usize),
    Jot(bool),
    Path(Way<'a>, PathStep),
}

// A step: what changes the state alone, a call through slot number N, what is done on the image. One with a word of no meaning is
// answered as one that cannot be read.
#[derive(Clone, Copy)]
pub enum Step<'a> {
    Blank(usize, u32),
    Volume(usize, u32),
    Yardstick(u32),
    Quota(usize),
    Keep(usize, usize),
    Slot(usize, SlotStep<'a>),
    Image(ImageStep<'a>),
    Unknown,
}

// The byte of the image that a block and an offset tell, where a block has that offset.
fn byte_of(block: u64, offset: u64) -> Option<usize> {
    if 511 < offset {
        return None;
    }
    Some(block.saturating_mul(512).saturating_add(offset) as usize)
}

// Where a seek goes.
fn aim(f: &mut Fields) -> Option<SeekFrom> {
    Some(match f.number()? {
        0 => SeekFrom::Start(f.cut()?),
        1 => SeekFrom::Current(f.signed()?),
        _ => SeekFrom::End(f.signed()?),
    })
}

impl<'a> Way<'a> {
    fn read(f: &mut Fields, cwd: &'a mut [u8], path: &'a mut [u8]) -> Option<Way<'a>> {
        Some(Way {
            cwd: f.text(cwd)?,
            path: f.text(path)?,
        })
    }
}

// A handle of any fields; numbers that do not fit are cut.
fn made_up(f: &mut Fields, text: &mut [u8]) -> Option<Handle> {
    let text = f.text(text)?;
    let mut name = [0u8; 255];
    if text.len() <= name.len() {
        name[..text.len()].copy_from_slice(text);
    }
    Some(Handle {
        dir: Addr(f.cut()?),
        name,
        len: f.size()?,
        addr: Addr(f.cut()?),
        size: f.cut()?,
        position: f.cut()?,
    })
}

fn slot_step<'a>(
    letter: u8,
    f: &mut Fields,
    cwd: &'a mut [u8],
    text: &'a mut [u8],
) -> Option<SlotStep<'a>> {
    Some(match letter {
        b'o' | b'O' => SlotStep::Open(Way::read(f, cwd, text)?),
        b'c' | b'C' => SlotStep::Create(Way::read(f, cwd, text)?, f.number()?),
        b'r' | b'R' => SlotStep::Read(f.size()?),
        b's' | b'S' => SlotStep::Seek(aim(f)?),
        b'w' => SlotStep::Sow {
            len: f.size()?,
            seed: f.number()?,
            time: f.number()?,
        },
        b'W' => SlotStep::Write(f.text(text)?, f.number()?),
        _ => SlotStep::MakeUp(made_up(f, text)?),
    })
}

fn path_step(letter: u8, f: &mut Fields) -> Option<PathStep> {
    Some(match letter {
        b'i' | b'I' => PathStep::Info,
        b'l' | b'L' => PathStep::List {
            from: f.cut()?,
            len: f.size()?,
        },
        b'm' | b'M' => PathStep::Mkdir(f.number()?),
        _ => PathStep::Delete(f.number()?),
    })
}

fn image_step<'a>(
    letter: u8,
    f: &mut Fields,
    cwd: &'a mut [u8],
    text: &'a mut [u8],
) -> Option<ImageStep<'a>> {
    Some(match letter {
        b'p' => ImageStep::Put(byte_of(f.number()?, f.number()?), f.text(text)?),
        b'P' => ImageStep::Put(Some(f.size()?), f.text(text)?),
        b'B' => ImageStep::Base,
        b'G' => ImageStep::GoBack,
        b'f' | b'F' => ImageStep::Format,
        b'u' | b'U' => ImageStep::Usage,
        b'g' => ImageStep::Digest,
        b'N' => ImageStep::Nonzero,
        b'T' => ImageStep::Test {
            len: f.size()?,
            from: f.size()?,
            times: f.number()?,
        },
        b'A' => ImageStep::Accept(f.size()?),
        b'J' => ImageStep::Jot(f.number()? == 1),
        b'E' => ImageStep::Effect,
        _ => ImageStep::Path(Way::read(f, cwd, text)?, path_step(letter, f)?),
    })
}

impl<'a> Step<'a> {
    // The step of a letter, whose fields stand next; its strings are read into the two buffers.
    pub(crate) fn read(
        letter: u8,
        f: &mut Fields,
        cwd: &'a mut [u8],
        text: &'a mut [u8],
    ) -> Option<Step<'a>> {
        Some(match letter {
            b'v' => Step::Blank(f.number()?.saturating_mul(512) as usize, f.cut()?),
            b'V' => Step::Volume(f.size()?, f.cut()?),
            b'Y' => Step::Yardstick(f.cut()?),
            b'Q' => Step::Quota(f.size()?),
            b'K' => Step::Keep(f.size()?, f.size()?),
            b'o' | b'c' | b'r' | b's' | b'w' | b'O' | b'C' | b'R' | b'S' | b'W' | b'H' => {
                Step::Slot(f.size()?, slot_step(letter, f, cwd, text)?)
            }
            b'p'
            | b'f'
            | b'u'
            | b'g'
            | b'i'
            | b'l'
            | b'm'
            | b'd'
            | b'P'
            | b'B'
            | b'G'
            | b'F'
            | b'U'
            | b'N'
            | b'T'
            | b'E'
            | b'A'
            | b'J'
            | b'I'
            | b'L'
            | b'M'
            | b'D' => { Step::Image(image_step(letter, f, cwd, text)?) }
            _ => Step::Unknown,
        })
    }
}
