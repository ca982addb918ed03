// The lines, one after the other, and what they leave for those behind them.

ghost use Rattle.std.specs.Prelude.{◌≤◌, ◌+◌, length, IfSome};

use crate::calls::Disk;
use crate::line::Fields;
use crate::steps::Step;
use crate::told::Form;
use crate::{calls, told};
use block::Addr;
use handle::Handle;
use std::io;
use std::io::Write;
use super_block::Mount;

// The bytes that an image is of, and those that are kept of it.
#[derive(Drop)]
pub struct Store<'a> {
    pub img: &'a mut [u8],
    pub base: &'a mut [u8],
}

// What the lines so far leave: how many bytes the image has, its mount, the length of the work buffer, the image's digest at the
// last title, the handles. A handle with no name is stale.
#[derive(Clone, Copy)]
pub struct State {
    len: usize,
    m: Mount,
    work: usize,
    before: u64,
    slots: [Handle; 4],
}

// Where a line's title has its colon.
fn title_end(line: &[u8]) -> Option<usize>
    ensures { IfSome result (λ i. i + 2 ≤ length line.now) }
{
    let colon = line.windows(2).position(|w| matches!(w, b": "))?;
    if colon == 0 { None } else { Some(colon) }
}

impl State {
    // The state of an image of that many bytes.
    pub(crate) fn new(len: usize, m: Mount) -> State {
        let none = Handle {
            dir: Addr(0),
            name: [0u8; 255],
            len: 0,
            addr: Addr(0),
            size: 0,
            position: 0,
        };
        State {
            len,
            m,
            work: 1024,
            before: 0,
            slots: [none; 4],
        }
    }

    fn keep(&mut self, from: usize, to: usize) {
        if from < self.slots.len() && to < self.slots.len() {
            self.slots[to] = self.slots[from];
        }
    }

    // A step on the image, which is the bytes of the volume alone.
    fn on_disk<W: Write>(
        &mut self,
        out: &mut W,
        form: Form,
        img: &mut [u8],
        base: &mut [u8],
        step: Step,
    ) -> io::Result<()> {
        let mut work = [165u8; 1024];
        if img.len() < self.len || work.len() < self.work {
            return told::unread(out);
        }
        let mut disk = Disk {
            img: &mut img[..self.len],
            m: self.m,
            work: &mut work[..self.work],
        };
        match step {
            Step::Slot(i, call) if i < self.slots.len() => {
                calls::slot_call(out, form, &mut disk, &mut self.slots[i], call)
            }
            Step::Image(call) => calls::image_call(out, form, &mut disk, base, self.before, call),
            _ => told::unread(out),
        }
    }

    fn perform<W: Write>(
        &mut self,
        out: &mut W,
        form: Form,
        img: &mut [u8],
        base: &mut [u8],
        step: Step,
    ) -> io::Result<()> {
        match step {
            Step::Blank(len, k) => {
                img.fill(0);
                *self = State::new(len, Mount { k, code: 0 });
            }
            Step::Volume(len, k) => {
                self.len = len;
                self.m.k = k;
            }
            Step::Yardstick(code) => self.m.code = code,
            Step::Quota(n) => self.work = n,
            Step::Keep(from, to) => self.keep(from, to),
            _ => return self.on_disk(out, form, img, base, step),
        }
        Ok(())
    }

    // Reads the fields of the step that begins at a place, a string into the text, and does it. A line of the recorded list is
    // printed up to its answers.
    fn step<W: Write>(
        &mut self,
        out: &mut W,
        store: &mut Store,
        text: &mut [u8],
        line: &[u8],
        at: usize,
    ) -> io::Result<()>
        requires { at ≤ length line.now }
    {
        let mut f = Fields { rest: &line[at..] };
        let Some(letter) = f.word() else {
            return told::unread(out);
        };
        let mut cwd = [0u8; 1025];
        let Some(step) = Step::read(letter, &mut f, &mut cwd, text) else {
            return told::unread(out);
        };
        let form = Form::of_letter(letter);
        if let Form::Recorded = form {
            let end = line.len().saturating_sub(f.rest.len() + 1);
            told::put(out, b"\n")?;
            told::put(out, &line[..end])?;
        }
        self.perform(out, form, store.img, store.base, step)
    }

    // A line: a text of its own, or a step, with a title before it or with none.
    pub(crate) fn follow<W: Write>(
        &mut self,
        out: &mut W,
        store: &mut Store,
        text: &mut [u8],
        line: &[u8],
    ) -> io::Result<()> {
        match line {
            [] | [b'\n', ..] => Ok(()),
            [b'#', ..] => {
                told::put(out, b"\n")?;
                told::put(out, &line[..line.len() - 1])
            }
            _ => {
                let Some(colon) = title_end(line) else {
                    return self.step(out, store, text, line, 0);
                };
                told::put(out, b"\n")?;
                told::put(out, &line[..colon + 1])?;
                self.before = calls::digest_first(store.img, self.len);
                self.step(out, store, text, line, colon + 2)
            }
        }
    }
}
