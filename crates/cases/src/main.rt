// cases: follows a script of calls, one line a step, and prints what each call answers; the file stdout holds what that must
// be. The script is text on standard input, 524,288 bytes at most. A step is a word, of which the first letter counts, and its
// fields, one space before each. A title and `: ` may stand before the step: the title is printed on a line of its own, and
// what is answered from there on follows it. A line that starts with `#` is printed as it is. Numbers are decimal. A string is
// text in `"` or pairs of hexadecimal digits; `*N` makes the last byte N times itself; `.` is no byte. S is a slot for a
// handle, 0 to 3.
//   Volume BYTES K             the image is the first BYTES of 2,201,600 bytes, which stay as they are, and K for what follows
//   Yardstick CODE             the size code of the calls that follow, 0 at first
//   Put AT STRING              these bytes stand at byte AT of the image
//   Base · Go back             the image is kept, 65,536 bytes at most · and is again what was kept
//   Quota N                    creates, deletes and writes are lent N bytes of work buffer, 1024 at most, each 165 at first
//   Handle S NAME DIR LEN ADDR SIZE POSITION        a made up handle
//   Keep S S                   the second slot holds what the first one does
//   Accept BYTES               what the length of an image alone decides
//   Format · Usage · Nonzero   the calls, and how many bytes of the image are not zero
//   Open S CWD PATH · Info CWD PATH · Create S CWD PATH TIME · Mkdir CWD PATH TIME · Delete CWD PATH TIME
//   List CWD PATH FROM LEN     into LEN of 4096 bytes of 255; `changed` counts those that are not 255 then
//   Read S LEN                 into LEN of 4096 dots; the first 8 are printed
//   Seek S HOW OFFSET          HOW 0 start, 1 current, 2 end; OFFSET may have a minus
//   Write S STRING TIME
//   Test LEN FROM TIMES        the check, once or twice, with LEN of 520 bytes of work buffer, each 165 at first; 16 of them are
//                              shown from byte FROM: `0` for a zero, `=` for 165, `?` for any other
//   Jot MORE                   what lsmfs writes of the image, on lines of its own; MORE is 1 where its input goes on after it
//   Effect                     whether a byte of the image changed since the title, the blocks in use, what the check answers
// A step with a small letter is a line of the recorded list, with the answers of the original after its fields. The line is
// printed up to there, and then what is answered here: 1 and the values where the call was accepted, 0 where it was refused.
// So the list is to be printed as it stands.
//   v BLOCKS K                                  a new image of BLOCKS blocks of zeros (4300 at most), K, size code 0; no handles
//   p BLOCK OFFSET HEX                          these bytes stand at byte 512 * BLOCK + OFFSET of the image (OFFSET 0 to 511)
//   f X · u X SIZE USED FREE                    format; usage
//   o SLOT CWD PATH X ADDR SIZE                 open into slot 0 to 3; a refused open leaves the slot
//   i CWD PATH X KIND SIZE TIME NAME            info
//   l CWD PATH FROM LEN X BYTES NEXT DIGEST     list into a buffer of LEN bytes (4096 at most); DIGEST of its first BYTES bytes
//   r SLOT LEN X COUNT POSITION DIGEST          read into a buffer of LEN bytes (4096 at most); DIGEST of the COUNT bytes
//   s SLOT HOW OFFSET X POSITION                seek
//   c SLOT CWD PATH TIME X ADDR                 create a file, its handle into the slot; a refused create leaves the slot
//   m CWD PATH TIME X · d CWD PATH TIME X       create a directory; delete
//   w SLOT LEN SEED TIME X COUNT POSITION SIZE  write LEN bytes (4096 at most), byte j is (SEED + 7 * j) mod 251
//   g DIGEST                                    the digest of the whole image now
// DIGEST of bytes: from 0, for each byte d = (d * 257 + byte) mod 4,294,967,291. A step that cannot be read is answered `unread`.
// A read or a write that fails ends the program with its error.
#![tactic(auto)]

mod calls;
mod line;
mod state;
mod steps;
mod told;

use state::{State, Store};
use std::io;
use std::io::{Read, Write};
use super_block::Mount;

// Reads the script into the buffer and follows it. One that is too long is cut, and what it lacks is missing in what is printed.
fn run<R: Read, W: Write>(
    input: &mut R,
    out: &mut W,
    list: &mut [u8],
    store: &mut Store,
    text: &mut [u8],
) -> io::Result<()> {
    told::put(out, b"What the steps answer")?;
    let n = input::read_full(input, list)?;
    let mut s = State::new(0, Mount { k: 0, code: 0 });
    for line in list[..n].split_inclusive(|b| *b == b'\n') {
        s.follow(out, store, text, line)?;
    }
    told::put(out, b"\n")
}

// A function that makes so long an array and lends it as a slice cannot be proved: the slices are made one call below.
fn lend<R: Read, W: Write>(
    input: &mut R,
    out: &mut W,
    list: &mut [u8; 524288],
    img: &mut [u8; 2201600],
    base: &mut [u8; 65536],
    text: &mut [u8; 2201600],
) -> io::Result<()> {
    let mut store = Store { img, base };
    run(input, out, list, &mut store, text)
}

fn main(rt: HostRuntime) -> io::Result<()> {
    let mut input = rt.stdin();
    let mut out = rt.stdout();
    let mut list = [0u8; 524288];
    let mut img = [0u8; 2201600];
    let mut base = [0u8; 65536];
    let mut text = [0u8; 2201600];
    lend(
        &mut input, &mut out, &mut list, &mut img, &mut base, &mut text,
    )
}
