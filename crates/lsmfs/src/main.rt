// lsmfs: lists the root directory of the MFS volume on standard input, 65,536 bytes at most. What it writes is made by
// lsmfs_pages::say. A read or a write that fails ends the program with its error.
#![tactic(auto)]

use std::io;
use std::io::{Read, Write};

const K: u32 = 8;

// Writes what is to be said from entry number i on; answers the number after it.
fn put_page<W: Write>(out: &mut W, img: &[u8], more: bool, i: u32) -> io::Result<u32> {
    let mut page = [0u8; 3072];
    let s = lsmfs_pages::say(img, K, more, i, &mut page);
    if let Some(text) = page.get(..s.len) {
        out.write_all(text)?;
    }
    Ok(s.next)
}

// Page after page, while they go on.
fn put_root<W: Write>(out: &mut W, img: &[u8], more: bool) -> io::Result<()> {
    let mut i: u32 = 0;
    loop {
        let next = put_page(out, img, more, i)?;
        if next <= i {
            return Ok(());
        }
        i = next;
    }
}

// Whether the input goes on.
fn goes_on<R: Read>(input: &mut R) -> io::Result<bool> {
    let mut past = [0u8; 1];
    let n = input::read_full(input, &mut past)?;
    Ok(n != 0)
}

// Reads an image into the buffer and writes what there is to say of it.
fn run<R: Read, W: Write>(input: &mut R, out: &mut W, img: &mut [u8]) -> io::Result<()> {
    let n = input::read_full(input, img)?;
    let more = n == img.len() && goes_on(input)?;
    put_root(out, &img[..n], more)
}

fn main(rt: HostRuntime) -> io::Result<()> {
    let mut input = rt.stdin();
    let mut out = rt.stdout();
    let mut img = [0u8; 65536];
    run(&mut input, &mut out, &mut img)
}
