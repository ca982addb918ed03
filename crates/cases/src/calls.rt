// The calls, and what is printed of their answers.

use crate::steps::{ImageStep, PathStep, SlotStep, Way};
use crate::told;
use crate::told::{Form, put, refuse};
use call_read::OpenOut;
use dir_entry::Kind;
use handle::{CountedOut, Handle, SeekFrom};
use std::io;
use std::io::Write;
use super_block::{Mount, SuperBlock};

// What a call is lent: the image, and the work buffer.
#[derive(Drop)]
pub struct Disk<'a> {
    pub img: &'a mut [u8],
    pub m: Mount,
    pub work: &'a mut [u8],
}

// The digest of the first n bytes, where there are so many.
pub(crate) fn digest_first(s: &[u8], n: usize) -> u64 {
    match s.get(..n) {
        Some(first) => recorded::digest(first),
        None => 0,
    }
}

// How many bytes are not b.
fn others(s: &[u8], b: u8) -> usize {
    s.iter().filter(|x| **x != b).count()
}

// ---- calls through a handle

// A refused call leaves the slot. Of a file that was there its size is told too.
fn opened<W: Write>(
    out: &mut W,
    form: Form,
    sized: bool,
    o: OpenOut,
    h: &mut Handle,
) -> io::Result<()> {
    if let Err(r) = o.answer {
        return refuse(out, form, r);
    }
    *h = o.handle;
    if let Form::Words = form {
        return told::put_handle(out, h);
    }
    write!(out, " 1 {}", h.addr.0)?;
    if sized {
        write!(out, " {}", h.size)?;
    }
    Ok(())
}

fn told_read<W: Write>(out: &mut W, form: Form, o: CountedOut, buf: &[u8; 4096]) -> io::Result<()> {
    let position = o.handle.position;
    if let Form::Words = form {
        told::put_count(out, o.answer)?;
        told::put_quoted(out, &buf[..8])?;
        return write!(out, " position {position}");
    }
    match o.answer {
        Ok(n) => {
            let digest = digest_first(buf, n);
            write!(out, " 1 {n} {position} {digest}")
        }
        Err(r) => refuse(out, form, r),
    }
}

fn read<W: Write>(
    out: &mut W,
    form: Form,
    disk: &Disk,
    h: &mut Handle,
    n: usize,
) -> io::Result<()> {
    let mut buf = [b'.'; 4096];
    if buf.len() < n {
        return told::unread(out);
    }
    let o = mfs::read(disk.img, disk.m, *h, &mut buf[..n]);
    *h = o.handle;
    told_read(out, form, o, &buf)
}

fn seek<W: Write>(out: &mut W, form: Form, h: &mut Handle, to: SeekFrom) -> io::Result<()> {
    let o = mfs::seek(*h, to);
    *h = o.handle;
    let position = h.position;
    match (o.answer, form) {
        (Ok(()), Form::Recorded) => write!(out, " 1 {position}"),
        (Ok(()), Form::Words) => write!(out, " to {position}"),
        (Err(r), Form::Recorded) => refuse(out, form, r),
        (Err(r), Form::Words) => {
            refuse(out, form, r)?;
            write!(out, " {position}")
        }
    }
}

fn write<W: Write>(
    out: &mut W,
    form: Form,
    disk: &mut Disk,
    h: &mut Handle,
    bytes: &[u8],
    time: u64,
) -> io::Result<()> {
    let m = disk.m;
    let o = mfs::write(disk.img, m, *h, bytes, time, disk.work);
    *h = o.handle;
    if let Form::Words = form {
        told::put_count(out, o.answer)?;
        return told::put_handle(out, h);
    }
    match o.answer {
        Ok(n) => write!(out, " 1 {n} {} {}", h.position, h.size),
        Err(r) => refuse(out, form, r),
    }
}

pub(crate) fn slot_call<W: Write>(
    out: &mut W,
    form: Form,
    disk: &mut Disk,
    h: &mut Handle,
    step: SlotStep,
) -> io::Result<()> {
    let m = disk.m;
    match step {
        SlotStep::Open(Way { cwd, path }) => {
            let o = mfs::open(disk.img, m, cwd, path);
            opened(out, form, true, o, h)
        }
        SlotStep::Create(Way { cwd, path }, time) => {
            let o = mfs::create_file(disk.img, m, cwd, path, time, disk.work);
            opened(out, form, false, o, h)
        }
        SlotStep::Read(n) => read(out, form, disk, h, n),
        SlotStep::Seek(to) => seek(out, form, h, to),
        SlotStep::Write(bytes, time) => write(out, form, disk, h, bytes, time),
        SlotStep::Sow { len, seed, time } => {
            let mut buf = [0u8; 4096];
            recorded::sow(&mut buf, seed);
            if buf.len() < len {
                return told::unread(out);
            }
            write(out, form, disk, h, &buf[..len], time)
        }
        SlotStep::MakeUp(made) => {
            *h = made;
            Ok(())
        }
    }
}

// ---- calls on the image

fn usage<W: Write>(out: &mut W, form: Form, img: &[u8], m: Mount) -> io::Result<()> {
    match (mfs::usage(img, m), form) {
        (Ok(s), Form::Recorded) => write!(out, " 1 {} {} {}", s.size, s.used, s.free),
        (Ok(s), Form::Words) => write!(out, " {} {} {}", s.size, s.used, s.free),
        (Err(r), _) => refuse(out, form, r),
    }
}

fn letter(kind: Kind) -> char {
    match kind {
        Kind::Dir => 'd',
        Kind::File => 'f',
        Kind::Device => 'v',
    }
}

fn info<W: Write>(out: &mut W, form: Form, img: &[u8], m: Mount, way: Way) -> io::Result<()> {
    let o = mfs::info(img, m, way.cwd, way.path);
    if let Err(r) = o.answer {
        return refuse(out, form, r);
    }
    match form {
        Form::Recorded => {
            write!(out, " 1 {} {} {}", u8::from(o.kind), o.size, o.time)?;
            told::put_hex(out, &o.name, o.len)
        }
        Form::Words => {
            write!(out, " {} {} {} name", letter(o.kind), o.size, o.time)?;
            told::put_name(out, &o.name, o.len)
        }
    }
}

fn list<W: Write>(
    out: &mut W,
    form: Form,
    disk: &Disk,
    way: Way,
    from: u32,
    len: usize,
) -> io::Result<()> {
    let mut buf = [255u8; 4096];
    if buf.len() < len {
        return told::unread(out);
    }
    let m = disk.m;
    let l = mfs::list(disk.img, m, way.cwd, way.path, from, &mut buf[..len]);
    let changed = others(&buf, 255);
    match (l, form) {
        (Ok(l), Form::Recorded) => {
            let digest = digest_first(&buf, l.bytes);
            write!(out, " 1 {} {} {digest}", l.bytes, l.next)
        }
        (Ok(l), Form::Words) => write!(out, " {} next {} changed {changed}", l.bytes, l.next),
        (Err(r), Form::Recorded) => refuse(out, form, r),
        (Err(r), Form::Words) => {
            refuse(out, form, r)?;
            write!(out, " changed {changed}")
        }
    }
}

// The bytes of text from `at` on, where they fit.
fn lay<W: Write>(out: &mut W, img: &mut [u8], at: usize, text: &[u8]) -> io::Result<()> {
    if img.len() < at || img.len() - at < text.len() {
        return told::unread(out);
    }
    img[at..at + text.len()].copy_from_slice(text);
    Ok(())
}

// The first n bytes of src at the start of dst, where both have so many.
fn copy_first(dst: &mut [u8], src: &[u8], n: usize) {
    if n <= dst.len() && n <= src.len() {
        dst[..n].copy_from_slice(&src[..n]);
    }
}

fn shade(b: u8) -> char {
    match b {
        0 => '0',
        165 => '=',
        _ => '?',
    }
}

fn check_first<W: Write>(
    out: &mut W,
    img: &[u8],
    m: Mount,
    work: &mut [u8],
    n: usize,
) -> io::Result<()> {
    if n <= work.len() {
        told::answer(out, Form::Words, mfs::check(img, m, &mut work[..n]))?;
    }
    Ok(())
}

fn test<W: Write>(
    out: &mut W,
    img: &[u8],
    m: Mount,
    len: usize,
    from: usize,
    times: u64,
) -> io::Result<()> {
    let mut work = [165u8; 520];
    check_first(out, img, m, &mut work, len)?;
    if times == 2 {
        check_first(out, img, m, &mut work, len)?;
    }
    if 504 < from {
        return Ok(());
    }
    put(out, b" ")?;
    for &b in &work[from..from + 16] {
        write!(out, "{}", shade(b))?;
    }
    Ok(())
}

fn effect<W: Write>(out: &mut W, img: &[u8], m: Mount, before: u64) -> io::Result<()> {
    let kept = recorded::digest(img) == before;
    let image = if kept { "kept" } else { "changed" };
    write!(out, " image {image} used")?;
    let block_bytes = if m.code == 1 { 1024 } else { 512 };
    match mfs::usage(img, m) {
        Ok(s) => write!(out, " {}", s.used / block_bytes)?,
        Err(r) => refuse(out, Form::Words, r)?,
    }
    put(out, b" check")?;
    let mut work = [165u8; 513];
    told::answer(out, Form::Words, mfs::check(img, m, &mut work))
}

fn accept<W: Write>(out: &mut W, len: usize, m: Mount) -> io::Result<()> {
    match SuperBlock::for_image(len, m) {
        Ok(_) => put(out, b" accepted"),
        Err(r) => refuse(out, Form::Words, r),
    }
}

// What lsmfs writes from entry number i on, which is whole lines, on lines of their own; the number after it.
fn jot_page<W: Write>(out: &mut W, img: &[u8], k: u32, more: bool, i: u32) -> io::Result<u32> {
    let mut page = [0u8; 3072];
    let s = lsmfs_pages::say(img, k, more, i, &mut page);
    if let Some([lines @ .., _]) = page.get(..s.len) {
        put(out, b"\n")?;
        put(out, lines)?;
    }
    Ok(s.next)
}

// Page after page, as lsmfs does.
fn jot<W: Write>(out: &mut W, img: &[u8], k: u32, more: bool) -> io::Result<()> {
    let mut i: u32 = 0;
    loop {
        let next = jot_page(out, img, k, more, i)?;
        if next <= i {
            return Ok(());
        }
        i = next;
    }
}

fn path_call<W: Write>(
    out: &mut W,
    form: Form,
    disk: &mut Disk,
    way: Way,
    step: PathStep,
) -> io::Result<()> {
    let m = disk.m;
    let Way { cwd, path } = way;
    match step {
        PathStep::Info => info(out, form, disk.img, m, way),
        PathStep::List { from, len } => list(out, form, disk, way, from, len),
        PathStep::Mkdir(time) => {
            let a = mfs::create_dir(disk.img, m, cwd, path, time, disk.work);
            told::answer(out, form, a)
        }
        PathStep::Delete(time) => {
            let a = mfs::delete(disk.img, m, cwd, path, time, disk.work);
            told::answer(out, form, a)
        }
    }
}

pub(crate) fn image_call<W: Write>(
    out: &mut W,
    form: Form,
    disk: &mut Disk,
    base: &mut [u8],
    before: u64,
    step: ImageStep,
) -> io::Result<()> {
    let m = disk.m;
    let n = disk.img.len();
    match step {
        ImageStep::Put(Some(at), bytes) => lay(out, disk.img, at, bytes),
        ImageStep::Put(None, _) => told::unread(out),
        ImageStep::Base => {
            copy_first(base, disk.img, n);
            Ok(())
        }
        ImageStep::GoBack => {
            copy_first(disk.img, base, n);
            Ok(())
        }
        ImageStep::Format => told::answer(out, form, mfs::format(disk.img, m)),
        ImageStep::Usage => usage(out, form, disk.img, m),
        ImageStep::Digest => write!(out, " {}", recorded::digest(disk.img)),
        ImageStep::Nonzero => write!(out, " {}", others(disk.img, 0)),
        ImageStep::Test { len, from, times } => test(out, disk.img, m, len, from, times),
        ImageStep::Effect => effect(out, disk.img, m, before),
        ImageStep::Accept(len) => accept(out, len, m),
        ImageStep::Jot(more) => jot(out, disk.img, m.k, more),
        ImageStep::Path(way, step) => path_call(out, form, disk, way, step),
    }
}
