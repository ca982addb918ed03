// The public calls that read: open, info, list, read and seek. Their answers for a caller are those of `mfs`.
#![tactic(auto)]

ghost use Rattle.std.specs.Prelude.{◌≡◌, length};
ghost use Rattle.model.specs.Geometry.{mount};
ghost use Rattle.super_block.specs.Super.{area_in, Fit};
ghost use Rattle.model.specs.Answers.{and_then};
ghost use Rattle.limits.specs.Says.{says};
ghost use Rattle.path.specs.Path.{last_name};
ghost use Rattle.dir.specs.Resolve.{entry_of};
ghost use Rattle.read_dir.specs.Walk.{walk};
ghost use Rattle.read_dir.specs.Finds.{sum_from};
ghost use Rattle.call_read.specs.Reading.{StartIs, open_on, open_reply, Opens, about_root, about_entry, info_reply};
ghost use Rattle.call_read.specs.Reading.{Informs, list_on, records_on, ListIs, Lists, Reads};
ghost use Rattle.handle.specs.Post.{SoughtIs};

use block::Addr;
use dir_entry::{Kind, Name};
use handle::{CountedOut, Handle, SeekFrom, Sought};
use limits::Refusal;
use read_dir::Listed;
use super_block::{Mount, SuperBlock, Volume};

// An opened file: the handle stands at position 0. A struct and no Result: by H6 a refused open hands back the empty handle.
#[derive(Clone, Copy)]
pub struct OpenOut {
    pub answer: Result<(), Refusal>,
    pub handle: Handle,
}

// What is known of an entry; the name stands in the first len bytes. A struct and no Result: by H6 all is empty where it is
// refused.
#[derive(Clone, Copy)]
pub struct InfoOut {
    pub answer: Result<(), Refusal>,
    pub kind: Kind,
    pub size: u32,
    pub time: u64,
    pub name: [u8; 255],
    pub len: usize,
}

// The same of an entry that is there.
#[derive(Clone, Copy)]
pub struct About {
    pub kind: Kind,
    pub size: u32,
    pub time: u64,
    pub name: [u8; 255],
    pub len: usize,
}

impl From<Result<Handle, Refusal>> for OpenOut {
    ghost use Rattle.limits.specs.Says.{says};
    ghost use Rattle.call_read.specs.Reading.{OpenIs};

    ghost from_gives = { λ opened o. OpenIs (says opened) o };

    fn from(opened: Result<Handle, Refusal>) -> OpenOut {
        match opened {
            Ok(handle) => OpenOut {
                answer: Ok(()),
                handle,
            },
            Err(r) => OpenOut {
                answer: Err(r),
                handle: Handle {
                    dir: Addr(0),
                    name: [0u8; 255],
                    len: 0,
                    addr: Addr(0),
                    size: 0,
                    position: 0,
                },
            },
        }
    }
}

// What a call by a path begins with: the volume's numbers, and the full path in the first bytes of `full`. Refusals: 1, 2, 3, 4.
fn start(
    img: &[u8],
    m: Mount,
    cwd: &[u8],
    path: &[u8],
    full: &mut [u8; path::PATH_LIMIT],
) -> Result<(SuperBlock, usize), Refusal>
    ensures { StartIs (mount m.k m.code) img.now cwd.now path.now full.new result }
{
    let s = SuperBlock::read(img, m)?;
    let n = path::realpath(full, cwd, path)?;
    Ok((s, n))
}

// A handle on the file at a full path. The image is lent by itself here and in about_full, since that a name has at most 255
// bytes asks that its length byte is a byte, which is known of a slice and not of one within a struct.
fn open_full(img: &[u8], s: SuperBlock, full: &[u8]) -> Result<Handle, Refusal>
    requires { Fit s img.now }
    ensures { says result ≡ open_on (area_in s) img.now full.now }
{
    let found = dir::find(Volume { img, s }, full)?;
    let e = found.entry;
    match e.kind {
        Kind::Dir | Kind::Device => Err(Refusal::WrongKind),
        Kind::File if limits::FILE_LIMIT < e.size => Err(Refusal::TooLarge),
        Kind::File => {
            let bytes = path::parts_of(full).name;
            Ok(Handle::new(found.dir, Name { bytes }, e.addr, e.size))
        }
    }
}

// A handle on the file at a path.
fn open_at(img: &[u8], m: Mount, cwd: &[u8], path: &[u8]) -> Result<Handle, Refusal>
    ensures { says result ≡ open_reply (mount m.k m.code) img.now cwd.now path.now }
{
    let mut full = [0u8; path::PATH_LIMIT];
    let (s, n) = start(img, m, cwd, path, &mut full)?;
    open_full(img, s, &full[..n])
}

// Opens the file at a path. Refusals: 1, 2, 3, 4, 5, 6, 17, 10.
pub fn open(img: &[u8], m: Mount, cwd: &[u8], path: &[u8]) -> OpenOut
    ensures { Opens (mount m.k m.code) img.now cwd.now path.now result }
{
    OpenOut::from(open_at(img, m, cwd, path))
}

// What is known of the root itself: a directory of no name, whose size is its sum.
fn about_root(v: Volume) -> Result<About, Refusal>
    ensures { says result ≡ about_root (sum_from 0 (walk (area_in v.entry.s) v.entry.img.now v.entry.s.area.0)) }
{
    let size = read_dir::sum(v, v.s.area)?;
    Ok(About {
        kind: Kind::Dir,
        size,
        time: 0,
        name: [0u8; 255],
        len: 0,
    })
}

// What is known of the entry at a full path.
fn about_full(img: &[u8], s: SuperBlock, full: &[u8]) -> Result<About, Refusal>
    requires { Fit s img.now }
    ensures { says result ≡ and_then (entry_of (area_in s) img.now full.now) (about_entry (last_name full.now)) }
{
    let e = dir::find(Volume { img, s }, full)?.entry;
    let bytes = path::parts_of(full).name;
    Ok(About {
        kind: e.kind,
        size: e.size,
        time: e.time,
        name: handle::name_array(Name { bytes }),
        len: bytes.len(),
    })
}

// What is known of what stands at a path; the path `/` itself is the root.
fn about_at(img: &[u8], m: Mount, cwd: &[u8], path: &[u8]) -> Result<About, Refusal>
    ensures { says result ≡ info_reply (mount m.k m.code) img.now cwd.now path.now }
{
    let mut full = [0u8; path::PATH_LIMIT];
    let (s, n) = start(img, m, cwd, path, &mut full)?;
    if path::is_root(path) {
        return about_root(Volume { img, s });
    }
    about_full(img, s, &full[..n])
}

// Kind, size, time and name of what stands at a path. Refusals: 1, 2, 3, 4, 5, 6, 17.
pub fn info(img: &[u8], m: Mount, cwd: &[u8], path: &[u8]) -> InfoOut
    ensures { Informs (mount m.k m.code) img.now cwd.now path.now result }
{
    match about_at(img, m, cwd, path) {
        Ok(about) => {
            let name = about.name;
            InfoOut {
                answer: Ok(()),
                kind: about.kind,
                size: about.size,
                time: about.time,
                name,
                len: about.len,
            }
        }
        Err(r) => InfoOut {
            answer: Err(r),
            kind: Kind::Dir,
            size: 0,
            time: 0,
            name: [0u8; 255],
            len: 0,
        },
    }
}

// Lists the directory at a full path.
fn list_full(v: Volume, full: &[u8], i: u32, buf: &mut [u8]) -> Result<Listed, Refusal>
    ensures { ListIs (list_on (area_in v.entry.s) v.entry.img.now full.now i (length buf.old))
        (records_on (area_in v.entry.s) v.entry.img.now full.now i (length buf.old))
        buf.old buf.new result }
{
    let dir = dir::open(v, full)?;
    let listed = dir_list::list(v, dir, i, buf)?;
    Ok(listed)
}

// Lists the directory at a path from entry number i on, into buf: the bytes of the records in it, and the number of the entry
// after them. Refusals: 1, 2, 3, 4, 5, 6, 17.
pub fn list(
    img: &[u8],
    m: Mount,
    cwd: &[u8],
    path: &[u8],
    i: u32,
    buf: &mut [u8],
) -> Result<Listed, Refusal>
    ensures { Lists (mount m.k m.code) img.now cwd.now path.now i buf.old result
        buf.new }
{
    let mut full = [0u8; path::PATH_LIMIT];
    let (s, n) = start(img, m, cwd, path, &mut full)?;
    list_full(Volume { img, s }, &full[..n], i, buf)
}

// Reads on an image: the handle is moved where the read is not refused.
fn read_on(img: &[u8], m: Mount, handle: &mut Handle, buf: &mut [u8]) -> Result<usize, Refusal>
    ensures { Reads (mount m.k m.code) img.now handle.old buf.old buf.new (record { answer = result; handle = handle.new }) }
{
    let s = SuperBlock::read(img, m)?;
    file_read::read(handle, Volume { img, s }, buf)
}

// Reads from the handle's position on into buf. Refusals: 1, 2, 3, 11, 17; a refused read hands back the very handle.
pub fn read(img: &[u8], m: Mount, mut handle: Handle, buf: &mut [u8]) -> CountedOut
    ensures { Reads (mount m.k m.code) img.now handle buf.old buf.new result }
{
    let answer = read_on(img, m, &mut handle, buf);
    CountedOut { answer, handle }
}

// Moves the handle's position. Refusals: 11, 12; a refused seek hands back the very handle.
pub fn seek(handle: Handle, from: SeekFrom) -> Sought
    ensures { SoughtIs handle from result }
{
    handle.seek(from)
}
