// The public calls for programs in C and Rust, on numbers, byte slices and arrays of fixed size. Each answers 0, or the number of
// its refusal; a refusal leaves every out parameter as it was. A size code that is not known is refused by 2, before the refusals
// that stand with each call. include/mfs_c.h declares them.
#![tactic(auto)]

ghost use Rattle.std.specs.Prelude.{◌≡◌};
ghost use Rattle.model.specs.Geometry.{mount};
ghost use Rattle.limits.specs.Refusals.{refusal_number};
ghost use Rattle.handle.specs.declared.SeekFrom.TheVariants as from;
ghost use Rattle.limits.specs.Says.{says};
ghost use Rattle.call_read.specs.Reading.{open_says};
ghost use Rattle.mfs_c.specs.Exports.{abi_version, told, handle_of, numbers_of, FormatsC, UsesC, ChecksC, HandleOut, OpensC};
ghost use Rattle.mfs_c.specs.Exports.{InformsC, ListsC, CountOut, ReadsC, SeeksC, CreatesFileC, CreatesDirC, DeletesC};
ghost use Rattle.mfs_c.specs.Exports.{WritesC, PatchesC, AsksC};

use block::Addr;
use call_read::OpenOut;
use handle::{CountedOut, Handle, SeekFrom};
use limits::Refusal;
use super_block::Mount;

// The version of these exports, for callers that were compiled against another one to find out.
#[unsafe(no_mangle)]
pub extern "C" fn mfs_c_version() -> u32
    ensures { result ≡ abi_version }
{
    2
}

// The number of a refusal, as the exports answer it.
fn refusal(r: Refusal) -> u32
    ensures { result ≡ refusal_number r }
{
    u32::from(r.number())
}

// The number of an answer without values: 0 is success.
fn answer_of(a: Result<(), Refusal>) -> u32
    ensures { result ≡ told (says a) }
{
    match a {
        Ok(()) => 0,
        Err(r) => refusal(r),
    }
}

// The handle of four numbers (the directory's first address, the file's, size, position) and a name of len bytes.
fn handle_of(number: &[u32; 4], name: &[u8; 255], len: usize) -> Handle
    ensures { result ≡ handle_of number.now name.now len }
{
    Handle {
        dir: Addr(number[0]),
        name: *name,
        len,
        addr: Addr(number[1]),
        size: number[2],
        position: number[3],
    }
}

// The four numbers of a handle.
fn numbers_of(h: Handle) -> [u32; 4]
    ensures { result ≡ numbers_of h }
{
    [h.dir.0, h.addr.0, h.size, h.position]
}

// Hands over the handle of an open or a create: its numbers, its name and the name's length; nothing where the call is refused.
fn give_handle(out: OpenOut, number: &mut [u32; 4], name: &mut [u8; 255], len: &mut usize) -> u32
    ensures { HandleOut (open_says out) number.old name.old len.old result number.new
        name.new len.new }
{
    match out.answer {
        Err(r) => refusal(r),
        Ok(()) => {
            *number = numbers_of(out.handle);
            let own = out.handle.name;
            *name = own;
            *len = out.handle.len;
            0
        }
    }
}

// Hands over the byte count and the moved handle's numbers; nothing where the call is refused.
fn give_count(out: CountedOut, number: &mut [u32; 4], bytes: &mut usize) -> u32
    ensures { CountOut (says out.answer) out.handle number.old bytes.old result
        number.new bytes.new }
{
    match out.answer {
        Err(r) => refusal(r),
        Ok(b) => {
            *number = numbers_of(out.handle);
            *bytes = b;
            0
        }
    }
}

// Formats the whole image. Refusals: 1, 3.
#[unsafe(no_mangle)]
pub extern "C" fn mfs_c_format(img: &mut [u8], k: u32, code: u32) -> u32
    ensures { FormatsC (mount k code) img.old result img.new }
{
    answer_of(mfs::format(img, Mount { k, code }))
}

// Bytes of the volume, of its used blocks, and the rest. Refusals: 1, 2, 3, 17.
#[unsafe(no_mangle)]
pub extern "C" fn mfs_c_usage(
    img: &[u8],
    k: u32,
    code: u32,
    size: &mut u64,
    used: &mut u64,
    free: &mut u64,
) -> u32
    ensures { UsesC (mount k code) img.now size.old used.old free.old result
        size.new used.new free.new }
{
    match mfs::usage(img, Mount { k, code }) {
        Err(r) => refusal(r),
        Ok(space) => {
            *size = space.size;
            *used = space.used;
            *free = space.free;
            0
        }
    }
}

// Whether so many blocks are free (yes is 1, no is 0), and the bytes of the bitmap that were read to tell. Refusals: 1, 2, 3.
#[unsafe(no_mangle)]
pub extern "C" fn mfs_c_room(
    img: &[u8],
    k: u32,
    code: u32,
    count: u32,
    enough: &mut u32,
    bytes: &mut u32,
) -> u32
    ensures { AsksC (mount k code) img.now count enough.old bytes.old result
        enough.new bytes.new }
{
    match mfs::room(img, Mount { k, code }, count) {
        Err(r) => refusal(r),
        Ok(told) => {
            *enough = u32::from(told.enough);
            *bytes = told.bytes;
            0
        }
    }
}

// The whole check. Refusals: 1, 2, 3, 16, 17.
#[unsafe(no_mangle)]
pub extern "C" fn mfs_c_check(img: &[u8], k: u32, code: u32, work: &mut [u8]) -> u32
    ensures { ChecksC (mount k code) img.now work.old result work.new }
{
    answer_of(mfs::check(img, Mount { k, code }, work))
}

// Opens the file at a path. Refusals: 1, 2, 3, 4, 5, 6, 17, 10.
#[unsafe(no_mangle)]
pub extern "C" fn mfs_c_open(
    img: &[u8],
    k: u32,
    code: u32,
    cwd: &[u8],
    path: &[u8],
    number: &mut [u32; 4],
    name: &mut [u8; 255],
    len: &mut usize,
) -> u32
    ensures { OpensC (mount k code) img.now cwd.now path.now number.old
        name.old len.old result number.new name.new len.new }
{
    give_handle(
        mfs::open(img, Mount { k, code }, cwd, path),
        number,
        name,
        len,
    )
}

// Kind (0 directory, 1 file, 2 device), size, time and name of what stands at a path. Refusals: 1, 2, 3, 4, 5, 6, 17.
#[unsafe(no_mangle)]
pub extern "C" fn mfs_c_info(
    img: &[u8],
    k: u32,
    code: u32,
    cwd: &[u8],
    path: &[u8],
    kind: &mut u8,
    size: &mut u32,
    time: &mut u64,
    name: &mut [u8; 255],
    len: &mut usize,
) -> u32
    ensures { InformsC (mount k code) img.now cwd.now path.now kind.old
        size.old time.old name.old len.old result kind.new size.new
        time.new name.new len.new }
{
    let out = mfs::info(img, Mount { k, code }, cwd, path);
    match out.answer {
        Err(r) => refusal(r),
        Ok(()) => {
            *kind = u8::from(out.kind);
            *size = out.size;
            *time = out.time;
            let own = out.name;
            *name = own;
            *len = out.len;
            0
        }
    }
}

// Lists the directory at a path from entry number i on. Refusals: 1, 2, 3, 4, 5, 6, 17.
#[unsafe(no_mangle)]
pub extern "C" fn mfs_c_list(
    img: &[u8],
    k: u32,
    code: u32,
    cwd: &[u8],
    path: &[u8],
    i: u32,
    buf: &mut [u8],
    bytes: &mut usize,
    next: &mut u32,
) -> u32
    ensures { ListsC (mount k code) img.now cwd.now path.now i buf.old
        bytes.old next.old result buf.new bytes.new next.new }
{
    match mfs::list(img, Mount { k, code }, cwd, path, i, buf) {
        Err(r) => refusal(r),
        Ok(listed) => {
            *bytes = listed.bytes;
            *next = listed.next;
            0
        }
    }
}

// Reads from the handle's position on. Refusals: 1, 2, 3, 11, 17.
#[unsafe(no_mangle)]
pub extern "C" fn mfs_c_read(
    img: &[u8],
    k: u32,
    code: u32,
    number: &mut [u32; 4],
    name: &[u8; 255],
    len: usize,
    buf: &mut [u8],
    bytes: &mut usize,
) -> u32
    ensures { ReadsC (mount k code) img.now number.old name.now len buf.old
        bytes.old result number.new buf.new bytes.new }
{
    let given = handle_of(number, name, len);
    let out = mfs::read(img, Mount { k, code }, given, buf);
    give_count(out, number, bytes)
}

// Moves the handle's position.
fn seek(number: &mut [u32; 4], name: &[u8; 255], len: usize, from: SeekFrom) -> u32
    ensures { SeeksC number.old name.now len from result number.new }
{
    let given = handle_of(number, name, len);
    let out = mfs::seek(given, from);
    match out.answer {
        Err(r) => refusal(r),
        Ok(()) => {
            *number = numbers_of(out.handle);
            0
        }
    }
}

// The position becomes `to`. Refusals: 11, 12.
#[unsafe(no_mangle)]
pub extern "C" fn mfs_c_seek_start(
    number: &mut [u32; 4],
    name: &[u8; 255],
    len: usize,
    to: u32,
) -> u32
    ensures { SeeksC number.old name.now len (from.Start to) result number.new }
{
    seek(number, name, len, SeekFrom::Start(to))
}

// The position moves by `by`. Refusals: 11, 12.
#[unsafe(no_mangle)]
pub extern "C" fn mfs_c_seek_current(
    number: &mut [u32; 4],
    name: &[u8; 255],
    len: usize,
    by: i32,
) -> u32
    ensures { SeeksC number.old name.now len (from.Current by) result number.new }
{
    seek(number, name, len, SeekFrom::Current(by))
}

// The position becomes the size moved by `by`. Refusals: 11, 12.
#[unsafe(no_mangle)]
pub extern "C" fn mfs_c_seek_end(
    number: &mut [u32; 4],
    name: &[u8; 255],
    len: usize,
    by: i32,
) -> u32
    ensures { SeeksC number.old name.now len (from.End by) result number.new }
{
    seek(number, name, len, SeekFrom::End(by))
}

// Creates a file of 0 bytes at a path, and opens it. Refusals: 1, 2, 3, 16, 17, 4, 8, 5, 6, 7, 9.
#[unsafe(no_mangle)]
pub extern "C" fn mfs_c_create_file(
    img: &mut [u8],
    k: u32,
    code: u32,
    cwd: &[u8],
    path: &[u8],
    time: u64,
    work: &mut [u8],
    number: &mut [u32; 4],
    name: &mut [u8; 255],
    len: &mut usize,
) -> u32
    ensures { CreatesFileC (mount k code) img.old work.old cwd.now
        path.now time number.old name.old len.old result img.new
        work.new number.new name.new len.new }
{
    give_handle(
        mfs::create_file(img, Mount { k, code }, cwd, path, time, work),
        number,
        name,
        len,
    )
}

// Creates an empty directory at a path. Refusals: 1, 2, 3, 16, 17, 4, 8, 5, 6, 15, 7, 9.
#[unsafe(no_mangle)]
pub extern "C" fn mfs_c_create_dir(
    img: &mut [u8],
    k: u32,
    code: u32,
    cwd: &[u8],
    path: &[u8],
    time: u64,
    work: &mut [u8],
) -> u32
    ensures { CreatesDirC (mount k code) img.old work.old cwd.now
        path.now time result img.new work.new }
{
    answer_of(mfs::create_dir(img, Mount { k, code }, cwd, path, time, work))
}

// Deletes the file, the device or the empty directory at a path. Refusals: 1, 2, 3, 16, 17, 4, 5, 6, 14.
#[unsafe(no_mangle)]
pub extern "C" fn mfs_c_delete(
    img: &mut [u8],
    k: u32,
    code: u32,
    cwd: &[u8],
    path: &[u8],
    time: u64,
    work: &mut [u8],
) -> u32
    ensures { DeletesC (mount k code) img.old work.old cwd.now path.now time result
        img.new work.new }
{
    answer_of(mfs::delete(img, Mount { k, code }, cwd, path, time, work))
}

// Writes buf at the handle's position; the file ends there. Refusals: 1, 2, 3, 16, 17, 13, 11, 10, 9.
#[unsafe(no_mangle)]
pub extern "C" fn mfs_c_write(
    img: &mut [u8],
    k: u32,
    code: u32,
    number: &mut [u32; 4],
    name: &[u8; 255],
    len: usize,
    buf: &[u8],
    time: u64,
    work: &mut [u8],
    bytes: &mut usize,
) -> u32
    ensures { WritesC (mount k code) img.old work.old number.old name.now len
        buf.now time bytes.old result img.new work.new number.new
        bytes.new }
{
    let given = handle_of(number, name, len);
    let out = mfs::write(img, Mount { k, code }, given, buf, time, work);
    give_count(out, number, bytes)
}

// Puts buf over the file's bytes from the handle's position on; the file keeps its size. Refusals: 1, 2, 3, 16, 17, 13, 11, 19.
#[unsafe(no_mangle)]
pub extern "C" fn mfs_c_patch(
    img: &mut [u8],
    k: u32,
    code: u32,
    number: &mut [u32; 4],
    name: &[u8; 255],
    len: usize,
    buf: &[u8],
    time: u64,
    work: &mut [u8],
    bytes: &mut usize,
) -> u32
    ensures { PatchesC (mount k code) img.old work.old number.old name.now len
        buf.now time bytes.old result img.new work.new number.new
        bytes.new }
{
    let given = handle_of(number, name, len);
    let out = mfs::patch(img, Mount { k, code }, given, buf, time, work);
    give_count(out, number, bytes)
}
