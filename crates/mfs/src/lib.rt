// The public calls on an MFS volume. An image is a lent slice of blocks, and m says where its volume is: the superblock's block,
// and the code of the block size. A code that is not known is refused by 2 before the refusals that stand with each call.
// No call requires anything: every image gets the one answer that the rules give it, and a refusal changes nothing.
// Each call is one of call_volume, call_room, call_read, call_change or call_patch under the name that callers know, with the
// same contract.
#![tactic(auto)]

ghost use Rattle.model.specs.Geometry.{mount};
ghost use Rattle.call_read.specs.Reading.{Opens, Informs, Lists, Reads};
ghost use Rattle.call_room.specs.Room.{Asks};
ghost use Rattle.handle.specs.Post.{SoughtIs};
ghost use Rattle.call_change.specs.Changing.{CreatesFile, CreatesDir, Deletes, Writes};
ghost use Rattle.call_patch.specs.Patches.{Patches};
ghost use Rattle.call_volume.specs.Checking.{Checks};
ghost use Rattle.call_volume.specs.Format.{Formats, Uses};

use bitmap_room::Told;
use call_read::{InfoOut, OpenOut};
use call_volume::Space;
use handle::{CountedOut, Handle, SeekFrom, Sought};
use limits::Refusal;
use read_dir::Listed;
use super_block::Mount;

// Makes the whole image a volume with an empty root directory. Refusals: 1, 3.
pub fn format(img: &mut [u8], m: Mount) -> Result<(), Refusal>
    ensures { Formats (mount m.k m.code) img.old result img.new }
{
    call_volume::format(img, m)
}

// How much of the volume is used. Refusals: 1, 2, 3, 17.
pub fn usage(img: &[u8], m: Mount) -> Result<Space, Refusal>
    ensures { Uses (mount m.k m.code) img.now result }
{
    call_volume::usage(img, m)
}

// Whether so many blocks are free within reach, and how many bytes of the bitmap were read to tell. Refusals: 1, 2, 3.
pub fn room(img: &[u8], m: Mount, count: u32) -> Result<Told, Refusal>
    ensures { Asks (mount m.k m.code) img.now count result }
{
    call_room::room(img, m, count)
}

// Whether the image is a well-formed volume, W1 to W5. One bit a block is marked in the work buffer, and is zero again
// afterwards. Refusals: 1, 2, 3, 16, 17.
pub fn check(img: &[u8], m: Mount, work: &mut [u8]) -> Result<(), Refusal>
    ensures { Checks (mount m.k m.code) img.now work.old result work.new }
{
    call_volume::check(img, m, work)
}

// Opens the file at a path. Refusals: 1, 2, 3, 4, 5, 6, 17, 10.
pub fn open(img: &[u8], m: Mount, cwd: &[u8], path: &[u8]) -> OpenOut
    ensures { Opens (mount m.k m.code) img.now cwd.now path.now result }
{
    call_read::open(img, m, cwd, path)
}

// Kind, size, time and name of what stands at a path. Refusals: 1, 2, 3, 4, 5, 6, 17.
pub fn info(img: &[u8], m: Mount, cwd: &[u8], path: &[u8]) -> InfoOut
    ensures { Informs (mount m.k m.code) img.now cwd.now path.now result }
{
    call_read::info(img, m, cwd, path)
}

// Lists the directory at a path from entry number i on, into buf. Refusals: 1, 2, 3, 4, 5, 6, 17.
pub fn list(
    img: &[u8],
    m: Mount,
    cwd: &[u8],
    path: &[u8],
    i: u32,
    buf: &mut [u8],
) -> Result<Listed, Refusal>
    ensures { Lists (mount m.k m.code) img.now cwd.now path.now i buf.old result
        buf.new }
{
    call_read::list(img, m, cwd, path, i, buf)
}

// Reads from the handle's position on into buf. Refusals: 1, 2, 3, 11, 17; a refused read hands back the very handle.
pub fn read(img: &[u8], m: Mount, handle: Handle, buf: &mut [u8]) -> CountedOut
    ensures { Reads (mount m.k m.code) img.now handle buf.old buf.new result }
{
    call_read::read(img, m, handle, buf)
}

// Moves the handle's position. Refusals: 11, 12; a refused seek hands back the very handle.
pub fn seek(handle: Handle, from: SeekFrom) -> Sought
    ensures { SoughtIs handle from result }
{
    call_read::seek(handle, from)
}

// Creates a file of 0 bytes at a path, and opens it. Refusals: 1, 2, 3, 16, 17, 4, 8, 5, 6, 7, 9.
pub fn create_file(
    img: &mut [u8],
    m: Mount,
    cwd: &[u8],
    path: &[u8],
    time: u64,
    work: &mut [u8],
) -> OpenOut
    ensures { CreatesFile (mount m.k m.code) img.old work.old cwd.now
        path.now time result img.new work.new }
{
    call_change::create_file(img, m, cwd, path, time, work)
}

// Creates an empty directory at a path. Refusals: 1, 2, 3, 16, 17, 4, 8, 5, 6, 15, 7, 9.
pub fn create_dir(
    img: &mut [u8],
    m: Mount,
    cwd: &[u8],
    path: &[u8],
    time: u64,
    work: &mut [u8],
) -> Result<(), Refusal>
    ensures { CreatesDir (mount m.k m.code) img.old work.old cwd.now
        path.now time result img.new work.new }
{
    call_change::create_dir(img, m, cwd, path, time, work)
}

// Deletes the file, the device or the empty directory at a path. Refusals: 1, 2, 3, 16, 17, 4, 5, 6, 14.
pub fn delete(
    img: &mut [u8],
    m: Mount,
    cwd: &[u8],
    path: &[u8],
    time: u64,
    work: &mut [u8],
) -> Result<(), Refusal>
    ensures { Deletes (mount m.k m.code) img.old work.old cwd.now path.now time result
        img.new work.new }
{
    call_change::delete(img, m, cwd, path, time, work)
}

// Writes buf at the handle's position; the file ends there. Refusals: 1, 2, 3, 16, 17, 13, 11, 10, 9; a refused write hands back
// the very handle.
pub fn write(
    img: &mut [u8],
    m: Mount,
    handle: Handle,
    buf: &[u8],
    time: u64,
    work: &mut [u8],
) -> CountedOut
    ensures { Writes (mount m.k m.code) img.old work.old handle buf.now time result
        img.new work.new }
{
    call_change::write(img, m, handle, buf, time, work)
}

// Puts buf over the file's bytes from the handle's position on; the file keeps its size. Refusals: 1, 2, 3, 16, 17, 13, 11, 19; a
// refused patch hands back the very handle.
pub fn patch(
    img: &mut [u8],
    m: Mount,
    handle: Handle,
    buf: &[u8],
    time: u64,
    work: &mut [u8],
) -> CountedOut
    ensures { Patches (mount m.k m.code) img.old work.old handle buf.now time result
        img.new work.new }
{
    call_patch::patch(img, m, handle, buf, time, work)
}
