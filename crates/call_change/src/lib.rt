// The public calls that change a volume: create, delete and write, each after the whole check. Their answers for a caller are
// those of `mfs`, which passes them on.
#![tactic(auto)]

ghost use Rattle.std.specs.Prelude.{◌≡◌, length};
ghost use Rattle.model.specs.Geometry.{mount};
ghost use Rattle.model.specs.Answers.{accepted, and_then};
ghost use Rattle.limits.specs.Says.{says};
ghost use Rattle.path.specs.Path.{real_path, last_name};
ghost use Rattle.call_volume.specs.Checking.{work_after};
ghost use Rattle.call_change.specs.Changing.{BeginIs, create_reply, create_image, fresh_handle, CreatesFile, CreatesDir};
ghost use Rattle.call_change.specs.Changing.{Deletes, Writes};

use call_read::OpenOut;
use dir_entry::{Kind, Name};
use handle::{CountedOut, Handle};
use limits::Refusal;
use super_block::{Mount, SuperBlock};

// What a change by a path begins with, once the volume is checked: its numbers, and the full path in the first bytes of `full`.
// Refusals: 1, 2, 3, 16, 17, 4.
fn begin(
    img: &[u8],
    m: Mount,
    cwd: &[u8],
    path: &[u8],
    work: &mut [u8],
    full: &mut [u8; path::PATH_LIMIT],
) -> Result<(SuperBlock, usize), Refusal>
    ensures begin_is { BeginIs (mount m.k m.code) img.now work.old cwd.now path.now full.new result }
    ensures work_after { work.new ≡ work_after (mount m.k m.code) img.now work.old }
{
    let s = call_volume::open_checked(img, m, work)?;
    let n = path::realpath(full, cwd, path)?;
    Ok((s, n))
}

// Creates an empty entry of that kind at a path: what a handle on it holds.
fn create_at(
    img: &mut [u8],
    m: Mount,
    cwd: &[u8],
    path: &[u8],
    kind: Kind,
    time: u64,
    work: &mut [u8],
) -> Result<Handle, Refusal>
    ensures result_value { says result
        ≡ and_then (create_reply kind (mount m.k m.code) img.old (length work.old) cwd.now path.now)
        (λ f. accepted (fresh_handle (last_name (real_path cwd.now path.now)) f)) }
    ensures img_after { img.new ≡ create_image kind (mount m.k m.code) img.old (length work.old) cwd.now path.now time }
    ensures work_after { work.new ≡ work_after (mount m.k m.code) img.old work.old }
{
    let mut full = [0u8; path::PATH_LIMIT];
    let (s, n) = begin(img, m, cwd, path, work, &mut full)?;
    let created = create::create(img, s, &full[..n], kind, time)?;
    let bytes = path::parts_of(&full[..n]).name;
    Ok(Handle::new(created.dir, Name { bytes }, created.block, 0))
}

// Creates a file of 0 bytes at a path, and opens it. Refusals: 1, 2, 3, 16, 17, 4, 8, 5, 6, 7, 9.
pub fn create_file(
    img: &mut [u8],
    m: Mount,
    cwd: &[u8],
    path: &[u8],
    time: u64,
    work: &mut [u8],
) -> OpenOut
    ensures { CreatesFile (mount m.k m.code) img.old work.old cwd.now path.now time
        result img.new work.new }
{
    OpenOut::from(create_at(img, m, cwd, path, Kind::File, time, work))
}

// Creates an empty directory at a path. Refusals: 1, 2, 3, 16, 17, 4, 8, 5, 6, 15, 7, 9.
pub fn create_dir(
    img: &mut [u8],
    m: Mount,
    cwd: &[u8],
    path: &[u8],
    time: u64,
    work: &mut [u8],
) -> Result<(), Refusal>
    ensures { CreatesDir (mount m.k m.code) img.old work.old cwd.now path.now time
        result img.new work.new }
{
    create_at(img, m, cwd, path, Kind::Dir, time, work)?;
    Ok(())
}

// Deletes the file, the device or the empty directory at a path. Refusals: 1, 2, 3, 16, 17, 4, 5, 6, 14.
pub fn delete(
    img: &mut [u8],
    m: Mount,
    cwd: &[u8],
    path: &[u8],
    time: u64,
    work: &mut [u8],
) -> Result<(), Refusal>
    ensures { Deletes (mount m.k m.code) img.old work.old cwd.now path.now time result
        img.new work.new }
{
    let mut full = [0u8; path::PATH_LIMIT];
    let (s, n) = begin(img, m, cwd, path, work, &mut full)?;
    delete::delete(img, s, &full[..n], time)
}

// Writes on a volume that is checked first: the handle is moved where the write is not refused.
fn write_on(
    img: &mut [u8],
    m: Mount,
    handle: &mut Handle,
    buf: &[u8],
    time: u64,
    work: &mut [u8],
) -> Result<usize, Refusal>
    ensures { Writes (mount m.k m.code) img.old work.old handle.old buf.now time
        (record { answer = result; handle = handle.new }) img.new work.new }
{
    let s = call_volume::open_checked(img, m, work)?;
    write::write(handle, img, s, buf, time)
}

// Writes buf at the handle's position; the file ends there. Refusals: 1, 2, 3, 16, 17, 13, 11, 10, 9; a refused write hands back
// the very handle.
pub fn write(
    img: &mut [u8],
    m: Mount,
    mut handle: Handle,
    buf: &[u8],
    time: u64,
    work: &mut [u8],
) -> CountedOut
    ensures { Writes (mount m.k m.code) img.old work.old handle buf.now time result
        img.new work.new }
{
    let answer = write_on(img, m, &mut handle, buf, time, work);
    CountedOut { answer, handle }
}
