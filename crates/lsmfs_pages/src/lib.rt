// What the listing program writes, made in a lent buffer: a page of the root's lines at a time, or why an image is refused. The
// program itself reads the image and writes these bytes, which no contract can say.
// (`out` is a slice with a least length and no array: a caller may lend a longer one.)
#![tactic(auto)]

ghost use Rattle.std.specs.Prelude.{◌≤◌, length};
ghost use Rattle.model.specs.Geometry.{mount};
ghost use Rattle.limits.specs.Refusals.{refusal_number};
ghost use Rattle.lsmfs_lines.specs.Line.{refused_line};
ghost use Rattle.lsmfs_pages.specs.Page.{Pages};
ghost use Rattle.lsmfs_pages.specs.Says.{Told, Says};

use limits::Refusal;
use read_dir::Listed;
use super_block::Mount;

// The size code of the images that are listed: blocks of 512 bytes.
const CODE: u32 = 0;

// How many bytes of text stand at the buffer's start, and the number of the entry after them: where that is the number asked for,
// nothing is left.
#[derive(Clone, Copy)]
pub struct Said {
    pub len: usize,
    pub next: u32,
}

// The lines of the root's entries from number i on, as many as have their records in 1,024 bytes, which one of the longest
// name has: how many bytes of text, and the number of the entry after them. Refusals: 1, 2, 3, 17.
pub fn page(img: &[u8], k: u32, i: u32, out: &mut [u8]) -> Result<Listed, Refusal>
    requires { 3072 ≤ length out.old }
    ensures { Pages (mount k 0) img.now i 1024 out.old out.new result }
{
    let mut records = [0u8; 1024];
    let l = mfs::list(img, Mount { k, code: CODE }, b"/", b"/", i, &mut records)?;
    let bytes = lsmfs_lines::text(out, &records[..l.bytes]);
    Ok(Listed {
        bytes,
        next: l.next,
    })
}

// `refused N` and a newline.
fn refused(out: &mut [u8], r: Refusal, i: u32) -> Said
    requires { 3072 ≤ length out.old }
    ensures { Told out.old out.new (refused_line (refusal_number r)) i result }
{
    let len = lsmfs_lines::refused_line(out, u32::from(r.number()));
    Said { len, next: i }
}

// What is to be written of an image of at most 65,536 bytes from its root's entry number i on; `more` says that the input goes on
// after them. 16 bytes of work buffer have a bit for each block. Refusals: 1, 2, 3, 16, 17.
pub fn say(img: &[u8], k: u32, more: bool, i: u32, out: &mut [u8]) -> Said
    requires { 3072 ≤ length out.old }
    ensures { Says (mount k 0) img.now more i out.old out.new result }
{
    if more {
        return refused(out, Refusal::BadImage, i);
    }
    let mut work = [0u8; 16];
    if let Err(r) = mfs::check(img, Mount { k, code: CODE }, &mut work) {
        return refused(out, r, i);
    }
    match page(img, k, i, out) {
        Ok(lines) => Said {
            len: lines.bytes,
            next: lines.next,
        },
        Err(r) => refused(out, r, i),
    }
}
