// Directories and entries by their path, on any image: the reading half of dir.rs.
// A path is a slice, as the crate path makes it.
#![tactic(auto)]

ghost use Rattle.std.specs.Prelude.{◌≡◌, ◌<◌};
ghost use Rattle.model.specs.Answers.{accepted};
ghost use Rattle.limits.specs.Says.{says, says_by};
ghost use Rattle.super_block.specs.Super.{area_in};
ghost use Rattle.read_dir.specs.Walk.{walk};
ghost use Rattle.read_dir.specs.Finds.{find_in};
ghost use Rattle.dir.specs.Resolve.{on_placed, open_dir, entry_of};
ghost use Rattle.dir.specs.Hold.{root_hold, hold_at, entered, hold_dir};
ghost use Rattle.dir.specs.Post.{number_of, located, hold_of};

use block::Addr;
use dir_entry::{DirEntry, Kind};
use limits::Refusal;
use read_dir::{Place, Placed};
use super_block::Volume;

// The entry at a path: the first address of the directory that holds it, and its fixed part.
#[derive(Clone, Copy)]
pub struct Located {
    pub dir: Addr,
    pub entry: DirEntry,
}

// A directory that a path leads to, with what a change of it needs: its first address, where its own entry stands, and its
// depth. The root is at depth 0 and has no own entry.
#[derive(Clone, Copy)]
pub struct Holding {
    pub dir: Addr,
    pub own: Option<Place>,
    pub depth: usize,
}

// The entry of that name in the directory at `dir`, which is not found where there is none.
pub fn entry_in(v: Volume, dir: Addr, name: &[u8]) -> Result<Placed, Refusal>
    ensures { says result ≡ on_placed (find_in name.now (walk (area_in v.entry.s) v.entry.img.now dir.0)) accepted }
{
    dir_lookup::lookup(v, dir, name)?.ok_or(Refusal::NotFound)
}

// The directory that an entry stands for, in a directory at that depth. Its own entry is that entry, which the way
// leads over: its place is kept.
fn directory(x: Placed, depth: usize) -> Result<Holding, Refusal>
    requires { depth < usize.MAX }
    ensures { says_by hold_of result ≡ hold_at depth x }
{
    match x.entry.kind {
        Kind::Dir => Ok(Holding {
            dir: x.entry.addr,
            own: Some(x.place),
            depth: depth + 1,
        }),
        Kind::File | Kind::Device => Err(Refusal::WrongKind),
    }
}

// The directory of that name in the directory h. An empty name is not found, and nothing is walked for it.
fn enter(v: Volume, h: Holding, name: &[u8]) -> Result<Holding, Refusal>
    requires { h.depth < usize.MAX }
    ensures { says_by hold_of result ≡ entered (area_in v.entry.s) v.entry.img.now (hold_of h) name.now }
{
    if name.is_empty() {
        return Err(Refusal::NotFound);
    }
    directory(entry_in(v, h.dir, name)?, h.depth)
}

// The root of a volume.
fn root(v: Volume) -> Holding
    ensures { hold_of result ≡ root_hold v.entry.s.area.0 }
{
    Holding {
        dir: v.s.area,
        own: None,
        depth: 0,
    }
}

// The directory of that path, by its pieces from the root on. It is no deeper than the path has bytes.
pub fn hold(v: Volume, dir_path: &[u8]) -> Result<Holding, Refusal>
    ensures { says_by hold_of result ≡ hold_dir (area_in v.entry.s) v.entry.img.now dir_path.now }
{
    let mut h = root(v);
    let mut rest = path::way(dir_path);
    while let Some(way) = rest {
        let (name, more) = path::first_piece(way);
        h = enter(v, h, name)?;
        rest = more;
    }
    Ok(h)
}

// The first address of the directory of that path.
pub fn open(v: Volume, dir_path: &[u8]) -> Result<Addr, Refusal>
    ensures { says_by number_of result ≡ open_dir (area_in v.entry.s) v.entry.img.now dir_path.now }
{
    Ok(hold(v, dir_path)?.dir)
}

// The entry at a full path. An empty last name is not found, and nothing is walked for it.
pub fn find(v: Volume, full: &[u8]) -> Result<Located, Refusal>
    ensures { says_by located result ≡ entry_of (area_in v.entry.s) v.entry.img.now full.now }
{
    let parts = path::parts_of(full);
    if parts.name.is_empty() {
        return Err(Refusal::NotFound);
    }
    let dir = open(v, parts.dir)?;
    let found = entry_in(v, dir, parts.name)?;
    Ok(Located {
        dir,
        entry: found.entry,
    })
}
