// Creating a file or a directory by its full path, on a volume that is opened and checked: refusals 8, 5, 6, 15, 7, 9 in this
// order, then the stores of `create_store`.
// (Image and numbers are lent apart, as bitmap_block says.)
#![tactic(auto)]

ghost use Rattle.std.specs.Prelude.{◌≡◌, ◌&&◌, leb, length, IfOk};
ghost use Rattle.model.specs.Volume.{max_depth};
ghost use Rattle.limits.specs.Says.{says_by};
ghost use Rattle.super_block.specs.Super.{area_in, geo_of, Ready};
ghost use Rattle.dir_entry.specs.Entry.{is_dir};
ghost use Rattle.own_entry.specs.Own.{OwnIn};
ghost use Rattle.create_store.specs.Create.{spot_for};
ghost use Rattle.dir.specs.Post.{hold_of};
ghost use Rattle.create.specs.Creating.{bad_name, site_at, site_in, fresh_of, created_on, image_at, created_image};
ghost use Rattle.create.specs.Post.{sited, SitedIn, made};

use block::Addr;
use create_store::Spot;
use dir::Holding;
use dir_entry::{Kind, Name};
use limits::Refusal;
use super_block::{SuperBlock, Volume};

// The longest name.
const NAME_LIMIT: usize = 255;

// The holding directory's first address, and the new entry's block.
#[derive(Clone, Copy)]
pub struct Created {
    pub dir: Addr,
    pub block: Addr,
}

// Whether no entry can have that name.
fn bad_name(name: &[u8]) -> bool
    ensures { result ≡ bad_name name.now }
{
    name.is_empty() || NAME_LIMIT < name.len()
}

// Whether a directory in one at that depth would be too deep.
fn too_deep(kind: Kind, depth: usize) -> bool
    ensures { result ≡ (is_dir kind && leb max_depth depth) }
{
    kind == Kind::Dir && limits::MAX_DEPTH as usize <= depth
}

// The spot of a name of len bytes in the directory h: all that the stores need is known before the first of them.
fn site_at(v: Volume, h: Holding, len: u8) -> Result<Spot, Refusal>
    requires { Ready v.s v.img.now }
    ensures result_value { says_by (sited (hold_of h)) result ≡ site_at (geo_of v.entry.s) v.entry.img.now (hold_of h)
        (spot_for (area_in v.entry.s) v.entry.img.now h.dir.0 len) }
    ensures sited_in { IfOk result (SitedIn v.entry.s v.entry.img.now len) }
{
    let spot = create_store::spot_for(v, h.dir, len)?;
    let needed = create_store::blocks_needed(spot);
    if bitmap_room::lacks(v, needed) {
        return Err(Refusal::NoRoom);
    }
    Ok(spot)
}

// The spot of a new name in the directory h.
fn site_in(v: Volume, h: Holding, kind: Kind, name: Name) -> Result<Spot, Refusal>
    requires { Ready v.s v.img.now }
    ensures result_value { says_by (sited (hold_of h)) result ≡ site_in (geo_of v.entry.s) v.entry.img.now
        kind name.entry.bytes.now (hold_of h) }
    ensures sited_in { IfOk result (SitedIn v.entry.s v.entry.img.now (length name.entry.bytes.now)) }
{
    if too_deep(kind, h.depth) {
        return Err(Refusal::TooDeep);
    }
    if dir_lookup::lookup(v, h.dir, name.bytes)?.is_some() {
        return Err(Refusal::Exists);
    }
    site_at(v, h, name.len())
}

// Creates the entry in the directory h.
fn create_in(
    img: &mut [u8],
    s: SuperBlock,
    h: Holding,
    kind: Kind,
    name: Name,
    time: u64,
) -> Result<Created, Refusal>
    requires ready { Ready s img.old }
    requires own_in { OwnIn s.size img.old h.own }
    ensures result_value { says_by made result ≡ fresh_of (geo_of s) img.old
        (site_in (geo_of s) img.old kind name.entry.bytes.now (hold_of h)) }
    ensures img_after { img.new ≡ image_at (geo_of s) img.old kind name.entry.bytes.now time
        (site_in (geo_of s) img.old kind name.entry.bytes.now (hold_of h)) }
{
    let spot = site_in(Volume { img, s }, h, kind, name)?;
    let block = create_store::insert(img, s, h.dir, spot, h.own, kind, name, time);
    Ok(Created { dir: h.dir, block })
}

// Creates a file or a directory at a full path. Refusals: 8, 5, 6, 15, 7, 9; on a checked volume never 17.
pub fn create(
    img: &mut [u8],
    s: SuperBlock,
    full: &[u8],
    kind: Kind,
    time: u64,
) -> Result<Created, Refusal>
    requires { Ready s img.old }
    ensures result_value { says_by made result ≡ created_on (geo_of s) img.old kind full.now }
    ensures img_after { img.new ≡ created_image (geo_of s) img.old kind full.now time }
{
    let parts = path::parts_of(full);
    if bad_name(parts.name) {
        return Err(Refusal::BadName);
    }
    let name = Name { bytes: parts.name };
    let h = dir::hold(Volume { img, s }, parts.dir)?;
    create_in(img, s, h, kind, name, time)
}
