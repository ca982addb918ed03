// Creating a file or a directory: where the new entry goes in its directory, and the stores that put it there.
// specs/Create.antt says each step; proofs/ shows that on a well-formed volume they are the tree's edit.
// (Image and numbers are lent apart, as bitmap_block says.)
#![tactic(auto)]

ghost use Rattle.std.specs.Prelude.{◌≡◌, ◌++◌, ◌+◌, ◌-◌, ◌*◌, ◌≤◌, ◌<◌, length};
ghost use Rattle.wire.specs.Be.{splice};
ghost use Rattle.block.specs.Block.{linked};
ghost use Rattle.super_block.specs.Super.{area_in, geo_of, Fit};
ghost use Rattle.bitmap_block.specs.Bitmap.{fresh, Room};
ghost use Rattle.dir_entry.specs.Entry.{header, head_bytes, place_at};
ghost use Rattle.own_entry.specs.Own.{OwnIn};
ghost use Rattle.create_store.specs.Create.{used_at, spot_for, needed, SpotIn, block_taken, opened, place_in};
ghost use Rattle.create_store.specs.Create.{entered, inserted, inserted_at};

use block::{Addr, Index, LinkedBlock, VolumeBlock};
use dir_entry::{DirEntry, Kind, Name};
use limits::Damage;
use read_dir::Place;
use super_block::{SuperBlock, Volume};

// Where a new entry goes: at a place of the directory, or into a new block after its last one.
#[derive(Clone, Copy)]
pub enum Spot {
    In(Place),
    After(Addr),
}

// The offset where a block's entries stop.
fn used_bytes(v: Volume, block: Addr) -> usize
    requires { v.s.size * block.0 + v.s.size ≤ length v.img.now }
    ensures { (result ≡ used_at v.entry.s.size v.entry.img.now block.0) × (result ≤ v.entry.s.size - 5) }
{
    let block = v.block(block);
    let mut at: usize = 0;
    while let Some(e) = DirEntry::decode(v.img, block, at) {
        at += DirEntry::HEADER + usize::from(e.len);
    }
    at
}

// The first block of the chain with room for a name of len bytes, else its last one. Each is looked at before it is read.
pub fn spot_for(v: Volume, dir: Addr, len: u8) -> Result<Spot, Damage>
    ensures { result ≡ spot_for (area_in v.entry.s) v.entry.img.now dir.0 len }
{
    let d = v.s.area;
    let capacity = (v.s.size - LinkedBlock::LINK) as usize;
    let mut b = dir;
    for _ in d.0..v.s.blocks {
        if !v.has(b) {
            return Err(Damage);
        }
        let used = used_bytes(v, b);
        if used + DirEntry::HEADER + len as usize <= capacity - 1 {
            return Ok(Spot::In(Place {
                block: b,
                offset: used,
            }));
        }
        let next = v.next_addr(b);
        if next.0 == 0 {
            return Ok(Spot::After(b));
        }
        b = next;
    }
    Err(Damage)
}

// How many blocks an entry at that spot takes.
pub fn blocks_needed(spot: Spot) -> u32
    ensures { result ≡ needed spot }
{
    match spot {
        Spot::In(_) => 1,
        Spot::After(_) => 2,
    }
}

// Takes the lowest clear block.
fn take_block(img: &mut [u8], s: SuperBlock) -> Addr
    requires fit { Fit s img.old }
    requires room { Room (geo_of s) img.old 1 }
    ensures { (img.new ≡ block_taken (geo_of s) img.old) × (result.0 ≡ fresh (geo_of s) img.old) }
{
    let d = s.area;
    let x = bitmap_block::alloc(img, s, Index(0));
    x.addr(d)
}

// Takes a block and links it after the last one of a chain.
fn grow(img: &mut [u8], s: SuperBlock, last: Addr) -> Addr
    requires fit { Fit s img.old }
    requires room { Room (geo_of s) img.old 1 }
    requires size_in_bounds { s.size * last.0 + s.size ≤ length img.old }
    ensures { (img.new ≡ linked s.size (block_taken (geo_of s) img.old)
        last.0 (fresh (geo_of s) img.old))
        × (result.0 ≡ fresh (geo_of s) img.old) }
{
    let a = take_block(img, s);
    VolumeBlock::new(s.size, last).set_next_addr(img, a);
    a
}

// The place for the entry: in a block with room, or at the start of a new one.
fn open_place(img: &mut [u8], s: SuperBlock, spot: Spot, len: u8) -> Place
    requires fit { Fit s img.old }
    requires room { Room (geo_of s) img.old (needed spot) }
    requires spot_in { SpotIn (area_in s) len spot }
    ensures { (img.new ≡ opened (geo_of s) img.old spot)
        × (result ≡ place_in (geo_of s) img.old spot) }
{
    match spot {
        Spot::In(p) => p,
        Spot::After(last) => Place {
            block: grow(img, s, last),
            offset: 0,
        },
    }
}

// Stores an entry's fixed part and its name.
fn store_entry(img: &mut [u8], block: VolumeBlock, offset: usize, e: DirEntry, name: &[u8])
    requires size_in_bounds { block.size * block.addr.0 + block.size ≤ length img.old }
    requires name_bound { offset + header + length name.now ≤ block.size - 5 }
    ensures { img.new ≡ splice img.old (place_at block.size block.addr.0 offset) (head_bytes e ++ name.now) }
{
    let at = dir_entry::place(block, offset);
    e.store(img, at);
    wire::copy(img, at + DirEntry::HEADER, name, 0, name.len());
}

// Takes the entry's own block, and stores the entry.
fn enter(img: &mut [u8], s: SuperBlock, p: Place, kind: Kind, name: Name, time: u64) -> Addr
    requires fit { Fit s img.old }
    requires room { Room (geo_of s) img.old 1 }
    requires size_in_bounds { s.size * p.block.0 + s.size ≤ length img.old }
    requires name_bound { p.offset + header + length name.bytes.now ≤ s.size - 5 }
    ensures { (img.new ≡ entered (geo_of s) img.old p kind name.entry.bytes.now time)
        × (result.0 ≡ fresh (geo_of s) img.old) }
{
    let a = take_block(img, s);
    let e = DirEntry {
        kind,
        addr: a,
        size: 0,
        time,
        len: name.len(),
    };
    store_entry(
        img,
        VolumeBlock::new(s.size, p.block),
        p.offset,
        e,
        name.bytes,
    );
    a
}

// The stores of a create: the entry goes to its spot, and the directory's own entry is renewed. Answers the entry's block.
pub fn insert(
    img: &mut [u8],
    s: SuperBlock,
    dir: Addr,
    spot: Spot,
    own: Option<Place>,
    kind: Kind,
    name: Name,
    time: u64,
) -> Addr
    requires fit { Fit s img.old }
    requires room { Room (geo_of s) img.old (needed spot) }
    requires spot_in { SpotIn (area_in s) (length name.bytes.now) spot }
    requires own_in { OwnIn s.size img.old own }
    ensures { (img.new ≡ inserted (geo_of s) img.old dir.0 spot own kind name.entry.bytes.now time)
        × (result.0 ≡ inserted_at (geo_of s) img.old spot) }
{
    let p = open_place(img, s, spot, name.len());
    let a = enter(img, s, p, kind, name, time);
    own_entry::renew_sum(img, s, dir, own, time);
    a
}
