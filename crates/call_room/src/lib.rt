// Whether so many blocks are free, and how many bytes of the bitmap that takes to tell: the search of `bitmap_room`, of an image.
#![tactic(auto)]

ghost use Rattle.model.specs.Geometry.{mount};
ghost use Rattle.call_room.specs.Room.{Asks};

use bitmap_room::Told;
use limits::Refusal;
use super_block::{Mount, SuperBlock, Volume};

// Whether so many blocks are free on the image's volume. Refusals: 1, 2, 3.
pub fn room(img: &[u8], m: Mount, count: u32) -> Result<Told, Refusal>
    ensures { Asks (mount m.k m.code) img.now count result }
{
    let s = SuperBlock::read(img, m)?;
    Ok(bitmap_room::room_in(Volume { img, s }, count))
}
