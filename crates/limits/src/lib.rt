// What all calls share: the refusals with their numbers, the limits of a volume, how many blocks a file has
// and how many bytes a block.
#![tactic(auto)]

ghost use Rattle.std.specs.Prelude.{◌≡◌, ◌-◌, ◌<◌, min};
ghost use Rattle.block.specs.Block.{BlockSize};
ghost use Rattle.limits.specs.Refusals.{refusal_number};
ghost use Rattle.model.specs.Volume.{blocks_for};

use block::LinkedBlock;

// The most bytes of a file.
pub const FILE_LIMIT: u32 = 2_147_483_647;

// The most levels of directories below the root, which is at depth 0.
pub const MAX_DEPTH: u32 = 16;

// How many blocks a file of that size has, where a block has block_size bytes.
pub fn blocks_for(block_size: u32, size: u32) -> u32
    requires { BlockSize block_size }
    ensures { result ≡ blocks_for block_size size }
{
    if size == 0 {
        return 1;
    }
    (size - 1) / (block_size - LinkedBlock::LINK) + 1
}

// How many of k bytes stand from data byte o on in a block that has so many.
pub fn run_of(capacity: usize, o: usize, k: usize) -> usize
    requires { o < capacity }
    ensures { result ≡ min k (capacity - o) }
{
    k.min(capacity - o)
}

// What a walk over an image meets where it leads out of the data area or never ends: refusal 17 of the call that walks.
#[derive(Clone, Copy)]
pub struct Damage;

// Why a call is refused, in the order of the rules R.
#[derive(Clone, Copy)]
pub enum Refusal {
    // 1: the image is empty, no multiple of the block size, over the limit, or ends before the bitmap
    BadImage = 1,
    // 2: block K does not begin as a superblock that is known
    NotMfs = 2,
    // 3: the block count
    BadCount = 3,
    // 4: the path's length or a byte of it; a working directory that does not start with a slash
    BadPath = 4,
    // 5
    NotFound = 5,
    // 6: a part of the path is no directory, open is not on a file, list not on a directory
    WrongKind = 6,
    // 7
    Exists = 7,
    // 8: a create's last name is empty or over 255 bytes
    BadName = 8,
    // 9: too few blocks are free in reach
    NoRoom = 9,
    // 10: the file passes its limit
    TooLarge = 10,
    // 11: the handle is stale
    Stale = 11,
    // 12: the seek target is outside the file
    BadSeek = 12,
    // 13
    EmptyWrite = 13,
    // 14: it is a directory, and not empty
    NotEmpty = 14,
    // 15: one level deeper than directories go
    TooDeep = 15,
    // 16: the work buffer is too short
    ShortWork = 16,
    // 17; the number 18 is not used
    Damaged = 17,
    // 19: a patch would end past the file's size
    PastEnd = 19,
}

impl From<Damage> for Refusal {
    ghost use Rattle.limits.specs.declared.Refusal.TheVariants as refusal;

    ghost from_gives = { λ _ r. r ≡ refusal.Damaged };

    fn from(_met: Damage) -> Refusal {
        Refusal::Damaged
    }
}

impl Refusal {
    // The number of its rule: R1 is 1.
    pub fn number(self) -> u8
        ensures { result ≡ refusal_number self }
    {
        self as u8
    }
}
