// One entry: an accepted unlock, put on file.
ghost use Rattle.std.specs.Prelude.{◌≡◌, length};

use fiber_types::tlc::Amount;

// Unlock byte and flag stand in the journal as they are given here.
#[derive(Clone, Copy, Debug, PartialEq, Eq)]
pub struct Entry {
    pub channel: [u8; 32],
    pub unlock: u8,
    pub flag: u8,
    pub amount: Amount,
    // what the array says of itself, for proofs about a list of entries
    ghost channel_32: { length channel ≡ 32 },
}
