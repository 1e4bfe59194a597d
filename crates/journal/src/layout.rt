// Lengths and places of an entry. include/fiber_settlement.h has the same, with FIBER_ in front. A name that says no part is a length.

// Channel id 32, unlock byte 1, flag 1, amount 16; then the trailer: start of the entry before 8, own length 4.
pub const JOURNAL_ENTRY: usize = 62;

pub const JOURNAL_UNLOCK: usize = 32;

pub const JOURNAL_FLAG: usize = 33;

pub const JOURNAL_AMOUNT: usize = 34;

pub const JOURNAL_BEFORE: usize = 50;

pub const JOURNAL_LENGTH: usize = 58;

// Where the start of the entry before would stand, in an entry that has none before it.
pub const JOURNAL_NO_ENTRY: u64 = 0xffff_ffff_ffff_ffff;

// No entry goes behind so many.
pub const JOURNAL_MOST_ENTRIES: usize = 65535;
