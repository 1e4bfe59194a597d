// Lengths of what lies in bytes, and where its parts begin: the one place for those that more than one function needs. include/fiber_settlement.h has
// the same, with FIBER_ or FIBER_SETTLEMENT_ in front, and tools/header compares the two. A name that says no part is a length. The contracts speak of
// these by definitions of their own, from document 01, so that a wrong number here is refused.

// A public key, and its hash.
pub const KEY: usize = 33;

pub const KEY_HASH: usize = 20;

// A TLC record has this many bytes beside its hash of h bytes.
pub const RECORD_FIXED: usize = 65;

// An unlock without a preimage, and with one.
pub const UNLOCK: usize = 67;

pub const UNLOCK_WITH_PREIMAGE: usize = 99;

// The bytes that unlock a share; any other is the place of a TLC.
pub const UNLOCK_REMOTE: usize = 0xfe;

pub const UNLOCK_LOCAL: usize = 0xff;

// A share, and where its amount begins, behind the key hash.
pub const SHARE_LEN: usize = 36;

pub const SHARE_AMOUNT: usize = 20;

// Both shares, and a state beside its TLCs: their count and both shares.
pub const SHARES: usize = 72;

pub const STATE_FIXED: usize = 73;

// A state has 254 TLCs at most where one of them is chosen: place 254 would be the byte of a share.
pub const MOST_TLCS: usize = 254;

// A settlement TLC, and where its fields begin behind received and algorithm.
pub const SETTLEMENT_TLC: usize = 124;

pub const SETTLEMENT_TLC_AMOUNT: usize = 2;

pub const SETTLEMENT_TLC_HASH: usize = 18;

pub const SETTLEMENT_TLC_EXPIRY: usize = 50;

pub const SETTLEMENT_TLC_LOCAL_KEY: usize = 58;

pub const SETTLEMENT_TLC_REMOTE_KEY: usize = 91;

// A tracked TLC beside its record's hash of h bytes; behind a payment hash of 32 come the algorithm and the record.
pub const TRACKED_FIXED: usize = 98;

pub const TRACKED_ALGORITHM: usize = 32;

pub const TRACKED_RECORD: usize = 33;

// A pair of hash and preimage, and where its preimage begins.
pub const PAIR: usize = 64;

pub const PAIR_PREIMAGE: usize = 32;
