// How many bytes the hashes of a channel have.
ghost use Rattle.std.specs.Prelude.{◌≡◌, true, ◌+◌, ◌≤◌};
ghost use Rattle.fiber_types.specs.HashLen.{valid_hash_len};

use crate::layout::{RECORD_FIXED, TRACKED_FIXED};
use crate::tlc::valid_hash_len;
use fiber_refusal::Refusal;

// 20 bytes, or 32 on a channel with full hashes.
#[derive(Clone, Copy)]
pub struct HashLen {
    pub bytes: usize,
    ghost valid: { valid_hash_len bytes ≡ true },
    ghost small: { bytes ≤ 32 },
}

impl HashLen {
    // The bytes of a TLC's record.
    pub fn record_len(self) -> usize
        ensures { result ≡ 65 + self.bytes }
    {
        RECORD_FIXED + self.bytes
    }

    // The bytes of a tracked TLC.
    pub fn tracked_len(self) -> usize
        ensures { result ≡ 98 + self.bytes }
    {
        TRACKED_FIXED + self.bytes
    }
}

impl TryFrom<usize> for HashLen {
    type Error = Refusal;

    ghost use Rattle.fiber_types.specs.Taken.{TakesLen};

    ghost try_from_gives = { TakesLen };

    #[tactic(auto, using(crate::proofs::RecordsLaws::hash_len_small))]
    fn try_from(h: usize) -> Result<Self, Refusal> {
        if valid_hash_len(h) {
            Ok(HashLen { bytes: h })
        } else {
            Err(Refusal::NotWell)
        }
    }
}
