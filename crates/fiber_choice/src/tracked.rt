// A tracked TLC, as a part of the tracked list: the 32 bytes of the TLC's hash, its algorithm, and its record.
ghost use Rattle.std.specs.Prelude.{◌≡◌, ◌+◌, length};
ghost use Rattle.fiber_types.specs.Records.{tlc_at};
ghost use Rattle.fiber_choice.specs.Entries as S;

use fiber_bytes::part_of;
use fiber_types::hash_len::HashLen;
use fiber_types::layout::{TRACKED_ALGORITHM, TRACKED_RECORD};
use fiber_types::tlc;
use fiber_types::tlc::Tlc;

// It is whole, on a channel whose hashes have h bytes.
#[derive(Clone, Copy)]
pub struct TrackedTlc<'a> {
    pub h: HashLen,
    pub bytes: &'a [u8],
    ghost whole: { length bytes.now ≡ 98 + h.bytes },
}

impl<'a> TrackedTlc<'a> {
    pub fn hash(&self) -> &'a [u8]
        ensures { result.now ≡ S.tracked_hash self.now.bytes.now }
    {
        part_of(self.bytes, 0, 32)
    }

    // The layout's byte, as it is: `digest` alone asks which hash it names.
    pub fn algorithm(&self) -> u8
        ensures { result ≡ S.tracked_algorithm self.now.bytes.now }
    {
        self.bytes[TRACKED_ALGORITHM]
    }

    #[tactic(auto, using(crate::proofs::EntriesLaws::record_rest))]
    pub fn record(&self) -> &'a [u8]
        ensures { result.now ≡ S.tracked_record self.now.bytes.now }
    {
        &self.bytes[TRACKED_RECORD..]
    }

    // The numbers in its record, which is whole, so that reading it is never turned down.
    #[tactic(auto, using(crate::proofs::EntriesLaws::tracked_read))]
    pub fn tlc(&self) -> Tlc
        ensures { result ≡ tlc_at self.now.h.bytes (S.tracked_record self.now.bytes.now) 0 }
    {
        tlc::read(self.h.bytes, self.record(), 0).unwrap()
    }
}
