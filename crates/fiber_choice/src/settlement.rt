// A settlement TLC, as a part of the list of them.
ghost use Rattle.std.specs.Prelude.{◌≡◌, length, eqb};
ghost use Rattle.fiber_choice.specs.Entries as S;

use fiber_bytes::{le64, part_of};
use fiber_types::layout::{
    KEY, SETTLEMENT_TLC_EXPIRY, SETTLEMENT_TLC_HASH, SETTLEMENT_TLC_LOCAL_KEY,
    SETTLEMENT_TLC_REMOTE_KEY,
};

// It is whole.
#[derive(Clone, Copy)]
pub struct SettlementTlc<'a> {
    pub bytes: &'a [u8],
    ghost whole: { length bytes.now ≡ S.settlement_len },
}

impl<'a> SettlementTlc<'a> {
    // Received is 0.
    pub fn is_offered(&self) -> bool
        ensures { result ≡ eqb (S.received self.now.bytes.now) 0 }
    {
        self.bytes[0] == 0
    }

    // When it expires, in milliseconds.
    pub fn expiry_ms(&self) -> u64
        ensures { result ≡ S.expiry_ms self.now.bytes.now }
    {
        le64(self.bytes, SETTLEMENT_TLC_EXPIRY)
    }

    pub fn hash(&self) -> &'a [u8]
        ensures value { result.now ≡ S.hash self.now.bytes.now }
        ensures whole { length result.now ≡ 32 }
    {
        &self.bytes[SETTLEMENT_TLC_HASH..SETTLEMENT_TLC_HASH + 32]
    }

    pub fn local_key(&self) -> &'a [u8]
        ensures { result.now ≡ S.local_key self.now.bytes.now }
    {
        part_of(self.bytes, SETTLEMENT_TLC_LOCAL_KEY, KEY)
    }

    pub fn remote_key(&self) -> &'a [u8]
        ensures { result.now ≡ S.remote_key self.now.bytes.now }
    {
        part_of(self.bytes, SETTLEMENT_TLC_REMOTE_KEY, KEY)
    }
}
