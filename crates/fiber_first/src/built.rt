// The records and shares that a commitment starts with, built from what the host lends. The length of hashes and the sides go in front of each, and in no
// struct: the face takes them so, and a struct of the two would be made at each call.
ghost use Rattle.std.specs.Prelude.{◌≡◌, true, cond, ◌+◌, ◌≤◌, length, replicate};
ghost use mathlib.Core.List.{flatten};
ghost use Rattle.std.proofs.lemmas.List.Edits.{sets};
ghost use Rattle.fiber_choice.specs.Entries.{entries, all, valid_settlement, settlement_len, tracked_len, tracked_record, tracked_records, same, same_lists};
ghost use Rattle.fiber_choice.specs.Request.{data_of};
ghost use Rattle.fiber_choice.specs.FirstRecords as S;

use crate::lent::{settlement_tlcs, tracked_tlcs};
use fiber_bytes::put;
use fiber_choice::checked::Checked;
use fiber_choice::request::SettlementData;
use fiber_choice::settlement::SettlementTlc;
use fiber_types::blake2b::ckb_hash;
use fiber_types::hash_len::HashLen;
use fiber_types::layout::{
    KEY, KEY_HASH, SETTLEMENT_TLC, SETTLEMENT_TLC_AMOUNT, SHARE_AMOUNT, SHARE_LEN, TRACKED_RECORD,
};
use fiber_types::tlc;
use fiber_types::tlc::{Amount, Tlc, amount_at, put_amount};

// The bytes of the longest record, whose hash has 32.
const LONGEST_RECORD: usize = 97;

// A key's hash; zeros for a key that is none. Its length is asked here, since the Result of `key_hash` is copied in pieces of which none is aligned:
// that took a record 27 ns more.
#[tactic(auto, using(fiber_types::proofs::KeyLaws::hash_taken, fiber_types::proofs::KeyLaws::hash_none))]
pub fn hash_of(key: &[u8]) -> [u8; KEY_HASH]
    ensures { result ≡ S.hash_of key.now }
{
    let mut hash = [0; KEY_HASH];
    if key.len() == KEY {
        hash.copy_from_slice(&ckb_hash(key)[..KEY_HASH]);
    }
    hash
}

// The record of a settlement TLC, to the front of a buffer that has room for it. The buffer is lent, so that the record
// is not copied out of one.
#[tactic(auto, unfolding(fiber_choice::specs::Entries::valid_settlement))]
pub fn put_first(h: HashLen, for_remote: bool, tlc: &SettlementTlc<'_>, buffer: &mut [u8])
    requires { (valid_settlement tlc.now.bytes.now ≡ true) × (65 + h.bytes ≤ length buffer.old) }
    ensures { buffer.new ≡ sets buffer.old 0 (S.first_record h.bytes for_remote tlc.now.bytes.now) }
{
    let numbers = Tlc {
        kind: tlc.bytes[1] * 2 + tlc.bytes[0],
        amount: amount_at(tlc.bytes, SETTLEMENT_TLC_AMOUNT),
        expiry: 0x4000_0000_0000_0000 + tlc.expiry_ms() / 1000,
    };
    let hash = &tlc.hash()[..h.bytes];
    let local = hash_of(tlc.local_key());
    let remote = hash_of(tlc.remote_key());
    // The hash and the key hashes have their lengths, and the buffer has room, so that the record is written.
    let _ = if for_remote {
        tlc::write(numbers, hash, &remote, &local, buffer)
    } else {
        tlc::write(numbers, hash, &local, &remote, buffer)
    };
}

// Whether the record of a settlement TLC is that of a tracked one.
#[tactic(auto, using(fiber_choice::proofs::FirstRecordsLaws::first_back, fiber_choice::proofs::EntriesLaws::record_rest))]
fn is_record_of(h: HashLen, for_remote: bool, tlc: &[u8], tracked: &[u8]) -> bool
    requires well { (valid_settlement tlc.now ≡ true) × (length tlc.now ≡ 124) }
    requires whole { length tracked.now ≡ 98 + h.bytes }
    ensures { result ≡ same (S.first_record h.bytes for_remote tlc.now) (tracked_record tracked.now) }
{
    let mut record = [0; LONGEST_RECORD];
    put_first(h, for_remote, &SettlementTlc { bytes: tlc }, &mut record);
    record[..h.record_len()] == tracked[TRACKED_RECORD..]
}

// Whether the records of the settlement TLCs are those of the tracked list, one for one.
pub fn same_as_tracked(q: &Checked<'_>) -> bool
    requires { all valid_settlement (entries settlement_len q.now.settlement.tlcs.now) ≡ true }
    ensures { result ≡ same_lists (S.first_records q.now.h.bytes q.now.for_remote (entries settlement_len q.now.settlement.tlcs.now))
        (tracked_records (entries (tracked_len q.now.h.bytes) q.now.tracked.now)) }
{
    let h = q.h;
    let for_remote = q.for_remote;
    let tlcs = q.settlement.tlcs;
    tlcs.len() / SETTLEMENT_TLC == q.tracked_count()
        && settlement_tlcs(tlcs)
            .zip(tracked_tlcs(h, q.tracked))
            .all(|(tlc, tracked)| is_record_of(h, for_remote, tlc, tracked))
}

// A share: key hash 20, amount 16.
fn share_of(key: &[u8], amount: Amount) -> [u8; SHARE_LEN]
    ensures { result ≡ S.share_bytes key.now amount }
{
    let mut share = [0; SHARE_LEN];
    put(&mut share, 0, &hash_of(key));
    put_amount(&mut share, SHARE_AMOUNT, amount);
    share
}

// Both shares, as they are built. Arrays, where `Shares` of fiber_witness lends: here they live.
#[derive(Clone, Copy)]
pub struct BuiltShares {
    pub remote: [u8; SHARE_LEN],
    pub local: [u8; SHARE_LEN],
}

// Without for_remote the sides are swapped.
#[tactic(auto, unfolding(fiber_choice::specs::FirstRecords::first_remote, fiber_choice::specs::FirstRecords::first_local))]
pub fn first_shares(for_remote: bool, lent: &SettlementData<'_>) -> BuiltShares
    ensures remote { result.remote ≡ S.first_remote for_remote (data_of lent.now) }
    ensures local { result.local ≡ S.first_local for_remote (data_of lent.now) }
{
    let remote = share_of(lent.remote_key, lent.remote_amount);
    let local = share_of(lent.local_key, lent.local_amount);
    if for_remote {
        BuiltShares { remote, local }
    } else {
        BuiltShares {
            remote: local,
            local: remote,
        }
    }
}

// Writes the records of the settlement TLCs from byte 1 on, each straight into the part of the output where it belongs.
pub fn put_first_tlcs(h: HashLen, for_remote: bool, tlcs: &[u8], out: &mut [u8])
    requires tlcs_valid { all valid_settlement (entries settlement_len tlcs.now) ≡ true }
    requires tlcs_in_bounds { 1 + length (flatten (S.first_records h.bytes for_remote (entries settlement_len tlcs.now))) ≤ length out.old }
    ensures { out.new ≡ sets out.old 1 (flatten (S.first_records h.bytes for_remote (entries settlement_len tlcs.now))) }
{
    let size = h.record_len();
    // By place: of parts that an adapter lends, as `zip` over `chunks_exact_mut`, the library does not say what was written into them.
    let mut at = 1;
    for tlc in settlement_tlcs(tlcs) {
        put_first(h, for_remote, &SettlementTlc { bytes: tlc }, &mut out[at..]);
        at += size;
    }
}
