// The key of a TLC: the settlement TLC whose local key signs for it.
ghost use Rattle.std.specs.Prelude.{◌≡◌, ◌≤◌, length};
ghost use Rattle.fiber_choice.specs.Entries.{settlement_len, tracked_record};
ghost use Rattle.fiber_choice.specs.Request.{settlement_tlcs};
ghost use Rattle.fiber_choice.specs.Verdicts as S;
ghost use Rattle.fiber_choice.specs.inner.Request.{request_by};

use fiber_bytes::part_of;
use fiber_choice::checked::Checked;
use fiber_choice::tracked::TrackedTlc;
use fiber_first::built::hash_of;
use fiber_first::lent::settlement_tlcs;
use fiber_types::layout::{KEY, SETTLEMENT_TLC_HASH, SETTLEMENT_TLC_LOCAL_KEY};
use fiber_types::tlc;

// Whether a settlement TLC's hash begins with start and its local key hashes to ours. This is asked of each settlement TLC for each tracked one, so
// that both lengths are the caller's to know, one cut is compared, and a key is hashed only where the hash fits. Of bytes, and no `SettlementTlc`: for that
// the closure that asks would need a clause of its own, that they are whole; and a `SettlementTlc` made here would cut the whole hash out first.
#[tactic(auto, using(fiber_choice::proofs::VerdictsLaws::key_differs, fiber_choice::proofs::VerdictsLaws::key_decides))]
fn is_key(start: &[u8], ours: &[u8], tlc: &[u8]) -> bool
    requires { (length start.now ≤ 32) × (length tlc.now ≡ settlement_len) }
    ensures { result ≡ S.is_key start.now ours.now tlc.now }
{
    if &tlc[SETTLEMENT_TLC_HASH..SETTLEMENT_TLC_HASH + start.len()] != start {
        return false;
    }
    hash_of(part_of(tlc, SETTLEMENT_TLC_LOCAL_KEY, KEY)).as_slice() == ours
}

// The key of a tracked TLC: by the hash, and by our slot's key hash, in its record. Our slot is local with for_remote.
#[tactic(auto, using(fiber_choice::proofs::EntriesLaws::entries_length))]
pub fn key_of(q: &Checked<'_>, tracked: &TrackedTlc<'_>) -> Option<usize>
    ensures { result ≡ S.key_of tracked.now.h.bytes q.now.for_remote (settlement_tlcs (request_by q.now)) (tracked_record tracked.now.bytes.now) }
{
    let record = tracked.record();
    let start = tlc::payment_hash(tracked.h.bytes, record);
    let ours = tlc::key_hash_in(tracked.h.bytes, q.for_remote, record);
    settlement_tlcs(q.settlement.tlcs).position(|candidate| is_key(start, ours, candidate))
}
