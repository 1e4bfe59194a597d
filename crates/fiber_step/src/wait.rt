// What the walk waits for where it chose none: the TLC at the place that it noted, and why that TLC is still pending. Only this TLC is looked at again.
ghost use Rattle.std.specs.Prelude.{◌≡◌, List, ℕ, ◌<◌, length};
ghost use Rattle.fiber_choice.specs.declared.kinds.Wait as WaitCase;
ghost use Rattle.fiber_choice.specs.Request.{settlement_tlcs, tracked_tlcs};
ghost use Rattle.fiber_choice.specs.Verdicts as S;
ghost use Rattle.fiber_choice.specs.inner.Noting.{PendsFor, WaitsAt};
ghost use Rattle.fiber_choice.specs.inner.Request.{request_by};

use crate::key::key_of;
use crate::settlement::settlement_tlc;
use crate::slot::timeout_kind;
use fiber_bytes::part_of;
use fiber_choice::checked::Checked;
use fiber_choice::kinds::{Cause, Dues, Stage, Wait};
use fiber_choice::settlement::SettlementTlc;
use fiber_choice::tracked::TrackedTlc;
use fiber_choice::walk::Walk;
use fiber_types::since::absolute_expiry;

// Of a later settlement. Without an expiry or a key it is passed over, whatever the time and its kind. No preimage counts, or it would have been chosen.
#[tactic(auto, using(fiber_choice::proofs::WaitsLaws::pends_passed, fiber_choice::proofs::WaitsLaws::pends_timeout, fiber_choice::proofs::WaitsLaws::pends_pair), unfolding(fiber_choice::specs::Verdicts::later_verdict, fiber_choice::specs::Verdicts::by_expiry, fiber_choice::specs::Verdicts::by_key))]
fn later_cause(q: &Checked<'_>, tracked: &TrackedTlc<'_>) -> Cause
    ensures { (ps : List (List ℕ)) → PendsFor result (S.later_verdict tracked.now.h.bytes q.now.for_remote (settlement_tlcs (request_by q.now))
        ps tracked.now.bytes.now) }
{
    let tlc = tracked.tlc();
    let Some(_) = absolute_expiry(tlc.expiry) else {
        return Cause::NoExpiry;
    };
    let Some(_) = key_of(q, tracked) else {
        return Cause::NoKey;
    };
    if timeout_kind(q.for_remote, tlc.is_offered()) {
        return Cause::NotExpired;
    }
    Cause::NoPreimage
}

// Of a first settlement: its part of the delay comes before its expiry and its preimage.
#[tactic(auto, using(fiber_choice::proofs::WaitsLaws::pends_passed, fiber_choice::proofs::WaitsLaws::pends_timeout, fiber_choice::proofs::WaitsLaws::pends_pair), unfolding(fiber_choice::specs::Verdicts::first_verdict))]
fn first_cause(for_remote: bool, dues: Dues, tlc: &SettlementTlc<'_>) -> Cause
    ensures { (ps : List (List ℕ)) (place : ℕ) (t : List ℕ) → PendsFor result (S.first_verdict for_remote ps dues place tlc.now.bytes.now t) }
{
    if timeout_kind(for_remote, tlc.is_offered()) {
        if dues.two_thirds {
            return Cause::NotExpired;
        }
        return Cause::NotDue;
    }
    if dues.third {
        return Cause::NoPreimage;
    }
    Cause::NotDue
}

// Why the TLC at a place is pending, in either settlement.
#[tactic(auto, unfolding(fiber_choice::specs::Verdicts::verdict))]
fn cause_of(walk: &Walk<'_>, tracked: &TrackedTlc<'_>, place: usize) -> Cause
    requires { place < length (tracked_tlcs (request_by walk.now.q.now)) }
    ensures { (ps : List (List ℕ)) → PendsFor result (S.verdict tracked.now.h.bytes walk.now.q.now.for_remote
        (settlement_tlcs (request_by walk.now.q.now)) ps walk.now.stage place tracked.now.bytes.now) }
{
    // A match, as in `step`: of two settlements one call differs, and a closure would say that in more words.
    match walk.stage {
        Stage::First(dues) => {
            let tlc = settlement_tlc(walk.q, place);
            first_cause(walk.q.for_remote, dues, &tlc)
        }
        Stage::Later => later_cause(walk.q, tracked),
    }
}

// The wait for the TLC at the place that the walk noted; where it noted none, or one at which no TLC is tracked, for the delay.
pub fn wait_at(walk: &Walk<'_>, first: Option<usize>) -> Wait
    ensures { (time : ℕ) (ps : List (List ℕ)) (w : WaitCase.Wait)
        → WaitsAt time (S.verdicts walk.now.q.now.h.bytes walk.now.q.now.for_remote (settlement_tlcs (request_by walk.now.q.now)) ps walk.now.stage 0
        (tracked_tlcs (request_by walk.now.q.now))) first w
        → result ≡ w }
{
    let q = walk.q;
    match first {
        Some(place) if place < q.tracked_count() => {
            let size = q.h.tracked_len();
            let tracked = TrackedTlc {
                h: q.h,
                bytes: part_of(q.tracked, place * size, size),
            };
            Wait::Tlc {
                place,
                cause: cause_of(walk, &tracked, place),
            }
        }
        _ => Wait::DelayNotDue,
    }
}
