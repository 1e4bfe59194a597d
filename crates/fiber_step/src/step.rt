// One TLC of the walk. What it comes to is a verdict at a time, but the code looks for a key and hashes a preimage only where
// that matters. Place and count go beside the TLC, and in no struct: a step names the one and answers the other.
ghost use Rattle.std.specs.Prelude.{◌≡◌, true, false, ℕ, Option, ◌≤◌, length};
ghost use Rattle.fiber_choice.specs.Entries.{tracked_record, entries, pair_len};
ghost use Rattle.fiber_choice.specs.Request.{settlement_tlcs, pairs};
ghost use Rattle.fiber_choice.specs.Preimages.{counting_pair};
ghost use Rattle.fiber_choice.specs.Walk as W;
ghost use Rattle.fiber_choice.specs.Verdicts as S;
ghost use Rattle.fiber_choice.specs.inner.Plan.{Reaches};
ghost use Rattle.fiber_choice.specs.inner.Request.{request_by};

use crate::key::key_of;
use crate::preimage::{counting_pair, counts, find_pair};
use crate::settlement::settlement_tlc;
use crate::slot::timeout_kind;
use fiber_choice::checked::Checked;
use fiber_choice::kinds::{Choice, Chosen, Dues, Key, Stage, Way};
use fiber_choice::settlement::SettlementTlc;
use fiber_choice::tracked::TrackedTlc;
use fiber_types::since::absolute_expiry;
use std::ops::ControlFlow;

// Taken by timeout with a key, once the expiry has passed.
#[tactic(auto, unfolding(fiber_choice::specs::Walk::step_of))]
fn timeout_step(
    time: u64,
    ms: u64,
    key: usize,
    place: usize,
    pending: usize,
) -> ControlFlow<Chosen, usize>
    ensures { result ≡ W.step_of time place pending (W.timeout ms key) }
{
    if ms < time {
        return ControlFlow::Break(Chosen {
            choice: Choice::Tlc {
                place,
                way: Way::Timeout,
            },
            key: Key::Tlc(key),
        });
    }
    ControlFlow::Continue(pending)
}

// Taken by the preimage of a pair.
#[tactic(auto, unfolding(fiber_choice::specs::Walk::step_of))]
fn ready_step(pair_place: usize, key: usize, place: usize) -> ControlFlow<Chosen, usize>
    ensures { (time pending : ℕ) → result ≡ W.step_of time place pending (W.ready pair_place key) }
{
    ControlFlow::Break(Chosen {
        choice: Choice::Tlc {
            place,
            way: Way::Preimage(pair_place),
        },
        key: Key::Tlc(key),
    })
}

// No longer pending, once the expiry has passed.
#[tactic(auto, unfolding(fiber_choice::specs::Walk::step_of))]
fn falls_step(time: u64, ms: u64, pending: usize) -> ControlFlow<Chosen, usize>
    ensures { (place : ℕ) → result ≡ W.step_of time place pending (W.falls ms) }
{
    if time <= ms {
        return ControlFlow::Continue(pending);
    }
    ControlFlow::Continue(pending.saturating_sub(1))
}

// Timeout kind. Where the time has not come the TLC stays pending with a key and without, so none is looked for.
#[tactic(auto, unfolding(fiber_choice::specs::Walk::step_of, fiber_choice::specs::Verdicts::by_key))]
fn later_timeout(
    q: &Checked<'_>,
    tracked: &TrackedTlc<'_>,
    ms: u64,
    place: usize,
    pending: usize,
) -> ControlFlow<Chosen, usize>
    ensures { (found_pair : Option ℕ) → result ≡ W.step_of q.now.time place pending
        (S.by_key true ms found_pair (S.key_of tracked.now.h.bytes q.now.for_remote (settlement_tlcs (request_by q.now)) (tracked_record tracked.now.bytes.now))) }
{
    if q.time <= ms {
        return ControlFlow::Continue(pending);
    }
    match key_of(q, tracked) {
        Some(key) => timeout_step(q.time, ms, key, place, pending),
        None => ControlFlow::Continue(pending),
    }
}

// Preimage kind. The pair is found first, which hashes nothing; the key is looked for only where it matters, and the
// preimage is hashed last.
#[tactic(auto, using(fiber_choice::proofs::PreimagesLaws::pair_bytes, fiber_choice::proofs::VerdictsLaws::step_passed, fiber_choice::proofs::VerdictsLaws::falls_before), unfolding(fiber_choice::specs::Verdicts::by_key, fiber_choice::specs::Verdicts::by_pair, fiber_choice::specs::Preimages::counting_pair, fiber_choice::specs::Preimages::if_counts))]
fn later_preimage(
    q: &Checked<'_>,
    tracked: &TrackedTlc<'_>,
    ms: u64,
    place: usize,
    pending: usize,
) -> ControlFlow<Chosen, usize>
    ensures { result ≡ W.step_of q.now.time place pending (S.by_key false ms
        (counting_pair (pairs (request_by q.now)) tracked.now.bytes.now)
        (S.key_of tracked.now.h.bytes q.now.for_remote (settlement_tlcs (request_by q.now)) (tracked_record tracked.now.bytes.now))) }
{
    match find_pair(q.preimages, tracked.hash()) {
        Some(pair_place) => match key_of(q, tracked) {
            Some(key) => {
                if counts(q.preimages, pair_place, tracked.bytes) {
                    return ready_step(pair_place, key, place);
                }
                falls_step(q.time, ms, pending)
            }
            None => ControlFlow::Continue(pending),
        },
        None => {
            if q.time <= ms {
                return ControlFlow::Continue(pending);
            }
            match key_of(q, tracked) {
                Some(_) => falls_step(q.time, ms, pending),
                None => ControlFlow::Continue(pending),
            }
        }
    }
}

// A tracked TLC of a later settlement.
#[tactic(auto, unfolding(fiber_choice::specs::Walk::step_of, fiber_choice::specs::Verdicts::later_verdict, fiber_choice::specs::Verdicts::by_expiry))]
fn later_step(
    q: &Checked<'_>,
    tracked: &TrackedTlc<'_>,
    place: usize,
    pending: usize,
) -> ControlFlow<Chosen, usize>
    ensures { result ≡ W.step_of q.now.time place pending (S.later_verdict tracked.now.h.bytes q.now.for_remote (settlement_tlcs (request_by q.now))
        (pairs (request_by q.now)) tracked.now.bytes.now) }
{
    let tlc = tracked.tlc();
    let Some(ms) = absolute_expiry(tlc.expiry) else {
        return ControlFlow::Continue(pending);
    };
    if timeout_kind(q.for_remote, tlc.is_offered()) {
        return later_timeout(q, tracked, ms, place, pending);
    }
    later_preimage(q, tracked, ms, place, pending)
}

// A settlement TLC of a first settlement, and the tracked one at the same place. Both go along: a struct of the two would be made for this one call and taken
// apart in it.
#[tactic(auto, using(fiber_choice::proofs::VerdictsLaws::step_passed), unfolding(fiber_choice::specs::Verdicts::first_verdict, fiber_choice::specs::Verdicts::by_pair))]
fn first_step(
    q: &Checked<'_>,
    dues: Dues,
    tlc: &SettlementTlc<'_>,
    tracked: &TrackedTlc<'_>,
    place: usize,
    pending: usize,
) -> ControlFlow<Chosen, usize>
    ensures { result ≡ W.step_of q.now.time place pending (S.first_verdict q.now.for_remote (pairs (request_by q.now)) dues
        place tlc.now.bytes.now tracked.now.bytes.now) }
{
    let ms = tlc.expiry_ms();
    if timeout_kind(q.for_remote, tlc.is_offered()) {
        if dues.two_thirds {
            return timeout_step(q.time, ms, place, place, pending);
        }
        return ControlFlow::Continue(pending);
    }
    if !dues.third {
        return ControlFlow::Continue(pending);
    }
    match counting_pair(q.preimages, tracked.bytes) {
        Some(pair_place) => ready_step(pair_place, place, place),
        None => {
            if dues.full {
                return falls_step(q.time, ms, pending);
            }
            ControlFlow::Continue(pending)
        }
    }
}

// The TLC at a place, of either settlement. It takes the two parts of a `Walk`, which says of every TLC what is asked here of one.
#[tactic(auto, unfolding(fiber_choice::specs::Verdicts::verdict, fiber_choice::specs::inner::Plan::Reaches))]
pub fn step(
    q: &Checked<'_>,
    stage: Stage,
    tracked: &TrackedTlc<'_>,
    place: usize,
    pending: usize,
) -> ControlFlow<Chosen, usize>
    requires { (place ≤ 254) × Reaches stage place (length (settlement_tlcs (request_by q.now))) }
    ensures { result ≡ W.step_of q.now.time place pending (S.verdict tracked.now.h.bytes q.now.for_remote
        (settlement_tlcs (request_by q.now)) (pairs (request_by q.now)) stage place tracked.now.bytes.now) }
{
    // A match, and no trait or closure: document 01 tells two settlements apart, and what differs is one call.
    match stage {
        Stage::First(dues) => {
            let tlc = settlement_tlc(q, place);
            first_step(q, dues, &tlc, tracked, place, pending)
        }
        Stage::Later => later_step(q, tracked, place, pending),
    }
}
