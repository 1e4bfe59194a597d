// The walk over the tracked TLCs, of either settlement. It ends at the first chosen; where none is, its wait is for the first that is still pending.
ghost use Rattle.std.specs.Prelude.{◌≡◌, length, None};
ghost use Rattle.fiber_choice.specs.Request.{settlement_tlcs, tracked_tlcs, pairs};
ghost use Rattle.fiber_choice.specs.Settlements.{walked_by, wait_by};
ghost use Rattle.fiber_choice.specs.Verdicts as S;
ghost use Rattle.fiber_choice.specs.inner.Noting as I;
ghost use Rattle.fiber_choice.specs.inner.Request.{request_by};

use fiber_choice::kinds::{Chosen, Noted, Stage, Wait};
use fiber_choice::tracked::TrackedTlc;
use fiber_choice::walk::Walk;
use fiber_first::lent::tracked_tlcs;
use fiber_step::slot::our_share;
use fiber_step::step::step;
use fiber_step::wait::wait_at;
use std::ops::ControlFlow;

// The first place at which the count stayed, as known behind the TLC at a place, with so many pending before it and so many left.
#[tactic(auto, unfolding(fiber_choice::specs::inner::Noting::noted))]
fn noted(place: usize, before: usize, left: usize, first: Option<usize>) -> Option<usize>
    ensures { result ≡ I.noted place before left first }
{
    if first.is_none() && before <= left {
        return Some(place);
    }
    first
}

// What the walk chooses, or what it leaves pending and notes.
fn noting(walk: &Walk<'_>) -> ControlFlow<Chosen, Noted>
    ensures { result ≡ I.noting walk.now.q.now.time 0 (length (tracked_tlcs (request_by walk.now.q.now))) None (S.verdicts walk.now.q.now.h.bytes
        walk.now.q.now.for_remote (settlement_tlcs (request_by walk.now.q.now)) (pairs (request_by walk.now.q.now)) walk.now.stage 0
        (tracked_tlcs (request_by walk.now.q.now))) }
{
    let q = walk.q;
    let mut pending = q.tracked_count();
    let mut first = None;
    for (place, tracked_tlc) in tracked_tlcs(q.h, q.tracked).enumerate() {
        let tracked = TrackedTlc {
            h: q.h,
            bytes: tracked_tlc,
        };
        let left = step(q, walk.stage, &tracked, place, pending)?;
        first = noted(place, pending, left, first);
        pending = left;
    }
    ControlFlow::Continue(Noted { pending, first })
}

// Our share may be taken: in a first settlement once the full delay is due.
#[tactic(auto, unfolding(fiber_choice::specs::Verdicts::may_share))]
fn may_share(stage: Stage) -> bool
    ensures { result ≡ S.may_share stage }
{
    // A match, as in `step` of fiber_step: what differs in the two settlements is this one flag.
    match stage {
        Stage::First(dues) => dues.full,
        Stage::Later => true,
    }
}

// What the walk chooses; where it chooses none and none is pending, our share, if it may be taken; else what it waits for.
#[tactic(auto, using(fiber_choice::proofs::WalkLaws::picked_chosen, fiber_choice::proofs::WalkLaws::picked_share))]
pub fn walked(walk: &Walk<'_>) -> Result<Chosen, Wait>
    ensures { result ≡ I.pick_of (walked_by (request_by walk.now.q.now) walk.now.stage) (wait_by (request_by walk.now.q.now) walk.now.stage) }
{
    match noting(walk) {
        ControlFlow::Break(chosen) => Ok(chosen),
        ControlFlow::Continue(noted) if noted.pending == 0 && may_share(walk.stage) => {
            Ok(our_share(walk.q.for_remote))
        }
        ControlFlow::Continue(noted) => Err(wait_at(walk, noted.first)),
    }
}
