// Number and place of what a choice waits for: rows 20 to 25. Functions and no methods: `Wait` is declared in fiber_choice, below the face, where no number
// is handed out; `wait::number(w)` is as plain as `w.number()`, and the two keep their path and their edits.
ghost use Rattle.std.specs.Prelude.{◌≡◌};
ghost use Rattle.fiber_choice.specs.Waits as S;

use fiber_choice::kinds::{Cause, Wait};

// Row 23, 24 or 25.
#[tactic(auto, unfolding(fiber_choice::specs::Waits::cause_number))]
fn cause_number(cause: Cause) -> usize
    ensures { result ≡ S.cause_number cause }
{
    match cause {
        Cause::NoExpiry => 23,
        Cause::NoKey => 23,
        Cause::NotDue => 24,
        Cause::NotExpired => 24,
        Cause::NoPreimage => 25,
    }
}

// The number of its row.
#[tactic(auto, unfolding(fiber_choice::specs::Waits::wait_number))]
pub fn number(wait: Wait) -> usize
    ensures { result ≡ S.wait_number wait }
{
    match wait {
        Wait::ListDiffers => 20,
        Wait::NotOurShare => 21,
        Wait::DelayNotDue => 22,
        Wait::Tlc { place: _, cause } => cause_number(cause),
    }
}

// The TLC's place; 0 where it is not for a TLC.
#[tactic(auto, unfolding(fiber_choice::specs::Waits::wait_place))]
pub fn place(wait: Wait) -> usize
    ensures { result ≡ S.wait_place wait }
{
    match wait {
        Wait::ListDiffers => 0,
        Wait::NotOurShare => 0,
        Wait::DelayNotDue => 0,
        Wait::Tlc { place, cause: _ } => place,
    }
}
