// The due test: whether a delay behind a header's epoch has passed.
ghost use Rattle.std.specs.Prelude.{◌≡◌};
ghost use Rattle.fiber_since.specs.Epoch as S;

use crate::comparable::Comparable;
use crate::epoch::{Epoch, all_within, any_zero};
use fiber_refusal::Refusal;

// Whether header + delay is at most current: the whole parts first, then the fractions below one.
#[tactic(auto, using(crate::proofs::EpochLaws::due_below, crate::proofs::EpochLaws::due_above, crate::proofs::EpochLaws::due_same))]
pub fn due(header: Comparable, delay: Comparable, current: Comparable) -> bool
    ensures { result ≡ S.due header.epoch delay.epoch current.epoch }
{
    let header = header.epoch;
    let delay = delay.epoch;
    let current = current.epoch;
    let l1 = header.length;
    let l2 = delay.length;
    let l3 = current.length;
    let a = (header.index % l1) * l2 + (delay.index % l2) * l1;
    let b = l1 * l2;
    let whole = header.number + header.index / l1 + (delay.number + delay.index / l2) + a / b;
    let other = current.number + current.index / l3;
    if whole < other {
        return true;
    }
    if other < whole {
        return false;
    }
    (a % b) * l3 <= (current.index % l3) * b
}

// The due test. Not by `Comparable::try_from`: of the three epochs all bits are looked at before all lengths.
#[tactic(auto, using(crate::proofs::EpochLaws::test_bits, crate::proofs::EpochLaws::test_zero, crate::proofs::EpochLaws::test_due, crate::proofs::EpochLaws::three_within))]
pub fn is_due(header: Epoch, delay: Epoch, current: Epoch) -> Result<bool, Refusal>
    ensures { result ≡ S.due_test header delay current }
{
    let epochs = [header, delay, current];
    if !all_within(&epochs) {
        return Err(Refusal::NotWell);
    }
    if any_zero(&epochs) {
        return Err(Refusal::LengthZero);
    }
    Ok(due(
        Comparable { epoch: header },
        Comparable { epoch: delay },
        Comparable { epoch: current },
    ))
}
