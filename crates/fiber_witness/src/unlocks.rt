// What the unlocks of a witness do: they are taken in order, before anything is written.
ghost use Rattle.std.specs.Prelude.{◌≡◌, ℕ, length, []};
ghost use Rattle.fiber_witness.specs.Witness.{places};
ghost use Rattle.fiber_witness.specs.Update as S;
ghost use Rattle.fiber_witness.specs.inner.Marks.{Marks};
ghost use Rattle.fiber_witness.specs.inner.Taking.{TakesAs};

use crate::shares::UnlockedShares;
use fiber_refusal::Refusal;
use fiber_types::layout::{UNLOCK_LOCAL, UNLOCK_REMOTE};
use fiber_types::unlock;

// Takes the unlocks from the first on, in order, and marks the TLCs that they settle, of which each has a mark, and no other.
pub fn take_unlocks(
    w: &[u8],
    first_unlock: usize,
    settled: &mut [bool],
) -> Result<UnlockedShares, Refusal>
    ensures { (share_place : ℕ) → TakesAs (S.take_unlocks (length settled.new) share_place w.now S.none (places w.now first_unlock)) result settled.new }
{
    settled.fill(false);
    take_unlocks_from_none(w, first_unlock, settled)
}

// The same where no mark is set, for `state_left`, which has just made them: to clear them once more would be a call of memset in each update.
pub(crate) fn take_unlocks_from_none(
    w: &[u8],
    first_unlock: usize,
    settled: &mut [bool],
) -> Result<UnlockedShares, Refusal>
    requires { Marks settled.old [] }
    ensures { (share_place : ℕ) → TakesAs (S.take_unlocks (length settled.new) share_place w.now S.none (places w.now first_unlock)) result settled.new }
{
    let mut remote = false;
    let mut local = false;
    let mut at = first_unlock;
    // By place: where an unlock ends only itself says, and here one that is cut short is the last, where the reader turns it down: one iterator for both would
    // hand out Results with a place beside each.
    while at < w.len() {
        let b = w[at] as usize;
        if b == UNLOCK_LOCAL {
            local = true;
        } else if b == UNLOCK_REMOTE {
            remote = true;
        } else {
            if settled.len() <= b {
                return Err(Refusal::UnlockUnknown(at));
            }
            if settled[b] {
                return Err(Refusal::SettledTwice(at));
            }
            settled[b] = true;
        }
        // One that is cut short is the last.
        let Ok(u) = unlock::read(w, at) else {
            break;
        };
        at += u.witness_len();
    }
    Ok(UnlockedShares { remote, local })
}
