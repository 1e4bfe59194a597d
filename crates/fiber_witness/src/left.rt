// What the unlocks of a witness leave of it, for the update and for a later settlement, which begin alike.
ghost use Rattle.std.specs.Prelude.{◌≡◌, ◌+◌, length};
ghost use mathlib.Core.List.{flatten};
ghost use Rattle.fiber_witness.specs.Update.{unlocked};
ghost use Rattle.fiber_witness.specs.inner.Leaving.{LeavesAs};
ghost use Rattle.fiber_witness.specs.inner.Records.{standing_of};

use crate::marks::{UNMARKED, count_standing};
use crate::records::Records;
use crate::shares::Shares;
use crate::unlocks::take_unlocks_from_none;
use crate::witness;
use fiber_refusal::Refusal;
use fiber_types::hash_len::HashLen;
use fiber_types::layout::STATE_FIXED;

// The records that stand, and both shares.
#[derive(Clone, Copy)]
pub struct StateLeft<'a> {
    pub records: Records<'a>,
    pub shares: Shares<'a>,
}

// Reads a witness and takes its unlocks. The marks are lent, since handed back by value they would be copied, and set to none here, behind the reading: so
// a witness that is turned down costs none, and what the caller's held is never looked at, so that LLVM leaves out that it set them. Inlined, since an
// update of no TLC took 1.25 times as long where the answer went through memory.
#[inline(always)]
#[tactic(auto, using(crate::proofs::LeavingLaws::left_count, crate::proofs::LeavingLaws::left_shares))]
pub fn state_left<'a>(
    h: HashLen,
    w: &'a [u8],
    marks: &'a mut [bool; 256],
) -> Result<StateLeft<'a>, Refusal>
    ensures { LeavesAs h.bytes w.now (unlocked h.bytes w.now) result }
{
    let layout = witness::read(h.bytes, w)?;
    *marks = UNMARKED;
    let marks = &mut marks[..layout.n];
    let taken = take_unlocks_from_none(w, layout.first_unlock, marks)?;
    let records = Records {
        source: w,
        from: 2,
        stride: h.record_len(),
        h: h.bytes,
        standing: count_standing(marks),
        marks,
    };
    let shares = Shares::at(w, layout.share_place).left(taken);
    Ok(StateLeft { records, shares })
}

impl StateLeft<'_> {
    // How many bytes the state has.
    #[tactic(auto, using(crate::proofs::LeavingLaws::standing_bytes, crate::proofs::LeavingLaws::standing_small))]
    pub fn state_len(&self) -> usize
        ensures { result ≡ 73 + length (flatten (standing_of self.now.records)) }
    {
        STATE_FIXED + self.records.standing * self.records.record_len()
    }
}
