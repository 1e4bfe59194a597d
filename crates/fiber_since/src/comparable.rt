// Epochs that can be compared.
ghost use Rattle.fiber_since.specs.Epoch.{Bounded};

use crate::epoch::{Epoch, within_bits};
use fiber_refusal::Refusal;

// An epoch with each field within its bits and a length above 0, so that no product of the due test passes 64 bits.
#[derive(Clone, Copy)]
pub struct Comparable {
    pub epoch: Epoch,
    ghost bounded: { Bounded epoch },
}

// In the order of `is_due`: first the bits, then the length.
impl TryFrom<Epoch> for Comparable {
    type Error = Refusal;

    ghost use Rattle.fiber_since.specs.Compared.{TakesEpoch};

    ghost try_from_gives = { TakesEpoch };

    #[tactic(auto, using(crate::proofs::EpochLaws::within), unfolding(crate::specs::Compared::comparable))]
    fn try_from(epoch: Epoch) -> Result<Self, Refusal> {
        if !within_bits(epoch) {
            return Err(Refusal::NotWell);
        }
        if epoch.length == 0 {
            return Err(Refusal::LengthZero);
        }
        Ok(Comparable { epoch })
    }
}
