// The types of the choice, below all that uses them: what may be chosen, why nothing is, and what the walk and the output pass on.
ghost use Rattle.std.specs.Prelude.{◌≡◌};
ghost use Rattle.fiber_choice.specs.declared.kinds.Choice.TheVariants as ChoiceCase;
ghost use Rattle.fiber_choice.specs.declared.kinds.NoChoice.TheVariants as NoChoiceCase;
ghost use Rattle.fiber_choice.specs.HandedOut.{choice_byte};

use fiber_refusal::Refusal;
use fiber_types::epoch::Epoch;
use fiber_types::layout::{UNLOCK_LOCAL, UNLOCK_REMOTE};
use fiber_types::tlc::Amount;
use fiber_witness::shares::UnlockedShares;

// Whose a share is.
#[derive(Clone, Copy, Debug, PartialEq, Eq)]
pub enum Side {
    Remote,
    Local,
}

impl Side {
    // The byte of the unlock of its share.
    #[tactic(auto, unfolding(crate::specs::HandedOut::choice_byte))]
    pub fn byte(self) -> u8
        ensures { result ≡ choice_byte (ChoiceCase.Share self) }
    {
        match self {
            Side::Remote => UNLOCK_REMOTE as u8,
            Side::Local => UNLOCK_LOCAL as u8,
        }
    }
}

// How a TLC is taken.
#[derive(Clone, Copy, Debug, PartialEq, Eq)]
pub enum Way {
    // Its expiry has passed.
    Timeout,
    // By the preimage in the pair at this place of the stored preimages.
    Preimage(usize),
}

// The unlock that is chosen.
#[derive(Clone, Copy, Debug, PartialEq, Eq)]
pub enum Choice {
    Share(Side),
    // The TLC at a place of the state before the unlock, never above 253.
    Tlc { place: usize, way: Way },
}

// Which key signs: our settlement key, or the local key of the settlement TLC at a place.
#[derive(Clone, Copy, Debug, PartialEq, Eq)]
pub enum Key {
    Settlement,
    Tlc(usize),
}

// Which of 1/3, 2/3 and all of the delay are due.
#[derive(Clone, Copy)]
pub struct Dues {
    pub third: bool,
    pub two_thirds: bool,
    pub full: bool,
}

// Which settlement a walk is of.
#[derive(Clone, Copy)]
pub enum Stage {
    First(Dues),
    Later,
}

// Why a TLC is still pending.
#[derive(Clone, Copy, Debug, PartialEq, Eq)]
pub enum Cause {
    // A later settlement passes it over: it has no absolute timestamp expiry.
    NoExpiry,
    // A later settlement passes it over: no settlement TLC has its key.
    NoKey,
    // A first settlement: its part of the delay, 1/3 or 2/3, isn't due.
    NotDue,
    // Timeout kind: its expiry has not passed.
    NotExpired,
    // Preimage kind: no preimage counts, and its expiry has not passed or, in a first settlement, the full delay isn't due.
    NoPreimage,
}

// What a choice waits for.
#[derive(Clone, Copy, Debug, PartialEq, Eq)]
pub enum Wait {
    // The tracked list is not that of the TLCs.
    ListDiffers,
    // Our share isn't there.
    NotOurShare,
    // A first settlement without TLCs: the full delay isn't due.
    DelayNotDue,
    // The first TLC that is still pending, by its place.
    Tlc { place: usize, cause: Cause },
}

// Why nothing is chosen.
#[derive(Clone, Copy, Debug, PartialEq, Eq)]
pub enum NoChoice {
    // Nothing to unlock as things stand, by a row from 20 on: ask again.
    Wait(Wait),
    // Turned down by any other row.
    Refused(Refusal),
}

impl From<Wait> for NoChoice {
    ghost from_gives = { λ wait why. why ≡ NoChoiceCase.Wait wait };

    fn from(wait: Wait) -> Self {
        NoChoice::Wait(wait)
    }
}

impl From<Refusal> for NoChoice {
    ghost from_gives = { λ refusal why. why ≡ NoChoiceCase.Refused refusal };

    fn from(refusal: Refusal) -> Self {
        NoChoice::Refused(refusal)
    }
}

// What a walk that chooses names.
#[derive(Clone, Copy)]
pub struct Chosen {
    pub choice: Choice,
    pub key: Key,
}

// A walk that chooses nothing: how many TLCs it leaves pending, and the first place at which the count stayed. Where it fell for each TLC there is none to
// wait for: then the wait is for the delay.
#[derive(Clone, Copy)]
pub struct Noted {
    pub pending: usize,
    pub first: Option<usize>,
}

// What is decided: the choice, its amount, key and delay; the lengths of the three parts of the output; place and length of
// the chosen TLC's record in the witness, or in the tracked list; whether it is the last settlement.
#[derive(Clone, Copy, Debug, PartialEq, Eq)]
pub struct Decision {
    pub choice: Choice,
    pub amount: Amount,
    pub key: Key,
    // that of a first settlement; a later one hands out none
    pub delay: Option<Epoch>,
    pub unlock_len: usize,
    pub state_len: usize,
    pub args_len: usize,
    // both 0 where a share is chosen, whose record is the empty part: `record_of` cuts by them without a case
    pub place: usize,
    pub len: usize,
    pub last: bool,
}

// What a choice comes to: the byte of its unlock, the pair whose preimage goes with it, the TLC that it settles, and the share that it takes.
#[derive(Clone, Copy)]
pub struct Plan {
    pub byte: u8,
    pub pair: Option<usize>,
    pub settled: Option<u8>,
    pub unlocked: UnlockedShares,
}
