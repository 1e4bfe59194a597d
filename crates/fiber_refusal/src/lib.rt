// Why an operation turns its inputs down: the rows of docs/SCOPE.md's table. For every crate that turns something down; each is answered as the `Err` of a
// `Result`, so that a `?` hands it on. Uses nothing.
#![tactic(auto)]

ghost use Rattle.std.specs.Prelude.{◌≡◌, Some};
ghost use Rattle.fiber_refusal.specs.Rows as S;

use std::error::Error;
use std::fmt;

// A row of the table. Where its place is not always 0, it is the case's number. Nothing was written then.
#[derive(Clone, Copy, Debug, PartialEq, Eq)]
pub enum Refusal {
    // The witness is below 2 bytes; its length.
    WitnessShort(usize),
    // A TLC's record is cut short; its first byte.
    TlcCut(usize),
    // The share part is cut short; its first byte.
    SharesCut(usize),
    // An unlock is below 67 bytes, or below 99 with flag 1; its first byte.
    UnlockCut(usize),
    // An unlock byte is neither 0xFE, 0xFF nor the place of a TLC; the unlock's first byte.
    UnlockUnknown(usize),
    // A TLC is settled twice; the later unlock's first byte.
    SettledTwice(usize),
    // A denominator, or the length of an epoch, is 0.
    LengthZero,
    // A numerator or denominator passes 64 bits, or a whole part 16,777,215.
    ScaledAbove,
    // The lock args are below 36 bytes.
    ArgsShort,
    // Bytes 20 to 27 of the lock args are no relative epoch since value.
    NoDelay,
    // More than 254 TLCs at a choice, or more than 255 in a first state.
    TooManyTlcs,
    // The output is too short; the bytes needed.
    OutputShort(usize),
    // An argument has a length or a value that its layout does not have.
    NotWell,
}

impl Refusal {
    // The number of its row.
    pub fn number(self) -> usize
        ensures { result ≡ S.number_of self }
    {
        match self {
            Refusal::WitnessShort(_) => 1,
            Refusal::TlcCut(_) => 2,
            Refusal::SharesCut(_) => 3,
            Refusal::UnlockCut(_) => 4,
            Refusal::UnlockUnknown(_) => 5,
            Refusal::SettledTwice(_) => 6,
            Refusal::LengthZero => 7,
            Refusal::ScaledAbove => 8,
            Refusal::ArgsShort => 10,
            Refusal::NoDelay => 11,
            Refusal::TooManyTlcs => 12,
            Refusal::OutputShort(_) => 13,
            Refusal::NotWell => 14,
        }
    }

    // Its place.
    pub fn place(self) -> usize
        ensures { result ≡ S.place_of self }
    {
        match self {
            Refusal::WitnessShort(place)
            | Refusal::TlcCut(place)
            | Refusal::SharesCut(place)
            | Refusal::UnlockCut(place)
            | Refusal::UnlockUnknown(place)
            | Refusal::SettledTwice(place)
            | Refusal::OutputShort(place) => place,
            Refusal::LengthZero
            | Refusal::ScaledAbove
            | Refusal::ArgsShort
            | Refusal::NoDelay
            | Refusal::TooManyTlcs
            | Refusal::NotWell => 0,
        }
    }
}

impl fmt::Display for Refusal {
    ghost output = { λ refusal. Some (S.text_of refusal) };

    fn fmt<W: fmt::Write>(&self, f: &mut fmt::Formatter<W>) -> fmt::Result {
        let number = self.number();
        let place = self.place();
        write!(f, "refused {number} at {place}")
    }
}

impl Error for Refusal {}
