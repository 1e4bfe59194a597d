// Why an append or a walk is turned down.
ghost use Rattle.std.specs.Prelude.{◌≡◌};
ghost use Rattle.journal.specs.Journal as S;

// A row of docs/SCOPE.md's table. Nothing was written then. An enum of its own, so that whoever settles is answered with no row of the journal.
#[derive(Clone, Copy, Debug, PartialEq, Eq)]
pub enum JournalRefusal {
    // The journal is longer than the slice that is lent.
    NotWell,
    // The chain is broken: the first byte of the newest trailer that is wrong; 0 where the journal is shorter than an entry.
    Broken(usize),
    // The journal has 65,535 entries or more; its length.
    Full(usize),
    // The slice, or the output, is too short; the journal's new length, or the bytes needed.
    OutputShort(usize),
}

impl JournalRefusal {
    // The number of its row.
    pub fn number(self) -> usize
        ensures { result ≡ S.number_of self }
    {
        match self {
            JournalRefusal::NotWell => 14,
            JournalRefusal::Broken(_) => 41,
            JournalRefusal::Full(_) => 40,
            JournalRefusal::OutputShort(_) => 13,
        }
    }

    // Its place.
    pub fn place(self) -> usize
        ensures { result ≡ S.place_of self }
    {
        match self {
            JournalRefusal::NotWell => 0,
            JournalRefusal::Broken(place)
            | JournalRefusal::Full(place)
            | JournalRefusal::OutputShort(place) => place,
        }
    }
}
