// How many cases ran, and how many agree.

ghost use Rattle.std.specs.Prelude.{◌≡◌, ◌+◌, ◌≤◌, ◌++◌, min, Some, codes, decimal, if◌then◌else◌};

use std::fmt;

#[derive(Clone, Copy, Debug, PartialEq, Eq)]
pub struct Tally {
    pub run: u64,
    pub agree: u64,
    ghost within: { agree ≤ run },
}

impl Tally {
    // Counts one more case.
    pub fn count(&mut self, agree: bool)
        ensures run { self.new.run ≡ min (self.old.run + 1) u64.MAX }
        ensures agree { self.new.agree ≡ min (self.old.agree + (if agree then 1 else 0)) u64.MAX }
    {
        self.run = self.run.saturating_add(1);
        self.agree = self.agree.saturating_add(u64::from(agree));
    }
}

// A struct with a ghost field has no derived Default.
impl Default for Tally {
    ghost is_default = { λ tally. (tally.run ≡ 0) × (tally.agree ≡ 0) };

    fn default() -> Self {
        Tally { run: 0, agree: 0 }
    }
}

impl fmt::Display for Tally {
    ghost output = { λ tally. Some (decimal tally.agree ++ codes " of " ++ decimal tally.run ++ codes " agree") };

    fn fmt<W: fmt::Write>(&self, f: &mut fmt::Formatter<W>) -> fmt::Result {
        let run = self.run;
        let agree = self.agree;
        write!(f, "{agree} of {run} agree")
    }
}
