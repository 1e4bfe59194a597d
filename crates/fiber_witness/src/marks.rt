// Which TLCs of a state are settled: a mark for each, set where it is. The shares have no mark: 0xFE is the remote share, though a list of 255
// TLCs has a place 254.
ghost use Rattle.std.specs.Prelude.{◌≡◌, not, count_by};
ghost use Rattle.fiber_witness.specs.inner.Marks.{Marks, listed};

// A mark for each value of a byte, none of them set: of a count of one byte there are enough. Whoever needs some lends as many as there are TLCs.
pub const UNMARKED: [bool; 256] = [false; 256];

// Marks the TLC at a place, if there is one, and no other.
pub fn mark(place: Option<u8>, marks: &mut [bool; 256])
    ensures { Marks marks.new (listed place) }
{
    *marks = UNMARKED;
    if let Some(place) = place {
        marks[place as usize] = true;
    }
}

// How many TLCs stand: how many marks are not set. Counted in a loop, since `filter` and `count` took 2.5 times as long for 254.
pub fn count_standing(marks: &[bool]) -> usize
    ensures { result ≡ count_by not marks.now }
{
    let mut standing = 0;
    for settled in marks {
        if !*settled {
            standing += 1;
        }
    }
    standing
}
