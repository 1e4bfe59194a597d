// Records in a list in which they stand a fixed number of bytes apart: those of a witness, or of the tracked TLCs. As an iterator, those of them that stand.
ghost use Rattle.std.specs.Prelude.{◌≡◌, ◌+◌, ◌*◌, ◌≤◌, length, not, count_by};

use fiber_types::layout::RECORD_FIXED;

// The first is at `from`; each has a mark, and those that are marked do not stand any more.
#[derive(Clone, Copy)]
pub struct Records<'a> {
    pub source: &'a [u8],
    pub from: usize,
    pub stride: usize,
    pub h: usize,
    pub marks: &'a [bool],
    // how many stand, which whoever makes one counts for the room that it asks
    pub standing: usize,
    ghost short: { h ≤ 32 },
    ghost few: { length marks.now ≤ 255 },
    ghost near: { stride ≤ 130 },
    ghost whole: { from + length marks.now * stride + (65 + h) ≤ length source.now + stride },
    ghost counted: { standing ≡ count_by not marks.now },
}

impl Records<'_> {
    // The bytes of a record.
    pub(crate) fn record_len(&self) -> usize
        ensures { result ≡ 65 + self.now.h }
    {
        RECORD_FIXED + self.h
    }
}

impl<'a> Iterator for Records<'a> {
    ghost use Rattle.std.specs.Iterator.{YieldsFirstRef, item_count};
    ghost use Rattle.fiber_witness.specs.inner.Records.{standing_of};

    type Item = &'a [u8];

    ghost next_gives = { YieldsFirstRef standing_of };

    ghost remaining = { item_count standing_of };

    // Passes those that are marked.
    #[tactic(auto, using(crate::proofs::StridedLaws::unmarked_none, crate::proofs::StridedLaws::unmarked_gone, crate::proofs::StridedLaws::unmarked_kept, crate::proofs::UpdateLaws::part_between))]
    fn next(&mut self) -> Option<&'a [u8]> {
        while let Some((settled, others)) = self.marks.split_first() {
            let at = self.from;
            self.from += self.stride;
            self.marks = others;
            if !*settled {
                self.standing -= 1;
                return Some(&self.source[at..at + self.record_len()]);
            }
        }
        None
    }
}
