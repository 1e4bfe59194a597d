// The lists that the host lends, one entry behind the other, as iterators.
ghost use Rattle.std.specs.Prelude.{◌≡◌, ◌<◌};

// The whole entries of a list, from the front on. No `chunks_exact`: what is left of it is the library's rest of bytes, and here it is `entries`, by which
// the definitions read (docs/DECISIONS.md, 103).
#[derive(Clone, Copy)]
pub struct Entries<'a> {
    pub rest: &'a [u8],
    pub size: usize,
    ghost some: { 0 < size },
}

impl<'a> Iterator for Entries<'a> {
    ghost use Rattle.std.specs.Iterator.{YieldsFirstRef, item_count};
    ghost use Rattle.fiber_first.specs.inner.Left.{left};

    type Item = &'a [u8];

    ghost next_gives = { YieldsFirstRef left };

    ghost remaining = { item_count left };

    #[tactic(auto, using(fiber_choice::proofs::EntriesLaws::entries_few, fiber_choice::proofs::EntriesLaws::entries_split))]
    fn next(&mut self) -> Option<&'a [u8]> {
        if self.rest.len() < self.size {
            return None;
        }
        let (entry, rest) = self.rest.split_at(self.size);
        self.rest = rest;
        Some(entry)
    }
}
