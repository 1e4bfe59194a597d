// The chain of trailers, from the newest entry back.
ghost use Rattle.std.specs.Prelude.{◌≡◌, ◌&&◌, eqb};
ghost use Rattle.journal.specs.Chain.{own_length, pointer_of, points_back};
ghost use Rattle.journal.specs.Journal.{entries_of, is_entry_len};
ghost use Rattle.journal.specs.inner.Counted.{counted, counted_in};

use crate::layout::{JOURNAL_BEFORE, JOURNAL_ENTRY, JOURNAL_NO_ENTRY};
use crate::refusal::JournalRefusal;
use fiber_bytes::le64;

// The length that a trailer says.
#[tactic(auto, using(crate::proofs::EntryLaws::own_four))]
fn own_length(entry: &[u8; JOURNAL_ENTRY]) -> u32
    ensures { result ≡ own_length entry.now }
{
    u32::from_le_bytes([entry[58], entry[59], entry[60], entry[61]])
}

// Whether a pointer is right where its entry starts. With a start of 1 to 61 none is.
#[tactic(auto, unfolding(crate::specs::Chain::points_back))]
fn points_back(start: usize, pointer: u64) -> bool
    ensures { result ≡ points_back is_entry_len start pointer }
{
    let start = start as u64;
    if start == 0 {
        pointer == JOURNAL_NO_ENTRY
    } else {
        pointer < start && start - pointer == JOURNAL_ENTRY as u64
    }
}

// Whether the trailer of an entry that starts at a place is right.
#[tactic(auto, using(crate::proofs::EntryLaws::pointer_fifty))]
fn is_right(entry: &[u8; JOURNAL_ENTRY], start: usize) -> bool
    ensures { result ≡ eqb (own_length entry.now) 62 && points_back is_entry_len start (pointer_of entry.now) }
{
    own_length(entry) as usize == JOURNAL_ENTRY && points_back(start, le64(entry, JOURNAL_BEFORE))
}

// How many entries a journal has, its whole chain tested from the end.
#[tactic(auto, using(crate::proofs::CountLaws::counting_start, crate::proofs::CountLaws::counting_one, crate::proofs::CountLaws::counting_broken, crate::proofs::CountLaws::counting_end, crate::proofs::CountLaws::entries_short))]
fn count_back(journal: &[u8]) -> Result<usize, JournalRefusal>
    ensures { result ≡ counted (entries_of journal.now) }
{
    if !journal.is_empty() && journal.len() < JOURNAL_ENTRY {
        return Err(JournalRefusal::Broken(0));
    }
    let mut rest = journal;
    let mut count = 0;
    while let Some((older, entry)) = rest.split_last_chunk::<JOURNAL_ENTRY>() {
        if !is_right(entry, older.len()) {
            return Err(JournalRefusal::Broken(older.len() + JOURNAL_BEFORE));
        }
        rest = older;
        count += 1;
    }
    Ok(count)
}

// How many entries the journal of a length at the front of a slice has, its whole chain tested. Both calls begin with this.
#[tactic(auto, unfolding(crate::specs::inner::Counted::counted_in))]
pub(crate) fn count_entries(slice: &[u8], journal_length: usize) -> Result<usize, JournalRefusal>
    ensures { result ≡ counted_in slice.now journal_length }
{
    match slice.get(..journal_length) {
        Some(journal) => count_back(journal),
        None => Err(JournalRefusal::NotWell),
    }
}
