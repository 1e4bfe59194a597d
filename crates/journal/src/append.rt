// An entry behind those that are there.
ghost use Rattle.std.specs.Prelude.{◌≡◌, ◌+◌, ◌≤◌, ◌++◌, length};
ghost use Rattle.std.proofs.lemmas.List.Edits.{sets};
ghost use Rattle.fiber_types.specs.Records.{Gives};
ghost use Rattle.journal.specs.Chain.{trailer};
ghost use Rattle.journal.specs.Journal as S;
ghost use Rattle.journal.specs.inner.Counted.{before};

use crate::chain::count_entries;
use crate::entry::Entry;
use crate::layout::{
    JOURNAL_AMOUNT, JOURNAL_BEFORE, JOURNAL_ENTRY, JOURNAL_FLAG, JOURNAL_LENGTH,
    JOURNAL_MOST_ENTRIES, JOURNAL_NO_ENTRY, JOURNAL_UNLOCK,
};
use crate::refusal::JournalRefusal;
use fiber_bytes::{put, put_le64};
use fiber_types::tlc::put_amount;

// Writes an entry at a place, where the entry before starts at another. The room is asked: an append looks at it.
#[tactic(auto, using(crate::proofs::EntryLaws::entry_puts))]
pub(crate) fn put_entry(out: &mut [u8], at: usize, entry: &Entry, before: u64)
    requires { at + 62 ≤ length out.old }
    ensures { out.new ≡ sets out.old at (S.body_of entry.now ++ trailer before 62) }
{
    put(out, at, &entry.channel);
    out[at + JOURNAL_UNLOCK] = entry.unlock;
    out[at + JOURNAL_FLAG] = entry.flag;
    put_amount(out, at + JOURNAL_AMOUNT, entry.amount);
    put_le64(out, at + JOURNAL_BEFORE, before);
    put(
        out,
        at + JOURNAL_LENGTH,
        &(JOURNAL_ENTRY as u32).to_le_bytes(),
    );
}

// Where the entry before starts, behind a journal of a length.
#[tactic(auto, unfolding(crate::specs::inner::Counted::before))]
fn start_before(journal_length: usize) -> u64
    ensures { result ≡ before journal_length }
{
    match journal_length.checked_sub(JOURNAL_ENTRY) {
        Some(start) => start as u64,
        None => JOURNAL_NO_ENTRY,
    }
}

// Puts an entry behind the journal of a length at the front of a slice; answers the new length. No byte but the entry's is written.
#[tactic(auto, using(fiber_refusal::proofs::PassedLaws::passed_on, crate::proofs::JournalLaws::append_refused, crate::proofs::JournalLaws::append_full, crate::proofs::JournalLaws::append_short, crate::proofs::JournalLaws::append_taken, crate::proofs::EntryLaws::body_length))]
pub fn append(
    slice: &mut [u8],
    journal_length: usize,
    entry: &Entry,
) -> Result<usize, JournalRefusal>
    ensures { Gives (S.appended slice.old journal_length (S.body_of entry.now)) result slice.new }
{
    if JOURNAL_MOST_ENTRIES <= count_entries(slice, journal_length)? {
        return Err(JournalRefusal::Full(journal_length));
    }
    let new_length = journal_length + JOURNAL_ENTRY;
    if slice.len() < new_length {
        return Err(JournalRefusal::OutputShort(new_length));
    }
    put_entry(slice, journal_length, entry, start_before(journal_length));
    Ok(new_length)
}
