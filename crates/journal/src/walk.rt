// The entries of a journal, handed out.
ghost use Rattle.std.specs.Prelude.{◌≡◌, ◌≤◌, ◌/◌, ◌%◌, length};
ghost use Rattle.std.proofs.lemmas.List.Edits.{sets};
ghost use Rattle.fiber_types.specs.Records.{Gives};
ghost use Rattle.journal.specs.Journal as S;
ghost use Rattle.journal.specs.inner.Counted.{newest_first};

use crate::chain::count_entries;
use crate::layout::JOURNAL_ENTRY;
use crate::refusal::JournalRefusal;

// Copies the entries of a journal to the front of an output, the newest first.
#[tactic(auto, using(crate::proofs::JournalLaws::copying_start, crate::proofs::JournalLaws::copying_one, crate::proofs::JournalLaws::copying_end))]
fn put_newest_first(journal: &[u8], out: &mut [u8])
    requires { (length journal.now % 62 ≡ 0) × (length journal.now ≤ length out.old) }
    ensures { out.new ≡ sets out.old 0 (newest_first (length journal.now / 62) journal.now) }
{
    let mut rest = journal;
    let mut at = 0;
    while let Some((older, entry)) = rest.split_last_chunk::<JOURNAL_ENTRY>() {
        out[at..at + JOURNAL_ENTRY].copy_from_slice(entry);
        at += JOURNAL_ENTRY;
        rest = older;
    }
}

// Writes the entries of the journal of a length to the front of out, each whole, the newest first; answers how many bytes these are.
#[tactic(auto, using(fiber_refusal::proofs::PassedLaws::passed_on, crate::proofs::JournalLaws::walk_refused, crate::proofs::JournalLaws::walk_short, crate::proofs::JournalLaws::walk_written))]
pub fn walk(slice: &[u8], journal_length: usize, out: &mut [u8]) -> Result<usize, JournalRefusal>
    ensures { Gives (S.walked slice.now journal_length out.old) result out.new }
{
    count_entries(slice, journal_length)?;
    if out.len() < journal_length {
        return Err(JournalRefusal::OutputShort(journal_length));
    }
    put_newest_first(&slice[..journal_length], out);
    Ok(journal_length)
}
