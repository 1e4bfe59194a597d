// The journal over C. Each export calls the function of its name in journal_c, and says the same.
ghost use Rattle.c_answer.specs.Answers.{Leaves};
ghost use Rattle.journal_c.specs.JournalCalls as S;

// Puts an entry behind the journal of a length.
#[unsafe(no_mangle)]
pub extern "C" fn fiber_journal_append(
    journal: &mut [u8],
    length: u64,
    channel: &[u8],
    unlock: u8,
    flag: u8,
    amount_low: u64,
    amount_high: u64,
    answer: &mut [u8],
) -> u64
    ensures { Leaves (S.append_call journal.old length channel.now unlock flag amount_low amount_high answer.old)
        result journal.new answer.new }
{
    journal_c::calls::fiber_journal_append(
        journal,
        length,
        channel,
        unlock,
        flag,
        amount_low,
        amount_high,
        answer,
    )
}

// Writes the entries of the journal of a length, the newest first.
#[unsafe(no_mangle)]
pub extern "C" fn fiber_journal_walk(
    journal: &[u8],
    length: u64,
    out: &mut [u8],
    answer: &mut [u8],
) -> u64
    ensures { Leaves (S.walk_call journal.now length out.old answer.old) result out.new answer.new }
{
    journal_c::calls::fiber_journal_walk(journal, length, out, answer)
}
