// The journal's two calls. Every offset of their answer stands in include/fiber_settlement.h.
ghost use Rattle.std.specs.Prelude.{◌≡◌, []};
ghost use Rattle.c_answer.specs.Answers.{answered, Leaves};
ghost use Rattle.journal_c.specs.JournalCalls as S;

use c_answer::front::{accept, refuse};
use fiber_types::tlc::Amount;
use journal::append::append;
use journal::walk::walk;
use journal::{Entry, JournalRefusal};

// The bytes that the answer takes.
pub const JOURNAL_ANSWER: usize = 24;

// What an answer buffer that is too short comes to: the number alone, as the return value.
fn too_short() -> u64
    ensures { result ≡ 14 }
{
    JournalRefusal::NotWell.number() as u64
}

#[tactic(auto, unfolding(crate::specs::JournalCalls::length_answer))]
fn answer_length(answer: &mut [u8], length: Result<usize, JournalRefusal>) -> u64
    ensures { Leaves (answered (S.length_answer length) [] answer.old) result [] answer.new }
{
    match length {
        Ok(length) => accept(answer, &[length as u64]),
        Err(r) => refuse(answer, r.number(), r.place()),
    }
}

// Puts an entry behind the journal of a length.
#[tactic(auto, using(c_answer::proofs::AnswersLaws::answered_out), unfolding(crate::specs::JournalCalls::append_call, crate::specs::JournalCalls::appended_by, crate::specs::JournalCalls::journal_call, c_answer::specs::Answers::call))]
pub fn fiber_journal_append(
    journal: &mut [u8],
    length: u64,
    channel: &[u8],
    unlock: u8,
    flag: u8,
    amount_low: u64,
    amount_high: u64,
    answer: &mut [u8],
) -> u64
    ensures { Leaves (S.append_call journal.old length channel.now unlock flag amount_low amount_high answer.old)
        result journal.new answer.new }
{
    if answer.len() < JOURNAL_ANSWER {
        return too_short();
    }
    let appended = match channel.as_array::<32>() {
        Some(channel) => append(
            journal,
            length as usize,
            &Entry {
                channel: *channel,
                unlock,
                flag,
                amount: Amount {
                    low: amount_low,
                    high: amount_high,
                },
            },
        ),
        None => Err(JournalRefusal::NotWell),
    };
    answer_length(answer, appended)
}

// Writes the entries of the journal of a length, the newest first.
#[tactic(auto, using(c_answer::proofs::AnswersLaws::answered_out), unfolding(crate::specs::JournalCalls::walk_call, crate::specs::JournalCalls::journal_call, c_answer::specs::Answers::call))]
pub fn fiber_journal_walk(journal: &[u8], length: u64, out: &mut [u8], answer: &mut [u8]) -> u64
    ensures { Leaves (S.walk_call journal.now length out.old answer.old) result out.new answer.new }
{
    if answer.len() < JOURNAL_ANSWER {
        return too_short();
    }
    let walked = walk(journal, length as usize, out);
    answer_length(answer, walked)
}
