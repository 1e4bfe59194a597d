// The settlement operations. Every offset of every answer buffer stands in include/fiber_settlement.h.
ghost use Rattle.std.specs.Prelude.{[]};
ghost use Rattle.c_answer.specs.Answers.{Leaves};
ghost use Rattle.settlement_c.specs.Settlement as S;

use crate::written::{UPDATE_ANSWER, answer_written, too_short};
use c_answer::front::{accept, refuse};
use watchtower::{update, witness};

// The bytes that the reader's answer takes.
pub const READ_ANSWER: usize = 48;

// Reads a witness w of a channel whose hashes have h bytes.
#[tactic(auto, unfolding(crate::specs::Settlement::read_call, crate::specs::Settlement::read_answer, c_answer::specs::Answers::call))]
pub fn fiber_settlement_read(h: u64, w: &[u8], answer: &mut [u8]) -> u64
    ensures { Leaves (S.read_call h w.now answer.old) result [] answer.new }
{
    if answer.len() < READ_ANSWER {
        return too_short();
    }
    match witness::read(h as usize, w) {
        Ok(layout) => accept(
            answer,
            &[
                layout.n as u64,
                layout.unlock_count as u64,
                layout.share_place as u64,
                layout.first_unlock as u64,
            ],
        ),
        Err(r) => refuse(answer, r.number(), r.place()),
    }
}

// Updates a witness w of a channel whose hashes have h bytes: the state left goes to the front of out.
#[tactic(auto, using(c_answer::proofs::AnswersLaws::answered_out), unfolding(crate::specs::Settlement::update_call, crate::specs::Settlement::written_call, c_answer::specs::Answers::call))]
pub fn fiber_settlement_update(h: u64, w: &[u8], out: &mut [u8], answer: &mut [u8]) -> u64
    ensures { Leaves (S.update_call h w.now out.old answer.old) result out.new answer.new }
{
    if answer.len() < UPDATE_ANSWER {
        return too_short();
    }
    let written = update::update(h as usize, w, out);
    answer_written(answer, written)
}
