// First records over C. Their answers are those of an update.
ghost use Rattle.c_answer.specs.Answers.{Leaves};
ghost use Rattle.settlement_c.specs.Settlement as S;

use crate::written::{UPDATE_ANSWER, answer_written, flag, too_short};
use c_answer::front::refuse;
use fiber_types::tlc::Amount;
use watchtower::choice::SettlementData;
use watchtower::first;

// The record of one settlement TLC.
#[tactic(auto, using(c_answer::proofs::AnswersLaws::answered_out), unfolding(crate::specs::Settlement::tlc_record_call, crate::specs::Settlement::flagged_call, c_answer::specs::Answers::flag_call, c_answer::specs::Answers::call, c_answer::specs::Answers::is_flag))]
pub fn fiber_settlement_tlc_record(
    h: u64,
    for_remote: u8,
    tlc: &[u8],
    out: &mut [u8],
    answer: &mut [u8],
) -> u64
    ensures { Leaves (S.tlc_record_call h for_remote tlc.now out.old answer.old)
        result out.new answer.new }
{
    if answer.len() < UPDATE_ANSWER {
        return too_short();
    }
    let for_remote = match flag(for_remote) {
        Ok(for_remote) => for_remote,
        Err(r) => return refuse(answer, r.number(), r.place()),
    };
    let written = first::settlement_tlc_witness(h as usize, for_remote, tlc, out);
    answer_written(answer, written)
}

// The first state.
#[tactic(auto, using(c_answer::proofs::AnswersLaws::answered_out), unfolding(crate::specs::Settlement::first_state_call, crate::specs::Settlement::flagged_call, c_answer::specs::Answers::flag_call, c_answer::specs::Answers::call, c_answer::specs::Answers::is_flag))]
pub fn fiber_settlement_first_state(
    h: u64,
    for_remote: u8,
    local_low: u64,
    local_high: u64,
    remote_low: u64,
    remote_high: u64,
    tlcs: &[u8],
    local_key: &[u8],
    remote_key: &[u8],
    out: &mut [u8],
    answer: &mut [u8],
) -> u64
    ensures { Leaves (S.first_state_call h for_remote local_low local_high remote_low remote_high
        tlcs.now local_key.now remote_key.now out.old answer.old)
        result out.new answer.new }
{
    if answer.len() < UPDATE_ANSWER {
        return too_short();
    }
    let for_remote = match flag(for_remote) {
        Ok(for_remote) => for_remote,
        Err(r) => return refuse(answer, r.number(), r.place()),
    };
    let lent = SettlementData {
        tlcs,
        local_amount: Amount {
            low: local_low,
            high: local_high,
        },
        remote_amount: Amount {
            low: remote_low,
            high: remote_high,
        },
        local_key,
        remote_key,
    };
    let written = first::settlement_data_witness(h as usize, for_remote, &lent, out);
    answer_written(answer, written)
}
