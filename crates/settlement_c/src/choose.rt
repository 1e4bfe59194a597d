// The choice over C. Its answer is seventeen numbers behind the front.
ghost use Rattle.std.specs.Prelude.{◌≡◌, []};
ghost use Rattle.c_answer.specs.Answers.{answered, Leaves};
ghost use Rattle.settlement_c.specs.Choose as S;
ghost use Rattle.settlement_c.specs.inner.Numbers as I;

use crate::written::{flag, too_short};
use c_answer::front::{accept, refuse};
use fiber_types::epoch::Epoch;
use fiber_types::tlc::Amount;
use watchtower::choice::{Choice, Decision, Key, NoChoice, Request, SettlementData, Way};
use watchtower::{choice, wait};

// The bytes that the answer takes.
pub const CHOOSE_ANSWER: usize = 152;

// Numbers of what the choice holds are made by functions: a `From` between types of two other crates cannot stand here.
//
// What the choice is: 0 a share, 1 a TLC by timeout, 2 a TLC by a preimage; the unlock's byte; the pair's place.
#[tactic(auto, using(fiber_choice::proofs::ByteLaws::byte_tlc), unfolding(crate::specs::inner::Numbers::choice_numbers, crate::specs::Choose::kind_number, crate::specs::Choose::pair_number))]
fn choice_numbers(choice: Choice) -> [u64; 3]
    ensures { result ≡ I.choice_numbers choice }
{
    match choice {
        Choice::Share(side) => [0, u64::from(side.byte()), 0],
        Choice::Tlc { place, way } => match way {
            Way::Timeout => [1, place as u64, 0],
            Way::Preimage(pair_place) => [2, place as u64, pair_place as u64],
        },
    }
}

// Which key: 0 and 0 for our settlement key, 1 and the place of a settlement TLC.
#[tactic(auto, unfolding(crate::specs::Choose::key_numbers))]
fn key_numbers(key: Key) -> [u64; 2]
    ensures { result ≡ S.key_numbers key }
{
    match key {
        Key::Settlement => [0, 0],
        Key::Tlc(place) => [1, place as u64],
    }
}

// 0 for no delay, or 1 and its number, index and length.
#[tactic(auto, unfolding(crate::specs::Choose::delay_numbers))]
fn delay_numbers(delay: Option<Epoch>) -> [u64; 4]
    ensures { result ≡ S.delay_numbers delay }
{
    match delay {
        None => [0, 0, 0, 0],
        Some(e) => [1, e.number, e.index, e.length],
    }
}

#[tactic(auto, using(crate::proofs::ChooseLaws::key_two, crate::proofs::ChooseLaws::delay_four), unfolding(crate::specs::Choose::decision_numbers, crate::specs::inner::Numbers::choice_numbers, crate::specs::Choose::flag_number))]
fn decision_numbers(decision: Decision) -> [u64; 17]
    ensures { result ≡ S.decision_numbers decision }
{
    let choice = decision.choice;
    let key = decision.key;
    let delay = decision.delay;
    let c = choice_numbers(choice);
    let k = key_numbers(key);
    let d = delay_numbers(delay);
    let amount = decision.amount;
    [
        c[0],
        c[1],
        amount.low,
        amount.high,
        k[0],
        k[1],
        d[0],
        d[1],
        d[2],
        d[3],
        decision.place as u64,
        decision.len as u64,
        decision.unlock_len as u64,
        decision.state_len as u64,
        decision.args_len as u64,
        c[2],
        u64::from(decision.last),
    ]
}

#[tactic(auto, unfolding(crate::specs::Choose::choose_answer))]
fn answer_choice(answer: &mut [u8], chosen: Result<Decision, NoChoice>) -> u64
    ensures { Leaves (answered (S.choose_answer chosen) [] answer.old) result [] answer.new }
{
    match chosen {
        Ok(decision) => accept(answer, &decision_numbers(decision)),
        Err(NoChoice::Wait(waits)) => refuse(answer, wait::number(waits), wait::place(waits)),
        Err(NoChoice::Refused(r)) => refuse(answer, r.number(), r.place()),
    }
}

// Chooses an unlock. With is_later the settlement is a later one, and its witness is looked at.
#[tactic(auto, using(c_answer::proofs::AnswersLaws::answered_out, crate::proofs::ChooseLaws::choice_flagged), unfolding(crate::specs::Choose::choose_call, c_answer::specs::Answers::flag_call, c_answer::specs::Answers::call, c_answer::specs::Answers::is_flag))]
pub fn fiber_settlement_choose(
    h: u64,
    for_remote: u8,
    is_later: u8,
    time: u64,
    header_number: u64,
    header_index: u64,
    header_length: u64,
    current_number: u64,
    current_index: u64,
    current_length: u64,
    local_low: u64,
    local_high: u64,
    remote_low: u64,
    remote_high: u64,
    args: &[u8],
    tlcs: &[u8],
    local_key: &[u8],
    remote_key: &[u8],
    tracked: &[u8],
    preimages: &[u8],
    witness: &[u8],
    out: &mut [u8],
    answer: &mut [u8],
) -> u64
    ensures { Leaves (S.choose_call h for_remote is_later time
        header_number header_index header_length current_number current_index current_length
        local_low local_high remote_low remote_high
        args.now tlcs.now local_key.now remote_key.now tracked.now preimages.now
        witness.now out.old answer.old)
        result out.new answer.new }
{
    if answer.len() < CHOOSE_ANSWER {
        return too_short();
    }
    let (for_remote, is_later) = match (flag(for_remote), flag(is_later)) {
        (Ok(for_remote), Ok(is_later)) => (for_remote, is_later),
        (Err(r), _) | (_, Err(r)) => return refuse(answer, r.number(), r.place()),
    };
    let request = Request {
        h: h as usize,
        for_remote,
        time,
        header: Epoch {
            number: header_number,
            index: header_index,
            length: header_length,
        },
        current: Epoch {
            number: current_number,
            index: current_index,
            length: current_length,
        },
        args,
        settlement: SettlementData {
            tlcs,
            local_amount: Amount {
                low: local_low,
                high: local_high,
            },
            remote_amount: Amount {
                low: remote_low,
                high: remote_high,
            },
            local_key,
            remote_key,
        },
        tracked,
        preimages,
    };
    let chosen = choice::choose(&request, is_later.then_some(witness), out);
    answer_choice(answer, chosen)
}
