// What the functions over C have in common: an answer buffer that is too short, flags, and the answer of a writer, an update or first records: the
// length that was written.
ghost use Rattle.std.specs.Prelude.{◌≡◌, ◌≤◌, ◌<◌, [], eqb, MatchResult};
ghost use Rattle.fiber_refusal.specs.declared.Refusal.TheVariants.{NotWell};
ghost use Rattle.c_answer.specs.Answers.{answered, Leaves};
ghost use Rattle.settlement_c.specs.Settlement as S;

use c_answer::front::{accept, refuse};
use fiber_types::Refusal;

// The bytes that the answer of a writer takes.
pub const UPDATE_ANSWER: usize = 24;

// What an answer buffer that is too short comes to: the number alone, as the return value.
pub(crate) fn too_short() -> u64
    ensures { result ≡ 14 }
{
    Refusal::NotWell.number() as u64
}

// A flag is 0 or 1.
pub(crate) fn flag(byte: u8) -> Result<bool, Refusal>
    ensures { MatchResult result
        (λ flag. (byte ≤ 1) × (flag ≡ eqb byte 1))
        (λ refusal. (1 < byte) × (refusal ≡ NotWell)) }
{
    match byte {
        0 => Ok(false),
        1 => Ok(true),
        _ => Err(Refusal::NotWell),
    }
}

#[tactic(auto, unfolding(crate::specs::Settlement::written_answer))]
pub fn answer_written(answer: &mut [u8], written: Result<usize, Refusal>) -> u64
    ensures { Leaves (answered (S.written_answer written) [] answer.old) result [] answer.new }
{
    match written {
        Ok(len) => accept(answer, &[len as u64]),
        Err(r) => refuse(answer, r.number(), r.place()),
    }
}
