// An answer buffer: number and place, then the operation's fields.
ghost use Rattle.std.specs.Prelude.{◌≡◌, ◌++◌, []};
ghost use Rattle.std.proofs.lemmas.List.Edits.{sets};
ghost use Rattle.fiber_bytes.specs.Bytes.{le_bytes};
ghost use Rattle.fiber_bytes.specs.Bytes as B;
ghost use Rattle.c_answer.specs.Answers as S;

use fiber_bytes::put_numbers;

// Number and place, the front of every answer.
#[tactic(auto, using(crate::proofs::AnswersLaws::front_is))]
pub fn put_front(answer: &mut [u8], number: u64, place: u64)
    ensures { answer.new ≡ sets answer.old 0 (le_bytes 8 number ++ le_bytes 8 place) }
{
    put_numbers(answer, 0, &[number, place]);
}

// Refused; gives the return value, as accept does. Number and place come apart: a wait has them as well as a refusal.
#[tactic(auto, using(crate::proofs::AnswersLaws::refused_by))]
pub fn refuse(answer: &mut [u8], number: usize, place: usize) -> u64
    ensures { S.Leaves (S.answered (S.row number place) [] answer.old) result [] answer.new }
{
    put_front(answer, number as u64, place as u64);
    number as u64
}

// Done, with fields of eight bytes each.
#[tactic(auto, using(crate::proofs::AnswersLaws::behind, crate::proofs::AnswersLaws::fields_by))]
pub fn accept(answer: &mut [u8], numbers: &[u64]) -> u64
    ensures { S.Leaves (S.answered (S.fields (B.numbers numbers.now)) [] answer.old) result [] answer.new }
{
    put_front(answer, 0, 0);
    put_numbers(answer, 16, numbers);
    0
}
