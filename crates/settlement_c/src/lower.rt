// The lower face over C: hashes, since values, epochs; and the number of the interface.
ghost use Rattle.std.specs.Prelude.{◌≡◌, []};
ghost use Rattle.fiber_blake2b.specs.Blake2b.{ckb_hash};
ghost use Rattle.fiber_sha256.specs.Sha256 as Sha256;
ghost use Rattle.c_answer.specs.Answers.{Leaves};
ghost use Rattle.settlement_c.specs.Lower as S;

use crate::written::too_short;
use c_answer::front::{accept, put_front, refuse};
use fiber_bytes::put;
use fiber_types::due::is_due;
use fiber_types::epoch::{Epoch, mul};
use fiber_types::key::key_hash;
use fiber_types::since::absolute_expiry;

// The number of the interface, which include/fiber_settlement.h has too: it goes up with each change of a signature or of a layout.
pub const ABI: u64 = 1;

// The bytes that each answer takes.
pub const SCALE_ANSWER: usize = 40;

pub const IS_DUE_ANSWER: usize = 24;

pub const EXPIRY_ANSWER: usize = 32;

pub const KEY_HASH_ANSWER: usize = 36;

// The number of the interface, for a host to compare with its header's.
#[tactic(auto, unfolding(crate::specs::Lower::abi))]
pub fn fiber_settlement_abi() -> u64
    ensures { result ≡ S.abi }
{
    ABI
}

// CKB's hash of bytes.
pub fn fiber_settlement_ckb_hash(bytes: &[u8], out: &mut [u8; 32])
    ensures { out.new ≡ ckb_hash bytes.now }
{
    *out = fiber_types::blake2b::ckb_hash(bytes);
}

// SHA-256 of bytes.
pub fn fiber_settlement_sha256(bytes: &[u8], out: &mut [u8; 32])
    ensures { out.new ≡ Sha256.sha256 bytes.now }
{
    *out = fiber_types::sha256::sha256(bytes);
}

// An epoch's three fields scaled by a fraction.
#[tactic(auto, unfolding(crate::specs::Lower::scale_call, crate::specs::Lower::scale_answer, c_answer::specs::Answers::call))]
pub fn fiber_settlement_scale(
    number: u64,
    index: u64,
    length: u64,
    numerator: u64,
    denominator: u64,
    answer: &mut [u8],
) -> u64
    ensures { Leaves (S.scale_call number index length numerator denominator answer.old) result [] answer.new }
{
    if answer.len() < SCALE_ANSWER {
        return too_short();
    }
    let delay = Epoch {
        number,
        index,
        length,
    };
    match mul(delay, numerator, denominator) {
        Ok(e) => accept(answer, &[e.number, e.index, e.length]),
        Err(r) => refuse(answer, r.number(), r.place()),
    }
}

// The due test on nine fields.
#[tactic(auto, unfolding(crate::specs::Lower::is_due_call, crate::specs::Lower::is_due_answer, c_answer::specs::Answers::call))]
pub fn fiber_settlement_is_due(
    header_number: u64,
    header_index: u64,
    header_length: u64,
    delay_number: u64,
    delay_index: u64,
    delay_length: u64,
    current_number: u64,
    current_index: u64,
    current_length: u64,
    answer: &mut [u8],
) -> u64
    ensures { Leaves (S.is_due_call header_number header_index header_length delay_number delay_index delay_length
        current_number current_index current_length answer.old) result [] answer.new }
{
    if answer.len() < IS_DUE_ANSWER {
        return too_short();
    }
    let header = Epoch {
        number: header_number,
        index: header_index,
        length: header_length,
    };
    let delay = Epoch {
        number: delay_number,
        index: delay_index,
        length: delay_length,
    };
    let current = Epoch {
        number: current_number,
        index: current_index,
        length: current_length,
    };
    match is_due(header, delay, current) {
        Ok(due) => accept(answer, &[u64::from(due)]),
        Err(r) => refuse(answer, r.number(), r.place()),
    }
}

// The expiry that a since value holds.
#[tactic(auto, unfolding(crate::specs::Lower::expiry_call, crate::specs::Lower::expiry_answer, c_answer::specs::Answers::call))]
pub fn fiber_settlement_expiry(since: u64, answer: &mut [u8]) -> u64
    ensures { Leaves (S.expiry_call since answer.old) result [] answer.new }
{
    if answer.len() < EXPIRY_ANSWER {
        return too_short();
    }
    match absolute_expiry(since) {
        Some(ms) => accept(answer, &[1, ms]),
        None => accept(answer, &[0, 0]),
    }
}

// The hash of a public key.
#[tactic(auto, using(c_answer::proofs::AnswersLaws::behind), unfolding(crate::specs::Lower::key_hash_call, crate::specs::Lower::key_hash_answer, c_answer::specs::Answers::call, c_answer::specs::Answers::answered))]
pub fn fiber_settlement_key_hash(key: &[u8], answer: &mut [u8]) -> u64
    ensures { Leaves (S.key_hash_call key.now answer.old) result [] answer.new }
{
    if answer.len() < KEY_HASH_ANSWER {
        return too_short();
    }
    match key_hash(key) {
        Ok(hash) => {
            put_front(answer, 0, 0);
            put(answer, 16, &hash);
            0
        }
        Err(refusal) => refuse(answer, refusal.number(), refusal.place()),
    }
}
