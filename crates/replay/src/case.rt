// One line of the list: a call of a function of the C interface, and what the Rust answered, or of a journal change request W2's words.
//
// A line is packed into one buffer, whatever it has: a line that is no case is a call with what stands there, which then does not answer as told. Nothing
// is turned down, and nothing allocates.

use crate::kind::Kind;
use fiber_bytes::{le64, part_of, put, put_le64};
use journal_c::calls::{fiber_journal_append, fiber_journal_walk};
use settlement_c::choose::fiber_settlement_choose;
use settlement_c::first::fiber_settlement_first_state;
use settlement_c::lower::{
    fiber_settlement_ckb_hash, fiber_settlement_expiry, fiber_settlement_is_due,
    fiber_settlement_key_hash, fiber_settlement_scale, fiber_settlement_sha256,
};
use settlement_c::settlement::{fiber_settlement_read, fiber_settlement_update};
use test_lines::{number, unhex};

// What every byte of the buffers is before a call, so that one written too many is seen.
const UNTOUCHED: u8 = 165;

// In a packed line the i-th input is at 8 i: a number, or where the bytes of a byte string start, all of which stand from here on.
const TEXTS: usize = 256;

// The told status, and behind it the answer buffer and the output buffer.
const STATUS: usize = 2048;

const ANSWER: usize = 2056;

const OUTPUT: usize = 2216;

const MOST_ANSWER: usize = OUTPUT - ANSWER;

const MOST_OUTPUT: usize = 1024;

const PACKED: usize = OUTPUT + MOST_OUTPUT;

// The status of a line whose kind is none.
const NO_CALL: u64 = 999;

// Whether the port answers as a line tells, whose first letter is given. The line is packed where the case stands: answered as a value, it would be copied.
pub fn agrees(letter: u8, line: &[u8]) -> bool {
    let mut case = Case {
        kind: Kind::named(letter),
        bytes: [UNTOUCHED; PACKED],
        at: 0,
        end: Some(TEXTS),
    };
    for field in line.split(|b| *b == b' ').skip(1) {
        case.add(field);
    }
    case.agrees()
}

// A line, packed: where the next field goes, and of an input where the bytes of the next byte string do.
#[derive(Clone, Copy)]
struct Case {
    kind: Option<Kind>,
    bytes: [u8; PACKED],
    at: usize,
    end: Option<usize>,
}

impl Case {
    fn put_number(&mut self, number: u64) {
        put_le64(&mut self.bytes, self.at, number);
        self.at = self.at.saturating_add(8);
    }

    // Writes the bytes of a byte string, whose first letter is its mark, and answers where they end.
    fn put_text(&mut self, at: usize, field: &[u8]) -> usize {
        match self.bytes.get_mut(at..) {
            Some(room) => at.saturating_add(unhex(part_of(field, 1, field.len()), room)),
            None => at,
        }
    }

    // Packs a byte string: of an input where it starts, and its bytes behind those of the others; of an answer its bytes.
    fn add_text(&mut self, field: &[u8]) {
        match self.end {
            Some(end) => {
                self.put_number(end as u64);
                self.end = Some(self.put_text(end, field));
            }
            None => self.at = self.put_text(self.at, field),
        }
    }

    // Packs a field. '=' ends the inputs, and so the last one's bytes; behind ':' is the output.
    fn add(&mut self, field: &[u8]) {
        match field.first() {
            None => {}
            Some(b'x') => self.add_text(field),
            Some(b'=') => {
                self.put_number(self.end.unwrap_or(0) as u64);
                self.at = STATUS;
                self.end = None;
            }
            Some(b':') => {
                self.at = OUTPUT;
                self.end = None;
            }
            Some(_) => self.put_number(number(field)),
        }
    }

    // The i-th input: a number, a byte by itself, or a byte string.
    fn number(&self, i: usize) -> u64 {
        le64(&self.bytes, i.saturating_mul(8))
    }

    fn byte(&self, i: usize) -> u8 {
        (self.number(i) % 256) as u8
    }

    fn text(&self, i: usize) -> &[u8] {
        let from = self.number(i);
        let to = self.number(i.saturating_add(1));
        part_of(&self.bytes, from as usize, to.wrapping_sub(from) as usize)
    }

    // What the output buffer begins with before the call and after it: an append's is the journal's slice.
    fn lent(&self) -> &[u8] {
        match self.kind {
            Some(Kind::Append) => self.text(6),
            _ => &[],
        }
    }

    // Whether the port answers as told: status, answer and output, with what is behind them as it was.
    fn agrees(&self) -> bool {
        let mut answer = [UNTOUCHED; MOST_ANSWER];
        let mut output = [UNTOUCHED; MOST_OUTPUT];
        self.call(&mut output, &mut answer) == Some(le64(&self.bytes, STATUS))
            && answer.as_slice() == part_of(&self.bytes, ANSWER, MOST_ANSWER)
            && output
                .strip_prefix(self.lent())
                .is_some_and(|rest| rest == part_of(&self.bytes, OUTPUT, rest.len()))
    }

    // The status of the call, whose output buffer is as long as the first number says. None where there is no such room.
    fn call(&self, buffer: &mut [u8], answer: &mut [u8]) -> Option<u64> {
        let out = buffer.get_mut(..self.number(0) as usize)?;
        let lent = self.lent();
        out.get_mut(..lent.len())?.copy_from_slice(lent);
        Some(match self.kind {
            Some(Kind::Mul) => fiber_settlement_scale(
                self.number(1),
                self.number(2),
                self.number(3),
                self.number(4),
                self.number(5),
                answer,
            ),
            Some(Kind::Due) => fiber_settlement_is_due(
                self.number(1),
                self.number(2),
                self.number(3),
                self.number(4),
                self.number(5),
                self.number(6),
                self.number(7),
                self.number(8),
                self.number(9),
                answer,
            ),
            Some(Kind::Expiry) => fiber_settlement_expiry(self.number(1), answer),
            Some(Kind::Key) => fiber_settlement_key_hash(self.text(1), answer),
            Some(Kind::Ckb) => {
                let mut digest = [0; 32];
                fiber_settlement_ckb_hash(self.text(1), &mut digest);
                put(out, 0, &digest);
                0
            }
            Some(Kind::Sha256) => {
                let mut digest = [0; 32];
                fiber_settlement_sha256(self.text(1), &mut digest);
                put(out, 0, &digest);
                0
            }
            Some(Kind::Read) => fiber_settlement_read(self.number(1), self.text(2), answer),
            Some(Kind::Update) => fiber_settlement_update(
                self.number(1),
                self.text(2),
                out,
                answer,
            ),
            Some(Kind::First) => fiber_settlement_first_state(
                self.number(1),
                self.byte(2),
                self.number(3),
                self.number(4),
                self.number(5),
                self.number(6),
                self.text(7),
                self.text(8),
                self.text(9),
                out,
                answer,
            ),
            Some(Kind::Pick) => fiber_settlement_choose(
                self.number(1),
                self.byte(2),
                self.byte(3),
                self.number(4),
                self.number(5),
                self.number(6),
                self.number(7),
                self.number(8),
                self.number(9),
                self.number(10),
                self.number(11),
                self.number(12),
                self.number(13),
                self.number(14),
                self.text(15),
                self.text(16),
                self.text(17),
                self.text(18),
                self.text(19),
                self.text(20),
                self.text(21),
                out,
                answer,
            ),
            Some(Kind::Append) => fiber_journal_append(
                out,
                self.number(1),
                self.text(7),
                self.byte(2),
                self.byte(3),
                self.number(4),
                self.number(5),
                answer,
            ),
            Some(Kind::Walk) => fiber_journal_walk(self.text(2), self.number(1), out, answer),
            None => NO_CALL,
        })
    }
}
