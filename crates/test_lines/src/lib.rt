// Reads lists of test cases for the programs `vectors`, `replay` and `forms`, and for no other crate: a case to a line, fields parted by single blanks.
// The programs read a list into a lent buffer, and take `read_full`, `find`, `number`, `unhex`, `agrees` and `Tally`: these allocate nothing. `is_case`,
// `unreadable`, `decode` and `Field` are for a list that is read as text; no program here takes them.
// Uses std alone.
#![tactic(auto)]

mod counts;
mod fields;

ghost use Rattle.std.specs.Prelude.{◌≡◌, ◌≢◌, ◌+◌, ◌*◌, ◌/◌, ◌%◌, ◌^◌, ◌≤◌, ◌↔◌, max, length, slice_get, IsTrue, IsSomeAnd, IfOk};
ghost use Rattle.std.specs.IoError.{error_kind};
ghost use Rattle.std.proofs.lemmas.List.Edits.{sets};
ghost use Rattle.test_lines.specs.Lines as S;

pub use counts::Tally;
pub use fields::Field;
use std::alloc::{AllocError, Global};
use std::io::{self, ErrorKind, Read};

// Whether a line of a list is a case: it is not empty, and no comment.
pub fn is_case(line: &str) -> bool
    ensures { IsTrue result ↔ IsSomeAnd (slice_get line.now 0) (λ b. b ≢ 35) }
{
    line.as_bytes().first().is_some_and(|b| *b != b'#')
}

// The error for a text that is not what has to stand there. It says the text.
pub fn unreadable(text: &str) -> io::Error
    ensures { error_kind result ≡ ErrorKind.InvalidData }
{
    io::Error::new(ErrorKind::InvalidData, text)
}

// Reads until the input ends or buf is full, and answers how many bytes now stand at the start of buf.
pub fn read_full(input: &mut impl Read, buf: &mut [u8]) -> io::Result<usize>
    ensures { IfOk result (λ n. n ≤ length buf.new) }
{
    let mut at = 0;
    // By place: each read says how much it filled.
    while at < buf.len() {
        let n = input.read(&mut buf[at..])?;
        if n == 0 {
            break;
        }
        at += n;
    }
    Ok(at)
}

const NINE: u8 = b'9';

const NEWLINE: u8 = b'\n';

// The digits that a byte has.
const DIGITS: usize = 2;

// The value of a digit, decimal or hexadecimal. The crate hex turns down what is no digit; here it is 0, so that a line of a list is compared whatever it has.
#[tactic(auto, using(std::proofs::lemmas::Bool::Decides::nat_tests), unfolding(crate::specs::Lines::digit))]
pub fn digit(b: u8) -> u8
    ensures value { result ≡ S.digit b }
    ensures bound { result ≤ 15 }
{
    match b {
        b'0'..=NINE => b - b'0',
        b'a'..=b'f' => b - b'a' + 10,
        _ => 0,
    }
}

// The byte that two hexadecimal digits at a place stand for.
#[tactic(auto, using(std::proofs::lemmas::Bool::Decides::nat_tests), unfolding(crate::specs::Lines::hex_at))]
pub fn hex_at(s: &[u8], i: usize) -> u8
    ensures { result ≡ S.hex_at s.now i }
{
    if i.saturating_add(DIGITS) <= s.len() {
        digit(s[i]) * 16 + digit(s[i + 1])
    } else {
        0
    }
}

// Writes the bytes that s stands for to the front of out, as many as have room, and answers how many s has.
pub fn unhex(s: &[u8], out: &mut [u8]) -> usize
    ensures value { result ≡ length s.now / 2 }
    ensures out_after { out.new ≡ sets out.old 0 (S.hex_bytes (length s.now / 2) s.now 0) }
{
    let n = s.len() / 2;
    // By place: of what is written through a part that an iterator lends the library says nothing.
    for i in 0..n.min(out.len()) {
        out[i] = hex_at(s, 2 * i);
    }
    n
}

// The bytes that s stands for. Not by the crate hex, which turns down an odd digit and a byte that is none: by `hex_at`, as `agrees` and `unhex` read,
// so that all three take whatever a line has, and in the same way. No program calls it: it is `unhex` for a list that is read as text, and needs the heap.
pub fn decode(alloc: Global, s: &[u8]) -> Result<Vec<u8>, AllocError>
    ensures { IfOk result (λ v. v.items ≡ S.hex_bytes (length s.now / 2) s.now 0) }
{
    (0..s.len() / 2).map(|i| hex_at(s, 2 * i)).collect(alloc)
}

// Whether s is the bytes in hexadecimal.
pub fn agrees(bytes: &[u8], s: &[u8]) -> bool
    ensures { result ≡ S.agree bytes.now s.now }
{
    s.len() / 2 == bytes.len()
        && bytes
            .iter()
            .enumerate()
            .all(|(i, b)| *b == hex_at(s, 2 * i))
}

// A decimal number, modulo 2^64: `parse` would turn down what is too long, and a byte that is no digit.
pub fn number(s: &[u8]) -> u64
    ensures { result ≡ S.number_from 0 s.now }
{
    s.iter().fold(
        0u64,
        |x, b| x.wrapping_mul(10).wrapping_add(u64::from(digit(*b))),
    )
}

// The first place from at on that holds b or ends the line.
pub fn find(s: &[u8], at: usize, b: u8) -> usize
    ensures value { result ≡ S.find s.now at b }
    ensures lower_bound { (at ≤ result) × (result ≤ max at (length s.now)) }
{
    match s.get(at..) {
        Some(rest) => at
            + rest
                .iter()
                .position(|x| *x == b || *x == NEWLINE)
                .unwrap_or(rest.len()),
        None => at,
    }
}

#[cfg(test)]
mod tests {
    use super::*;
    use std::test::Fail;

    #[test]
    fn decodes(rt: HostRuntime) -> Result<(), Fail> {
        let bytes = decode(rt.alloc(), b"00ff1")?;
        assert_eq!(rt; bytes.as_slice(), [0, 255].as_slice());
        Ok(())
    }

    #[test]
    fn reads_fields(rt: HostRuntime) -> Result<(), Fail> {
        assert!(rt; matches!(Field::parse(rt.alloc(), "x0a")?, Field::Bytes(_)));
        assert!(rt; matches!(Field::parse(rt.alloc(), "10")?, Field::Number(10)));
        assert!(rt; Field::parse(rt.alloc(), "ten").is_err());
        Ok(())
    }
}
