// Numbers held in bytes, parts of a slice, and copies. What every layout of the settlement core is read and written with.
// For every crate. Uses nothing.
#![tactic(auto)]

ghost use Rattle.std.specs.Prelude.{◌≡◌, ◌<◌, length};
ghost use Rattle.std.proofs.lemmas.List.Edits.{sets};
ghost use Rattle.fiber_bytes.specs.Bytes as S;
ghost use Rattle.fiber_bytes.specs.Bytes.{part, le, le_bytes};

// At most n bytes of s from a place on: n is how many are asked for, not how many s has.
pub fn part_of<'a>(s: &'a [u8], at: usize, n: usize) -> &'a [u8]
    ensures { result.now ≡ part s.now at n }
{
    let rest = &s[at.min(s.len())..];
    rest.get(..n).unwrap_or(rest)
}

// Fewer than eight bytes as a number: from the last down, each put below the number so far.
fn le_of(bytes: &[u8]) -> u64
    requires { length bytes.now < 8 }
    ensures { result ≡ le bytes.now }
{
    bytes
        .iter()
        .rev()
        .fold(0, |x, byte| (x << 8) | u64::from(*byte))
}

// The number in the eight bytes at a place, lowest first. Bytes past the end count as 0.
pub fn le64(s: &[u8], at: usize) -> u64
    ensures { result ≡ le (part s.now at 8) }
{
    // Tested first: with `&s[at.min(s.len())..]` alone a hash of 33 bytes took 4 to 5 percent longer, as its block ends in words of padding.
    if s.len() <= at {
        return 0;
    }
    let left = &s[at..];
    match left.first_chunk::<8>() {
        Some(bytes) => u64::from_le_bytes(*bytes),
        None => le_of(left),
    }
}

// Copies src into out from a place on. Bytes that have no room are dropped.
pub fn put(out: &mut [u8], at: usize, src: &[u8])
    ensures { out.new ≡ sets out.old at src.now }
{
    let start = at.min(out.len());
    let n = src.len().min(out.len() - start);
    // By place: a loop becomes a call of memcpy, which each host has, and `copy_from_slice` one of memmove.
    for i in 0..n {
        out[start + i] = src[i];
    }
}

// Writes the eight bytes of x, lowest first, from a place on. Bytes that have no room are dropped.
pub fn put_le64(out: &mut [u8], at: usize, x: u64)
    ensures { out.new ≡ sets out.old at (le_bytes 8 x) }
{
    let bytes = x.to_le_bytes();
    // Tested first, so that all eight are one store: by `put` alone a call took 1.8 times as long.
    if at < out.len() && 8 <= out.len() - at {
        out[at..at + 8].copy_from_slice(&bytes);
    } else {
        put(out, at, &bytes);
    }
}

// Writes numbers one behind the other, the eight bytes of each lowest first, from a place on. Bytes that have no room are dropped.
#[tactic(auto, using(crate::proofs::BytesLaws::numbers_next, crate::proofs::BytesLaws::numbers_last))]
pub fn put_numbers(out: &mut [u8], at: usize, numbers: &[u64])
    ensures { out.new ≡ sets out.old at (S.numbers numbers.now) }
{
    for (i, number) in numbers.iter().enumerate() {
        put_le64(out, at.saturating_add(8 * i), *number);
    }
}
