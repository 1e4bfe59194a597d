// Runs the two forms beside what the core uses, on the inputs that `replay` has: the reader as a struct beside the cursor, and
// stored preimages as a list of structs beside the flat slice. Prints how many answers agree and how many differ; the file `stdout` has no difference.
//
// A line's kind is known by its first letter; one with another letter is passed over, and so is an empty one.
// A program; uses the two forms, the upper face, what is below it, test_lines, and std for the file. It reads into fixed buffers, so that it uses no heap.
#![tactic(auto)]

ghost use Rattle.std.specs.Prelude.{◌≡◌, length};

use fiber_bytes::{part_of, put};
use fiber_step::preimage;
use fiber_types::layout::{PAIR, PAIR_PREIMAGE, TRACKED_FIXED};
use fiber_types::tlc::valid_hash_len;
use preimage_list::Preimage;
use std::array::from_fn;
use std::fs::File;
use std::io;
use test_lines::{Tally, number, read_full, unhex};
use watchtower::witness;

// Room for the list. What is behind that in a longer one is not read.
// The `ensures` gives only the length, which lending the array as a slice needs.
fn list_buffer() -> [u8; 500_000]
    ensures { 500000 ≡ length result }
{
    [0; 500_000]
}

// Room for the bytes of a field.
const MOST_BYTES: usize = 1024;

// As many pairs as a field has room for.
const MOST_PAIRS: usize = MOST_BYTES / PAIR;

// The k-th field of a line, whose kind is the 0th; empty where there are fewer.
fn field(line: &[u8], k: usize) -> &[u8] {
    line.split(|b| *b == b' ').nth(k).unwrap_or(&[])
}

// The bytes that a field stands for behind its mark, at the front of the buffer.
fn bytes_of<'a>(text: &[u8], buffer: &'a mut [u8]) -> &'a [u8] {
    let n = unhex(part_of(text, 1, text.len()), buffer);
    part_of(buffer, 0, n)
}

// Whether the two readers say the same of a witness.
fn readers_agree(hash_len: usize, witness: &[u8]) -> bool {
    witness_reader::read(hash_len, witness) == witness::read(hash_len, witness)
}

// 32 bytes from a place on, of which those past the end are 0.
fn bytes32(s: &[u8], at: usize) -> [u8; 32] {
    let mut bytes = [0; 32];
    put(&mut bytes, 0, part_of(s, at, 32));
    bytes
}

// The pair at a place of a flat slice.
fn pair_at(flat: &[u8], at: usize) -> Preimage {
    Preimage {
        hash: bytes32(flat, at),
        preimage: bytes32(flat, at.saturating_add(PAIR_PREIMAGE)),
    }
}

// Whether the two searches find the same.
fn searches_agree(flat: &[u8], hash: &[u8]) -> bool {
    let pairs: [Preimage; MOST_PAIRS] = from_fn(|i| pair_at(flat, PAIR * i));
    match pairs.get(..flat.len() / PAIR) {
        Some(pairs) => preimage_list::find_pair(pairs, bytes32(hash, 0))
            == preimage::find_pair(flat, hash),
        None => false,
    }
}

#[derive(Clone, Copy, Debug, Default)]
struct Tallies {
    readers: Tally,
    searches: Tally,
}

impl Tallies {
    // Counts the readers on the witness in a line's k-th field.
    fn count_readers(&mut self, line: &[u8], k: usize) {
        let mut buffer = [0; MOST_BYTES];
        let witness = bytes_of(field(line, k), &mut buffer);
        let hash_len = number(field(line, 2)) as usize;
        self.readers.count(readers_agree(hash_len, witness));
    }

    // Counts the search for the hash of each of a line's tracked TLCs, the last one's too where that TLC is cut short.
    fn count_searches(&mut self, line: &[u8]) {
        let mut tracked_buffer = [0; MOST_BYTES];
        let mut pairs_buffer = [0; MOST_BYTES];
        let tracked = bytes_of(field(line, 20), &mut tracked_buffer);
        let flat = bytes_of(field(line, 21), &mut pairs_buffer);
        let hash_len = number(field(line, 2)) as usize;
        if valid_hash_len(hash_len) {
            for tlc in tracked.chunks(TRACKED_FIXED.saturating_add(hash_len)) {
                self.searches
                    .count(searches_agree(flat, part_of(tlc, 0, 32)));
            }
        }
    }

    // Counts a line: its witness, and its tracked TLCs where it has them.
    fn count_line(&mut self, line: &[u8]) {
        match line.first() {
            Some(b'r' | b'u') => self.count_readers(line, 3),
            Some(b'p') => {
                self.count_readers(line, 22);
                self.count_searches(line);
            }
            _ => {}
        }
    }
}

fn print(rt: &impl Print, name: &str, tally: Tally) -> io::Result<()> {
    println!(rt;
        "{name} {} agree {} differ",
        tally.agree,
        tally.run - tally.agree
    )
}

fn main(rt: HostRuntime) -> io::Result<()> {
    let mut file = File::open(&rt, "inputs.txt")?;
    let mut list = list_buffer();
    let n = read_full(&mut file, &mut list)?;
    let mut tallies = Tallies::default();
    for line in list[..n].split(|b| *b == b'\n') {
        tallies.count_line(line);
    }
    print(&rt, "readers", tallies.readers)?;
    print(&rt, "pairs", tallies.searches)
}
