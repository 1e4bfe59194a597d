// Runs the vectors of data/vectors.txt through the hashes and prints how many agree.
//
// A line is: the hash's name, a message in hexadecimal ('-' for no bytes), how often the message is repeated, and the
// digest in hexadecimal. A hash is known by its name's first letter. Lines that start with another one are passed over, and so are
// empty lines and those that start with '#'.
// A program; uses the lower face, test_lines, and std for the file. It reads into fixed buffers, so that it uses no heap.
#![tactic(auto)]

ghost use Rattle.std.specs.Prelude.{◌≡◌, ◌≤◌, length};

use std::fs::File;
use std::{fmt, io};
use test_lines::{Tally, agrees, find, number, read_full, unhex};

// Room for the list, and for the longest message. What is behind that in a longer list is not read.
// The `ensures` gives only the length, which lending the array as a slice needs.
fn buffer() -> [u8; 1_000_000]
    ensures { 1000000 ≡ length result }
{
    [0; 1_000_000]
}

#[derive(Clone, Copy, Debug, PartialEq, Eq)]
enum Hash {
    Blake2b,
    Ckb,
    Sha256,
}

impl Hash {
    // The hash whose name begins with a letter.
    fn named(letter: u8) -> Option<Hash> {
        match letter {
            b'b' => Some(Hash::Blake2b),
            b'c' => Some(Hash::Ckb),
            b's' => Some(Hash::Sha256),
            _ => None,
        }
    }

    // Whether its digest of a message is the one in hexadecimal.
    fn agrees(self, message: &[u8], digest: &[u8]) -> bool {
        match self {
            Hash::Blake2b => agrees(
                &fiber_types::blake2b::blake2b(64, &[0; 16], message),
                digest,
            ),
            Hash::Ckb => agrees(&fiber_types::blake2b::ckb_hash(message), digest),
            Hash::Sha256 => agrees(&fiber_types::sha256::sha256(message), digest),
        }
    }
}

impl fmt::Display for Hash {
    fn fmt<W: fmt::Write>(&self, f: &mut fmt::Formatter<W>) -> fmt::Result {
        f.write_str(match self {
            Hash::Blake2b => "blake2b-512",
            Hash::Ckb => "ckb",
            Hash::Sha256 => "sha256",
        })
    }
}

// A field, and what is behind the blank or the line's end that ends it. None where the list ends first.
fn next_field(list: &[u8]) -> Option<(&[u8], &[u8])> {
    let (field, rest) = list.split_at_checked(find(list, 0, b' '))?;
    let (_, rest) = rest.split_first()?;
    Some((field, rest))
}

// A line of the list, its bytes in hexadecimal as they stand there.
#[derive(Clone, Copy, Debug)]
struct Vector<'a> {
    hash: Hash,
    message: &'a [u8],
    times: u64,
    digest: &'a [u8],
}

impl<'a> Vector<'a> {
    // The line that a list begins with. Fields that it lacks are those of the lines behind it; where the list ends before the digest's
    // first place, it is none.
    fn parse(list: &'a [u8]) -> Option<Vector<'a>> {
        let (name, rest) = next_field(list)?;
        let (message, rest) = next_field(rest)?;
        let (times, rest) = next_field(rest)?;
        Some(Vector {
            hash: Hash::named(*name.first()?)?,
            message,
            times: number(times),
            digest: rest.get(..find(rest, 0, b' '))?,
        })
    }

    // Writes the repeated message to the front of out, and answers how many bytes it has: none where it has no room.
    fn put_message(&self, out: &mut [u8]) -> usize
        ensures { result ≤ length out.new }
    {
        let once = unhex(self.message, out);
        let all = usize::try_from(self.times)
            .ok()
            .and_then(|times| once.checked_mul(times))
            .unwrap_or(0);
        if all < once || out.len() < all {
            return 0;
        }
        for i in once..all {
            out[i] = out[i - once];
        }
        all
    }

    // Whether the code's digest is the one on the line.
    fn agrees(&self, out: &mut [u8]) -> bool {
        let all = self.put_message(out);
        self.hash.agrees(&out[..all], self.digest)
    }
}

// How many cases of each hash ran, and how many agreed.
#[derive(Clone, Copy, Debug, Default)]
struct Tallies {
    blake2b: Tally,
    ckb: Tally,
    sha256: Tally,
}

impl Tallies {
    fn count(&mut self, hash: Hash, agree: bool) {
        match hash {
            Hash::Blake2b => self.blake2b.count(agree),
            Hash::Ckb => self.ckb.count(agree),
            Hash::Sha256 => self.sha256.count(agree),
        }
    }

    // Counts the lines of a list. By place, since a line that lacks fields reads on into the next.
    fn count_list(&mut self, list: &[u8], out: &mut [u8]) {
        let mut at = 0;
        while at < list.len() {
            if let Some(vector) = Vector::parse(&list[at..]) {
                self.count(vector.hash, vector.agrees(out));
            }
            at = find(list, at, b'\n').saturating_add(1);
        }
    }
}

fn main(rt: HostRuntime) -> io::Result<()> {
    let mut file = File::open(&rt, "vectors.txt")?;
    let mut list = buffer();
    let n = read_full(&mut file, &mut list)?;
    let mut out = buffer();
    let mut tallies = Tallies::default();
    tallies.count_list(&list[..n], &mut out);
    println!(rt; "{}: {}", Hash::Blake2b, tallies.blake2b)?;
    println!(rt; "{}: {}", Hash::Ckb, tallies.ckb)?;
    println!(rt; "{}: {}", Hash::Sha256, tallies.sha256)
}
