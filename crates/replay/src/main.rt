// Replays data/oracle.txt, a fixed list of the Rust's answers and, at its end, of those of a journal's calls, which the Rust does not have, and prints how many of the port's answers agree.
//
// The list's top says how it was made and what a line holds. Each case is one call of a function of the C interface, and
// status, answer buffer and output buffer are compared whole, so that a byte written where none belongs is seen.
// A kind is known by its name's first letter; a line of no kind is a case that differs.
// A program; uses the C interface, fiber_bytes, test_lines, and std for the file. It reads into a fixed buffer, so that it uses no heap.
#![tactic(auto)]

ghost use Rattle.std.specs.Prelude.{◌≡◌, length};

mod case;
mod kind;

use fiber_bytes::part_of;
use std::fs::File;
use std::io;
use test_lines::{Tally, find, read_full};

// Room for the list. What is behind that in a longer one is not read.
// The `ensures` gives only the length, which lending the array as a slice needs.
fn list_buffer() -> [u8; 1_000_000]
    ensures { 1000000 ≡ length result }
{
    [0; 1_000_000]
}

// The cases of a kind that stand together, by their first letter.
#[derive(Clone, Copy, Debug, Default)]
struct Group {
    letter: u8,
    tally: Tally,
}

impl Group {
    // Ends the output's line of a kind.
    fn print(&self, rt: &impl Print) -> io::Result<()> {
        if self.tally.run == 0 {
            return Ok(());
        }
        println!(rt; ": {}", self.tally)
    }

    // Counts a line. The lines of a kind stand together: the first of them starts a line of the output with its kind.
    fn count(&mut self, rt: &impl Print, line: &[u8]) -> io::Result<()> {
        let letter = match line.first() {
            None | Some(b'#') => return Ok(()),
            Some(letter) => *letter,
        };
        let agree = case::agrees(letter, line);
        if letter != self.letter {
            self.print(rt)?;
            rt.write_all(part_of(line, 0, find(line, 0, b' ')))?;
            *self = Group {
                letter,
                tally: Tally::default(),
            };
        }
        self.tally.count(agree);
        Ok(())
    }
}

fn main(rt: HostRuntime) -> io::Result<()> {
    let mut file = File::open(&rt, "oracle.txt")?;
    let mut list = list_buffer();
    let n = read_full(&mut file, &mut list)?;
    let mut group = Group::default();
    for line in list[..n].split(|b| *b == b'\n') {
        group.count(&rt, line)?;
    }
    group.print(&rt)
}
