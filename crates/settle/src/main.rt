// The program `settle`: one byte h and a witness on standard input, the updated state or the refusal on standard output.
// It only reads, calls and writes; what it prints is proved of `report`. Where a read fails it prints nothing, and where a read or a
// write fails it says so in one line on standard error and ends with status 1. Uses report, fiber_bytes and std.
#![tactic(auto)]

mod calls;

use calls::{read_all, write_all};
use fiber_bytes::part_of;
use report::report;
use std::fmt;
use std::io::Error;
use std::process::ExitCode;

// No state, no text and no input that is taken is longer.
const MOST: usize = 65_536;

// What could not be done, and why.
#[derive(Drop)]
enum Failure {
    Read(Error),
    Write(Error),
}

impl fmt::Display for Failure {
    fn fmt<W: fmt::Write>(&self, f: &mut fmt::Formatter<W>) -> fmt::Result {
        match self {
            Failure::Read(e) => write!(f, "standard input could not be read: {e}"),
            Failure::Write(e) => write!(f, "standard output could not be written: {e}"),
        }
    }
}

fn run(rt: &HostRuntime) -> Result<(), Failure> {
    // One byte more than is taken, so that a longer input is seen to be longer. The buffers are fixed: the program uses no heap.
    let mut input = [0; MOST + 1];
    let n = read_all(rt, &mut input).map_err(Failure::Read)?;
    let mut updated = [0; MOST];
    let mut out = [0; MOST];
    let length = report(part_of(&input, 0, n), &mut updated, &mut out);
    write_all(rt, part_of(&out, 0, length)).map_err(Failure::Write)
}

fn main(rt: HostRuntime) -> ExitCode {
    match run(&rt) {
        Ok(()) => ExitCode::SUCCESS,
        Err(failure) => {
            // Where that cannot be said either, nothing is left to say it to.
            let _ = eprintln!(rt; "settle: {failure}");
            ExitCode::FAILURE
        }
    }
}
