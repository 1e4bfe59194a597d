// Reads and writes that are made again where a signal interrupted them (EINTR) or where they would have had to wait (EAGAIN). Where one fails for
// good, its error says why.
//
// No contract can say which bytes are read or written. std's own `read_to_end`, `read_exact` and `write_all` are not called: they do not wait where
// a call would have had to, and `read_to_end` needs the heap.
ghost use Rattle.std.specs.Prelude.{◌≤◌, List, length, IfOk};
ghost use Rattle.std.specs.List.{FoldsTo};

use std::io::{Error, ErrorKind, Read, Result};
use std::thread;
use std::time::{Clock, Duration};

// How often one call is made again. A proved loop has to end, and nothing says that there will be bytes, or room for them: a
// minute without either counts as a failure.
const AGAIN: u32 = 6_000;

// Ten milliseconds.
fn pause(clock: &impl Clock) {
    thread::sleep(clock, Duration::from_millis(10));
}

// Whether the call that has just failed is to be made again: at once after a signal, after a pause where it would have had to wait.
fn again(clock: &impl Clock, error: &Error) -> bool {
    match error.kind() {
        ErrorKind::WouldBlock => {
            pause(clock);
            true
        }
        ErrorKind::Interrupted => true,
        _ => false,
    }
}

// A call, made again. The last call is the one whose error is answered.
fn made_again<F: FnMut() -> Result<usize>>(clock: &impl Clock, mut call: F) -> Result<usize>
    requires { F.IsAlwaysCallable call }
    ensures { (tries : List _) × (before : F) × (after : F) × FoldsTo F.step call tries before × F.step before result after }
{
    // By count: each turn is one more attempt at the same call, so that there is nothing else to go over.
    for _ in 0..AGAIN {
        match call() {
            Err(e) if again(clock, &e) => {}
            answer => return answer,
        }
    }
    call()
}

// A read, made again.
fn read_some(rt: &HostRuntime, into: &mut [u8]) -> Result<usize>
    ensures { IfOk result (λ n. n ≤ length into.new) }
{
    made_again(rt, || rt.stdin().read(into))
}

// A write, made again.
fn write_some(rt: &HostRuntime, bytes: &[u8]) -> Result<usize>
    ensures { IfOk result (λ n. n ≤ length bytes.now) }
{
    made_again(rt, || rt.write_some(bytes))
}

// Reads until the input ends or buf is full, and answers how many bytes now stand at the start of buf. Beside `read_full` of test_lines, which a program
// does not use: a read that was interrupted is made again here.
pub fn read_all(rt: &HostRuntime, buf: &mut [u8]) -> Result<usize>
    ensures { IfOk result (λ n. n ≤ length buf.new) }
{
    let mut at = 0;
    // By hand: a read says itself how much it took, so that no iterator has a step.
    while at < buf.len() {
        match read_some(rt, &mut buf[at..])? {
            0 => break,
            n => at += n,
        }
    }
    Ok(at)
}

// Writes all of bytes, or fails at a write that fails or takes nothing; some of them may then have been written.
pub fn write_all(rt: &HostRuntime, bytes: &[u8]) -> Result<()> {
    let mut rest = bytes;
    // By hand: a write says itself how much it took, so that no iterator has a step.
    while !rest.is_empty() {
        match write_some(rt, rest)? {
            0 => {
                return Err(Error::new(ErrorKind::WriteZero, "failed to write whole buffer"));
            }
            n => rest = &rest[n..],
        }
    }
    Ok(())
}
