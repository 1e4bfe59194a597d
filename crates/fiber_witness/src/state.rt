// The writer of a state, for the update and for what a choice hands out: the count, the records that stand, both shares.
ghost use Rattle.std.specs.Prelude.{◌≡◌, ◌+◌, ◌≤◌, length};
ghost use mathlib.Core.List.{flatten};
ghost use Rattle.std.proofs.lemmas.List.Edits.{sets};
ghost use Rattle.fiber_witness.specs.Witness.{state_bytes};
ghost use Rattle.fiber_witness.specs.inner.Records.{standing_of};
ghost use Rattle.fiber_witness.specs.inner.Strided.{Fronts};

use crate::records::Records;
use crate::shares::Shares;
use fiber_bytes::put;
use fiber_types::layout::{SHARE_LEN, SHARES};

// A record that is there, into the part of an output where it belongs, which begins at byte 1 + k(65 + h) of a state.
pub fn put_record(tlc: &[u8], out: &mut [u8])
    ensures { out.new ≡ sets out.old 0 tlc.now }
{
    put(out, 0, tlc);
}

// Writes the records that stand, one behind the other from byte 1 on; answers where they end. The loop goes over the marks itself: over the iterator,
// whose own loop then stands inside this one, an update of 250 TLCs took 1.65 times as long, and one of 12 TLCs 1.5 times. Not inlined: among the values of an
// update it has too few registers, and 16 TLCs or more took 1.1 times as long.
#[tactic(auto, using(crate::proofs::StridedLaws::putting_start, crate::proofs::StridedLaws::putting_end))]
#[inline(never)]
fn put_records(records: &Records<'_>, out: &mut [u8]) -> usize
    requires { 1 + length (flatten (standing_of records.now)) ≤ length out.old }
    ensures value { result ≡ 1 + length (flatten (standing_of records.now)) }
    ensures out_after { out.new ≡ sets out.old 1 (flatten (standing_of records.now)) }
{
    let size = records.record_len();
    let source = records.source;
    let mut from = records.from;
    let mut at = 1;
    for settled in records.marks {
        if !*settled {
            put_record(&source[from..from + size], &mut out[at..]);
            at += size;
        }
        from += records.stride;
    }
    at
}

// Writes a state to the front of out; answers its length. The room is asked: whoever calls has turned down an output that is too short, by a length of
// which this state is a part.
pub fn put_state(records: &Records<'_>, shares: &Shares<'_>, out: &mut [u8]) -> usize
    requires { 73 + length (flatten (standing_of records.now)) ≤ length out.old }
    ensures { Fronts (state_bytes (standing_of records.now) shares.now.remote.now shares.now.local.now) out.old result out.new }
{
    out[0] = records.standing as u8;
    let at = put_records(records, out);
    put(out, at, shares.remote);
    put(out, at + SHARE_LEN, shares.local);
    at + SHARES
}
