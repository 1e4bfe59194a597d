// The later settlement: the TLCs that stand after the witness's own unlocks are walked in order.
ghost use Rattle.std.specs.Prelude.{◌≡◌, cond, ◌≤◌, length, slice_get, take};
ghost use Rattle.fiber_types.specs.Records.{Gives};
ghost use Rattle.fiber_witness.specs.inner.Marks.{marked};
ghost use Rattle.fiber_witness.specs.inner.Records.{standing_of};
ghost use Rattle.fiber_choice.specs.Entries.{same, same_lists, entries, tracked_len, tracked_record, tracked_records};
ghost use Rattle.fiber_choice.specs.Request.{tracked_tlcs};
ghost use Rattle.fiber_choice.specs.FirstRecords.{hash_of};
ghost use Rattle.fiber_choice.specs.declared.kinds.Stage.TheVariants as StageCase;
ghost use Rattle.fiber_choice.specs.inner.Noting.{pick_of};
ghost use Rattle.fiber_choice.specs.inner.Request.{request_by};
ghost use Rattle.fiber_choice.specs.Settlements as S;

use crate::walk::walked;
use fiber_bytes::part_of;
use fiber_choice::checked::Checked;
use fiber_choice::kinds::{Choice, Chosen, Decision, NoChoice, Stage, Wait};
use fiber_choice::walk::Walk;
use fiber_first::built::hash_of;
use fiber_first::lent::tracked_tlcs;
use fiber_output::lent::Lent;
use fiber_output::output::write_output;
use fiber_refusal::Refusal;
use fiber_step::slot::our_share;
use fiber_types::hash_len::HashLen;
use fiber_types::layout::{KEY_HASH, MOST_TLCS, TRACKED_RECORD};
use fiber_witness::left::{StateLeft, state_left};
use fiber_witness::marks::UNMARKED;
use fiber_witness::records::Records;
use fiber_witness::shares::Shares;

// Whether a record is that of a tracked TLC.
#[tactic(auto, using(fiber_choice::proofs::EntriesLaws::record_part))]
fn is_record_of(record: &[u8], tracked: &[u8]) -> bool
    ensures { result ≡ same record.now (tracked_record tracked.now) }
{
    record == part_of(tracked, TRACKED_RECORD, tracked.len())
}

// Whether the records that stand are those of the tracked list, one for one.
fn same_standing(q: &Checked<'_>, records: &Records<'_>) -> bool
    ensures { result ≡ same_lists (standing_of records.now) (tracked_records (entries (tracked_len q.now.h.bytes) q.now.tracked.now)) }
{
    let standing = *records;
    standing.standing == q.tracked_count()
        && standing
            .zip(tracked_tlcs(q.h, q.tracked))
            .all(|(record, tracked)| is_record_of(record, tracked))
}

// Where the TLC that stands at a place was among those of the witness.
fn first_of(marks: &[bool], place: usize) -> Option<usize>
    ensures { result ≡ slice_get (S.unsettled (marked marks.now) 0 (length marks.now)) place }
{
    marks
        .iter()
        .enumerate()
        .filter_map(|(i, settled)| if *settled { None } else { Some(i) })
        .nth(place)
}

// Where the record of the choice is in the witness. Behind the last that stands it would be the first, as the definition has it, which no caller asks: what
// is chosen is one of the tracked TLCs, and as many stand.
#[tactic(auto, using(fiber_choice::proofs::SettlementsLaws::place_small, fiber_choice::proofs::SettlementsLaws::place_found), unfolding(fiber_choice::specs::Settlements::later_place))]
fn later_place(h: HashLen, records: &Records<'_>, choice: Choice) -> usize
    ensures { result ≡ S.later_place h.bytes (S.unsettled (marked records.now.marks.now) 0 (length records.now.marks.now)) choice }
{
    match choice {
        Choice::Share(_) => 0,
        Choice::Tlc { place, way: _ } => 2
            + first_of(records.marks, place).unwrap_or(0) * h.record_len(),
    }
}

// Whether a share's key hash is that of a key.
fn is_share_of(share: &[u8], key: &[u8]) -> bool
    ensures { result ≡ same (take 20 share.now) (hash_of key.now) }
{
    part_of(share, 0, KEY_HASH) == hash_of(key).as_slice()
}

// Our share and the other one: ours is local with for_remote.
fn sides<'a>(for_remote: bool, shares: &Shares<'a>) -> (&'a [u8], &'a [u8])
    ensures ours { result.0.now ≡ cond for_remote shares.now.local.now shares.now.remote.now }
    ensures other { result.1.now ≡ cond for_remote shares.now.remote.now shares.now.local.now }
{
    if for_remote {
        (shares.local, shares.remote)
    } else {
        (shares.remote, shares.local)
    }
}

// Rows 12, 20 and 21.
#[tactic(auto, using(fiber_witness::proofs::LeavingLaws::standing_count), unfolding(fiber_choice::specs::Settlements::later_ready))]
fn later_ready(q: &Checked<'_>, records: &Records<'_>, ours: &[u8]) -> Result<(), NoChoice>
    ensures { result ≡ S.later_ready (request_by q.now) (standing_of records.now) ours.now }
{
    if MOST_TLCS < records.standing {
        return Err(NoChoice::Refused(Refusal::TooManyTlcs));
    }
    if !same_standing(q, records) {
        return Err(NoChoice::Wait(Wait::ListDiffers));
    }
    if !is_share_of(ours, q.settlement.local_key) {
        return Err(NoChoice::Wait(Wait::NotOurShare));
    }
    Ok(())
}

// Whether it is the last settlement: the other slot's key hash is zeros.
#[tactic(auto, unfolding(fiber_choice::specs::Settlements::is_last))]
fn is_last(other: &[u8]) -> bool
    ensures { result ≡ S.is_last other.now }
{
    part_of(other, 0, KEY_HASH) == [0; KEY_HASH].as_slice()
}

// Our share in the last settlement, TLCs not looked at; else the walk.
#[tactic(auto, using(fiber_choice::proofs::SettlementsLaws::choice_picks_share, fiber_choice::proofs::SettlementsLaws::choice_picks_walk))]
fn later_choice(q: &Checked<'_>, last: bool) -> Result<Chosen, Wait>
    requires { length (tracked_tlcs (request_by q.now)) ≤ 254 }
    ensures { result ≡ pick_of (S.later_choice (request_by q.now) last) (S.wait_by (request_by q.now) StageCase.Later) }
{
    if last {
        return Ok(our_share(q.for_remote));
    }
    walked(&Walk {
        q,
        stage: Stage::Later,
    })
}

// What follows the witness's own unlocks: the rows before the walk, the walk, and what is handed out.
fn later_state(q: &Checked<'_>, left: &StateLeft<'_>, out: &mut [u8]) -> Result<Decision, NoChoice>
    requires { 36 ≤ length q.now.args.now }
    ensures { Gives (S.later_state (request_by q.now) out.old (standing_of left.now.records)
        (S.unsettled (marked left.now.records.marks.now) 0 (length left.now.records.marks.now)) left.now.shares.remote.now left.now.shares.local.now) result out.new }
{
    let shares = left.shares;
    let (ours, other) = sides(q.for_remote, &shares);
    let last = is_last(other);
    later_ready(q, &left.records, ours)?;
    let chosen = later_choice(q, last)?;
    let lent = Lent { q, shares, last };
    let place = later_place(q.h, &left.records, chosen.choice);
    write_output(&lent, chosen, None, place, out)
}

// A later settlement: the witness is read and its unlocks are taken first.
pub fn choose_later(q: &Checked<'_>, w: &[u8], out: &mut [u8]) -> Result<Decision, NoChoice>
    requires { 36 ≤ length q.now.args.now }
    ensures { Gives (S.later (request_by q.now) w.now out.old) result out.new }
{
    let mut marks = UNMARKED;
    let left = state_left(q.h, w, &mut marks)?;
    later_state(q, &left, out)
}
