// What is handed out with a choice: the unlock, the state before it and the new lock args, joined in the output.
ghost use Rattle.std.specs.Prelude.{◌≡◌, ◌+◌, ◌-◌, ◌≤◌, length, take, drop, is_some};
ghost use mathlib.Core.List.{◌∷◌, [], ◌++◌, flatten};
ghost use Rattle.std.proofs.lemmas.List.Edits.{sets};
ghost use Rattle.fiber_blake2b.specs.Blake2b.{ckb_hash};
ghost use Rattle.fiber_types.specs.Records.{Gives, witness_len};
ghost use Rattle.fiber_witness.specs.Witness.{state_bytes};
ghost use Rattle.fiber_witness.specs.Update.{keep};
ghost use Rattle.fiber_witness.specs.inner.Marks.{listed};
ghost use Rattle.fiber_witness.specs.inner.Strided.{Fronts};
ghost use Rattle.fiber_choice.specs.Entries.{entries, tracked_records, pair_len};
ghost use Rattle.fiber_choice.specs.HandedOut as S;
ghost use Rattle.fiber_choice.specs.Request.{tracked_tlcs, pairs};
ghost use Rattle.fiber_choice.specs.inner.Plan.{plan_of, PairWhole, plan_after, plan_unlock, joined, Below, Within};
ghost use Rattle.fiber_choice.specs.inner.Request.{request_by};

use crate::lent::Lent;
use fiber_bytes::{part_of, put};
use fiber_choice::kinds::{Choice, Chosen, Decision, NoChoice, Plan, Side, Way};
use fiber_choice::pair::pair_preimage;
use fiber_refusal::Refusal;
use fiber_types::blake2b::ckb_hash;
use fiber_types::epoch::Epoch;
use fiber_types::hash_len::HashLen;
use fiber_types::layout::{SHARE_AMOUNT, STATE_FIXED, TRACKED_RECORD};
use fiber_types::tlc::{Amount, amount_at};
use fiber_types::unlock;
use fiber_types::unlock::Unlock;
use fiber_witness::marks::{UNMARKED, count_standing, mark};
use fiber_witness::records::Records;
use fiber_witness::shares::{Shares, UnlockedShares};
use fiber_witness::state::put_state;

// A share's unlock settles no TLC, and a TLC's takes no share. Its place is asked: which places there are a list says, so that no type of `Choice` does.
#[tactic(auto, unfolding(fiber_choice::specs::inner::Plan::plan_of, fiber_choice::specs::inner::Plan::Below, fiber_choice::specs::HandedOut::choice_byte))]
fn plan_of(choice: Choice) -> Plan
    requires { Below 255 choice }
    ensures { result ≡ plan_of choice }
{
    match choice {
        Choice::Share(side) => Plan {
            byte: side.byte(),
            pair: None,
            settled: None,
            unlocked: UnlockedShares {
                remote: side == Side::Remote,
                local: side == Side::Local,
            },
        },
        Choice::Tlc { place, way } => Plan {
            byte: place as u8,
            pair: match way {
                Way::Timeout => None,
                Way::Preimage(pair_place) => Some(pair_place),
            },
            settled: Some(place as u8),
            unlocked: UnlockedShares {
                remote: false,
                local: false,
            },
        },
    }
}

// Writes the state of the tracked TLCs, but for one that is settled, and of shares, to the front of out; answers its length. The room is asked, as in
// `put_state`.
fn put_tracked(
    lent: &Lent<'_, '_>,
    settled: Option<u8>,
    shares: &Shares<'_>,
    out: &mut [u8],
) -> usize
    requires { 73 + length (flatten (keep (listed settled) 0 (tracked_records (tracked_tlcs (request_by lent.now.q.now))))) ≤ length out.old }
    ensures { Fronts (state_bytes (keep (listed settled) 0 (tracked_records (tracked_tlcs (request_by lent.now.q.now))))
        shares.now.remote.now shares.now.local.now) out.old result out.new }
{
    let mut all = UNMARKED;
    mark(settled, &mut all);
    let q = lent.q;
    let marks = &all[..q.tracked_count()];
    let records = Records {
        source: q.tracked,
        from: TRACKED_RECORD,
        stride: q.h.tracked_len(),
        h: q.h.bytes,
        marks,
        standing: count_standing(marks),
    };
    put_state(&records, shares, out)
}

// Writes the state after the unlock to the front of out, and answers its CKB hash. The state before it, which is no shorter, is
// written over it afterwards, so that the room is asked for that one.
#[tactic(auto, using(fiber_choice::proofs::HandedLaws::keep_small, fiber_witness::proofs::WitnessLaws::state_size, fiber_choice::proofs::HandedLaws::front_back), unfolding(fiber_choice::specs::inner::Plan::plan_after))]
fn hash_after(lent: &Lent<'_, '_>, p: Plan, out: &mut [u8]) -> [u8; 32]
    requires { 73 + length (flatten (tracked_records (tracked_tlcs (request_by lent.now.q.now)))) ≤ length out.old }
    ensures value { result ≡ ckb_hash (plan_after (tracked_records (tracked_tlcs (request_by lent.now.q.now)))
        lent.now.shares.remote.now lent.now.shares.local.now p) }
    ensures out_after { out.new ≡ sets out.old 0 (plan_after (tracked_records (tracked_tlcs (request_by lent.now.q.now)))
        lent.now.shares.remote.now lent.now.shares.local.now p) }
{
    let shares = lent.shares.left(p.unlocked);
    let size = put_tracked(lent, p.settled, &shares, out);
    ckb_hash(&out[..size])
}

// What the unlock says of itself.
fn unlock_of(p: Plan) -> Unlock
    ensures { result ≡ record { byte = p.byte; flag = is_some p.pair } }
{
    Unlock {
        byte: p.byte,
        flag: p.pair.is_some(),
    }
}

// The unlock, with 65 zeros for the signature, at the front of the output.
#[tactic(auto, using(fiber_choice::proofs::HandedLaws::unlock_plain, fiber_choice::proofs::HandedLaws::unlock_paired))]
fn put_unlock(preimages: &[u8], p: Plan, out: &mut [u8])
    requires { PairWhole preimages.now p.pair × (99 ≤ length out.old) }
    ensures { out.new ≡ sets out.old 0 (plan_unlock (entries pair_len preimages.now) p) }
{
    let u = unlock_of(p);
    let signature = [0; 65];
    // Both parts have their lengths, and the output has room, so that the unlock is written.
    let _ = match p.pair {
        Some(pair_place) => {
            unlock::write(u, &signature, pair_preimage(preimages, pair_place), out)
        }
        None => unlock::write(u, &signature, &[], out),
    };
}

// The new args: args 0 to 35, the first 20 bytes of the state's hash, 0x01, args from byte 57.
fn put_args(args: &[u8], hash: &[u8; 32], out: &mut [u8], at: usize)
    requires args_long { 36 ≤ length args.now }
    requires at_in_bounds { (at + 57 ≤ length out.old) × (at + length args.now ≤ length out.old) }
    ensures { out.new ≡ sets out.old at
        (take 36 args.now ++ take 20 hash.now ++ (1 ∷ []) ++ drop 57 args.now) }
{
    put(out, at, part_of(args, 0, 36));
    put(out, at + 36, part_of(hash, 0, 20));
    out[at + 56] = 1;
    put(out, at + 57, part_of(args, 57, args.len()));
}

// How many bytes the new args have: 57, and what stands behind them.
fn new_args_len(args: &[u8]) -> usize
    ensures { result ≡ 57 + (length args.now - 57) }
{
    args.len().max(57)
}

// The three parts, joined, in an output that has room for them.
#[tactic(auto, using(fiber_choice::proofs::HandedLaws::joined_size, fiber_choice::proofs::HandedLaws::keep_listed, fiber_witness::proofs::WitnessLaws::state_size))]
fn put_joined(lent: &Lent<'_, '_>, p: Plan, out: &mut [u8])
    requires pair_whole { PairWhole lent.now.q.now.preimages.now p.pair }
    requires p_in_bounds { length (joined lent.now.q.now.args.now (tracked_tlcs (request_by lent.now.q.now))
        (pairs (request_by lent.now.q.now)) lent.now.shares.remote.now lent.now.shares.local.now p) ≤ length out.old }
    ensures { out.new ≡ sets out.old 0 (joined lent.now.q.now.args.now (tracked_tlcs (request_by lent.now.q.now))
        (pairs (request_by lent.now.q.now)) lent.now.shares.remote.now lent.now.shares.local.now p) }
{
    let q = lent.q;
    let at = unlock_of(p).witness_len();
    put_unlock(q.preimages, p, out);
    let hash = hash_after(lent, p, &mut out[at..]);
    let size = put_tracked(lent, None, &lent.shares, &mut out[at..]);
    put_args(q.args, &hash, out, at + size);
}

// The amount of a share, or of the TLC at a place, behind the type in its record. The place is asked, as in `plan_of`.
#[tactic(auto, using(fiber_choice::proofs::HandedLaws::tracked_room, fiber_choice::proofs::HandedLaws::tracked_amount), unfolding(fiber_choice::specs::HandedOut::choice_amount, fiber_choice::specs::inner::Plan::Below))]
fn amount_of(lent: &Lent<'_, '_>, choice: Choice) -> Amount
    requires { Below (length (tracked_tlcs (request_by lent.now.q.now))) choice }
    ensures { result ≡ S.choice_amount (tracked_records (tracked_tlcs (request_by lent.now.q.now)))
        lent.now.shares.remote.now lent.now.shares.local.now choice }
{
    match choice {
        Choice::Share(Side::Remote) => amount_at(lent.shares.remote, SHARE_AMOUNT),
        Choice::Share(Side::Local) => amount_at(lent.shares.local, SHARE_AMOUNT),
        Choice::Tlc { place, way: _ } => {
            let q = lent.q;
            let record = place * q.h.tracked_len() + TRACKED_RECORD;
            amount_at(q.tracked, record + 1)
        }
    }
}

// The length of the record that goes with a choice: none with a share.
#[tactic(auto, unfolding(fiber_choice::specs::HandedOut::record_size))]
fn record_size(h: HashLen, choice: Choice) -> usize
    ensures { result ≡ S.record_size h.bytes choice }
{
    match choice {
        Choice::Share(_) => 0,
        Choice::Tlc { place: _, way: _ } => h.record_len(),
    }
}

// The unlock, the state before it and the new args go to the output, joined: 13 at their length where they have no room.
#[tactic(auto, using(fiber_choice::proofs::HandedLaws::plan_pair, fiber_choice::proofs::HandedLaws::joined_size, fiber_choice::proofs::HandedLaws::tlcs_flat), unfolding(fiber_choice::specs::inner::Plan::Within))]
pub fn write_output(
    lent: &Lent<'_, '_>,
    chosen: Chosen,
    delay: Option<Epoch>,
    place: usize,
    out: &mut [u8],
) -> Result<Decision, NoChoice>
    requires { Within (length (tracked_tlcs (request_by lent.now.q.now))) (length (pairs (request_by lent.now.q.now))) chosen.choice }
    ensures { Gives (S.handed_out lent.now.q.now.h.bytes lent.now.q.now.args.now (tracked_tlcs (request_by lent.now.q.now))
        (pairs (request_by lent.now.q.now)) lent.now.shares.remote.now lent.now.shares.local.now lent.now.last chosen.choice chosen.key delay place out.old)
        result out.new }
{
    let q = lent.q;
    let n = q.tracked_count();
    let p = plan_of(chosen.choice);
    let unlock_len = unlock_of(p).witness_len();
    let state_len = STATE_FIXED + n * q.h.record_len();
    let args_len = new_args_len(q.args);
    let size = unlock_len + state_len + args_len;
    if out.len() < size {
        return Err(NoChoice::Refused(Refusal::OutputShort(size)));
    }
    put_joined(lent, p, out);
    Ok(Decision {
        choice: chosen.choice,
        amount: amount_of(lent, chosen.choice),
        key: chosen.key,
        delay,
        unlock_len,
        state_len,
        args_len,
        place,
        len: record_size(q.h, chosen.choice),
        last: lent.last,
    })
}
