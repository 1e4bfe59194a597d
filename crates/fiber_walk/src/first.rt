// The first settlement: the records are built from what the host lends, and walked in order.
ghost use Rattle.std.specs.Prelude.{◌≡◌, true, ◌≤◌, length};
ghost use Rattle.fiber_since.specs.Epoch.{scaled, within_bits, Bounded};
ghost use Rattle.fiber_types.specs.Records.{Gives};
ghost use Rattle.fiber_choice.specs.Entries.{entries, all, valid_settlement, settlement_len};
ghost use Rattle.fiber_choice.specs.Request.{settlement_tlcs, tracked_tlcs};
ghost use Rattle.fiber_choice.specs.Verdicts.{dues_by};
ghost use Rattle.fiber_choice.specs.Settlements as S;
ghost use Rattle.fiber_choice.specs.inner.Plan.{Below};
ghost use Rattle.fiber_choice.specs.inner.Request.{request_by};

use crate::walk::walked;
use fiber_choice::checked::Checked;
use fiber_choice::kinds::{Choice, Decision, Dues, NoChoice, Stage, Wait, Way};
use fiber_choice::walk::Walk;
use fiber_first::built::{first_shares, same_as_tracked};
use fiber_output::lent::Lent;
use fiber_output::output::write_output;
use fiber_refusal::Refusal;
use fiber_types::comparable::Comparable;
use fiber_types::due::due;
use fiber_types::epoch::{Epoch, any_zero, mul};
use fiber_types::hash_len::HashLen;
use fiber_types::layout::{MOST_TLCS, SETTLEMENT_TLC, TRACKED_RECORD};
use fiber_witness::shares::Shares;

// The scaled delay for a TLC, the full one for a share.
#[tactic(auto, unfolding(fiber_choice::specs::Settlements::first_delay))]
fn delay_for(third: Epoch, two_thirds: Epoch, full: Epoch, choice: Choice) -> Epoch
    ensures { result ≡ S.first_delay third two_thirds full choice }
{
    match choice {
        Choice::Share(_) => full,
        Choice::Tlc { place: _, way } => match way {
            Way::Timeout => two_thirds,
            Way::Preimage(_) => third,
        },
    }
}

// Where the record of the choice is in the tracked list. The place is asked, as in `plan_of` of fiber_output.
#[tactic(auto, using(fiber_choice::proofs::SettlementsLaws::place_few), unfolding(fiber_choice::specs::Settlements::first_place, fiber_choice::specs::inner::Plan::Below))]
fn first_place(h: HashLen, choice: Choice) -> usize
    requires { Below 255 choice }
    ensures { result ≡ S.first_place h.bytes choice }
{
    match choice {
        Choice::Share(_) => 0,
        Choice::Tlc { place, way: _ } => place * h.tracked_len() + TRACKED_RECORD,
    }
}

// Which parts of the delay are due.
#[tactic(auto, unfolding(fiber_choice::specs::Verdicts::dues_by))]
fn dues_by(
    header: Comparable,
    third: Comparable,
    two_thirds: Comparable,
    full: Comparable,
    current: Comparable,
) -> Dues
    ensures { result ≡ dues_by header.epoch third.epoch two_thirds.epoch full.epoch current.epoch }
{
    Dues {
        third: due(header, third, current),
        two_thirds: due(header, two_thirds, current),
        full: due(header, full, current),
    }
}

// What follows the built records: the thirds of the delay, the walk, and what is handed out.
#[tactic(auto, using(fiber_since::proofs::EpochLaws::third_refused))]
fn first_thirds(q: &Checked<'_>, full: Comparable, out: &mut [u8]) -> Result<Decision, NoChoice>
    requires few { length (tracked_tlcs (request_by q.now)) ≤ 254 }
    requires as_many { length (settlement_tlcs (request_by q.now)) ≡ length (tracked_tlcs (request_by q.now)) }
    requires args_long { 36 ≤ length q.now.args.now }
    requires bounded { Bounded q.now.header × Bounded q.now.current }
    ensures { Gives (S.first_thirds (request_by q.now) out.old full.epoch (scaled full.epoch 1 3) (scaled full.epoch 2 3)) result out.new }
{
    let third = mul(full.epoch, 1, 3)?;
    let two_thirds = mul(full.epoch, 2, 3)?;
    let dues = dues_by(
        Comparable { epoch: q.header },
        Comparable { epoch: third },
        Comparable { epoch: two_thirds },
        full,
        Comparable { epoch: q.current },
    );
    let walk = Walk {
        q: &*q,
        stage: Stage::First(dues),
    };
    let chosen = walked(&walk)?;
    let built = first_shares(q.for_remote, &q.settlement);
    let shares = Shares {
        remote: &built.remote,
        local: &built.local,
    };
    let lent = Lent {
        q,
        shares,
        last: false,
    };
    let delay = delay_for(third, two_thirds, full.epoch, chosen.choice);
    let place = first_place(q.h, chosen.choice);
    write_output(&lent, chosen, Some(delay), place, out)
}

// Rows 7, 12 and 20.
#[tactic(auto, using(fiber_choice::proofs::EntriesLaws::entries_length), unfolding(fiber_choice::specs::Settlements::first_ready, fiber_choice::specs::Settlements::lengths_zero))]
fn first_ready(q: &Checked<'_>, full: Epoch) -> Result<(), NoChoice>
    requires { all valid_settlement (entries settlement_len q.now.settlement.tlcs.now) ≡ true }
    ensures { result ≡ S.first_ready (request_by q.now) full }
{
    if any_zero(&[q.header, q.current, full]) {
        return Err(NoChoice::Refused(Refusal::LengthZero));
    }
    if MOST_TLCS < q.settlement.tlcs.len() / SETTLEMENT_TLC {
        return Err(NoChoice::Refused(Refusal::TooManyTlcs));
    }
    if same_as_tracked(q) {
        Ok(())
    } else {
        Err(NoChoice::Wait(Wait::ListDiffers))
    }
}

// A first settlement: the rows before the walk, then the walk.
#[tactic(auto, using(fiber_choice::proofs::SettlementsLaws::ready_few, fiber_choice::proofs::SettlementsLaws::ready_many, fiber_choice::proofs::SettlementsLaws::ready_bounded, fiber_choice::proofs::SettlementsLaws::ready_full))]
pub fn choose_first(q: &Checked<'_>, full: Epoch, out: &mut [u8]) -> Result<Decision, NoChoice>
    requires valid { (all valid_settlement (entries settlement_len q.now.settlement.tlcs.now) ≡ true) × (36 ≤ length q.now.args.now) }
    requires within { (within_bits q.now.header ≡ true) × ((within_bits q.now.current ≡ true) × (within_bits full ≡ true)) }
    ensures { Gives (S.first (request_by q.now) full out.old) result out.new }
{
    first_ready(q, full)?;
    first_thirds(q, Comparable { epoch: full }, out)
}
