// The choice of an unlock: what may be chosen, and one operation for a first and a later settlement.
ghost use Rattle.std.specs.Prelude.{◌≡◌, [], is_some, unwrap_or, option_copied};
ghost use Rattle.fiber_choice.specs.Request.{request_of, valid_request, delay_of};
ghost use Rattle.fiber_types.specs.Records.{Gives};
ghost use Rattle.fiber_choice.specs.Choice as S;

use fiber_bytes::{le64, part_of};
use fiber_choice::checked::Checked;
pub use fiber_choice::kinds::{Cause, Choice, Decision, Key, NoChoice, Side, Wait, Way};
pub use fiber_choice::request::{Request, SettlementData};
use fiber_first::lent::{valid_data, valid_tracked};
use fiber_refusal::Refusal;
use fiber_types::epoch::{Epoch, from_full_value, within_bits};
use fiber_types::hash_len::HashLen;
use fiber_types::layout::PAIR;
use fiber_types::since::{Metric, from_raw_value};
use fiber_walk::first::choose_first;
use fiber_walk::later::choose_later;

// The lock args in front of the state hash.
const LEAST_ARGS: usize = 36;

// The delay in the lock args: 10 below 36 bytes, 11 where bytes 20 to 27 are no relative epoch since.
#[tactic(auto, unfolding(fiber_choice::specs::Request::delay_of))]
fn delay_of(args: &[u8]) -> Result<Epoch, Refusal>
    ensures { result ≡ delay_of args.now }
{
    if args.len() < LEAST_ARGS {
        return Err(Refusal::ArgsShort);
    }
    let since = from_raw_value(le64(args, 20));
    match since.metric {
        Some(Metric::Epoch) if since.relative => Ok(from_full_value(since.value)),
        _ => Err(Refusal::NoDelay),
    }
}

// Row 14 looks at all that is lent, in a first and in a later settlement alike; the length of hashes is taken before.
#[tactic(auto, unfolding(fiber_choice::specs::Request::valid_request))]
fn valid_request(h: HashLen, q: &Request<'_>) -> bool
    requires { h.bytes ≡ q.now.h }
    ensures { result ≡ valid_request (request_of q.now) }
{
    valid_data(&q.settlement)
        && q.tracked.len() % h.tracked_len() == 0
        && q.preimages.len() % PAIR == 0
        && within_bits(q.header)
        && within_bits(q.current)
        && valid_tracked(h.bytes, q.tracked)
}

// Chooses an unlock and hands it out: for a later settlement, whose witness is given, or for a first one, which has none. The unlock, the state before it
// and the new args go to the front of out.
pub fn choose(q: &Request<'_>, witness: Option<&[u8]>, out: &mut [u8]) -> Result<Decision, NoChoice>
    ensures { Gives (S.choice_of (request_of q.now)
        (is_some witness.entry) (unwrap_or (option_copied witness.entry) []) out.old)
        result out.new }
{
    let h = HashLen::try_from(q.h)?;
    if !valid_request(h, q) {
        return Err(NoChoice::Refused(Refusal::NotWell));
    }
    let full = delay_of(q.args)?;
    // Lent here, to both settlements alike.
    let checked = &Checked {
        h,
        for_remote: q.for_remote,
        time: q.time,
        header: q.header,
        current: q.current,
        args: q.args,
        settlement: q.settlement,
        tracked: q.tracked,
        preimages: q.preimages,
    };
    match witness {
        Some(witness) => choose_later(checked, witness, out),
        None => choose_first(checked, full, out),
    }
}

// The record of the chosen TLC, as a part of the witness in a later settlement, of the tracked list in a first one. For a share, a wait or a refusal it is the
// empty part at that slice's start.
#[tactic(auto, unfolding(fiber_choice::specs::Choice::record_of, fiber_choice::specs::Choice::record_part))]
pub fn record_of<'a>(
    witness: Option<&'a [u8]>,
    answer: &Result<Decision, NoChoice>,
    tracked: &'a [u8],
) -> &'a [u8]
    ensures { result.now ≡ S.record_of
        (is_some witness.entry) answer.now (unwrap_or (option_copied witness.entry) []) tracked.now }
{
    let records = witness.unwrap_or(tracked);
    match answer {
        Ok(decision) => part_of(records, decision.place, decision.len),
        Err(_) => part_of(records, 0, 0),
    }
}
