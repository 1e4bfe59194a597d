// The settlement TLC of a tracked one, in a first settlement: both stand at the same place.
ghost use Rattle.std.specs.Prelude.{◌≡◌, ◌≤◌, ◌<◌, length, get_or, []};
ghost use Rattle.fiber_choice.specs.Request.{settlement_tlcs};
ghost use Rattle.fiber_choice.specs.inner.Request.{request_by};

use fiber_bytes::part_of;
use fiber_choice::checked::Checked;
use fiber_choice::settlement::SettlementTlc;
use fiber_types::layout::SETTLEMENT_TLC;

// The settlement TLC at a place.
pub fn settlement_tlc<'a>(q: &Checked<'a>, place: usize) -> SettlementTlc<'a>
    requires { (place ≤ 254) × (place < length (settlement_tlcs (request_by q.now))) }
    ensures { result.bytes.now ≡ get_or (settlement_tlcs (request_by q.now)) place [] }
{
    SettlementTlc {
        bytes: part_of(q.settlement.tlcs, place * SETTLEMENT_TLC, SETTLEMENT_TLC),
    }
}
