// The lists that the host lends. Row 14 looks at all of them.
ghost use Rattle.std.specs.Prelude.{◌≡◌, ◌≤◌, get_or};
ghost use Rattle.fiber_choice.specs.Entries as S;
ghost use Rattle.fiber_choice.specs.Request.{data_of, valid_data};
ghost use Rattle.fiber_first.specs.inner.Left.{left};

use crate::entries::Entries;
use fiber_choice::request::SettlementData;
use fiber_types::hash_len::HashLen;
use fiber_types::layout::{KEY, PAIR, SETTLEMENT_TLC, TRACKED_ALGORITHM, TRACKED_FIXED};

// Three lists of one type: what differs is how long an entry is, a constant or by the channel's hashes, which `Entries` holds as a number.
pub fn settlement_tlcs(tlcs: &[u8]) -> Entries<'_>
    ensures { left result ≡ S.entries S.settlement_len tlcs.now }
{
    Entries {
        rest: tlcs,
        size: SETTLEMENT_TLC,
    }
}

pub fn tracked_tlcs(h: HashLen, tracked: &[u8]) -> Entries<'_>
    ensures { left result ≡ S.entries (S.tracked_len h.bytes) tracked.now }
{
    Entries {
        rest: tracked,
        size: h.tracked_len(),
    }
}

pub fn pairs(preimages: &[u8]) -> Entries<'_>
    ensures { left result ≡ S.entries S.pair_len preimages.now }
{
    Entries {
        rest: preimages,
        size: PAIR,
    }
}

// The byte at a place, 0 past the end.
fn byte_at(s: &[u8], at: usize) -> u8
    ensures { result ≡ get_or s.now at 0 }
{
    s.get(at).copied().unwrap_or(0)
}

// Received and algorithm are 0 or 1.
#[tactic(auto, unfolding(fiber_choice::specs::Entries::valid_settlement))]
pub fn is_valid_settlement(tlc: &[u8]) -> bool
    ensures { result ≡ S.valid_settlement tlc.now }
{
    byte_at(tlc, 0) <= 1 && byte_at(tlc, 1) <= 1
}

// The algorithm is 0 or 1.
#[tactic(auto, unfolding(fiber_choice::specs::Entries::valid_tracked))]
fn is_valid_tracked(tlc: &[u8]) -> bool
    ensures { result ≡ S.valid_tracked tlc.now }
{
    byte_at(tlc, TRACKED_ALGORITHM) <= 1
}

pub fn valid_settlements(tlcs: &[u8]) -> bool
    ensures { result ≡ S.all S.valid_settlement (S.entries S.settlement_len tlcs.now) }
{
    settlement_tlcs(tlcs).all(|tlc| is_valid_settlement(tlc))
}

pub fn valid_tracked(h: usize, tracked: &[u8]) -> bool
    requires { h ≤ 32 }
    ensures { result ≡ S.all S.valid_tracked (S.entries (S.tracked_len h) tracked.now) }
{
    let mut tlcs = Entries {
        rest: tracked,
        size: TRACKED_FIXED + h,
    };
    tlcs.all(|tlc| is_valid_tracked(tlc))
}

// The settlement TLCs and the two settlement keys. The list is gone through last, where no length turns the data down.
#[tactic(auto, unfolding(fiber_choice::specs::Request::valid_data))]
pub fn valid_data(lent: &SettlementData<'_>) -> bool
    ensures { result ≡ valid_data (data_of lent.now) }
{
    lent.tlcs.len() % SETTLEMENT_TLC == 0
        && lent.local_key.len() == KEY
        && lent.remote_key.len() == KEY
        && valid_settlements(lent.tlcs)
}
