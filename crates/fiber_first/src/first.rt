// First records: the state that a commitment starts with, written from what the host lends.
ghost use Rattle.fiber_types.specs.Records.{Gives};
ghost use Rattle.fiber_choice.specs.Request.{data_of};
ghost use Rattle.fiber_choice.specs.FirstRecords as S;

use crate::built::{first_shares, put_first, put_first_tlcs};
use crate::lent::{is_valid_settlement, valid_data};
use fiber_bytes::put;
use fiber_choice::request::SettlementData;
use fiber_choice::settlement::SettlementTlc;
use fiber_refusal::Refusal;
use fiber_types::hash_len::HashLen;
use fiber_types::layout::{SETTLEMENT_TLC, SHARE_LEN, SHARES, STATE_FIXED};

// Writes the record of one settlement TLC to the front of out, which may be a part of a longer output.
#[tactic(auto, using(fiber_choice::proofs::FirstRecordsLaws::first_length, fiber_types::proofs::RecordsLaws::outcome_none, fiber_types::proofs::RecordsLaws::outcome_over), unfolding(fiber_choice::specs::FirstRecords::wrote_first_tlc))]
pub fn settlement_tlc_witness(
    h: usize,
    for_remote: bool,
    tlc: &[u8],
    out: &mut [u8],
) -> Result<usize, Refusal>
    ensures { Gives (S.wrote_first_tlc h for_remote tlc.now out.old) result out.new }
{
    let h = HashLen::try_from(h)?;
    if tlc.len() != SETTLEMENT_TLC || !is_valid_settlement(tlc) {
        return Err(Refusal::NotWell);
    }
    let size = h.record_len();
    if out.len() < size {
        return Err(Refusal::OutputShort(size));
    }
    put_first(h, for_remote, &SettlementTlc { bytes: tlc }, out);
    Ok(size)
}

// The count of TLCs is one byte.
const MOST_COUNTED: usize = 255;

// Writes the first state: n, records, remote share, local share; without for_remote the sides are swapped.
#[tactic(auto, using(fiber_choice::proofs::FirstRecordsLaws::data_size, fiber_types::proofs::RecordsLaws::outcome_none, fiber_types::proofs::RecordsLaws::outcome_over), unfolding(fiber_choice::specs::FirstRecords::wrote_first, fiber_choice::specs::Request::valid_data))]
pub fn settlement_data_witness(
    h: usize,
    for_remote: bool,
    lent: &SettlementData<'_>,
    out: &mut [u8],
) -> Result<usize, Refusal>
    ensures { Gives (S.wrote_first h for_remote (data_of lent.now) out.old) result out.new }
{
    let h = HashLen::try_from(h)?;
    if !valid_data(lent) {
        return Err(Refusal::NotWell);
    }
    let n = lent.tlcs.len() / SETTLEMENT_TLC;
    if MOST_COUNTED < n {
        return Err(Refusal::TooManyTlcs);
    }
    let size = STATE_FIXED + n * h.record_len();
    if out.len() < size {
        return Err(Refusal::OutputShort(size));
    }
    let shares = first_shares(for_remote, lent);
    out[0] = n as u8;
    put_first_tlcs(h, for_remote, lent.tlcs, out);
    put(out, size - SHARES, &shares.remote);
    put(out, size - SHARE_LEN, &shares.local);
    Ok(size)
}
