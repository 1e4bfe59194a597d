// What a choice is asked with, as the host lends it.
use fiber_types::epoch::Epoch;
use fiber_types::tlc::Amount;

// The settlement TLCs, with both share amounts and both settlement keys beside the list.
#[derive(Clone, Copy)]
pub struct SettlementData<'a> {
    pub tlcs: &'a [u8],
    pub local_amount: Amount,
    pub remote_amount: Amount,
    pub local_key: &'a [u8],
    pub remote_key: &'a [u8],
}

// All of it but the witness.
#[derive(Clone, Copy)]
pub struct Request<'a> {
    pub h: usize,
    pub for_remote: bool,
    pub time: u64,
    pub header: Epoch,
    pub current: Epoch,
    pub args: &'a [u8],
    pub settlement: SettlementData<'a>,
    pub tracked: &'a [u8],
    pub preimages: &'a [u8],
}
