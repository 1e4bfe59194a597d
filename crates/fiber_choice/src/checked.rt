// A request whose hashes have a length that a channel can have, as a type. Its other fields are the request's, by their names. What rows 14 and 10 have seen
// of them is no field here: what is public and needs some of it asks for that, and for no more.
ghost use Rattle.std.specs.Prelude.{◌≡◌, length};
ghost use Rattle.fiber_choice.specs.Entries.{entries, tracked_len};

use crate::request::SettlementData;
use fiber_types::epoch::Epoch;
use fiber_types::hash_len::HashLen;

// They are copied, and the request is not lent: each would be read through two references, and h would stand here twice, once as a number that nothing
// looks at.
#[derive(Clone, Copy)]
pub struct Checked<'a> {
    pub h: HashLen,
    pub for_remote: bool,
    pub time: u64,
    pub header: Epoch,
    pub current: Epoch,
    pub args: &'a [u8],
    pub settlement: SettlementData<'a>,
    pub tracked: &'a [u8],
    pub preimages: &'a [u8],
}

impl<'a> Checked<'a> {
    // How many TLCs are tracked.
    #[tactic(auto, using(crate::proofs::EntriesLaws::tracked_count))]
    pub fn tracked_count(&self) -> usize
        ensures { result ≡ length (entries (tracked_len self.now.h.bytes) self.now.tracked.now) }
    {
        self.tracked.len() / self.h.tracked_len()
    }
}
