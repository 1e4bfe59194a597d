// A pair of the stored preimages: the 32 bytes of a hash, and those of its preimage.
ghost use Rattle.std.specs.Prelude.{◌≡◌, ◌+◌, ◌*◌, ◌≤◌, [], length, get_or};
ghost use Rattle.fiber_choice.specs.Entries as S;

use fiber_bytes::part_of;
use fiber_types::layout::{PAIR, PAIR_PREIMAGE};

// The preimage in the pair at a place.
#[tactic(auto, using(crate::proofs::PreimagesLaws::pair_preimage_lem))]
pub fn pair_preimage(preimages: &[u8], pair_place: usize) -> &[u8]
    requires { S.pair_len * pair_place + S.pair_len ≤ length preimages.now }
    ensures { result.now ≡ S.pair_preimage (get_or (S.entries S.pair_len preimages.now) pair_place []) }
{
    part_of(preimages, PAIR * pair_place + PAIR_PREIMAGE, 32)
}
