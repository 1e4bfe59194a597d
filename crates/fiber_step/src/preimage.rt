// Stored preimages: a flat slice of pairs of 64 bytes, hash and preimage.
ghost use Rattle.std.specs.Prelude.{◌≡◌, ◌+◌, ◌*◌, ◌≤◌, length};
ghost use Rattle.fiber_choice.specs.Entries.{entries, pair_len};
ghost use Rattle.fiber_choice.specs.Preimages as S;

use fiber_bytes::part_of;
use fiber_choice::pair::pair_preimage;
use fiber_first::lent::pairs;
use fiber_types::blake2b::ckb_hash;
use fiber_types::layout::TRACKED_ALGORITHM;
use fiber_types::sha256::sha256;

// The hash of a preimage under an algorithm, the byte as a tracked TLC has it: 1 is SHA-256, else CKB's hash.
#[tactic(auto, unfolding(fiber_choice::specs::Preimages::digest))]
fn digest(algorithm: u8, s: &[u8]) -> [u8; 32]
    ensures { result ≡ S.digest algorithm s.now }
{
    if algorithm == 1 {
        return sha256(s);
    }
    ckb_hash(s)
}

// The first pair with a hash; no other pair with it is looked at.
#[tactic(auto, using(fiber_choice::proofs::EntriesLaws::entries_length))]
pub fn find_pair(preimages: &[u8], hash: &[u8]) -> Option<usize>
    ensures { result ≡ S.find_pair (entries pair_len preimages.now) hash.now }
{
    pairs(preimages).position(|pair| part_of(pair, 0, 32) == hash)
}

// Whether the preimage in the pair at a place has the tracked TLC's hash under its algorithm. Of bytes, and no `TrackedTlc`: its record is not looked at,
// and need not be there.
#[tactic(auto, unfolding(fiber_choice::specs::Preimages::counts_at))]
pub fn counts(preimages: &[u8], pair_place: usize, tracked_tlc: &[u8]) -> bool
    requires { (pair_len * pair_place + pair_len ≤ length preimages.now) × (33 ≤ length tracked_tlc.now) }
    ensures { result ≡ S.counts_at (entries pair_len preimages.now) tracked_tlc.now pair_place }
{
    let found = digest(
        tracked_tlc[TRACKED_ALGORITHM],
        pair_preimage(preimages, pair_place),
    );
    found.as_slice() == part_of(tracked_tlc, 0, 32)
}

// The first pair with the tracked TLC's hash, if its preimage counts.
#[tactic(auto, using(fiber_choice::proofs::PreimagesLaws::pair_bytes), unfolding(fiber_choice::specs::Preimages::counting_pair, fiber_choice::specs::Preimages::if_counts))]
pub fn counting_pair(preimages: &[u8], tracked_tlc: &[u8]) -> Option<usize>
    requires { 33 ≤ length tracked_tlc.now }
    ensures { result ≡ S.counting_pair (entries pair_len preimages.now) tracked_tlc.now }
{
    // Cut by a constant, so that the compiler knows the length: else a list of pairs took a quarter longer to search.
    let pair_place = find_pair(preimages, &tracked_tlc[..32])?;
    if counts(preimages, pair_place, tracked_tlc) {
        Some(pair_place)
    } else {
        None
    }
}
