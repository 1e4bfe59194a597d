// Key hashes.
ghost use Rattle.std.specs.Prelude.{◌≡◌};
ghost use Rattle.fiber_types.specs.Key as S;

use crate::layout::{KEY, KEY_HASH};
use fiber_blake2b::blake2b::ckb_hash;
use fiber_refusal::Refusal;

// The hash of a public key of 33 bytes.
#[tactic(auto, unfolding(crate::specs::Key::key_hash))]
pub fn key_hash(key: &[u8]) -> Result<[u8; KEY_HASH], Refusal>
    ensures { result ≡ S.key_hash key.now }
{
    if key.len() != KEY {
        return Err(Refusal::NotWell);
    }
    let digest = ckb_hash(key);
    let mut bytes = [0; KEY_HASH];
    bytes.copy_from_slice(&digest[..KEY_HASH]);
    Ok(bytes)
}
