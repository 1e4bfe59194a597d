// The lower face: hashes, since values, epochs, TLC records and unlocks, key hashes. Whoever needs one of these uses this crate; no function that it
// hands out asks for more than its parameters' types say, and the two types that say something, `HashLen` and `Comparable`, have a `try_from` that
// takes any value or says why not. Its own are records, key hashes and the lengths of hashes; hashes, since values, epochs and refusals are handed on
// from below. Uses fiber_bytes, fiber_refusal, fiber_since, fiber_blake2b and fiber_sha256.
#![tactic(auto)]

pub mod hash_len;
pub mod key;
pub mod layout;
pub mod tlc;
pub mod unlock;

pub use fiber_blake2b::blake2b;
pub use fiber_refusal::Refusal;
pub use fiber_sha256::sha256;
pub use fiber_since::{comparable, due, epoch, since};
