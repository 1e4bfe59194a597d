// BLAKE2b (RFC 7693) and CKB's hash, which is BLAKE2b-256 with a personalisation. For `fiber_types`, which hands both on as its own, and for
// other crates' definitions. Uses fiber_bytes alone.
#![tactic(auto)]

pub mod blake2b;
