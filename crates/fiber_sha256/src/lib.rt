// SHA-256 (FIPS 180-4). For `fiber_types`, which hands it on as its own, and for other crates' definitions. Uses fiber_bytes alone.
#![tactic(auto)]

pub mod sha256;
