// The upper face: the witness's reader, its update, first records, and the choice of an unlock. Whoever needs one of these uses this crate; every
// function that it hands out takes any input. Its own are update, choice and the numbers of a wait; reader and first records are handed on from below.
// Uses the inner crates between the two faces, the lower face and fiber_bytes.
#![tactic(auto)]

pub mod choice;
pub mod update;
pub mod wait;

pub use fiber_first::first;
pub use fiber_witness::witness;
