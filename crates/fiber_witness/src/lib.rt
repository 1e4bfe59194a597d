// The settlement witness: its layout, its reader, and what its unlocks do, with the definitions of the update and their laws. An inner crate, for
// the crates of the upper face: its functions may have a `requires` that their callers meet. Uses the lower face and fiber_bytes.
#![tactic(auto)]

pub mod left;
pub mod marks;
pub mod records;
pub mod shares;
pub mod state;
pub mod unlocks;
pub mod witness;
