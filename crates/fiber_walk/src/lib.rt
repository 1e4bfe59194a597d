// The two settlements, and the walk over the TLCs of both. An inner crate, for `choose` of the upper face: its functions may have a `requires` that their
// callers meet. Uses the lower face, fiber_bytes, fiber_witness, fiber_first, fiber_output, fiber_step, and the types and definitions of fiber_choice.
#![tactic(auto)]

pub mod first;
pub mod later;
mod walk;
