// One TLC of the walk: its key, its stored preimage, its settlement TLC, our slot and the kinds of TLCs, the step that it comes to, and why it is still
// pending where it is. An inner crate, for the walk in fiber_walk, and its `preimage` for the program `forms`: its functions may have a `requires` that
// their callers meet. Uses the lower face, fiber_bytes, fiber_first, and the types and definitions of fiber_choice.
#![tactic(auto)]

mod key;
pub mod preimage;
mod settlement;
pub mod slot;
pub mod step;
pub mod wait;
