// What a choice hands out: the unlock, the state before it and the new args, written to the output. An inner crate, for the walk: its functions
// may have a `requires` that their callers meet. Uses the lower face, fiber_bytes, fiber_witness (states, records, shares and marks), and the types and
// definitions of fiber_choice.
#![tactic(auto)]

pub mod lent;
pub mod output;
