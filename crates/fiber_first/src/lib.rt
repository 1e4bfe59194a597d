// What a host lends, looked over, and the records and the state that a commitment starts with, built from it. An inner crate, for the walk and the
// upper face, which hands `first` on: its functions may have a `requires` that their callers meet. Uses the lower face, fiber_bytes, fiber_witness,
// and the types and definitions of fiber_choice.
#![tactic(auto)]

pub mod built;
pub mod entries;
pub mod first;
pub mod lent;
