// Since values and epochs: their fields, expiries, scaling by a fraction, and the due test. For `fiber_types`, which hands the modules on as its own,
// and for other crates' definitions. Uses fiber_refusal.
#![tactic(auto)]

pub mod comparable;
pub mod due;
pub mod epoch;
pub mod since;
