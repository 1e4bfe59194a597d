// No code: the book of a channel (specs/Book.antt), the third demand as one claim about every list of calls of the exported
// update (specs/Demand3.antt), that a choice's amount is what its unlock pays (specs/Paid.antt), and their proofs (proofs/). Claims that no crate
// uses. Uses the definitions of settlement_c, c_answer and fiber_refusal, and definitions and laws of fiber_bytes, fiber_types, fiber_witness and fiber_choice.
#![tactic(auto)]
