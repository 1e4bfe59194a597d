// What a call over C answers: the layout that every answer buffer has, and what a call with flags comes to. settlement_c builds the answers with it;
// settlement_c_c exports the functions. Uses fiber_bytes.
#![tactic(auto)]

pub mod front;
