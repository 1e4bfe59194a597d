// The C interface, all of it: read, update, choose, first records, and of the lower face hashes, since values and epochs. The functions stand here under
// their own names, for the programs and for claims about calls; settlement_c_c exports each of them to C, for the archive that a host's daemon links.
// include/fiber_settlement.h has every function and every offset. Every function takes any input. Uses the two faces and c_answer's layout of answers.
#![tactic(auto)]

pub mod choose;
pub mod first;
pub mod lower;
pub mod settlement;
pub mod written;
