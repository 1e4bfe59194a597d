// The static library that a host links: the exports of the C interface under their C names, and nothing else. Each calls the function of its name in
// settlement_c or journal_c and promises what that one promises; include/fiber_settlement.h has every function and every offset. A static library hands
// nothing to other crates, so these stand apart from the two, which the programs and the claim of `book` use.
#![tactic(auto)]

mod choose;
mod filing;
mod first;
mod lower;
mod settlement;
