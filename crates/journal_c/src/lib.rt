// The journal over C, under the names that C has; settlement_c_c exports them. include/fiber_settlement.h has both functions and every offset. Uses
// journal and c_answer's layout of answers.
#![tactic(auto)]

pub mod calls;
