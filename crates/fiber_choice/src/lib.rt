// What the choice is: its types, the definitions of what a host lends, of first records and of the choice, and the laws of all these. Its few
// functions make the reason why nothing is chosen of a wait or a refusal, give a side's byte, and count and take apart what is lent, so that a wrong
// definition is refused in seconds. An inner crate, for the crates of the upper face, for contracts and claims about the choice, and for the program
// `forms`. Uses the lower face, fiber_bytes, and the definitions of fiber_witness and of what is below the lower face.
#![tactic(auto)]

pub mod checked;
pub mod kinds;
pub mod pair;
pub mod request;
pub mod settlement;
pub mod tracked;
pub mod walk;
