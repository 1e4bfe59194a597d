// A journal of settlements in a slice that a host lends: an append puts an entry behind those that are there, a walk hands out the entries, newest
// first. Each entry ends in a trailer that points back, and both test the whole chain of them before they write. For hosts, over C (journal_c). Uses
// the lower face and fiber_bytes.
#![tactic(auto)]

pub mod append;
mod chain;
mod entry;
pub mod layout;
mod refusal;
pub mod walk;

pub use entry::Entry;
pub use refusal::JournalRefusal;
