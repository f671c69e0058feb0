//! What rustc says of a fault of a string, whatever the string is part of: the kind of the fault
//! ([`id_of`]), and what is suggested ([`suggestions_of`]).
#![tactic(auto)]

mod ids;
pub mod laws;
mod suggestions;
mod words;

pub use ids::id_of;
pub use suggestions::suggestions_of;
