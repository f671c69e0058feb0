//! The edits that the suggestions of faults in a string literal have: [`edits`] finds them, and
//! [`fix`] applies them.
#![tactic(auto)]

mod errors;
mod fixes;
pub mod laws;
mod rounds;

pub use errors::errors_of;
pub use fixes::{Edit, FixedLiteral, edits, is_offered};
pub use rounds::fix;
