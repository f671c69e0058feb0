//! The faults in the arguments of a call whose format string is not read ([`form_here`]), the paths
//! of macros, and the generic parameters of traits.
#![tactic(auto)]

mod commas;
mod expressions;
mod forms;
mod generics;
mod keywords;
mod operators;
mod paths;

pub use commas::ExpectedTokens;
pub use expressions::{have_joined, have_variables, tokens_of};
pub use forms::{Form, form_here};
pub use generics::parameters;
pub use keywords::kind_word;
pub use operators::{Operator, lacks_operand};
pub use paths::{is_foreign, is_in_path};
