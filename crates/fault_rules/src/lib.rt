//! The meanings of faults, by their ids: [`RULES`] has a rule for each kind, with an example and
//! its correction.
#![tactic(auto)]

mod explanation;
pub mod laws;
mod rules;

pub use explanation::put_explanation;
pub use rules::{RULES, Rule, rule_of};
