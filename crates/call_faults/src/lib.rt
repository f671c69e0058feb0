//! The faults of a format string and of the arguments of its call, as rustc reports them.
#![tactic(auto)]

mod arguments;
mod checker;
mod comparison;
mod directives;
mod faults;
mod helps;
mod labels;
mod lookups;
mod missing_labels;
mod notes;
mod spots;
mod titles;

pub use arguments::FormatArgument;
pub use checker::{CallReport, FormatString, call_faults};
pub use faults::{CallFault, InvalidReference, Part, Reference};
pub use spots::{CallEdit, CallHelp, CallNote};
