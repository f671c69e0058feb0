//! The faults of the format strings of a Rust source file, from its text ([`file_faults`]).
#![tactic(auto)]

mod changed;
mod findings;
mod form_words;
mod givens;
mod labels;
mod lint;
mod macros;
mod readings;

pub use changed::changed_file_faults;
pub use lint::{Readings, file_faults, own_file_faults, read_calls, report_on};
pub use macros::{File, OwnMacro, macro_names, name_at, other_macro};
pub use readings::{argument_at, arguments_before, captures_variables, ends_early, index_or};
