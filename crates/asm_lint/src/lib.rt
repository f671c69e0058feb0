//! The findings of calls for inline assembly ([`read_asm`]) and of attributes
//! ([`read_attributes`]), with the literals and the places of a file.
#![tactic(auto)]

mod asm_findings;
mod assembly;
mod attributes;
mod finding_labels;
mod literals;
mod messages;
mod names;
mod placing;
mod spans;

pub use assembly::{read_asm, reading_of};
pub use attributes::read_attributes;
pub use finding_labels::{labels, primary_span};
pub use literals::{Literal, appends_newline, dropped_crs, offset_in, read_literal, without_crs};
pub use names::{name_of, without_raw};
pub use spans::{Site, call_range, range_in, spot_range, tokens_range};
