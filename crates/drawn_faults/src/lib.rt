//! Diagnostics for the one who wrote a source: [`draw_labels`] draws one under its source, as rustc
//! does, and [`draw`] an error of the parser.
#![tactic(auto)]

mod diagnostics;
mod drawing;
mod helps;
mod marked;
mod notes;

pub use diagnostics::{Diagnostic, Level, SourceLabel, draw_labels, put_labels};
pub use drawing::{draw, put_drawing};
pub use helps::SourceHelp;
pub use notes::SourceNote;
