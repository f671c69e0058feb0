//! The parts of the program `formatlint` that need no source file: its options, the values of its
//! arguments, the run over one string, its lines where there is no answer, and how it writes files.
#![tactic(auto)]

mod arguments;
mod changes;
mod colours;
mod failure;
mod literal;
mod messages;
mod open_files;
mod options;
mod progress;
mod recorder;
mod terminal;

pub use arguments::{change_of, form_of, has_colours, table_of, width_of};
pub use changes::{Change, LeftText, StepFailure, name_before, replace};
pub use colours::{ColourChoice, wants_colours};
pub use failure::Failure;
pub use literal::{literal_status, print_failure, print_hint};
pub use messages::{put_failure, put_not_literal, put_place_failure, system_words};
pub use open_files::{is_same, path_of};
pub use options::{VERSION, command, is_option};
pub use progress::Progress;
pub use recorder::Recorder;
pub use terminal::shown_bytes;
