//! Labels under lines of a source as rustc draws them: any number of them in a line, and one over
//! several lines.
#![tactic(auto)]

mod cells;
mod hanging;
mod labels;
mod long;
mod margin;
mod mark;
mod marks;
mod order;

pub use labels::{Label, mark_in};
pub use long::put_long_label;
pub use margin::{Reach, window_of};
pub use mark::Mark;
pub use marks::put_mark_rows;
pub use order::marks_from_right;
