//! The findings of a file in each [`Form`] of messages ([`put_start`], [`put_finding`],
//! [`put_end`]): drawn under the lines of the file, a line for an editor, a line of JSON as rustc
//! writes it, a workflow command of GitHub, and a log of SARIF.
#![tactic(auto)]

mod escapes;
mod file;
mod form;
mod github;
mod human;
mod json_findings;
mod json_lines;
mod members;
mod message;
mod sarif;
mod short;

pub use file::File;
pub use form::{Form, put_end, put_finding, put_start};
pub use github::put_github;
pub use json_lines::put_json;
pub use message::{Child, ChildLevel, Level, Message, Span, Suggestion};
pub use sarif::{put_sarif_end, put_sarif_result, put_sarif_start};
pub use short::put_short;
