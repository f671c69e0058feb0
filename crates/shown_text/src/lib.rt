//! Texts as they are shown: the gate ([`put_shown`]) through which paths, names, the words of
//! options and of the system, and messages go, in each [`Kind`] so that a terminal obeys nothing of
//! them, and that they stay in their line. Texts of files that a terminal gets have their own lines
//! ([`put_drawn`]).
#![tactic(auto)]

mod drawn;
mod gate;

pub use drawn::put_drawn;
pub use gate::{Kind, put_shown};
