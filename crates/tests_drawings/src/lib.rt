//! Tests of drawings, and of the program that draws the faults of a literal or a text.
#![tactic(auto)]

mod drawn;
mod program;
