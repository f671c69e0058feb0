//! Tests of what is made of one literal: its faults, its tokens, and its text after suggestions.
#![tactic(auto)]

mod fixes;
mod literals;
mod tokens;
