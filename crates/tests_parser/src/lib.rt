//! Tests of the parser and of what lists its pieces: calls of the library in which an allocation
//! fails, values that no listing shows, and listings.
#![tactic(auto)]

mod listing;
mod memory;
mod values;
