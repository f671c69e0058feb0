//! Tests of `literal_faults` and `format_literal`. The messages are those of rustc 1.95 where it
//! has any, and the places are worked out by hand: of an escape its backslash.

mod fixes;
#[cfg(test)]
mod readings;
#[cfg(test)]
mod tests;
