//! Tests of the own macros of files, by `macro_owners`. The expected values are worked out by hand
//! from the Rust Reference, macros by example.

#[cfg(test)]
mod tests;
