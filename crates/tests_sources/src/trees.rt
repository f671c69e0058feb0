//! Tests of `rust_trees` and `format_calls`. Places are those that rustc 1.95 reports; the other
//! expected values are worked out by hand from the Rust Reference.

mod strings;
#[cfg(test)]
mod tests;
