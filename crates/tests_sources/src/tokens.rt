//! Tests of `rust_tokens`: a row for each kind of token. The expected values are worked out by hand
//! from the rules of the Rust Reference.

#[cfg(test)]
mod tests;
