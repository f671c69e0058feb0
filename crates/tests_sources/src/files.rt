//! Tests of `file_faults` of `source_lint`. The places and the titles are those of rustc 1.95.

#[cfg(test)]
mod tests;
