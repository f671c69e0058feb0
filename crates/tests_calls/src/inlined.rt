//! Tests of `inlined_arguments` and `file_inlines`: what they make of calls and files, beside what
//! clippy and rustc 1.95 make.

#[cfg(test)]
mod files;
mod rows;
#[cfg(test)]
mod tests;
