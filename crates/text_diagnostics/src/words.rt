//! The words of rustc for suggestions. The definitions in `specs/` name them too.

/// The advice for a raw identifier.
pub const REMOVE_RAW: &str = "remove the `r#`";

/// The advice for a `?` without a colon.
pub const ADD_COLON: &str = "add a colon before the format specifier";

/// The new text in the place of that `?`.
pub const DEBUG: &str = ":?";
