//! The words of rustc for the faults of a kind. The definitions in `specs/` name them too.

/// The title of [`MessageFault::Specifier`](crate::MessageFault::Specifier).
pub const SPECIFIER_TITLE: &str = "invalid format specifier";

/// The help of [`MessageFault::Specifier`](crate::MessageFault::Specifier).
pub const SPECIFIER_HELP: &str = "no format specifier are supported in this position";

/// The title of [`MessageFault::Positional`](crate::MessageFault::Positional).
pub const POSITIONAL_TITLE: &str = "positional format arguments are not allowed here";

/// The help of [`MessageFault::Positional`](crate::MessageFault::Positional).
pub const POSITIONAL_HELP: &str =
    "only named format arguments with the name of one of the generic types are allowed in this \
     context";

/// The help of [`MessageFault::MissingParameter`](crate::MessageFault::MissingParameter).
pub const PARAMETER_HELP: &str =
    "expect either a generic argument name or `{Self}` as format argument";
