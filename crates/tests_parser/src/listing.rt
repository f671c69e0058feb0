//! Tests of the program's function `run` with readers and writers: the listing, what it returns
//! after a failing stream, invalid command-line arguments and an allocation failure, and the error
//! message and exit status of the program; and of spans as they are appended to a text.

#[cfg(test)]
mod tests;
