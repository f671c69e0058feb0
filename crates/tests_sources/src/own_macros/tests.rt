//! Names that small files give to macros.

use format_calls::{Rule, Table};
use macro_owners::{Given, given_names, own_rows};
use rust_trees::Source;
use std::alloc::{AllocError, Global};
use std::io::Print;
use std::process::Abort;
use std::test::Fail;

/// Returns the number of names that a file gives to macros, and of the last of these the index of
/// the format string, or 9 if that is not known.
fn last_name(names: &[Given]) -> (usize, usize) {
    match names.last() {
        Some(
            Given {
                rule: Some(Rule::Index(index) | Rule::IndexByEdition(index)),
                ..
            },
        ) => (names.len(), *index),
        _ => (names.len(), 9),
    }
}

/// Returns how many names a file gives to macros, and the index of the format string of the last
/// one, or 9. Returns `Err` if an allocation fails.
fn last_name_in(alloc: Global, text: &str) -> Result<(usize, usize), AllocError> {
    let table = Table::standard(alloc)?;
    let source = Source::new(alloc, text)?;
    let names = given_names(alloc, &source, &table)?;
    Ok(last_name(&names))
}

#[test]
fn names_out_of_memory_are_found_again(rt: HostRuntime) -> Result<(), Fail> {
    let text = "use b::c; macro_rules! a { ($l:expr, $($x:tt)*) => { print!($($x)*) } }";
    let found = match last_name_in(rt.alloc(), text) {
        Ok(found) => found,
        Err(_) => {
            println!(rt; "refused")?;
            last_name_in(rt.alloc(), text)?
        }
    };
    assert_eq!(rt; found.0, 2);
    assert_eq!(rt; found.1, 1);
    Ok(())
}

#[test]
fn names(rt: HostRuntime) -> Result<(), Fail> {
    let alloc = rt.alloc();
    // a file, how many names it gives to macros, and the index of the format string of the last one
    let rows = [
        (
            "macro_rules! a { ($($x:tt)*) => { println!($($x)*) } }",
            1,
            0,
        ),
        (
            "macro_rules! a ( ($($x:tt)+) => ( return Err(format!($($x)+)) ); );",
            1,
            0,
        ),
        (
            "macro_rules! a { ($($x:tt)*) => { write![$($x)*] }; }",
            1,
            1,
        ),
        (
            "macro_rules! a { ($l:expr, $m:ident, $($x:tt)*) => {{ $l; print!($($x)*) }} }",
            1,
            2,
        ),
        (
            "macro_rules! a { () => { 1 }; ($($x:tt)*) => { panic!($($x)*) } }",
            1,
            0,
        ),
        (
            "macro_rules! a { ($($x:tt)*) => { print!($($x)*); eprint!($($x)*) } }",
            1,
            0,
        ),
        // the string is not handed on as such, or by one arm alone
        (
            "macro_rules! a { ($($x:tt)*) => { println!(\"{}\", stringify!($($x)*)) } }",
            1,
            9,
        ),
        (
            "macro_rules! a { ($($x:tt)*) => { print!($($x)*); stringify!($($x)*) } }",
            1,
            9,
        ),
        ("macro_rules! a { ($($x:tt)*) => { f!($($x)*) } }", 1, 9),
        ("macro_rules! a { ($($x:tt)*) => {} }", 1, 9),
        (
            "macro_rules! a { ($m:literal) => {}; ($($x:tt)*) => { print!($($x)*) } }",
            1,
            9,
        ),
        (
            "macro_rules! a { ($($x:tt)*) => { print!($($x)*, 1) } }",
            1,
            9,
        ),
        (
            "macro_rules! a { (to: $($x:tt)*) => { print!($($x)*) } }",
            1,
            9,
        ),
        (
            "macro_rules! a { ($m:expr, $($x:tt)*) => { print!($($x)*) };
          ($($x:tt)*) => { print!($($x)*) } }",
            1,
            9,
        ),
        (
            "macro_rules! a { ($($x:tt)*) => { macro_rules! b { () => { 1 } } print!($($x)*) } }",
            2,
            9,
        ),
        // a condition
        (
            "#[cfg(a)] macro_rules! a { ($($x:tt)*) => { print!($($x)*) } }",
            1,
            9,
        ),
        (
            "#[cfg(a)] mod m; #[doc = \"\"] macro_rules! a { ($($x:tt)*) => { print!($($x)*) } }",
            1,
            0,
        ),
        // names from elsewhere
        ("use b::{c, a};", 2, 9),
        (
            "pub(crate) use a; use crate::a; use super::b::a; use self::a;",
            0,
            9,
        ),
        ("use crate::b as a;", 1, 9),
        ("fn f() { b::a!(1) }", 1, 9),
        (
            "fn f() { crate::a!(1); a!(2); let a = 1; g(a, b::a) }",
            0,
            9,
        ),
        ("macro a() {}", 1, 9),
    ];
    for (text, count, index) in rows {
        let found = last_name_in(alloc, text)?;
        assert_eq!(&rt; found.0, count);
        assert_eq!(&rt; found.1, index);
    }
    Ok(())
}

/// Returns how many macros of a file have calls that are read. Returns `Err` if an allocation
/// fails.
fn row_count_in(alloc: Global, text: &str) -> Result<usize, AllocError> {
    let table = Table::standard(alloc)?;
    let source = Source::new(alloc, text)?;
    let names = given_names(alloc, &source, &table)?;
    let rows = own_rows(alloc, &source, &names, &table)?;
    Ok(rows.len())
}

#[test]
fn macros_whose_calls_are_read(rt: HostRuntime) -> Result<(), Fail> {
    let alloc = rt.alloc();
    // a file, and how many of its macros have calls that are read
    let rows = [
        (
            "macro_rules! a { ($($x:tt)*) => { print!($($x)*) } } fn f() { a!(\"\") }",
            1,
        ),
        (
            "fn f() { macro_rules! a { ($($x:tt)*) => { std::print!($($x)*) } } a!(\"\") }",
            1,
        ),
        (
            "#[macro_use] mod m; macro_rules! a { ($($x:tt)*) => { print!($($x)*) } }",
            1,
        ),
        // a call before the definition, or where it is not in sight
        (
            "fn f() { a!(\"\") } macro_rules! a { ($($x:tt)*) => { print!($($x)*) } }",
            0,
        ),
        (
            "fn f() { macro_rules! a { ($($x:tt)*) => { print!($($x)*) } } } a!();",
            0,
        ),
        // another macro of the name
        (
            "macro_rules! a { ($($x:tt)*) => { print!($($x)*) } } use b::a;",
            0,
        ),
        (
            "macro_rules! a { ($($x:tt)*) => { print!($($x)*) } } b::a!();",
            0,
        ),
        (
            "macro_rules! a { ($($x:tt)*) => { print!($($x)*) } } #[macro_use] mod m;",
            0,
        ),
        (
            "macro_rules! a { ($($x:tt)*) => { print!($($x)*) } } macro_rules! a { () => {} }",
            0,
        ),
        // the macro to which it hands its tokens on may be another one
        ("macro_rules! a { ($($x:tt)*) => { b::print!($($x)*) } }", 0),
        (
            "macro_rules! a { ($($x:tt)*) => { print!($($x)*) } } macro_rules! print { () => {} }",
            0,
        ),
        // a name of std, and a raw one
        ("macro_rules! todo { ($($x:tt)*) => { print!($($x)*) } }", 0),
        ("macro_rules! r#a { ($($x:tt)*) => { print!($($x)*) } }", 0),
    ];
    for (text, count) in rows {
        assert_eq!(&rt; row_count_in(alloc, text)?, count);
    }
    Ok(())
}
