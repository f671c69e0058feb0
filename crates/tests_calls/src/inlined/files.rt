//! Files whose calls are inlined, and files that stay.

use file_inlines::{CallInlining, FileInlines, inlines, package_inlines};
use format_calls::Table;
use inlined_arguments::Obstacle;
use macro_owners::Facts;
use source_report::Options;
use std::alloc::{AllocError, Global};
use std::test::Fail;

/// Returns a file of the edition 2021 with its calls inlined, or an empty text if it stays as it
/// is.
fn inline_text(alloc: Global, text: &str) -> Result<String, AllocError> {
    let options = Options {
        table: Table::standard(alloc)?,
        is_from_2021: true,
    };
    let file_inlines = inlines(alloc, text, &options, true)?;
    let FileInlines { text, .. } = file_inlines;
    match text {
        Some(text) => Ok(text),
        None => Ok(String::new(alloc)),
    }
}

#[test]
fn files_with_calls_inlined(rt: HostRuntime) -> Result<(), Fail> {
    let alloc = rt.alloc();
    // a file, and the file with its calls inlined
    let rows = [
        // CRs stay, but those in what is removed
        (
            "print!(\"\r\n{}\\\r\n {}\",\r\n x,\r\n y\r\n);\r\n",
            "print!(\"\r\n{x}\\\r\n {y}\"\r\n);\r\n",
        ),
        ("\u{feff}print!(\"ä{}\", x);", "\u{feff}print!(\"ä{x}\");"),
        // edits of a call stand between those of another one
        (
            "print!(\"{} {} {}\", x, format!(\"{}\", y), z);",
            "print!(\"{x} {} {z}\", format!(\"{y}\"));",
        ),
        (
            "print!(r#\"{}\"{0}\"#, x,); print!(\"{:1$}\", y, w)",
            "print!(r#\"{x}\"{x}\"#,); print!(\"{y:w$}\")",
        ),
    ];
    for (text, expected) in rows {
        let new_text = inline_text(alloc, text)?;
        assert_eq!(&rt; new_text.as_str(), expected, "{text}");
        let second_text = inline_text(alloc, expected)?;
        assert_eq!(&rt; second_text.as_str(), "", "{text}");
    }
    Ok(())
}

#[test]
fn files_that_stay(rt: HostRuntime) -> Result<(), Fail> {
    let alloc = rt.alloc();
    let rows = [
        "",
        "print!(\"{x}\");",
        // it breaks
        "fn f() { print!(\"{}\", x);",
        "print!(\"{}\", x); }",
        "print!(\"{}\", x); \"",
        // the macro may be another one
        "macro_rules! print { () => {} } print!(\"{}\", x);",
        // the arguments are not known
        "macro_rules! m { ($($x:tt)*) => { print!(\"{}\", $($x)*) } }",
        "macro_rules! m { ($x:expr) => { print!(\"{}\", $x) } }",
        "quote! { print!(\"{}\", #x) }",
        // the string is not the literal alone
        "print!(concat!(\"{}\", \"a\"), x);",
        "print!(\"{}\"a, x);",
    ];
    for text in rows {
        let new_text = inline_text(alloc, text)?;
        assert_eq!(&rt; new_text.as_str(), "", "{text}");
    }
    Ok(())
}

/// Returns what becomes of the one call of a file of a package with another file.
fn call_in_package(
    alloc: Global,
    text: &str,
    other_text: &str,
    captures_variables: bool,
) -> Result<&'static str, AllocError> {
    let options = Options {
        table: Table::standard(alloc)?,
        is_from_2021: true,
    };
    let facts = Facts::new(alloc).with_file(text)?.with_file(other_text)?;
    let file_inlines = package_inlines(alloc, text, &options, &facts, captures_variables, true)?;
    let [call] = file_inlines.calls.as_slice() else {
        return Ok("other calls");
    };
    Ok(match *call {
        CallInlining::Inlined if file_inlines.text.is_some() => "inlined",
        CallInlining::Uncertain => "uncertain",
        CallInlining::Unchanged(Obstacle::CapturesNone) => "captures none",
        CallInlining::Unchanged(Obstacle::NoVariable) => "no variable",
        _ => "other",
    })
}

#[test]
fn files_of_packages(rt: HostRuntime) -> Result<(), Fail> {
    let alloc = rt.alloc();
    let text = "fn f() { print!(\"{}\", x); }";
    let own_macro = "macro_rules! print { ($a:expr, $b:expr) => {} }";
    // the file, another one of its package, whether the compiler captures, and what becomes of the
    // call
    let rows = [
        (text, "fn g() {}", true, "inlined"),
        (text, own_macro, true, "uncertain"),
        (text, "fn g() {}", false, "captures none"),
        (
            "fn f() { print!(\"{}\", 1); }",
            own_macro,
            true,
            "no variable",
        ),
    ];
    for (text, other_text, captures_variables, expected) in rows {
        let call = call_in_package(alloc, text, other_text, captures_variables)?;
        assert_eq!(&rt; call, expected, "{other_text}");
    }
    Ok(())
}

#[test]
fn a_file_out_of_memory_is_inlined_again(rt: HostRuntime) -> Result<(), Fail> {
    let alloc = rt.alloc();
    let text = "print!(\"{}\r\n{} {}\", x, format!(\"{}\", y), z);";
    let new_text = match inline_text(alloc, text) {
        Ok(new_text) => new_text,
        Err(_) => {
            println!(rt; "refused")?;
            inline_text(alloc, text)?
        }
    };
    let expected = "print!(\"{x}\r\n{} {z}\", format!(\"{y}\"));";
    assert_eq!(rt; new_text.as_str(), expected);
    Ok(())
}
