//! The findings in small files, and how much of their calls is read.

use format_calls::{Row, Rule, Table};
use source_lint::{OwnMacro, file_faults, own_file_faults};
use source_report::{CallReading, Options, Report};
use std::alloc::{AllocError, Global};
use std::io::Print;
use std::process::Abort;
use std::test::Fail;

/// Reads a file with all macros that are known.
fn report(alloc: Global, text: &str, is_from_2021: bool) -> Result<Report, AllocError> {
    let mut table = Table::standard(alloc)?;
    let crate_macros = Table::with_crate_macros(alloc)?;
    for row in &crate_macros.rows {
        table.rows.push(*row)?;
    }
    let options = Options {
        table,
        is_from_2021,
    };
    file_faults(alloc, text, &options)
}

/// Returns a line for each finding of a file: its first byte, its id and its title.
fn findings(alloc: Global, text: &str) -> Result<String, AllocError> {
    let report = report(alloc, text, true)?;
    let mut out = String::new(alloc);
    for finding in &report.findings {
        if !out.is_empty() {
            out.push('\n')?;
        }
        let (start, id) = (finding.span.start, finding.id);
        write!(out, "{start} {id} {}", finding.title)?;
    }
    Ok(out)
}

/// Returns a letter for how much of a call is read.
fn letter(reading: CallReading) -> char {
    match reading {
        CallReading::Whole => 'w',
        CallReading::StringAlone => 's',
        CallReading::RedefinedMacro => 'r',
        CallReading::ForeignMacro => 'f',
        CallReading::NoExpression => 'e',
        CallReading::NoComma => 'c',
        CallReading::Unread(_) => 'u',
        CallReading::Malformed => 'm',
    }
}

/// Returns a letter for each call of a file.
fn readings(alloc: Global, text: &str, is_from_2021: bool) -> Result<String, AllocError> {
    let report = report(alloc, text, is_from_2021)?;
    let mut out = String::new(alloc);
    for reading in &report.calls {
        out.push(letter(*reading))?;
    }
    Ok(out)
}

/// Returns the id of the first finding of a file whose macro `say` hands its tokens on to a macro
/// that appends a newline or not, or an empty one if there is none.
fn own_id(alloc: Global, text: &str, appends_newline: bool) -> Result<&'static str, AllocError> {
    let mut table = Table::standard(alloc)?;
    table.add(Row {
        name: "say",
        rule: Rule::Index(0),
    })?;
    let options = Options {
        table,
        is_from_2021: true,
    };
    let own_macros = [OwnMacro {
        name: "say",
        appends_newline,
    }];
    let report = own_file_faults(alloc, text, &options, &own_macros)?;
    match report.findings.first() {
        Some(finding) => Ok(finding.id),
        None => Ok(""),
    }
}

#[test]
fn own_macros(rt: HostRuntime) -> Result<(), Fail> {
    let alloc = rt.alloc();
    // the string of a call of `say`, and what is wrong with it without a newline and with one
    let rows = [
        ("{", "missing-closing-brace", "missing-closing-brace"),
        ("{ >", "missing-closing-brace", "alignment-before-colon"),
        ("{{}}", "", ""),
    ];
    for (string, plain_id, newline_id) in rows {
        let text = format!(in alloc;
            "macro_rules! say {{}} macro_rules! print {{}}
            print!(\"{{\"); say!(\"{string}\");"
        )?;
        assert_eq!(&rt;
            own_id(alloc, text.as_str(), false)?,
            plain_id,
            "{}",
            string
        );
        assert_eq!(&rt;
            own_id(alloc, text.as_str(), true)?,
            newline_id,
            "{}",
            string
        );
    }
    Ok(())
}

#[test]
fn findings_of_files(rt: HostRuntime) -> Result<(), Fail> {
    let alloc = rt.alloc();
    let rows = [
        ("", ""),
        ("fn f() { g(\"{\"); }", ""),
        (
            "\u{feff}// é\r\nprintln!(\"é {\", a);\r\n",
            "24 missing-closing-brace invalid format string: expected `}` but string was terminated",
        ),
        (
            "print!(\"{}\", format!(\"{a b}\"));",
            "25 missing-closing-brace invalid format string: expected `}`, found `b`",
        ),
        (
            "asm!(\"{}\", \"{b}\", in(reg) a);",
            "13 missing-name there is no argument named `b`",
        ),
        (
            "#[diagnostic::on_unimplemented(message = \"{A} {B}\")]\ntrait T<A> {}",
            "47 missing-parameter there is no parameter `B` on trait `T`",
        ),
        (
            "format!(); write!(a, \"{}\" , b); write!(a, ); print!(\"a\",, b);",
            "0 missing-format-string requires at least a format string argument\n\
             32 missing-format-string requires at least a format string argument\n\
             56 missing-expression expected expression, found `,`",
        ),
    ];
    for (text, expected) in rows {
        let answer = findings(alloc, text)?;
        assert_eq!(&rt; answer.as_str(), expected, "{}", text);
    }
    Ok(())
}

/// The token in whose place a comma should be.
#[test]
fn commas_that_are_missing(rt: HostRuntime) -> Result<(), Fail> {
    let alloc = rt.alloc();
    // the arguments of `print!`, and what rustc found in place of the comma
    let rows = [
        ("\"{}\" a", "12 missing-comma expected `,`, found `a`"),
        (
            "\"{}\" \"a\"",
            "12 missing-comma expected `,`, found `\"a\"`",
        ),
        ("\"{}\" + a", "12 missing-comma expected `,`, found `+`"),
        ("\"{}\" &*a", "12 missing-comma expected `,`, found `&`"),
        ("\"{}\" **a", "12 missing-comma expected `,`, found `*`"),
        ("\"{}\".f(a)", "11 missing-comma expected `,`, found `.`"),
        ("\"{}\"; a", "11 missing-comma expected `,`, found `;`"),
        ("\"{}\" (a + b)", "12 missing-comma expected `,`, found `(`"),
        ("\"{}\" 'a", "12 missing-comma expected `,`, found `'a`"),
        (
            "\"{}\" self.a",
            "12 missing-comma expected `,`, found keyword `self`",
        ),
        (
            "\"{}\" as A",
            "12 missing-comma expected `,`, found keyword `as`",
        ),
        (
            "\"{}\" where",
            "12 missing-comma expected `,`, found keyword `where`",
        ),
        ("\"{}\" r#as", "12 missing-comma expected `,`, found `r#as`"),
        (
            "\"{}\" _",
            "12 missing-comma expected `,`, found reserved identifier `_`",
        ),
        (
            "\"{}\" box a",
            "12 missing-comma expected `,`, found reserved keyword `box`",
        ),
        (
            "\"{}\" + a b,, c",
            "12 missing-comma expected `,`, found `+`",
        ),
        // (an operator of several characters)
        ("\"{}\" += a", "12 missing-comma expected `,`, found `+=`"),
        ("\"{}\" ..= a", "12 missing-comma expected `,`, found `..=`"),
        ("\"{}\" == a b", "12 missing-comma expected `,`, found `==`"),
        ("\"{}\" <- a", "12 missing-comma expected `,`, found `<-`"),
        ("\"{}\" <<= a", "12 missing-comma expected `,`, found `<<=`"),
        ("\"{}\" &&& a", "12 missing-comma expected `,`, found `&&`"),
        ("\"{}\" + > a", "12 missing-comma expected `,`, found `+`"),
        // (a variable of a macro may be the comma)
        ("\"{}\" + $a", ""),
        ("\"{}\"x + a", "13 missing-comma expected `,`, found `+`"),
    ];
    for (list, expected) in rows {
        let text = format!(in alloc; "print!({list});")?;
        let answer = findings(alloc, text.as_str())?;
        assert_eq!(&rt; answer.as_str(), expected, "{}", list);
    }
    Ok(())
}

/// What is wrong after the format string.
#[test]
fn arguments_that_are_no_expressions(rt: HostRuntime) -> Result<(), Fail> {
    let alloc = rt.alloc();
    // the arguments of `print!` after `"{}"`, and what rustc says of them
    let rows = [
        (
            "a b",
            "15 missing-comma expected one of `!`, `,`, `.`, `::`, `?`, `{`, or an operator, found `b`",
        ),
        (
            "a..b c",
            "18 missing-comma expected one of `!`, `,`, `.`, `::`, `?`, `{`, or an operator, found `c`",
        ),
        (
            "a.b c",
            "17 missing-comma expected one of `(`, `,`, `.`, `::`, `?`, or an operator, found `c`",
        ),
        (
            "a.await b",
            "21 missing-comma expected one of `,`, `.`, `?`, or an operator, found `b`",
        ),
        (
            "a = f(b) \"c\"",
            "22 missing-comma expected one of `,`, `.`, `?`, or an operator, found `\"c\"`",
        ),
        (
            "a ==, b c",
            "17 missing-expression expected expression, found `,`",
        ),
        (
            "a =",
            "16 missing-expression expected expression, found end of macro arguments",
        ),
        (
            "a[1] >> ",
            "20 missing-expression expected expression, found end of macro arguments",
        ),
        (
            "*",
            "14 missing-expression expected expression, found end of macro arguments",
        ),
        (
            ">>= a",
            "13 missing-expression expected expression, found `>>=`",
        ),
        (
            "!= a b",
            "13 missing-expression expected expression, found `!=`",
        ),
        // (what rustc says depends on more than is looked at)
        ("a as u8 b", ""),
        ("|a b| c", ""),
        ("|a| a +", ""),
        ("a as u8 <", ""),
        ("a < b >", ""),
        // (a variable of a macro may be what is missing)
        ("$a +", ""),
        ("$($a),*", ""),
        // (there is none)
        ("#[a] b", ""),
        ("a as Vec<u8>", ""),
        ("&&*a", ""),
        ("f(a)(b)", ""),
    ];
    for (list, expected) in rows {
        let text = format!(in alloc; "print!(\"{{}}\", {list});")?;
        let answer = findings(alloc, text.as_str())?;
        assert_eq!(&rt; answer.as_str(), expected, "{}", list);
    }
    Ok(())
}

#[test]
fn readings_of_calls(rt: HostRuntime) -> Result<(), Fail> {
    let alloc = rt.alloc();
    // a file, and how its calls are read from the edition 2021 on, and before
    let rows = [
        ("print!(\"{}\", a); print!(\"{}\", $($a),*);", "ws", "ws"),
        (
            "print!(\"\\q\"); print!(\"a\",, b); print!(\"a\" b, c)",
            "mec",
            "mec",
        ),
        ("panic!(\"{}\"); panic!(\"{}\", a)", "ww", "uw"),
        (
            "macro_rules! print { () => {} } print!(\"{}\"); std::print!(\"a\")",
            "rr",
            "rr",
        ),
        // paths of log, tracing and slog, and of the package itself
        (
            "info!(\"a\"); log::info!(\"a\"); ::log::info!(\"a\")",
            "www",
            "www",
        ),
        (
            "a::tracing::event!(B, \"a\"); a::slog::crit!(b, \"a\")",
            "ww",
            "ww",
        ),
        (
            "crate::info!(\"a\"); self::warn!(\"a\"); super::a::log!(\"a\")",
            "www",
            "www",
        ),
        (
            "$crate::info!(\"a\"); {a:info!(\"a\")}; a ::info!(\"a\")",
            "wwf",
            "wwf",
        ),
        ("a::/**/info!(\"a\"); a:: info!(\"a\")", "ww", "ww"),
        // paths of other crates
        (
            "a::info!(\"a\"); ::a::log_b::warn!(\"a\"); r#a::error!(\"a\")",
            "fff",
            "fff",
        ),
        (
            "é::info!(\"a\"); $a::info!(\"a\"); logs::info!(\"a\")",
            "fff",
            "fff",
        ),
        // macros of other names are read after each path
        (
            "a::bail!(\"a\"); a::print!(\"a\"); a::ensure!(b, \"a\")",
            "www",
            "www",
        ),
    ];
    for (text, expected, old_expected) in rows {
        let answer = readings(alloc, text, true)?;
        assert_eq!(&rt; answer.as_str(), expected, "{}", text);
        let answer = readings(alloc, text, false)?;
        assert_eq!(&rt; answer.as_str(), old_expected, "{}", text);
    }
    Ok(())
}

#[test]
fn a_file_out_of_memory_is_read_again(rt: HostRuntime) -> Result<(), Fail> {
    let alloc = rt.alloc();
    let text = "print!(\"{a.b} {\r\n}\", a); asm!(\"{b}\"); print!(c);";
    let expected = "9 field-access invalid format string: field access isn't supported\n\
                    32 missing-name there is no argument named `b`\n\
                    45 no-string-literal format argument must be a string literal";
    let answer = match findings(alloc, text) {
        Ok(answer) => answer,
        Err(_) => {
            println!(rt; "refused")?;
            findings(alloc, text)?
        }
    };
    assert_eq!(rt; answer.as_str(), expected);
    Ok(())
}
