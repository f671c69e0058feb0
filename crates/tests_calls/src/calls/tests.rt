//! Calls that are checked, and the messages for them.

use super::rows::ROWS;
use call_faults::{CallFault, CallReport, FormatArgument, FormatString, call_faults};
use std::alloc::{AllocError, Global};
use std::test::Fail;

/// Returns the format string of a text that stands for itself in an ordinary literal.
pub fn plain(text: &str) -> FormatString<'_> {
    FormatString {
        text,
        style: None,
        snippet: None,
        appended_newline: false,
        captures_variables: true,
    }
}

/// Returns the argument that an expression is: a name is a variable.
fn expression(text: &str) -> Option<&str> {
    if text.chars().all(|c| c.is_ascii_lowercase()) {
        Some(text)
    } else {
        None
    }
}

/// Returns the arguments of a list with a comma and a space between them.
pub fn arguments<'a>(alloc: Global, list: &'a str) -> Result<Vec<FormatArgument<'a>>, AllocError> {
    let mut given = Vec::new(alloc);
    for argument in list.split(", ") {
        if argument.is_empty() {
            continue;
        }
        given.push(match argument.split_once(" = ") {
            Some((name, value)) => FormatArgument {
                name: Some(name),
                variable: expression(value),
            },
            None => FormatArgument {
                name: None,
                variable: expression(argument),
            },
        })?;
    }
    Ok(given)
}

/// Returns the titles of the faults of a call, each on a line.
fn titles(alloc: Global, string: FormatString<'_>, list: &str) -> Result<String, AllocError> {
    let given = arguments(alloc, list)?;
    let report = call_faults(alloc, string, &given)?;
    let mut out = String::new(alloc);
    for fault in &report.faults {
        if !out.is_empty() {
            out.push('\n')?;
        }
        if let CallFault::NameUsedByIndex { .. } = fault {
            out.push_str("warning: ")?;
        }
        report.put_title(&mut out, fault)?;
    }
    Ok(out)
}

/// Returns the ids of the faults of a call, each on a line.
fn ids(alloc: Global, string: FormatString<'_>, list: &str) -> Result<String, AllocError> {
    let given = arguments(alloc, list)?;
    let mut out = String::new(alloc);
    for fault in &call_faults(alloc, string, &given)?.faults {
        if !out.is_empty() {
            out.push('\n')?;
        }
        out.push_str(fault.id())?;
    }
    Ok(out)
}

#[test]
fn titles_are_those_of_rustc(rt: HostRuntime) -> Result<(), Fail> {
    let alloc = rt.alloc();
    for row in ROWS {
        let output = titles(alloc, plain(row.text), row.arguments)?;
        assert_eq!(&rt;
            output.as_str(),
            row.titles,
            "{} {}",
            row.text,
            row.arguments
        );
    }
    Ok(())
}

/// The titles of rustc 1.95 where the literal is that of `concat!`, which captures no variable.
#[test]
fn names_that_are_not_captured(rt: HostRuntime) -> Result<(), Fail> {
    let alloc = rt.alloc();
    // the text, the arguments, and the titles
    let rows = [
        (
            "{a} {a} {b:w$}",
            "b",
            "there is no argument named `a`\n\
             there is no argument named `b`\n\
             there is no argument named `w`\n\
             redundant argument",
        ),
        ("{x}", "x = 1", ""),
        (
            "{0} {y:q}",
            "1",
            "there is no argument named `y`\nunknown format trait `q`",
        ),
        (
            "{x:x$.x$}{}",
            "",
            "there is no argument named `x`\n\
             1 positional argument in format string, but no arguments were given",
        ),
    ];
    for (text, list, expected) in rows {
        let mut string = plain(text);
        string.captures_variables = false;
        let output = titles(alloc, string, list)?;
        assert_eq!(&rt; output.as_str(), expected, "{} {}", text, list);
    }
    Ok(())
}

/// The titles of rustc 1.95 for `println!`, with the literal as it is in the source.
#[test]
fn literals_of_println(rt: HostRuntime) -> Result<(), Fail> {
    let alloc = rt.alloc();
    // the text, the hashes of a raw literal, the literal, the arguments, and the titles
    let rows = [
        (
            "{}\n",
            None,
            "\"{}\"",
            "",
            "1 positional argument in format string, but no arguments were given",
        ),
        (
            "{\n",
            None,
            "\"{\"",
            "a",
            "invalid format string: expected `}` but string was terminated",
        ),
        (
            "{\\\n",
            Some(0),
            "r\"{\\\"",
            "a",
            "invalid format string: expected `}`, found `\\\\`",
        ),
        (
            "{\"{\n",
            Some(1),
            "r#\"{\"{\"#",
            "a",
            "invalid format string: expected `}`, found `\\\"`",
        ),
        (
            "{} }\n",
            None,
            "\"{} \\u{7d}\"",
            "a",
            "invalid format string: unmatched `}` found",
        ),
        ("{} {a}\n", None, "\"{} {a}\"", "b", ""),
    ];
    for (text, style, snippet, list, expected) in rows {
        let mut string = plain(text);
        string.style = style;
        string.snippet = Some(snippet);
        string.appended_newline = true;
        let output = titles(alloc, string, list)?;
        assert_eq!(&rt; output.as_str(), expected, "{} {}", snippet, list);
    }
    Ok(())
}

#[test]
fn each_kind_has_its_id(rt: HostRuntime) -> Result<(), Fail> {
    let alloc = rt.alloc();
    // the text, the arguments, and the ids
    let rows = [
        ("", "a = 1, b", "positional-after-named"),
        ("{a}{b}", "a = 1, a = 2", "repeated-name\nmissing-name"),
        ("{", "a", "missing-closing-brace"),
        ("{:q}{}", "a", "unknown-trait\nmissing-argument"),
        ("", "a", "unused-argument"),
        ("{a}", "a", "redundant-argument"),
        ("{}", "a = 1", "name-used-by-index"),
    ];
    for (text, list, expected) in rows {
        let mut string = plain(text);
        string.captures_variables = list.starts_with('a') && text == "{a}";
        let output = ids(alloc, string, list)?;
        assert_eq!(&rt; output.as_str(), expected, "{} {}", text, list);
    }
    Ok(())
}

#[test]
fn titles_out_of_memory_are_read_again(rt: HostRuntime) -> Result<(), Fail> {
    let alloc = rt.alloc();
    let string = plain("{:q}{a}{4}{x:y$}{");
    let expected = "duplicate argument named `x`\n\
                    invalid format string: expected `}` but string was terminated";
    let output = match titles(alloc, string, "b, x = 1, x = 2") {
        Ok(output) => output,
        Err(_) => {
            println!(rt; "refused")?;
            titles(alloc, string, "b, x = 1, x = 2")?
        }
    };
    assert_eq!(rt; output.as_str(), expected);
    Ok(())
}

#[test]
fn compared_out_of_memory_is_read_again(rt: HostRuntime) -> Result<(), Fail> {
    let alloc = rt.alloc();
    let string = plain("{:q}{b}{4}{x:y$}");
    let expected = "unknown format trait `q`\n\
                    invalid reference to positional argument 4 (there are 3 arguments)\n\
                    argument never used";
    let output = match titles(alloc, string, "a, c, x = 1") {
        Ok(output) => output,
        Err(_) => {
            println!(rt; "refused")?;
            titles(alloc, string, "a, c, x = 1")?
        }
    };
    assert_eq!(rt; output.as_str(), expected);
    Ok(())
}
