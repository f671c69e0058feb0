//! Calls that are inlined, and calls that are left.

use super::rows::{NUMBERED, ROWS};
use call_faults::FormatString;
use inlined_arguments::{Argument, Call, InlinedCall, Obstacle, inline_arguments};
use piece_listing::literal::{LiteralText, literal_text};
use std::alloc::{AllocError, Global};
use std::test::Fail;

/// Returns an expression if it is one word.
fn word(text: &str) -> Option<&str> {
    if text
        .chars()
        .all(|c| c.is_alphanumeric() || c == '_' || c == '#')
    {
        Some(text)
    } else {
        None
    }
}

/// Returns the arguments of a list with a comma and a space between them.
fn arguments<'a>(alloc: Global, list: &'a str) -> Result<Vec<Argument<'a>>, AllocError> {
    let mut found = Vec::new(alloc);
    for source in list.split(", ") {
        if source.is_empty() {
            continue;
        }
        let (name, value) = match source.split_once(" = ") {
            Some((name, value)) => (Some(name.strip_prefix("r#").unwrap_or(name)), value),
            None => (None, source),
        };
        found.push(Argument {
            name,
            word: word(value),
            source: source.as_bytes(),
        })?;
    }
    Ok(found)
}

/// Returns the name of a reason.
fn name_of(obstacle: Obstacle) -> &'static str {
    match obstacle {
        Obstacle::Uncounted => "Uncounted",
        Obstacle::NoVariable => "NoVariable",
        Obstacle::Mixed => "Mixed",
        Obstacle::CapturesNone => "CapturesNone",
        Obstacle::Alone => "Alone",
        Obstacle::ConstForm => "ConstForm",
        Obstacle::Comment => "Comment",
        Obstacle::Faulty => "Faulty",
        Obstacle::NoLiteral => "NoLiteral",
        Obstacle::OtherMeaning => "OtherMeaning",
    }
}

/// Returns what stands between the parentheses of a call that is inlined.
fn text_of(
    alloc: Global,
    inlined_call: &InlinedCall,
    arguments: &[Argument<'_>],
) -> Result<String, AllocError> {
    let mut out = String::from_str(alloc, &inlined_call.literal)?;
    for (index, argument) in arguments.iter().enumerate() {
        if !inlined_call.removed_indices.contains(&index) {
            out.push_str(", ")?;
            out.push_str(str::from_utf8(argument.source).unwrap_or(""))?;
        }
    }
    Ok(out)
}

/// A call, as a test changes it.
#[derive(Clone, Copy)]
struct Case {
    appended_newline: bool,
    captures_variables: bool,
    is_counted: bool,
    is_format_alone: bool,
    has_const_form: bool,
    allows_mixed: bool,
}

/// The case of `format!`, with mixed calls allowed.
const FORMAT: Case = Case {
    appended_newline: false,
    captures_variables: true,
    is_counted: true,
    is_format_alone: true,
    has_const_form: false,
    allows_mixed: true,
};

/// Returns what stands between the parentheses of a call after it was inlined, or the reason why it
/// is left.
fn answer(alloc: Global, case: Case, literal: &str, list: &str) -> Result<String, AllocError> {
    let Some(LiteralText { mut text, style }) = literal_text(alloc, literal)? else {
        return String::from_str(alloc, "no literal");
    };
    if case.appended_newline {
        text.push('\n')?;
    }
    let arguments = arguments(alloc, list)?;
    let string = FormatString {
        text: &text,
        style,
        snippet: Some(literal),
        appended_newline: case.appended_newline,
        captures_variables: case.captures_variables,
    };
    let call = Call {
        string,
        arguments: &arguments,
        is_counted: case.is_counted,
        is_format_alone: case.is_format_alone,
        has_const_form: case.has_const_form,
    };
    match inline_arguments(alloc, call, case.allows_mixed)? {
        Ok(inlined_call) => text_of(alloc, &inlined_call, &arguments),
        Err(obstacle) => String::from_str(alloc, name_of(obstacle)),
    }
}

#[test]
fn calls_become_those_of_clippy(rt: HostRuntime) -> Result<(), Fail> {
    let alloc = rt.alloc();
    for row in ROWS {
        let new_text = answer(alloc, FORMAT, row.literal, row.arguments)?;
        assert_eq!(&rt;
            new_text.as_str(),
            row.new_text,
            "{} {}",
            row.literal,
            row.arguments
        );
    }
    Ok(())
}

#[test]
fn indices_that_stay(rt: HostRuntime) -> Result<(), Fail> {
    let alloc = rt.alloc();
    for row in NUMBERED {
        let new_text = answer(alloc, FORMAT, row.literal, row.arguments)?;
        assert_eq!(&rt;
            new_text.as_str(),
            row.new_text,
            "{} {}",
            row.literal,
            row.arguments
        );
    }
    Ok(())
}

#[test]
fn mixed_calls(rt: HostRuntime) -> Result<(), Fail> {
    let alloc = rt.alloc();
    let mut case = FORMAT;
    case.allows_mixed = false;
    for row in ROWS {
        let new_text = answer(alloc, case, row.literal, row.arguments)?;
        let expected = if row.is_mixed { "Mixed" } else { row.new_text };
        assert_eq!(&rt;
            new_text.as_str(),
            expected,
            "{} {}",
            row.literal,
            row.arguments
        );
    }
    Ok(())
}

#[test]
fn calls_that_are_left(rt: HostRuntime) -> Result<(), Fail> {
    let alloc = rt.alloc();
    // the literal, the arguments, and the reason
    let rows = [
        ("\"text\"", "", "NoVariable"),
        ("\"{x}\"", "", "NoVariable"),
        ("\"{}\"", "&x", "NoVariable"),
        ("\"{}\"", "(x)", "NoVariable"),
        ("\"{}\"", "x as u8", "NoVariable"),
        ("\"{type}\"", "r#type = -x", "NoVariable"),
        ("\"{}\"", "true", "NoVariable"),
        ("\"{}\"", "Self", "NoVariable"),
        ("\"{}\"", "return", "NoVariable"),
        ("\"{}\"", "_", "NoVariable"),
        // a letter and a mark, which rustc joins in a name of the source alone
        ("\"{}\"", "o\u{308}", "NoVariable"),
        ("\"{} {}\"", "x", "Faulty"),
        ("\"{}\"", "x, y", "Faulty"),
        ("\"{} {\"", "x", "Faulty"),
        ("\"{:q}\"", "x", "Faulty"),
        ("\"{} {}\"", "a = x, y", "Faulty"),
        ("\"{a} {a}\"", "a = x, a = y", "Faulty"),
        // `{x}` would be the argument that stays
        ("\"{} {x}\"", "x, x = f()", "OtherMeaning"),
        ("\"{:.*} {p}\"", "p, y, p = 1", "OtherMeaning"),
    ];
    for (literal, list, expected) in rows {
        let new_text = answer(alloc, FORMAT, literal, list)?;
        assert_eq!(&rt; new_text.as_str(), expected, "{} {}", literal, list);
    }
    Ok(())
}

/// The test passes whether or not an allocation fails: then the call is inlined again.
#[test]
fn call_out_of_memory_is_inlined_again(rt: HostRuntime) -> Result<(), Fail> {
    let literal = "\"{}, {:>w$}\"";
    let new_text = match answer(rt.alloc(), FORMAT, literal, "x, y + 1, w = w") {
        Ok(new_text) => new_text,
        Err(_) => {
            println!(rt; "refused")?;
            answer(rt.alloc(), FORMAT, literal, "x, y + 1, w = w")?
        }
    };
    assert_eq!(rt; new_text.as_str(), "\"{x}, {:>w$}\", y + 1");
    Ok(())
}
