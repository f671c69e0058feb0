//! The faults of texts that are no string literals, and the text around a literal in a file.

use literal_faults::{file_fault, literal_fault, snippet_of};
use std::alloc::{AllocError, Global};
use std::io::Print;
use std::test::Fail;

/// Returns the message of a text's fault, or an empty text if it is a string literal.
fn message(alloc: Global, text: &str) -> Result<String, AllocError> {
    let mut out = String::new(alloc);
    if let Some(fault) = literal_fault(text) {
        fault.kind.put_message(&mut out)?;
    }
    Ok(out)
}

#[test]
fn faults(rt: HostRuntime) -> Result<(), Fail> {
    // a text, the byte offset of its fault and the message
    let rows = [
        ("", 0, "expected a string literal, found nothing"),
        ("{}", 0, "expected a string literal"),
        ("r#x", 0, "expected a string literal"),
        (
            "b\"a\"",
            0,
            "expected a string literal, found a byte string literal",
        ),
        (
            "br#\"a\"#",
            0,
            "expected a string literal, found a byte string literal",
        ),
        (
            "c\"a\"",
            0,
            "expected a string literal, found a C string literal",
        ),
        ("b'a'", 0, "expected a string literal, found a byte literal"),
        (
            "'a'",
            0,
            "expected a string literal, which has double quotes",
        ),
        (
            "'hi {}'",
            0,
            "expected a string literal, which has double quotes",
        ),
        ("\"", 1, "unterminated double quote string"),
        ("\"ab\u{e9}", 5, "unterminated double quote string"),
        ("\"ab\\", 3, "unterminated double quote string"),
        ("\"ab\\\"", 5, "unterminated double quote string"),
        ("\"ab\\u{12", 3, "unterminated double quote string"),
        ("r#\"ab\"", 6, "unterminated raw string"),
        ("\"hi \\q\"", 4, "unknown character escape: `q`"),
        (
            "\"\u{e9}\\\u{e9}\"",
            3,
            "unknown character escape: `\\u{e9}`",
        ),
        ("\"\\\u{1b}\"", 1, "unknown character escape: `\\u{1b}`"),
        ("\"\\\r\n\"", 1, "unknown character escape: `\\r`"),
        ("\"a\\x1\"", 2, "numeric character escape is too short"),
        ("\"\\x\"", 1, "numeric character escape is too short"),
        (
            "\"\\xzz\"",
            1,
            "invalid character in numeric character escape: `z`",
        ),
        (
            "\"\\x8g\"",
            1,
            "invalid character in numeric character escape: `g`",
        ),
        ("\"\\x80\"", 1, "out of range hex escape"),
        ("\"\\u0041\"", 1, "incorrect unicode escape sequence"),
        ("\"\\u{}\"", 1, "empty unicode escape"),
        ("\"\\u{_1}\"", 1, "invalid start of unicode escape: `_`"),
        ("\"\\u{12\"", 1, "unterminated unicode escape"),
        (
            "\"\\u{12g}\"",
            1,
            "invalid character in unicode escape: `g`",
        ),
        ("\"\\u{1234567}\"", 1, "overlong unicode escape"),
        ("\"\\u{1_234_567}\"", 1, "overlong unicode escape"),
        (
            "\"\\u{D8_00}\"",
            1,
            "invalid unicode character escape, which must not be a surrogate",
        ),
        (
            "\"\\u{110000}\"",
            1,
            "invalid unicode character escape, which must be at most 10FFFF",
        ),
        (
            "\"a\rb\"",
            2,
            "bare CR not allowed in string, use `\\r` instead",
        ),
        ("\"a\"x", 3, "suffixes on string literals are invalid"),
        ("r#\"a\"#_", 6, "suffixes on string literals are invalid"),
        ("\"a\" 3", 3, "unexpected text after the string literal"),
        ("r\"a\", x", 4, "unexpected text after the string literal"),
        ("\"a\"\n", 3, "unexpected text after the string literal"),
    ];
    for (text, offset, wanted) in rows {
        let fault = literal_fault(text).ok_or("a fault is missing")?;
        assert_eq!(&rt; fault.offset, offset);
        assert_eq!(&rt; message(rt.alloc(), text)?.as_str(), wanted);
    }
    Ok(())
}

#[test]
fn literals(rt: HostRuntime) {
    let rows = [
        "\"\"",
        "\"hi {name}\\n\\x41\\u{1_F600}\\\n   \\\"\"",
        "r\"\"",
        "r##\"a\"#b\\q\"##",
        // a raw literal may hold its own closing sequence
        "r\"a\"b\"",
    ];
    for text in rows {
        assert!(&rt; literal_fault(text).is_none());
    }
}

#[test]
fn margins(rt: HostRuntime) {
    // a file, the byte offset of its text without a byte order mark, and the text
    let rows = [
        ("", 0, ""),
        (" \r\n\t", 4, ""),
        ("\u{feff}", 0, ""),
        ("\"a\"", 0, "\"a\""),
        ("\"a\"\r\n", 0, "\"a\""),
        ("\u{feff}\n \"a b\" \t\n\n", 2, "\"a b\""),
        (" \u{feff}a", 1, "\u{feff}a"),
    ];
    for (file, start, text) in rows {
        let found = snippet_of(file);
        assert_eq!(&rt; found.start, start);
        assert!(&rt; found.text == text);
    }
    assert!(&rt; file_fault("\u{feff}\r\n\"a\" \n").is_none());
    assert!(&rt; file_fault("\u{feff}\r\n\"\\q\" \n").is_some_and(|fault| fault.offset == 6));
    assert!(&rt; file_fault("\n \"a").is_some_and(|fault| fault.offset == 4));
}

#[test]
fn message_out_of_memory_is_made_again(rt: HostRuntime) -> Result<(), Fail> {
    let text = "\"\\\u{e9}\"";
    let made = match message(rt.alloc(), text) {
        Ok(made) => made,
        Err(_) => {
            println!(rt; "refused")?;
            message(rt.alloc(), text)?
        }
    };
    assert_eq!(rt; made.as_str(), "unknown character escape: `\\u{e9}`");
    Ok(())
}
