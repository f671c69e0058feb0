//! The tokens of texts. Each expected value was worked out by hand from the rules of the Rust
//! Reference.

use rust_tokens::Kind::{self, *};
use rust_tokens::{Token, first_token, tokens};
use std::alloc::Global;
use std::io::Print;
use std::process::Abort;
use std::test::Fail;

/// The tokens of a file have these kinds, and each ends at this byte, where the next one starts.
fn check(
    rt: &impl Abort,
    alloc: Global,
    text: &str,
    expected: &[(Kind, usize)],
) -> Result<(), Fail> {
    let list = tokens(alloc, text)?;
    assert_eq!(rt; list.len(), expected.len());
    let mut start = 0;
    for i in 0..expected.len() {
        assert!(rt; i < list.len() && list[i].kind == expected[i].0);
        assert!(rt; list[i].span.start == start && list[i].span.end == expected[i].1);
        start = expected[i].1;
    }
    Ok(())
}

/// The file is one token of this kind, ended or not, with a suffix from this byte on.
fn check_one(
    rt: &impl Abort,
    alloc: Global,
    text: &str,
    kind: Kind,
    suffix_start: usize,
    is_ended: bool,
) -> Result<(), Fail> {
    let list = tokens(alloc, text)?;
    let span = 0..text.len();
    assert_eq!(rt; list.len(), 1);
    assert!(rt;
        list.len() == 1
            && list[0]
                == Token {
                    kind,
                    span,
                    suffix_start,
                    is_ended
                }
    );
    Ok(())
}

#[test]
fn comments(rt: HostRuntime) -> Result<(), Fail> {
    let alloc = rt.alloc();
    let rows = [
        ("// a", LineComment),
        ("//", LineComment),
        ("/// a", OuterLineDoc),
        ("///", OuterLineDoc),
        ("//// a", LineComment),
        ("//! a", InnerLineDoc),
        ("/* a */", BlockComment),
        ("/**/", BlockComment),
        ("/***/", BlockComment),
        ("/** a */", OuterBlockDoc),
        ("/*** a */", BlockComment),
        ("/*! a */", InnerBlockDoc),
        ("/*!*/", InnerBlockDoc),
        ("/* /* */ */", BlockComment),
        ("/*/*/**/*/*/", BlockComment),
    ];
    for (text, kind) in rows {
        check_one(&rt, alloc, text, kind, text.len(), true)?;
    }
    for (text, kind) in [
        ("/* /* */", BlockComment),
        ("/**", OuterBlockDoc),
        ("/*/", BlockComment),
    ] {
        check_one(&rt, alloc, text, kind, text.len(), false)?;
    }
    check(
        &rt,
        alloc,
        "//a\n/**/b",
        &[
            (LineComment, 3),
            (Whitespace, 4),
            (BlockComment, 8),
            (Ident, 9),
        ],
    )
}

#[test]
fn literals(rt: HostRuntime) -> Result<(), Fail> {
    let alloc = rt.alloc();
    let rows = [
        ("\"a\\\"b\"", Str, 6),
        ("\"a\\\\\"", Str, 5),
        ("\"a\"x", Str, 3),
        ("b\"a\"_1", ByteStr, 4),
        ("c\"a\"", CStr, 4),
        ("r\"\\\"", RawStr, 4),
        ("r##\"a\"#\"##", RawStr, 10),
        ("br#\"a\"#u8", RawByteStr, 7),
        ("cr\"\"", RawCStr, 4),
        ("'a'", Char, 3),
        ("'\\''", Char, 4),
        ("'\\u{1F600}'x", Char, 11),
        ("'é'", Char, 4),
        ("b'\\x41'", Byte, 7),
        ("'static", Lifetime, 7),
        ("'_", Lifetime, 2),
        ("'r#async", RawLifetime, 8),
        ("r#type", RawIdent, 6),
        ("été", Ident, 5),
    ];
    for (text, kind, suffix_start) in rows {
        check_one(&rt, alloc, text, kind, suffix_start, true)?;
    }
    let unended = [
        ("\"a\\\"", Str),
        ("b\"", ByteStr),
        ("r#\"a\"", RawStr),
        ("br\"", RawByteStr),
        ("cr##\"\"#", RawCStr),
        ("'", Char),
        ("b'", Byte),
    ];
    for (text, kind) in unended {
        check_one(&rt, alloc, text, kind, text.len(), false)?;
    }
    check(&rt, alloc, "'ab'", &[(Char, 1), (Ident, 3), (Char, 4)])?;
    check(
        &rt,
        alloc,
        "'a: 'b'",
        &[(Lifetime, 2), (Punct, 3), (Whitespace, 4), (Char, 7)],
    )?;
    check(&rt, alloc, "f\"a\"", &[(Ident, 1), (Str, 4)])?;
    check(
        &rt,
        alloc,
        "r#\u{1F600}",
        &[(Ident, 1), (Punct, 2), (Unknown, 6)],
    )
}

#[test]
fn numbers(rt: HostRuntime) -> Result<(), Fail> {
    let alloc = rt.alloc();
    let rows = [
        ("0", DecimalInt, 1),
        ("1_000u32", DecimalInt, 5),
        ("0xFF_u8", HexadecimalInt, 5),
        ("0b1010", BinaryInt, 6),
        ("0o7_7i64", OctalInt, 5),
        ("1.", Float, 2),
        ("1.5f32", Float, 3),
        ("1e10", Float, 4),
        ("1E-_3", Float, 5),
        ("12.5e+3_f64", Float, 8),
        ("1em", DecimalInt, 1),
        ("1e_", DecimalInt, 1),
    ];
    for (text, kind, suffix_start) in rows {
        check_one(&rt, alloc, text, kind, suffix_start, true)?;
    }
    check(
        &rt,
        alloc,
        "1..2",
        &[(DecimalInt, 1), (Punct, 2), (Punct, 3), (DecimalInt, 4)],
    )?;
    check(
        &rt,
        alloc,
        "1.f()",
        &[
            (DecimalInt, 1),
            (Punct, 2),
            (Ident, 3),
            (Punct, 4),
            (Punct, 5),
        ],
    )?;
    check(
        &rt,
        alloc,
        "1._0",
        &[(DecimalInt, 1), (Punct, 2), (Ident, 4)],
    )?;
    check(
        &rt,
        alloc,
        "1.0.1",
        &[(Float, 3), (Punct, 4), (DecimalInt, 5)],
    )?;
    check(&rt, alloc, "1e+", &[(DecimalInt, 2), (Punct, 3)])?;
    check(
        &rt,
        alloc,
        "0x1.0",
        &[(HexadecimalInt, 3), (Punct, 4), (DecimalInt, 5)],
    )
}

#[test]
fn files(rt: HostRuntime) -> Result<(), Fail> {
    let alloc = rt.alloc();
    check(&rt, alloc, "", &[])?;
    check(
        &rt,
        alloc,
        "#!/bin/sh\na",
        &[(Shebang, 9), (Whitespace, 10), (Ident, 11)],
    )?;
    check(
        &rt,
        alloc,
        "\u{feff}#!x\r\n",
        &[(ByteOrderMark, 3), (Shebang, 7), (Whitespace, 8)],
    )?;
    check(&rt, alloc, "#!", &[(Shebang, 2)])?;
    check(
        &rt,
        alloc,
        "#! /*a*/[b]",
        &[
            (Punct, 1),
            (Punct, 2),
            (Whitespace, 3),
            (BlockComment, 8),
            (Punct, 9),
            (Ident, 10),
            (Punct, 11),
        ],
    )?;
    check(&rt, alloc, "#!/**a*/[b]", &[(Shebang, 11)])?;
    check(
        &rt,
        alloc,
        "a\u{feff}\r\n\u{2028}`",
        &[(Ident, 1), (Unknown, 4), (Whitespace, 9), (Unknown, 10)],
    )
}

#[test]
fn first_of_a_text(rt: HostRuntime) {
    assert!(rt; first_token("").is_none());
    let token = first_token("#!a");
    assert!(rt;
        token
            == Some(Token {
                kind: Punct,
                span: 0..1,
                suffix_start: 1,
                is_ended: true
            })
    );
    let token = first_token("1u8+");
    assert!(rt;
        token
            == Some(Token {
                kind: DecimalInt,
                span: 0..3,
                suffix_start: 1,
                is_ended: true
            })
    );
}

/// The test passes whether or not an allocation fails: then the tokens are read again.
#[test]
fn tokens_out_of_memory_are_read_again(rt: HostRuntime) -> Result<(), Fail> {
    let alloc = rt.alloc();
    let text = "\u{feff}#!a\nlet b = 1;";
    let list = match tokens(alloc, text) {
        Ok(list) => list,
        Err(_) => {
            println!(rt; "refused")?;
            tokens(alloc, text)?
        }
    };
    assert_eq!(rt; list.len(), 11);
    Ok(())
}
