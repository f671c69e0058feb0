//! Trees, places and calls of small files. Places are those that rustc 1.95 reports; the other
//! expected values are worked out by hand from the Rust Reference.

use super::strings::format_strings;
use format_calls::{
    AsmPart, Part, Reason, Row, Table, arguments, asm_part, calls, format_string, is_mark, is_text,
    next_part, template_count,
};
use rust_trees::{Balance, DelimiterBreak, Places, Source, Tokens, place_at};
use std::alloc::{AllocError, Global};
use std::io::Print;
use std::process::Abort;
use std::test::Fail;

/// Where the tokens break: nowhere, at a token that is not closed, or at one that is unexpected.
fn breaks(source: &Source<'_>) -> (usize, usize) {
    match source.first_break() {
        None => (0, 0),
        Some(DelimiterBreak::Unclosed(index)) => (1, index),
        Some(DelimiterBreak::Unexpected(index)) => (2, index),
    }
}

#[test]
fn trees(rt: HostRuntime) -> Result<(), Fail> {
    let alloc = rt.alloc();
    // a file, how many tokens it has, where they break, and the partner of the first token
    let rows = [
        ("", 0, (0, 0), None),
        ("a /* ( */ b // )\n", 2, (0, 0), None),
        ("(a[b]{c})", 9, (0, 0), Some(8)),
        ("()()", 4, (0, 0), Some(1)),
        ("([)]", 4, (2, 2), None),
        ("(a b", 3, (1, 0), None),
        ("(a) [ {} (", 7, (1, 6), Some(2)),
        (") ()", 3, (2, 0), None),
        ("() ) (", 4, (2, 2), Some(1)),
        ("( /* )", 2, (1, 0), None),
        ("(\")\" ')' r#\")\"#)", 5, (0, 0), Some(4)),
        ("\u{feff}#!a (\n()", 2, (0, 0), Some(1)),
    ];
    for (text, count, first_break, partner) in rows {
        let source = Source::new(alloc, text)?;
        assert_eq!(&rt; source.tokens().len(), count);
        assert!(&rt; breaks(&source) == first_break);
        assert!(&rt; source.partner(0) == partner);
    }
    Ok(())
}

#[test]
fn places(rt: HostRuntime) -> Result<(), Fail> {
    // a file, and the line and column of its first `y`
    let rows = [
        (
            "\u{feff}fn main() {\r\n    let x = \"é\"; y;\r\n}\r\n",
            2,
            18,
        ),
        ("\u{feff}y!(1);\nfn main() {}\n", 1, 1),
        ("fn main() {\n/* a\r\n b */ y;\n}\n", 3, 7),
    ];
    for (text, line, column) in rows {
        if let Some(offset) = text.find('y') {
            let place = place_at(text, offset);
            assert_eq!(&rt; place.line, line);
            assert_eq!(&rt; place.column, column);
        }
    }
    Ok(())
}

#[test]
fn places_of_a_long_file(rt: HostRuntime) -> Result<(), Fail> {
    let alloc = rt.alloc();
    let mut text = String::from_str(alloc, "\u{feff}")?;
    for _ in 0..700 {
        text.push_str("a(\u{20ac});\r\n\tb")?;
    }
    let places = Places::new(alloc, &text)?;
    let mut offset = 0;
    while offset <= text.len() {
        if text.is_char_boundary(offset) {
            let other = places.place_of(offset);
            let place = place_at(&text, offset);
            assert_eq!(&rt; other.line, place.line);
            assert_eq!(&rt; other.column, place.column);
        }
        offset += 61;
    }
    // the line after 700 line ends, with a tab and `b`
    assert_eq!(&rt; places.place_of(text.len()).line, 701);
    assert_eq!(&rt; places.place_of(text.len()).column, 3);
    Ok(())
}

/// The calls of a file have these names and closing delimiters, by the indices of tokens.
fn check(
    rt: &impl Abort,
    alloc: Global,
    table: &Table<'_>,
    text: &str,
    expected: &[(usize, usize)],
) -> Result<(), Fail> {
    let source = Source::new(alloc, text)?;
    let list = calls(alloc, &source, table)?;
    assert_eq!(rt; list.len(), expected.len());
    for i in 0..expected.len() {
        assert!(rt; i < list.len() && list[i].name == expected[i].0);
        assert!(rt; i < list.len() && list[i].close == expected[i].1);
    }
    // the same calls, part by part
    let mut rest = Tokens::new(text);
    let mut balance = Balance::new(alloc);
    let mut count = 0;
    while let Some(part) = next_part(alloc, &mut rest, table, &mut balance)? {
        for call in &calls(alloc, &part, table)? {
            assert!(rt; count < list.len());
            let name = source.tokens()[list[count].name];
            assert_eq!(rt; part.tokens()[call.name].start, name.start);
            count += 1;
        }
    }
    assert_eq!(rt; count, expected.len());
    // and where the tokens break
    let place = match source.first_break() {
        Some(DelimiterBreak::Unclosed(index) | DelimiterBreak::Unexpected(index)) => index,
        None => source.tokens().len(),
    };
    let first_break = balance
        .first_break()
        .map_or(text.len(), |first_break| first_break.start);
    if place < source.tokens().len() {
        assert_eq!(rt; first_break, source.tokens()[place].start);
    } else {
        assert_eq!(rt; first_break, text.len());
    }
    Ok(())
}

#[test]
fn macro_calls(rt: HostRuntime) -> Result<(), Fail> {
    let alloc = rt.alloc();
    let mut table = Table::standard(alloc)?;
    check(&rt, alloc, &table, "println!(\"a\");", &[(0, 4)])?;
    check(
        &rt,
        alloc,
        &table,
        "a::print /* b */ ! [] panic!{}",
        &[(3, 6), (7, 10)],
    )?;
    check(
        &rt,
        alloc,
        &table,
        "r#write!(f, \"\", format!(\"\"))",
        &[(0, 12), (7, 11)],
    )?;
    check(&rt, alloc, &table, "$todo!() todo() todo! a != (b)", &[])?;
    check(&rt, alloc, &table, "( ] assert!(a) panic!(", &[(2, 6)])?;
    check(&rt, alloc, &table, "info!(\"a\")", &[])?;
    let crates = Table::with_crate_macros(alloc)?;
    for row in &crates.rows {
        table.add(*row)?;
    }
    check(
        &rt,
        alloc,
        &table,
        "info!(\"a\") print!()",
        &[(0, 4), (5, 8)],
    )
}

/// The number of a result: of an argument, or of a reason after 10.
fn number(string: Result<usize, Reason>) -> usize {
    match string {
        Ok(index) => index % 10,
        Err(Reason::NoArgument) => 10,
        Err(Reason::Edition) => 11,
        Err(Reason::Variable) => 12,
        Err(Reason::Suffix) => 13,
        Err(Reason::Macro) => 14,
        Err(Reason::Expression) => 15,
    }
}

#[test]
fn strings_of_calls(rt: HostRuntime) -> Result<(), Fail> {
    let alloc = rt.alloc();
    let mut table = Table::standard(alloc)?;
    let crates = Table::with_crate_macros(alloc)?;
    for row in &crates.rows {
        table.add(*row)?;
    }
    // a call, how many arguments it has, how many of them are named, and its format string
    let rows = [
        ("println!()", 0, 0, 10),
        ("println!(\"a\",)", 1, 0, 0),
        ("write!(f, r\"a\", b, c = d)", 4, 1, 1),
        (
            "print!(\"\", a::<B, C>(), x as A<B, C>, <A as B<C, D>>::f())",
            4,
            0,
            0,
        ),
        (
            "print!(\"\", a < b, c > d, |a, b| a + b, x == y, f(a, b))",
            6,
            0,
            0,
        ),
        ("print!(\"\", x as u8 <= y, a as fn(A) -> B, c)", 4, 0, 0),
        ("print!(\"\", r#a = b, c == d, e => f)", 4, 1, 0),
        (
            "print!(\"\", move |a, b| a, async move |c, d| c, static || e)",
            4,
            0,
            0,
        ),
        (
            "print!(\"\", a || b, c | d, e || |f, g| f, |h, i| |j, k| j)",
            5,
            0,
            0,
        ),
        (
            "print!(\"\", a = |b, c| b, &mut |d, e| d, return |f, g| f)",
            4,
            1,
            0,
        ),
        (
            "print!(\"\", 1 + <A as B<C, D>>::f(), |a| -> B<C, D> { a }, x as *const *mut A<B, C>)",
            4,
            0,
            0,
        ),
        (
            "print!(\"\", x as usize * y < z, w > v, a << b, c >> d)",
            5,
            0,
            0,
        ),
        ("panic!(\"a\")", 1, 0, 11),
        ("assert!(a)", 1, 0, 10),
        ("assert!(a, \"b\", c)", 3, 0, 1),
        ("format!($a, b)", 2, 0, 12),
        ("format!(\"a\"b)", 1, 0, 13),
        ("format!(concat!(\"a\", \"b\"), c)", 2, 0, 14),
        ("format!(a.b)", 1, 0, 15),
        ("warn!(target: \"a\", \"b {}\", c)", 3, 0, 1),
        ("bail!(error)", 1, 0, 15),
    ];
    for (text, count, named, string) in rows {
        let source = Source::new(alloc, text)?;
        let list = calls(alloc, &source, &table)?;
        assert!(&rt; !list.is_empty());
        if let Some(call) = list.first() {
            let list = match arguments(alloc, &source, call.close)? {
                Some(list) => list,
                None => Vec::new(alloc),
            };
            assert_eq!(&rt; list.len(), count);
            assert_eq!(&rt;
                list.iter().filter(|argument| argument.is_named).count(),
                named
            );
            assert_eq!(&rt;
                number(format_string(&source, call.rule, &list, false)),
                string
            );
        }
    }
    Ok(())
}

/// The letter of what an argument after templates is.
fn letter(part: AsmPart) -> char {
    match part {
        AsmPart::Operand => 'o',
        AsmPart::Register => 'r',
        AsmPart::Raw => 'w',
        AsmPart::Setting => 's',
        AsmPart::Unknown => '?',
    }
}

#[test]
fn operands(rt: HostRuntime) -> Result<(), Fail> {
    let alloc = rt.alloc();
    let table = Table::standard(alloc)?;
    // a call, how many templates it has, and what the arguments after them are
    let rows = [
        ("asm!(\"a\", r#\"b\"#, in(reg) x, out(\"eax\") _,)", 2, "or"),
        (
            "asm!(\"a\", x = inout(reg) y => z, \"b\", const 1, z = sym f)",
            1,
            "o?oo",
        ),
        (
            "asm!(\"\", lateout(r\"al\") a, inlateout(reg) _, label { b })",
            1,
            "roo",
        ),
        (
            "global_asm!(\"\", options(raw), options(nomem, raw))",
            1,
            "ww",
        ),
        (
            "naked_asm!(\"\", options(att_syntax), clobber_abi(\"C\"), in x)",
            1,
            "ss?",
        ),
        (
            "asm!(\"\", a = options(raw), r#in(reg) x, $x, \"\"u8)",
            1,
            "????",
        ),
        ("asm!(a, \"b\")", 0, "??"),
        ("asm!()", 0, ""),
    ];
    for (text, templates, parts) in rows {
        let part = Part::new(alloc, Source::new(alloc, text)?)?;
        let tokens = part.tokens();
        let list = calls(alloc, part.source(), &table)?;
        assert!(&rt; !list.is_empty());
        if let Some(call) = list.first() {
            let list = match arguments(alloc, part.source(), call.close)? {
                Some(list) => list,
                None => Vec::new(alloc),
            };
            assert_eq!(&rt; template_count(tokens, &list), templates);
            let mut letters = String::new(alloc);
            for (index, argument) in list.iter().enumerate() {
                if index >= templates && argument.start < tokens.len() {
                    letters.push(letter(asm_part(&part, argument)))?;
                }
            }
            assert_eq!(&rt; letters.as_str(), parts);
        }
    }
    Ok(())
}

#[test]
fn words_and_punctuation(rt: HostRuntime) -> Result<(), Fail> {
    let alloc = rt.alloc();
    let source = Source::new(alloc, "in r#in \"in\" ! !=")?;
    let tokens = source.tokens();
    let mut words = 0;
    for token in tokens {
        if is_text(token, "in") {
            words += 1;
        }
    }
    assert_eq!(&rt; words, 1);
    assert!(&rt; is_mark(tokens, 3, b'!') && is_mark(tokens, 4, b'!') && is_mark(tokens, 5, b'='));
    assert!(&rt;
        !is_mark(tokens, 3, b'=') && !is_mark(tokens, 0, b'i') && !is_mark(tokens, 6, b'!')
    );
    Ok(())
}

#[test]
fn strings_of_a_file(rt: HostRuntime) -> Result<(), Fail> {
    let text =
        "fn f() { println!(r#\"{}\"#, format!(\"{x}\")); assert!(a); write!(f, $b); info!(\"c\") }";
    let list = format_strings(rt.alloc(), text)?;
    assert_eq!(&rt; list.len(), 2);
    assert!(&rt; list.first() == Some(&"r#\"{}\"#") && list.last() == Some(&"\"{x}\""));
    Ok(())
}

/// Returns how many calls of the macros of the standard library a file has.
fn count_of_calls(alloc: Global, text: &str) -> Result<usize, AllocError> {
    let source = Source::new(alloc, text)?;
    let table = Table::standard(alloc)?;
    Ok(calls(alloc, &source, &table)?.len())
}

/// The test passes whether or not an allocation fails: then the calls are looked for again.
#[test]
fn calls_out_of_memory_are_found_again(rt: HostRuntime) -> Result<(), Fail> {
    let text = "fn f() { println!(\"{}\", format!(\"a\")); }";
    let count = match count_of_calls(rt.alloc(), text) {
        Ok(count) => count,
        Err(_) => {
            println!(rt; "refused")?;
            count_of_calls(rt.alloc(), text)?
        }
    };
    assert_eq!(rt; count, 2);
    Ok(())
}
