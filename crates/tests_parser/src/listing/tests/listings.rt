//! Worked cases of the program.
use super::{AS_LITERAL, HI, HI_LINES, Listing, check_answer, check_listings};
use std::test::Fail;

const SHORT: &[Listing<'static>] = &[
    (HI, HI_LINES, false),
    (b"", b"", false),
    (
        b"{",
        b"arg implicit 0 1..1\nfault 1..1 expected `}` but string was terminated\n",
        true,
    ),
    (
        b"a\n\"}}\x7F",
        b"lit \"a\\n\\\"\"\nlit \"}\\u{7f}\"\n",
        false,
    ),
];

#[test]
fn lists_short_inputs(rt: HostRuntime) -> Result<(), Fail> {
    check_listings(&rt, rt.alloc(), &["format"], SHORT)
}

const PARTS: &[Listing<'static>] = &[
    (
        b"{:*>8.w$x?}",
        b"arg implicit 0 2..2 fill=\"*\"@3..4 align=right width=is:8@5..6 precision=name:w@7..8@6..9 hex=lower ty=\"?\"\n",
        false,
    ),
    (
        b"{:.*}{x:x$.y$}",
        b"arg implicit 1 2..2 precision=star:0@3..5\narg name x 7..8 width=name:x@9..10@9..11 precision=name:y@12..13@11..14\n",
        false,
    ),
    (
        b"{0:+#00$e}",
        b"arg index 0 2..3 sign=+ alt zero width=param:0@7..9 ty=\"e\"@9..10\n",
        false,
    ),
    (
        b"{a:..b}",
        b"arg name a 2..3 precision=implied@4..5\nlit \".b\"\nfault 5..5 expected `}`, found `.`\nfault 7..8 unmatched `}` found\n",
        true,
    ),
];

#[test]
fn lists_each_part_with_its_span(rt: HostRuntime) -> Result<(), Fail> {
    check_listings(&rt, rt.alloc(), &["format"], PARTS)
}

const FAULTS: &[Listing<'static>] = &[
    (
        b"{r#type}",
        b"arg name type 2..8\nfault 2..8 raw identifiers are not supported\n",
        true,
    ),
    (
        b"{r#a:?x}",
        b"arg name a 2..5 ty=\"?\"\nlit \"x\"\nfault 7..8 expected `}`, found `x`\nfault 2..5 raw identifiers are not supported\nfault 7..7 expected `}`, found `x`\nfault 8..9 unmatched `}` found\n",
        true,
    ),
    (
        b"{r#a}{r#b}",
        b"arg name a 2..5\narg name b 7..10\nfault 7..10 raw identifiers are not supported\nfault 2..5 raw identifiers are not supported\n",
        true,
    ),
    (
        b"{65536}{r#a}{:_}}",
        b"arg index 0 2..7\narg name a 9..12\narg implicit 0 14..14 ty=\"_\"@15..16\nfault 9..12 raw identifiers are not supported\nfault 2..8 integer `65536` does not fit into the type `u16` whose range is `0..=65535`\nfault 15..16 invalid argument name `_`\nfault 15..16 invalid argument name `_`\nfault 17..18 unmatched `}` found\n",
        true,
    ),
    (
        b"{:}<",
        b"arg implicit 0 2..2 fill=\"}\"@3..4 align=left\nfault 4..4 expected `}` but string was terminated\n",
        true,
    ),
    (
        b"{a\x7F}",
        b"arg name a 2..3\nlit \"\\u{7f}\"\nfault 3..3 expected `}`, found `\\u{7f}`\nfault 4..5 unmatched `}` found\n",
        true,
    ),
];

#[test]
fn lists_faults_after_the_pieces(rt: HostRuntime) -> Result<(), Fail> {
    check_listings(&rt, rt.alloc(), &["format"], FAULTS)
}

/// Words, an input and its listing, in which each line is of a piece.
const MODES: &[(&[&str], &[u8], &[u8])] = &[
    (&["format"], b"{0:e}", b"arg index 0 2..3 ty=\"e\"@4..5\n"),
    (&["asm"], b"", b""),
    (&["asm"], b"{0:e}", b"arg index 0 2..3 ty=\"e\"@4..5\n"),
    (&["diagnostic"], b"", b""),
    (
        &["diagnostic-named"],
        b"{foo:}",
        b"arg name foo 2..5 ty=\"\"@5..6\n",
    ),
    (
        &["diagnostic"],
        b"{}{0}{a:}",
        b"arg implicit 0 2..2\narg index 0 4..5\narg name a 7..8 ty=\"\"@8..9\n",
    ),
];

#[test]
fn lists_in_each_mode(rt: HostRuntime) -> Result<(), Fail> {
    for (words, input, lines) in MODES {
        check_answer(&rt, rt.alloc(), words, input, Ok(false), lines)?;
    }
    Ok(())
}

const LITERALS: &[Listing<'static>] = &[
    (b"\"a\"\n", b"lit \"a\"\n", false),
    (b"\"\"", b"", false),
    (
        b"r#\"{a}\"\\n\"#\n",
        b"arg name a 4..5\nlit \"\\\"\\\\n\"\n",
        false,
    ),
    (b"r\"\n\"", b"lit \"\\n\"\n", false),
];

#[test]
fn lists_what_a_literal_stands_for(rt: HostRuntime) -> Result<(), Fail> {
    check_listings(&rt, rt.alloc(), AS_LITERAL, LITERALS)
}

const SPANS: &[Listing<'static>] = &[
    (
        b"\"a\\n{0:?#}\"",
        b"lit \"a\\n\"\narg index 0 5..6 ty=\"?\"\nlit \"#\"\nfault 8..9 expected `}`, found `#`\nfault 8..8 expected `}`, found `#`\nfault 9..10 unmatched `}` found\n",
        true,
    ),
    (b"\"{foo\\\n  }\"", b"arg name foo 2..9\n", false),
    (
        b"\"\\u{1F600}{}\"",
        b"lit \"\xF0\x9F\x98\x80\"\narg implicit 0 11..11\n",
        false,
    ),
    (
        b"\"\\u{7b}:\\x2a>5}\"",
        b"arg implicit 0 7..7 fill=\"*\"@8..12 align=right width=is:5@13..14\n",
        false,
    ),
    (
        b"\"\\u{007_b}\"\n",
        b"arg implicit 0 10..10\nfault 10..10 expected `}` but string was terminated\n",
        true,
    ),
    (
        b"\"{r#a\\x7d}\"",
        b"arg name a 2..5\nfault 2..5 raw identifiers are not supported\nfault 9..10 unmatched `}` found\n",
        true,
    ),
];

#[test]
fn lists_spans_of_the_literal(rt: HostRuntime) -> Result<(), Fail> {
    check_listings(&rt, rt.alloc(), AS_LITERAL, SPANS)
}
