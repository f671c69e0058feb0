//! Drawings of helps with edits in one line, against those of rustc 1.95.

use drawn_faults::{Diagnostic, Level, SourceHelp, SourceLabel, draw_labels};
use drawn_lines::{Picture, WIDTH};
use fault_fixes::Edit;
use std::alloc::Global;
use std::process::Abort;
use std::test::Fail;

/// A diagnostic in a source is drawn so.
pub fn check(
    rt: &impl Abort,
    alloc: Global,
    source: &str,
    diagnostic: &Diagnostic<'_>,
    expected: &str,
) -> Result<(), Fail> {
    let picture = Picture {
        path: "t.rs",
        source,
        line_start: 1,
        literal_start: 0,
        width: WIDTH,
        colours: false,
    };
    let text = draw_labels(alloc, &picture, diagnostic)?;
    assert_eq!(rt; text.as_str(), expected);
    Ok(())
}

#[test]
fn a_name_in_place_of_an_index(rt: HostRuntime) -> Result<(), Fail> {
    let source = "#![allow(unused)]\n\
        fn main() {\n\
        \x20let (a, b, c, d, w) = (1, 2, 3, 4, 5);\n\
        \x20   let _ = format!(\"{0:.0$}\", z = 3);\n\
        }\n";
    let labels = [
        SourceLabel {
            span: 101..102,
            is_primary: true,
            text: "this named argument is referred to by position in formatting string",
        },
        SourceLabel {
            span: 95..97,
            is_primary: false,
            text: "this formatting argument uses named argument `z` by position",
        },
    ];
    let edits = [Edit {
        span: 95..96,
        text: "z",
    }];
    let helps = [SourceHelp {
        text: "use the named argument by name to avoid ambiguity",
        edits: &edits,
    }];
    let diagnostic = Diagnostic {
        level: Level::Warning,
        title: "named argument `z` is not used by name",
        labels: &labels,
        notes: &[],
        helps: &helps,
    };
    let expected = "warning: named argument `z` is not used by name\n\
        \x20--> t.rs:4:32\n\
        \x20 |\n\
        4 |     let _ = format!(\"{0:.0$}\", z = 3);\n\
        \x20 |                          --    ^ this named argument is referred to by position in formatting string\n\
        \x20 |                          |\n\
        \x20 |                          this formatting argument uses named argument `z` by position\n\
        \x20 |\n\
        help: use the named argument by name to avoid ambiguity\n\
        \x20 |\n\
        4 -     let _ = format!(\"{0:.0$}\", z = 3);\n\
        4 +     let _ = format!(\"{0:.z$}\", z = 3);\n\
        \x20 |\n\
        \n";
    check(&rt, rt.alloc(), source, &diagnostic, expected)
}

#[test]
fn a_name_that_is_inserted(rt: HostRuntime) -> Result<(), Fail> {
    let source = "#![allow(unused)]\n\
        fn main() {\n\
        \x20let (a, b, c, d, w) = (1, 2, 3, 4, 5);\n\
        \x20   let _ = format!(\"é{}\", z = 3);\n\
        }\n";
    let labels = [
        SourceLabel {
            span: 98..99,
            is_primary: true,
            text: "this named argument is referred to by position in formatting string",
        },
        SourceLabel {
            span: 93..95,
            is_primary: false,
            text: "this formatting argument uses named argument `z` by position",
        },
    ];
    let edits = [Edit {
        span: 94..94,
        text: "z",
    }];
    let helps = [SourceHelp {
        text: "use the named argument by name to avoid ambiguity",
        edits: &edits,
    }];
    let diagnostic = Diagnostic {
        level: Level::Warning,
        title: "named argument `z` is not used by name",
        labels: &labels,
        notes: &[],
        helps: &helps,
    };
    let expected = "warning: named argument `z` is not used by name\n\
        \x20--> t.rs:4:28\n\
        \x20 |\n\
        4 |     let _ = format!(\"é{}\", z = 3);\n\
        \x20 |                       --   ^ this named argument is referred to by position in formatting string\n\
        \x20 |                       |\n\
        \x20 |                       this formatting argument uses named argument `z` by position\n\
        \x20 |\n\
        help: use the named argument by name to avoid ambiguity\n\
        \x20 |\n\
        4 |     let _ = format!(\"é{z}\", z = 3);\n\
        \x20 |                        +\n\
        \n";
    check(&rt, rt.alloc(), source, &diagnostic, expected)
}

#[test]
fn a_help_beside_a_deep_indent(rt: HostRuntime) -> Result<(), Fail> {
    let source = "#![allow(unused)]\n\
        fn main() {\n\
        \x20let (a, b, c, d, w) = (1, 2, 3, 4, 5);\n\
        \x20   let _ = \n\
        \x20                                       format!(\"x\", a);\n\
        }\n";
    let labels = [
        SourceLabel {
            span: 136..137,
            is_primary: true,
            text: "argument never used",
        },
        SourceLabel {
            span: 131..134,
            is_primary: false,
            text: "formatting specifier missing",
        },
    ];
    let edits = [Edit {
        span: 133..133,
        text: "{}",
    }];
    let helps = [SourceHelp {
        text: "format specifiers use curly braces, consider adding a format specifier",
        edits: &edits,
    }];
    let diagnostic = Diagnostic {
        level: Level::Error,
        title: "argument never used",
        labels: &labels,
        notes: &[],
        helps: &helps,
    };
    let expected = "error: argument never used\n\
        \x20--> t.rs:5:54\n\
        \x20 |\n\
        5 | ...                   format!(\"x\", a);\n\
        \x20 |                               ---  ^ argument never used\n\
        \x20 |                               |\n\
        \x20 |                               formatting specifier missing\n\
        \x20 |\n\
        help: format specifiers use curly braces, consider adding a format specifier\n\
        \x20 |\n\
        5 |                                         format!(\"x{}\", a);\n\
        \x20 |                                                   ++\n\
        \n";
    check(&rt, rt.alloc(), source, &diagnostic, expected)
}

#[test]
fn an_addition_that_ends_in_a_space(rt: HostRuntime) -> Result<(), Fail> {
    let source = "fn f() { let x = 1; println!(x); }\n";
    let labels = [SourceLabel {
        span: 29..30,
        is_primary: true,
        text: "",
    }];
    let edits = [Edit {
        span: 29..29,
        text: "\"{}\", ",
    }];
    let helps = [SourceHelp {
        text: "you might be missing a string literal to format with",
        edits: &edits,
    }];
    let diagnostic = Diagnostic {
        level: Level::Error,
        title: "format argument must be a string literal",
        labels: &labels,
        notes: &[],
        helps: &helps,
    };
    let expected = "error: format argument must be a string literal\n\
        \x20--> t.rs:1:30\n\
        \x20 |\n\
        1 | fn f() { let x = 1; println!(x); }\n\
        \x20 |                              ^\n\
        \x20 |\n\
        help: you might be missing a string literal to format with\n\
        \x20 |\n\
        1 | fn f() { let x = 1; println!(\"{}\", x); }\n\
        \x20 |                              +++++\n\
        \n";
    check(&rt, rt.alloc(), source, &diagnostic, expected)
}

#[test]
fn a_line_that_is_added(rt: HostRuntime) -> Result<(), Fail> {
    let source = "fn h() -> HashMap<u8, u8> { loop {} }\n";
    let labels = [SourceLabel {
        span: 10..17,
        is_primary: true,
        text: "not found in this scope",
    }];
    let edits = [Edit {
        span: 0..0,
        text: "use std::collections::HashMap;\n\n",
    }];
    let helps = [SourceHelp {
        text: "consider importing this struct",
        edits: &edits,
    }];
    let diagnostic = Diagnostic {
        level: Level::Error,
        title: "cannot find type `HashMap` in this scope",
        labels: &labels,
        notes: &[],
        helps: &helps,
    };
    let expected = "error: cannot find type `HashMap` in this scope\n\
        \x20--> t.rs:1:11\n\
        \x20 |\n\
        1 | fn h() -> HashMap<u8, u8> { loop {} }\n\
        \x20 |           ^^^^^^^ not found in this scope\n\
        \x20 |\n\
        help: consider importing this struct\n\
        \x20 |\n\
        1 + use std::collections::HashMap;\n\
        \x20 |\n\
        \n";
    check(&rt, rt.alloc(), source, &diagnostic, expected)
}

#[test]
fn white_space_around_an_addition(rt: HostRuntime) -> Result<(), Fail> {
    let source = "pub fn l(x: Option<u8>) { match x {\n\
        \x20  Some(_) => 1u8,\n\
        \x20  _ => loop {},\n\
        } }\n";
    let labels = [SourceLabel {
        span: 50..53,
        is_primary: true,
        text: "expected `()`, found `u8`",
    }];
    let edits = [Edit {
        span: 73..73,
        text: ";",
    }];
    let edits2 = [Edit {
        span: 23..23,
        text: " -> u8",
    }];
    let helps = [
        SourceHelp {
            text: "consider using a semicolon here",
            edits: &edits,
        },
        SourceHelp {
            text: "try adding a return type",
            edits: &edits2,
        },
    ];
    let diagnostic = Diagnostic {
        level: Level::Error,
        title: "mismatched types",
        labels: &labels,
        notes: &[],
        helps: &helps,
    };
    let expected = "error: mismatched types\n\
        \x20--> t.rs:2:15\n\
        \x20 |\n\
        2 |    Some(_) => 1u8,\n\
        \x20 |               ^^^ expected `()`, found `u8`\n\
        \x20 |\n\
        help: consider using a semicolon here\n\
        \x20 |\n\
        4 | }; }\n\
        \x20 |  +\n\
        help: try adding a return type\n\
        \x20 |\n\
        1 | pub fn l(x: Option<u8>) -> u8 { match x {\n\
        \x20 |                         +++++\n\
        \n";
    check(&rt, rt.alloc(), source, &diagnostic, expected)
}
