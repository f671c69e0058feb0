//! Drawings of several labels in colours, against those of rustc 1.95.

use drawn_faults::{Diagnostic, Level, SourceHelp, SourceLabel, SourceNote, draw_labels};
use drawn_lines::{Picture, WIDTH};
use fault_fixes::Edit;
use std::alloc::Global;
use std::process::Abort;
use std::test::Fail;

/// A diagnostic in a source is drawn so in colours.
fn check(
    rt: &impl Abort,
    alloc: Global,
    source: &str,
    diagnostic: &Diagnostic<'_>,
    expected: &str,
) -> Result<(), Fail> {
    let picture = Picture {
        path: "t.rs",
        source,
        line_start: 1,
        literal_start: 0,
        width: WIDTH,
        colours: true,
    };
    let text = draw_labels(alloc, &picture, diagnostic)?;
    assert_eq!(rt; text.as_str(), expected);
    Ok(())
}

/// Signs of primary and other labels beside each other.
#[test]
fn signs_over_signs(rt: HostRuntime) -> Result<(), Fail> {
    let source = "fn main() {\n\
        \x20   println!(\"ab{:.*}\", 1);\n\
        }\n";
    let labels = [
        SourceLabel {
            span: 36..37,
            is_primary: false,
            text: "",
        },
        SourceLabel {
            span: 30..32,
            is_primary: false,
            text: "this precision flag adds an extra required argument at position 0, which is why there are 2 arguments expected",
        },
        SourceLabel {
            span: 28..33,
            is_primary: true,
            text: "",
        },
    ];
    let notes = [
        SourceNote {
            text: "positional arguments are zero-based",
            spans: &[],
        },
        SourceNote {
            text: "for information about formatting flags, visit https://doc.rust-lang.org/std/fmt/index.html",
            spans: &[],
        },
    ];
    let diagnostic = Diagnostic {
        level: Level::Error,
        title: "2 positional arguments in format string, but there is 1 argument",
        labels: &labels,
        notes: &notes,
        helps: &[],
    };
    let expected =
        "\u{1b}[1m\u{1b}[91merror\u{1b}[0m\u{1b}[1m: 2 positional arguments in format string, but there is 1 argument\u{1b}[0m\n\
        \x20\u{1b}[1m\u{1b}[94m--> \u{1b}[0mt.rs:2:17\n\
        \x20 \u{1b}[1m\u{1b}[94m|\u{1b}[0m\n\
        \u{1b}[1m\u{1b}[94m2\u{1b}[0m \u{1b}[1m\u{1b}[94m|\u{1b}[0m     println!(\"ab{:.*}\", 1);\n\
        \x20 \u{1b}[1m\u{1b}[94m|\u{1b}[0m                 \u{1b}[1m\u{1b}[91m^^\u{1b}[0m\u{1b}[1m\u{1b}[94m--\u{1b}[0m\u{1b}[1m\u{1b}[91m^\u{1b}[0m   \u{1b}[1m\u{1b}[94m-\u{1b}[0m\n\
        \x20 \u{1b}[1m\u{1b}[94m|\u{1b}[0m                   \u{1b}[1m\u{1b}[94m|\u{1b}[0m\n\
        \x20 \u{1b}[1m\u{1b}[94m|\u{1b}[0m                   \u{1b}[1m\u{1b}[94mthis precision flag adds an extra required argument at position 0, which is why there are 2 arguments expected\u{1b}[0m\n\
        \x20 \u{1b}[1m\u{1b}[94m|\u{1b}[0m\n\
        \x20 \u{1b}[1m\u{1b}[94m= \u{1b}[0m\u{1b}[1mnote\u{1b}[0m: positional arguments are zero-based\n\
        \x20 \u{1b}[1m\u{1b}[94m= \u{1b}[0m\u{1b}[1mnote\u{1b}[0m: for information about formatting flags, visit https://doc.rust-lang.org/std/fmt/index.html\n\
        \n";
    check(&rt, rt.alloc(), source, &diagnostic, expected)
}

/// A help that replaces parts of a line.
#[test]
fn removed_and_added_parts(rt: HostRuntime) -> Result<(), Fail> {
    let source = "fn main() {\n\
        \x20   let _ = format!(\"{} %d %s\", 3, 4, 5);\n\
        }\n";
    let labels = [
        SourceLabel {
            span: 32..42,
            is_primary: false,
            text: "multiple missing formatting specifiers",
        },
        SourceLabel {
            span: 47..48,
            is_primary: true,
            text: "argument never used",
        },
        SourceLabel {
            span: 50..51,
            is_primary: true,
            text: "argument never used",
        },
    ];
    let edits = [
        Edit {
            span: 36..38,
            text: "{}",
        },
        Edit {
            span: 39..41,
            text: "{}",
        },
    ];
    let notes = [SourceNote {
        text: "printf formatting is not supported; see the documentation for `std::fmt`",
        spans: &[],
    }];
    let helps = [SourceHelp {
        text: "format specifiers use curly braces",
        edits: &edits,
    }];
    let diagnostic = Diagnostic {
        level: Level::Error,
        title: "multiple unused formatting arguments",
        labels: &labels,
        notes: &notes,
        helps: &helps,
    };
    let expected =
        "\u{1b}[1m\u{1b}[91merror\u{1b}[0m\u{1b}[1m: multiple unused formatting arguments\u{1b}[0m\n\
        \x20\u{1b}[1m\u{1b}[94m--> \u{1b}[0mt.rs:2:36\n\
        \x20 \u{1b}[1m\u{1b}[94m|\u{1b}[0m\n\
        \u{1b}[1m\u{1b}[94m2\u{1b}[0m \u{1b}[1m\u{1b}[94m|\u{1b}[0m     let _ = format!(\"{} %d %s\", 3, 4, 5);\n\
        \x20 \u{1b}[1m\u{1b}[94m|\u{1b}[0m                     \u{1b}[1m\u{1b}[94m----------\u{1b}[0m     \u{1b}[1m\u{1b}[91m^\u{1b}[0m  \u{1b}[1m\u{1b}[91m^\u{1b}[0m \u{1b}[1m\u{1b}[91margument never used\u{1b}[0m\n\
        \x20 \u{1b}[1m\u{1b}[94m|\u{1b}[0m                     \u{1b}[1m\u{1b}[94m|\u{1b}[0m              \u{1b}[1m\u{1b}[91m|\u{1b}[0m\n\
        \x20 \u{1b}[1m\u{1b}[94m|\u{1b}[0m                     \u{1b}[1m\u{1b}[94m|\u{1b}[0m              \u{1b}[1m\u{1b}[91margument never used\u{1b}[0m\n\
        \x20 \u{1b}[1m\u{1b}[94m|\u{1b}[0m                     \u{1b}[1m\u{1b}[94mmultiple missing formatting specifiers\u{1b}[0m\n\
        \x20 \u{1b}[1m\u{1b}[94m|\u{1b}[0m\n\
        \x20 \u{1b}[1m\u{1b}[94m= \u{1b}[0m\u{1b}[1mnote\u{1b}[0m: printf formatting is not supported; see the documentation for `std::fmt`\n\
        \u{1b}[1m\u{1b}[96mhelp\u{1b}[0m: format specifiers use curly braces\n\
        \x20 \u{1b}[1m\u{1b}[94m|\u{1b}[0m\n\
        \u{1b}[1m\u{1b}[94m2\u{1b}[0m \u{1b}[91m- \u{1b}[0m    let _ = format!(\"{} \u{1b}[91m%d\u{1b}[0m \u{1b}[91m%s\u{1b}[0m\", 3, 4, 5);\n\
        \u{1b}[1m\u{1b}[94m2\u{1b}[0m \u{1b}[92m+ \u{1b}[0m    let _ = format!(\"{} \u{1b}[92m{}\u{1b}[0m \u{1b}[92m{}\u{1b}[0m\", 3, 4, 5);\n\
        \x20 \u{1b}[1m\u{1b}[94m|\u{1b}[0m\n\
        \n";
    check(&rt, rt.alloc(), source, &diagnostic, expected)
}

/// A help that inserts a text.
#[test]
fn inserted_part(rt: HostRuntime) -> Result<(), Fail> {
    let source = "fn main() {\n\
        \x20   println!(\"a \", 1);\n\
        }\n";
    let labels = [
        SourceLabel {
            span: 31..32,
            is_primary: true,
            text: "argument never used",
        },
        SourceLabel {
            span: 25..29,
            is_primary: false,
            text: "formatting specifier missing",
        },
    ];
    let edits = [Edit {
        span: 28..28,
        text: "{}",
    }];
    let helps = [SourceHelp {
        text: "format specifiers use curly braces, consider adding a format specifier",
        edits: &edits,
    }];
    let diagnostic = Diagnostic {
        level: Level::Error,
        title: "argument never used",
        labels: &labels,
        notes: &[],
        helps: &helps,
    };
    let expected = "\u{1b}[1m\u{1b}[91merror\u{1b}[0m\u{1b}[1m: argument never used\u{1b}[0m\n\
        \x20\u{1b}[1m\u{1b}[94m--> \u{1b}[0mt.rs:2:20\n\
        \x20 \u{1b}[1m\u{1b}[94m|\u{1b}[0m\n\
        \u{1b}[1m\u{1b}[94m2\u{1b}[0m \u{1b}[1m\u{1b}[94m|\u{1b}[0m     println!(\"a \", 1);\n\
        \x20 \u{1b}[1m\u{1b}[94m|\u{1b}[0m              \u{1b}[1m\u{1b}[94m----\u{1b}[0m  \u{1b}[1m\u{1b}[91m^\u{1b}[0m \u{1b}[1m\u{1b}[91margument never used\u{1b}[0m\n\
        \x20 \u{1b}[1m\u{1b}[94m|\u{1b}[0m              \u{1b}[1m\u{1b}[94m|\u{1b}[0m\n\
        \x20 \u{1b}[1m\u{1b}[94m|\u{1b}[0m              \u{1b}[1m\u{1b}[94mformatting specifier missing\u{1b}[0m\n\
        \x20 \u{1b}[1m\u{1b}[94m|\u{1b}[0m\n\
        \u{1b}[1m\u{1b}[96mhelp\u{1b}[0m: format specifiers use curly braces, consider adding a format specifier\n\
        \x20 \u{1b}[1m\u{1b}[94m|\u{1b}[0m\n\
        \u{1b}[1m\u{1b}[94m2\u{1b}[0m \u{1b}[1m\u{1b}[94m| \u{1b}[0m    println!(\"a \u{1b}[92m{}\u{1b}[0m\", 1);\n\
        \x20 \u{1b}[1m\u{1b}[94m|\u{1b}[0m                 \u{1b}[92m++\u{1b}[0m\n\
        \n";
    check(&rt, rt.alloc(), source, &diagnostic, expected)
}

/// A warning, and a note that shows a part of the source.
#[test]
fn warning_with_a_note(rt: HostRuntime) -> Result<(), Fail> {
    let source = "#![warn(unreachable_code)]\n\
        fn main() {\n\
        \x20   return;\n\
        \x20   let _ = 1;\n\
        }\n";
    let labels = [
        SourceLabel {
            span: 55..65,
            is_primary: true,
            text: "unreachable statement",
        },
        SourceLabel {
            span: 43..49,
            is_primary: false,
            text: "any code following this expression is unreachable",
        },
    ];
    let notes = [SourceNote {
        text: "the lint level is defined here",
        spans: &[8..24],
    }];
    let diagnostic = Diagnostic {
        level: Level::Warning,
        title: "unreachable statement",
        labels: &labels,
        notes: &notes,
        helps: &[],
    };
    let expected = "\u{1b}[1m\u{1b}[33mwarning\u{1b}[0m\u{1b}[1m: unreachable statement\u{1b}[0m\n\
        \x20\u{1b}[1m\u{1b}[94m--> \u{1b}[0mt.rs:4:5\n\
        \x20 \u{1b}[1m\u{1b}[94m|\u{1b}[0m\n\
        \u{1b}[1m\u{1b}[94m3\u{1b}[0m \u{1b}[1m\u{1b}[94m|\u{1b}[0m     return;\n\
        \x20 \u{1b}[1m\u{1b}[94m|\u{1b}[0m     \u{1b}[1m\u{1b}[94m------\u{1b}[0m \u{1b}[1m\u{1b}[94many code following this expression is unreachable\u{1b}[0m\n\
        \u{1b}[1m\u{1b}[94m4\u{1b}[0m \u{1b}[1m\u{1b}[94m|\u{1b}[0m     let _ = 1;\n\
        \x20 \u{1b}[1m\u{1b}[94m|\u{1b}[0m     \u{1b}[1m\u{1b}[33m^^^^^^^^^^\u{1b}[0m \u{1b}[1m\u{1b}[33munreachable statement\u{1b}[0m\n\
        \x20 \u{1b}[1m\u{1b}[94m|\u{1b}[0m\n\
        \u{1b}[1m\u{1b}[92mnote\u{1b}[0m: the lint level is defined here\n\
        \x20\u{1b}[1m\u{1b}[94m--> \u{1b}[0mt.rs:1:9\n\
        \x20 \u{1b}[1m\u{1b}[94m|\u{1b}[0m\n\
        \u{1b}[1m\u{1b}[94m1\u{1b}[0m \u{1b}[1m\u{1b}[94m|\u{1b}[0m #![warn(unreachable_code)]\n\
        \x20 \u{1b}[1m\u{1b}[94m|\u{1b}[0m         \u{1b}[1m\u{1b}[92m^^^^^^^^^^^^^^^^\u{1b}[0m\n\
        \n";
    check(&rt, rt.alloc(), source, &diagnostic, expected)
}

/// Several labels in two lines.
#[test]
fn three_named(rt: HostRuntime) -> Result<(), Fail> {
    let source = "fn main() {\n\
        \x20   println!(\"{} {a}\", a=1, b=2,\n\
        \x20       3);\n\
        }\n";
    let labels = [
        SourceLabel {
            span: 53..54,
            is_primary: true,
            text: "positional arguments must be before named arguments",
        },
        SourceLabel {
            span: 35..38,
            is_primary: false,
            text: "named argument",
        },
        SourceLabel {
            span: 40..43,
            is_primary: false,
            text: "named argument",
        },
    ];
    let diagnostic = Diagnostic {
        level: Level::Error,
        title: "positional arguments cannot follow named arguments",
        labels: &labels,
        notes: &[],
        helps: &[],
    };
    let expected =
        "\u{1b}[1m\u{1b}[91merror\u{1b}[0m\u{1b}[1m: positional arguments cannot follow named arguments\u{1b}[0m\n\
        \x20\u{1b}[1m\u{1b}[94m--> \u{1b}[0mt.rs:3:9\n\
        \x20 \u{1b}[1m\u{1b}[94m|\u{1b}[0m\n\
        \u{1b}[1m\u{1b}[94m2\u{1b}[0m \u{1b}[1m\u{1b}[94m|\u{1b}[0m     println!(\"{} {a}\", a=1, b=2,\n\
        \x20 \u{1b}[1m\u{1b}[94m|\u{1b}[0m                        \u{1b}[1m\u{1b}[94m---\u{1b}[0m  \u{1b}[1m\u{1b}[94m---\u{1b}[0m \u{1b}[1m\u{1b}[94mnamed argument\u{1b}[0m\n\
        \x20 \u{1b}[1m\u{1b}[94m|\u{1b}[0m                        \u{1b}[1m\u{1b}[94m|\u{1b}[0m\n\
        \x20 \u{1b}[1m\u{1b}[94m|\u{1b}[0m                        \u{1b}[1m\u{1b}[94mnamed argument\u{1b}[0m\n\
        \u{1b}[1m\u{1b}[94m3\u{1b}[0m \u{1b}[1m\u{1b}[94m|\u{1b}[0m         3);\n\
        \x20 \u{1b}[1m\u{1b}[94m|\u{1b}[0m         \u{1b}[1m\u{1b}[91m^\u{1b}[0m \u{1b}[1m\u{1b}[91mpositional arguments must be before named arguments\u{1b}[0m\n\
        \n";
    check(&rt, rt.alloc(), source, &diagnostic, expected)
}

/// Labels in lines far apart.
#[test]
fn far_apart(rt: HostRuntime) -> Result<(), Fail> {
    let source = "fn main() {\n\
        \x20   println!(\"{} {}\n\
        {}\n\
        \n\
        \n\
        \n\
        {}\", 1);\n\
        }\n";
    let labels = [
        SourceLabel {
            span: 43..44,
            is_primary: false,
            text: "",
        },
        SourceLabel {
            span: 26..28,
            is_primary: true,
            text: "",
        },
        SourceLabel {
            span: 29..31,
            is_primary: true,
            text: "",
        },
        SourceLabel {
            span: 32..34,
            is_primary: true,
            text: "",
        },
        SourceLabel {
            span: 38..40,
            is_primary: true,
            text: "",
        },
    ];
    let diagnostic = Diagnostic {
        level: Level::Error,
        title: "4 positional arguments in format string, but there is 1 argument",
        labels: &labels,
        notes: &[],
        helps: &[],
    };
    let expected =
        "\u{1b}[1m\u{1b}[91merror\u{1b}[0m\u{1b}[1m: 4 positional arguments in format string, but there is 1 argument\u{1b}[0m\n\
        \x20\u{1b}[1m\u{1b}[94m--> \u{1b}[0mt.rs:2:15\n\
        \x20 \u{1b}[1m\u{1b}[94m|\u{1b}[0m\n\
        \u{1b}[1m\u{1b}[94m2\u{1b}[0m \u{1b}[1m\u{1b}[94m|\u{1b}[0m     println!(\"{} {}\n\
        \x20 \u{1b}[1m\u{1b}[94m|\u{1b}[0m               \u{1b}[1m\u{1b}[91m^^\u{1b}[0m \u{1b}[1m\u{1b}[91m^^\u{1b}[0m\n\
        \u{1b}[1m\u{1b}[94m3\u{1b}[0m \u{1b}[1m\u{1b}[94m|\u{1b}[0m {}\n\
        \x20 \u{1b}[1m\u{1b}[94m|\u{1b}[0m \u{1b}[1m\u{1b}[91m^^\u{1b}[0m\n\
        \u{1b}[1m\u{1b}[94m...\u{1b}[0m\n\
        \u{1b}[1m\u{1b}[94m7\u{1b}[0m \u{1b}[1m\u{1b}[94m|\u{1b}[0m {}\", 1);\n\
        \x20 \u{1b}[1m\u{1b}[94m|\u{1b}[0m \u{1b}[1m\u{1b}[91m^^\u{1b}[0m   \u{1b}[1m\u{1b}[94m-\u{1b}[0m\n\
        \n";
    check(&rt, rt.alloc(), source, &diagnostic, expected)
}

#[test]
fn two_lines_far_from_each_other(rt: HostRuntime) -> Result<(), Fail> {
    let source = "fn f() {\n\
        \x20   let _ = format!(\"{a.b}\n\
        1\n\
        2\n\
        \n\
        4\n\
        \", 1,\n\
        \x20       2\n\
        \x20   );\n\
        }\n";
    let labels = [SourceLabel {
        span: 31..34,
        is_primary: true,
        text: "not supported in format string",
    }];
    let edits = [
        Edit {
            span: 31..34,
            text: "2",
        },
        Edit {
            span: 58..58,
            text: ", a.b",
        },
    ];
    let notes = [SourceNote {
        text: "consider moving this expression to a local variable and then using the local here instead",
        spans: &[],
    }];
    let helps = [SourceHelp {
        text: "consider using a positional formatting argument instead",
        edits: &edits,
    }];
    let diagnostic = Diagnostic {
        level: Level::Error,
        title: "invalid format string: field access isn't supported",
        labels: &labels,
        notes: &notes,
        helps: &helps,
    };
    let expected =
        "\u{1b}[1m\u{1b}[91merror\u{1b}[0m\u{1b}[1m: invalid format string: field access isn't supported\u{1b}[0m\n\
        \x20\u{1b}[1m\u{1b}[94m--> \u{1b}[0mt.rs:2:23\n\
        \x20 \u{1b}[1m\u{1b}[94m|\u{1b}[0m\n\
        \u{1b}[1m\u{1b}[94m2\u{1b}[0m \u{1b}[1m\u{1b}[94m|\u{1b}[0m     let _ = format!(\"{a.b}\n\
        \x20 \u{1b}[1m\u{1b}[94m|\u{1b}[0m                       \u{1b}[1m\u{1b}[91m^^^\u{1b}[0m \u{1b}[1m\u{1b}[91mnot supported in format string\u{1b}[0m\n\
        \x20 \u{1b}[1m\u{1b}[94m|\u{1b}[0m\n\
        \x20 \u{1b}[1m\u{1b}[94m= \u{1b}[0m\u{1b}[1mnote\u{1b}[0m: consider moving this expression to a local variable and then using the local here instead\n\
        \u{1b}[1m\u{1b}[96mhelp\u{1b}[0m: consider using a positional formatting argument instead\n\
        \x20 \u{1b}[1m\u{1b}[94m|\u{1b}[0m\n\
        \u{1b}[1m\u{1b}[94m2\u{1b}[0m \u{1b}[92m~ \u{1b}[0m    let _ = format!(\"{\u{1b}[92m2\u{1b}[0m}\n\
        \u{1b}[1m\u{1b}[94m3\u{1b}[0m \u{1b}[1m\u{1b}[94m|\u{1b}[0m 1\n\
        \u{1b}[1m\u{1b}[94m...\u{1b}[0m\n\
        \u{1b}[1m\u{1b}[94m7\u{1b}[0m \u{1b}[1m\u{1b}[94m|\u{1b}[0m \", 1,\n\
        \u{1b}[1m\u{1b}[94m8\u{1b}[0m \u{1b}[92m~ \u{1b}[0m        2\u{1b}[92m, a.b\u{1b}[0m\n\
        \x20 \u{1b}[1m\u{1b}[94m|\u{1b}[0m\n\
        \n";
    check(&rt, rt.alloc(), source, &diagnostic, expected)
}

#[test]
fn one_new_line_for_two(rt: HostRuntime) -> Result<(), Fail> {
    let source = "fn f() { let _ = format!(\"{a.b\n\
        }\"); }\n";
    let labels = [SourceLabel {
        span: 27..31,
        is_primary: true,
        text: "not supported in format string",
    }];
    let edits = [
        Edit {
            span: 27..31,
            text: "0",
        },
        Edit {
            span: 33..33,
            text: ", a.b\n",
        },
    ];
    let notes = [SourceNote {
        text: "consider moving this expression to a local variable and then using the local here instead",
        spans: &[],
    }];
    let helps = [SourceHelp {
        text: "consider using a positional formatting argument instead",
        edits: &edits,
    }];
    let diagnostic = Diagnostic {
        level: Level::Error,
        title: "invalid format string: field access isn't supported",
        labels: &labels,
        notes: &notes,
        helps: &helps,
    };
    let expected =
        "\u{1b}[1m\u{1b}[91merror\u{1b}[0m\u{1b}[1m: invalid format string: field access isn't supported\u{1b}[0m\n\
        \x20\u{1b}[1m\u{1b}[94m--> \u{1b}[0mt.rs:1:28\n\
        \x20 \u{1b}[1m\u{1b}[94m|\u{1b}[0m\n\
        \u{1b}[1m\u{1b}[94m1\u{1b}[0m \u{1b}[1m\u{1b}[94m|\u{1b}[0m   fn f() { let _ = format!(\"{a.b\n\
        \x20 \u{1b}[1m\u{1b}[94m|\u{1b}[0m \u{1b}[1m\u{1b}[91m ____________________________^\u{1b}[0m\n\
        \u{1b}[1m\u{1b}[94m2\u{1b}[0m \u{1b}[1m\u{1b}[94m|\u{1b}[0m \u{1b}[1m\u{1b}[91m|\u{1b}[0m }\"); }\n\
        \x20 \u{1b}[1m\u{1b}[94m|\u{1b}[0m \u{1b}[1m\u{1b}[91m|_^\u{1b}[0m \u{1b}[1m\u{1b}[91mnot supported in format string\u{1b}[0m\n\
        \x20 \u{1b}[1m\u{1b}[94m|\u{1b}[0m\n\
        \x20 \u{1b}[1m\u{1b}[94m= \u{1b}[0m\u{1b}[1mnote\u{1b}[0m: consider moving this expression to a local variable and then using the local here instead\n\
        \u{1b}[1m\u{1b}[96mhelp\u{1b}[0m: consider using a positional formatting argument instead\n\
        \x20 \u{1b}[1m\u{1b}[94m|\u{1b}[0m\n\
        \u{1b}[1m\u{1b}[94m1\u{1b}[0m \u{1b}[91m- \u{1b}[0mfn f() { let _ = format!(\"{\u{1b}[91ma.b\u{1b}[0m\n\
        \u{1b}[1m\u{1b}[94m2\u{1b}[0m \u{1b}[91m- \u{1b}[0m}\"); }\n\
        \u{1b}[1m\u{1b}[94m1\u{1b}[0m \u{1b}[92m+ \u{1b}[0mfn f() { let _ = format!(\"{\u{1b}[92m0\u{1b}[0m}\"\u{1b}[92m, a.b\u{1b}[0m\n\
        \x20 \u{1b}[1m\u{1b}[94m|\u{1b}[0m\n\
        \n";
    check(&rt, rt.alloc(), source, &diagnostic, expected)
}
