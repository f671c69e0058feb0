//! Drawings of helps with edits in several lines, against those of rustc 1.95.

use super::edits::check;
use drawn_faults::{Diagnostic, Level, SourceHelp, SourceLabel, SourceNote};
use fault_fixes::Edit;
use std::test::Fail;

#[test]
fn a_field_of_a_name_over_several_lines(rt: HostRuntime) -> Result<(), Fail> {
    let source = "fn f() { let _ = format!(\"{a\n\
        \t\n\
        \u{3000}\n\
        .b}\"); }\n";
    let labels = [SourceLabel {
        span: 27..37,
        is_primary: true,
        text: "not supported in format string",
    }];
    let edits = [
        Edit {
            span: 27..37,
            text: "0",
        },
        Edit {
            span: 39..39,
            text: ", a\n\t\n\u{3000}\n.b",
        },
    ];
    let notes = [SourceNote {
        text: "consider moving this expression to a local variable and then using the local here instead",
        spans: &[],
    }];
    let helps = [SourceHelp {
        text: "consider using a positional formatting argument instead",
        edits: &edits,
    }];
    let diagnostic = Diagnostic {
        level: Level::Error,
        title: "invalid format string: field access isn't supported",
        labels: &labels,
        notes: &notes,
        helps: &helps,
    };
    let expected = "error: invalid format string: field access isn't supported\n\
        \x20--> t.rs:1:28\n\
        \x20 |\n\
        1 |   fn f() { let _ = format!(\"{a\n\
        \x20 |  ____________________________^\n\
        ... |\n\
        4 | | .b}\"); }\n\
        \x20 | |__^ not supported in format string\n\
        \x20 |\n\
        \x20 = note: consider moving this expression to a local variable and then using the local here instead\n\
        help: consider using a positional formatting argument instead\n\
        \x20 |\n\
        1 ~ fn f() { let _ = format!(\"{0}\", a\n\
        2 ~     \n\
        3 ~ \u{3000}\n\
        4 ~ .b); }\n\
        \x20 |\n\
        \n";
    check(&rt, rt.alloc(), source, &diagnostic, expected)
}

#[test]
fn two_lines_far_from_each_other(rt: HostRuntime) -> Result<(), Fail> {
    let source = "fn f() {\n\
        \x20   let _ = format!(\"{a.b}\n\
        1\n\
        2\n\
        \n\
        4\n\
        \", 1,\n\
        \x20       2\n\
        \x20   );\n\
        }\n";
    let labels = [SourceLabel {
        span: 31..34,
        is_primary: true,
        text: "not supported in format string",
    }];
    let edits = [
        Edit {
            span: 31..34,
            text: "2",
        },
        Edit {
            span: 58..58,
            text: ", a.b",
        },
    ];
    let notes = [SourceNote {
        text: "consider moving this expression to a local variable and then using the local here instead",
        spans: &[],
    }];
    let helps = [SourceHelp {
        text: "consider using a positional formatting argument instead",
        edits: &edits,
    }];
    let diagnostic = Diagnostic {
        level: Level::Error,
        title: "invalid format string: field access isn't supported",
        labels: &labels,
        notes: &notes,
        helps: &helps,
    };
    let expected = "error: invalid format string: field access isn't supported\n\
        \x20--> t.rs:2:23\n\
        \x20 |\n\
        2 |     let _ = format!(\"{a.b}\n\
        \x20 |                       ^^^ not supported in format string\n\
        \x20 |\n\
        \x20 = note: consider moving this expression to a local variable and then using the local here instead\n\
        help: consider using a positional formatting argument instead\n\
        \x20 |\n\
        2 ~     let _ = format!(\"{2}\n\
        3 | 1\n\
        ...\n\
        7 | \", 1,\n\
        8 ~         2, a.b\n\
        \x20 |\n\
        \n";
    check(&rt, rt.alloc(), source, &diagnostic, expected)
}

#[test]
fn lines_between_two_lines(rt: HostRuntime) -> Result<(), Fail> {
    let source = "fn f() { let _ = format!(\"{a.b}\n\
        \n\
        2\"\n\
        \x20   , 1); }\n";
    let labels = [SourceLabel {
        span: 27..30,
        is_primary: true,
        text: "not supported in format string",
    }];
    let edits = [
        Edit {
            span: 27..30,
            text: "1",
        },
        Edit {
            span: 43..43,
            text: ", a.b",
        },
    ];
    let notes = [SourceNote {
        text: "consider moving this expression to a local variable and then using the local here instead",
        spans: &[],
    }];
    let helps = [SourceHelp {
        text: "consider using a positional formatting argument instead",
        edits: &edits,
    }];
    let diagnostic = Diagnostic {
        level: Level::Error,
        title: "invalid format string: field access isn't supported",
        labels: &labels,
        notes: &notes,
        helps: &helps,
    };
    let expected = "error: invalid format string: field access isn't supported\n\
        \x20--> t.rs:1:28\n\
        \x20 |\n\
        1 | fn f() { let _ = format!(\"{a.b}\n\
        \x20 |                            ^^^ not supported in format string\n\
        \x20 |\n\
        \x20 = note: consider moving this expression to a local variable and then using the local here instead\n\
        help: consider using a positional formatting argument instead\n\
        \x20 |\n\
        1 ~ fn f() { let _ = format!(\"{1}\n\
        2 |\n\
        3 | 2\"\n\
        4 ~     , 1, a.b); }\n\
        \x20 |\n\
        \n";
    check(&rt, rt.alloc(), source, &diagnostic, expected)
}

#[test]
fn an_edit_that_ends_a_line(rt: HostRuntime) -> Result<(), Fail> {
    let source = "fn f() { let _ = format!(\"{a\n\
        .b\n\
        \n\
        }\"); }\n";
    let labels = [SourceLabel {
        span: 27..33,
        is_primary: true,
        text: "not supported in format string",
    }];
    let edits = [
        Edit {
            span: 27..33,
            text: "0",
        },
        Edit {
            span: 35..35,
            text: ", a\n.b\n\n",
        },
    ];
    let notes = [SourceNote {
        text: "consider moving this expression to a local variable and then using the local here instead",
        spans: &[],
    }];
    let helps = [SourceHelp {
        text: "consider using a positional formatting argument instead",
        edits: &edits,
    }];
    let diagnostic = Diagnostic {
        level: Level::Error,
        title: "invalid format string: field access isn't supported",
        labels: &labels,
        notes: &notes,
        helps: &helps,
    };
    let expected = "error: invalid format string: field access isn't supported\n\
        \x20--> t.rs:1:28\n\
        \x20 |\n\
        1 |   fn f() { let _ = format!(\"{a\n\
        \x20 |  ____________________________^\n\
        2 | | .b\n\
        3 | |\n\
        4 | | }\"); }\n\
        \x20 | |_^ not supported in format string\n\
        \x20 |\n\
        \x20 = note: consider moving this expression to a local variable and then using the local here instead\n\
        help: consider using a positional formatting argument instead\n\
        \x20 |\n\
        1 ~ fn f() { let _ = format!(\"{0}\", a\n\
        2 + .b\n\
        \x20 |\n\
        \n";
    check(&rt, rt.alloc(), source, &diagnostic, expected)
}

#[test]
fn one_new_line_for_two(rt: HostRuntime) -> Result<(), Fail> {
    let source = "fn f() { let _ = format!(\"{a.b\n\
        }\"); }\n";
    let labels = [SourceLabel {
        span: 27..31,
        is_primary: true,
        text: "not supported in format string",
    }];
    let edits = [
        Edit {
            span: 27..31,
            text: "0",
        },
        Edit {
            span: 33..33,
            text: ", a.b\n",
        },
    ];
    let notes = [SourceNote {
        text: "consider moving this expression to a local variable and then using the local here instead",
        spans: &[],
    }];
    let helps = [SourceHelp {
        text: "consider using a positional formatting argument instead",
        edits: &edits,
    }];
    let diagnostic = Diagnostic {
        level: Level::Error,
        title: "invalid format string: field access isn't supported",
        labels: &labels,
        notes: &notes,
        helps: &helps,
    };
    let expected = "error: invalid format string: field access isn't supported\n\
        \x20--> t.rs:1:28\n\
        \x20 |\n\
        1 |   fn f() { let _ = format!(\"{a.b\n\
        \x20 |  ____________________________^\n\
        2 | | }\"); }\n\
        \x20 | |_^ not supported in format string\n\
        \x20 |\n\
        \x20 = note: consider moving this expression to a local variable and then using the local here instead\n\
        help: consider using a positional formatting argument instead\n\
        \x20 |\n\
        1 - fn f() { let _ = format!(\"{a.b\n\
        2 - }\"); }\n\
        1 + fn f() { let _ = format!(\"{0}\", a.b\n\
        \x20 |\n\
        \n";
    check(&rt, rt.alloc(), source, &diagnostic, expected)
}

#[test]
fn lines_that_are_removed(rt: HostRuntime) -> Result<(), Fail> {
    let source = "pub fn f() { let (x, y) = (1, 2);\n\
        \x20   let _ = format!(\"{x} {y}\",\n\
        \x20       x,\n\
        \x20       y\n\
        \x20   );\n\
        }\n";
    let labels = [
        SourceLabel {
            span: 73..74,
            is_primary: true,
            text: "",
        },
        SourceLabel {
            span: 84..85,
            is_primary: true,
            text: "",
        },
    ];
    let ranges = [56..57, 60..61];
    let edits = [
        Edit {
            span: 73..84,
            text: "",
        },
        Edit {
            span: 84..85,
            text: "",
        },
    ];
    let notes = [SourceNote {
        text: "the formatting specifiers are referencing the bindings already",
        spans: &ranges,
    }];
    let helps = [SourceHelp {
        text: "this can be removed",
        edits: &edits,
    }];
    let diagnostic = Diagnostic {
        level: Level::Error,
        title: "redundant arguments",
        labels: &labels,
        notes: &notes,
        helps: &helps,
    };
    let expected = "error: redundant arguments\n\
        \x20--> t.rs:3:9\n\
        \x20 |\n\
        3 |         x,\n\
        \x20 |         ^\n\
        4 |         y\n\
        \x20 |         ^\n\
        \x20 |\n\
        note: the formatting specifiers are referencing the bindings already\n\
        \x20--> t.rs:2:23\n\
        \x20 |\n\
        2 |     let _ = format!(\"{x} {y}\",\n\
        \x20 |                       ^   ^\n\
        help: this can be removed\n\
        \x20 |\n\
        3 -         x,\n\
        4 -         y\n\
        \x20 |\n\
        \n";
    check(&rt, rt.alloc(), source, &diagnostic, expected)
}

#[test]
fn a_line_that_stays(rt: HostRuntime) -> Result<(), Fail> {
    let source = "pub fn f() { let (x, y) = (1, 2);\n\
        \x20   let _ = format!(\"{0} {x} {y} {3}\", 1,\n\
        \x20       x,\n\
        \x20       y,\n\
        \x20       2);\n\
        }\n";
    let labels = [
        SourceLabel {
            span: 84..85,
            is_primary: true,
            text: "",
        },
        SourceLabel {
            span: 95..96,
            is_primary: true,
            text: "",
        },
    ];
    let ranges = [60..61, 64..65];
    let edits = [
        Edit {
            span: 84..95,
            text: "",
        },
        Edit {
            span: 95..106,
            text: "",
        },
    ];
    let notes = [SourceNote {
        text: "the formatting specifiers are referencing the bindings already",
        spans: &ranges,
    }];
    let helps = [SourceHelp {
        text: "this can be removed",
        edits: &edits,
    }];
    let diagnostic = Diagnostic {
        level: Level::Error,
        title: "redundant arguments",
        labels: &labels,
        notes: &notes,
        helps: &helps,
    };
    let expected = "error: redundant arguments\n\
        \x20--> t.rs:3:9\n\
        \x20 |\n\
        3 |         x,\n\
        \x20 |         ^\n\
        4 |         y,\n\
        \x20 |         ^\n\
        \x20 |\n\
        note: the formatting specifiers are referencing the bindings already\n\
        \x20--> t.rs:2:27\n\
        \x20 |\n\
        2 |     let _ = format!(\"{0} {x} {y} {3}\", 1,\n\
        \x20 |                           ^   ^\n\
        help: this can be removed\n\
        \x20 |\n\
        3 -         x,\n\
        4 -         y,\n\
        \x20 |\n\
        \n";
    check(&rt, rt.alloc(), source, &diagnostic, expected)
}
