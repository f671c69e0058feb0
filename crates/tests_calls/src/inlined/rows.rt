//! Calls of `format!`, and what they become.

/// A call of `format!`, and what it becomes.
#[derive(Clone, Copy)]
pub struct Row {
    /// Its format string, as it is in the source.
    pub literal: &'static str,
    /// Its arguments, with a comma and a space between them.
    pub arguments: &'static str,
    /// What stands between its parentheses afterwards.
    pub new_text: &'static str,
    /// Whether it has arguments that stay.
    pub is_mixed: bool,
}

/// What clippy 1.95 suggests for `uninlined_format_args`, with mixed calls allowed, where each word
/// but `MAX` and `S` is a variable.
pub const ROWS: [Row; 47] = [
    Row {
        literal: r#""{}""#,
        arguments: "x",
        new_text: r#""{x}""#,
        is_mixed: false,
    },
    Row {
        literal: r#""{}, {:>w$}""#,
        arguments: "x, y, w = w",
        new_text: r#""{x}, {y:>w$}""#,
        is_mixed: false,
    },
    Row {
        literal: r#""{0} {1} {0}""#,
        arguments: "x, y",
        new_text: r#""{x} {y} {x}""#,
        is_mixed: false,
    },
    Row {
        literal: r#""{1} {0}""#,
        arguments: "x, y",
        new_text: r#""{y} {x}""#,
        is_mixed: false,
    },
    Row {
        literal: r#""{0:1$}""#,
        arguments: "x, w",
        new_text: r#""{x:w$}""#,
        is_mixed: false,
    },
    Row {
        literal: r#""{:1$}""#,
        arguments: "x, w",
        new_text: r#""{x:w$}""#,
        is_mixed: false,
    },
    Row {
        literal: r#""{:.*}""#,
        arguments: "p, 1.0",
        new_text: r#""{:.p$}", 1.0"#,
        is_mixed: true,
    },
    Row {
        literal: r#""{:.*}""#,
        arguments: "p, f",
        new_text: r#""{f:.p$}""#,
        is_mixed: false,
    },
    Row {
        literal: r#""{0:.*} {1}""#,
        arguments: "p, f",
        new_text: r#""{p:.p$} {f}""#,
        is_mixed: false,
    },
    Row {
        literal: r#""{:w$.p$}""#,
        arguments: "f, w = w, p = p",
        new_text: r#""{f:w$.p$}""#,
        is_mixed: false,
    },
    Row {
        literal: r#""{:1$.2$}""#,
        arguments: "f, w, p",
        new_text: r#""{f:w$.p$}""#,
        is_mixed: false,
    },
    Row {
        literal: r#""{:>0$}""#,
        arguments: "w",
        new_text: r#""{w:>w$}""#,
        is_mixed: false,
    },
    Row {
        literal: r#""{:0.p$}""#,
        arguments: "f, p = p",
        new_text: r#""{f:0.p$}""#,
        is_mixed: false,
    },
    Row {
        literal: r#""{a} {b}""#,
        arguments: "a = x, b = y",
        new_text: r#""{x} {y}""#,
        is_mixed: false,
    },
    Row {
        literal: r#""{a} {}""#,
        arguments: "y, a = x",
        new_text: r#""{x} {y}""#,
        is_mixed: false,
    },
    Row {
        literal: r#""{x}""#,
        arguments: "x = x",
        new_text: r#""{x}""#,
        is_mixed: false,
    },
    Row {
        literal: r#""{x:w$}""#,
        arguments: "x = x, w = w",
        new_text: r#""{x:w$}""#,
        is_mixed: false,
    },
    Row {
        literal: r#""{y} {}""#,
        arguments: "x",
        new_text: r#""{y} {x}""#,
        is_mixed: false,
    },
    Row {
        literal: r#""{} {}""#,
        arguments: "x, x + 1",
        new_text: r#""{x} {}", x + 1"#,
        is_mixed: true,
    },
    Row {
        literal: r#""{1} {}""#,
        arguments: "x + 1, x",
        new_text: r#""{x} {}", x + 1"#,
        is_mixed: true,
    },
    Row {
        literal: r#""{} {} {}""#,
        arguments: "x, y + 1, w",
        new_text: r#""{x} {} {w}", y + 1"#,
        is_mixed: true,
    },
    Row {
        literal: r#""{:1$} {:2$} {}""#,
        arguments: "x + 1, w, p",
        new_text: r#""{:w$} {w:p$} {p}", x + 1"#,
        is_mixed: true,
    },
    Row {
        literal: r#""{:.*} {}""#,
        arguments: "w + 1, f, x",
        new_text: r#""{f:.*} {x}", w + 1"#,
        is_mixed: true,
    },
    Row {
        literal: r#""{:.1$}""#,
        arguments: "f + 1.0, p",
        new_text: r#""{:.p$}", f + 1.0"#,
        is_mixed: true,
    },
    Row {
        literal: r#""{b} {a} {}""#,
        arguments: "x, a = y + 1, b = w",
        new_text: r#""{w} {a} {x}", a = y + 1"#,
        is_mixed: true,
    },
    Row {
        literal: r#""{}""#,
        arguments: "MAX",
        new_text: r#""{MAX}""#,
        is_mixed: false,
    },
    Row {
        literal: r#""{}""#,
        arguments: "r#type",
        new_text: r#""{type}""#,
        is_mixed: false,
    },
    Row {
        literal: r#""{t}""#,
        arguments: "t = r#type",
        new_text: r#""{type}""#,
        is_mixed: false,
    },
    Row {
        literal: r#""{:#?} {:08.3} {:+e} {:<5} {:*^7} {:#x} {:x?}""#,
        arguments: "x, f, f, x, y, x, x",
        new_text: r#""{x:#?} {f:08.3} {f:+e} {x:<5} {y:*^7} {x:#x} {x:x?}""#,
        is_mixed: false,
    },
    Row {
        literal: r#""{{}} {} {{{}}}""#,
        arguments: "x, y",
        new_text: r#""{{}} {x} {{{y}}}""#,
        is_mixed: false,
    },
    Row {
        literal: r#""\x7b\x7b {} \u{7d}\u{7d}""#,
        arguments: "x",
        new_text: r#""\x7b\x7b {x} \u{7d}\u{7d}""#,
        is_mixed: false,
    },
    Row {
        literal: r#""\u{7b}\x7d""#,
        arguments: "x",
        new_text: r#""\u{7b}x\x7d""#,
        is_mixed: false,
    },
    Row {
        literal: r#""{\x30}""#,
        arguments: "x",
        new_text: r#""{x}""#,
        is_mixed: false,
    },
    Row {
        literal: r#"r"{} \""#,
        arguments: "x",
        new_text: r#"r"{x} \""#,
        is_mixed: false,
    },
    Row {
        literal: r###"r##"{} "# {}"##"###,
        arguments: "x, y",
        new_text: r###"r##"{x} "# {y}"##"###,
        is_mixed: false,
    },
    Row {
        literal: r#""ä{}ö{:ä>1$}""#,
        arguments: "x, w",
        new_text: r#""ä{x}ö{w:ä>w$}""#,
        is_mixed: false,
    },
    Row {
        literal: r#""{ } {0 } {1 :?}""#,
        arguments: "x, y",
        new_text: r#""{x} {x} {y:?}""#,
        is_mixed: false,
    },
    Row {
        literal: r#""{}""#,
        arguments: "größe",
        new_text: r#""{größe}""#,
        is_mixed: false,
    },
    Row {
        literal: r#""{}""#,
        arguments: "S",
        new_text: r#""{S}""#,
        is_mixed: false,
    },
    Row {
        literal: r#""{0:0$}""#,
        arguments: "w",
        new_text: r#""{w:w$}""#,
        is_mixed: false,
    },
    Row {
        literal: r#""{0:.0$} {}""#,
        arguments: "w",
        new_text: r#""{w:.w$} {w}""#,
        is_mixed: false,
    },
    Row {
        literal: r#""{:w$}""#,
        arguments: "x",
        new_text: r#""{x:w$}""#,
        is_mixed: false,
    },
    Row {
        literal: r#""{:w$} {w}""#,
        arguments: "x, w = w",
        new_text: r#""{x:w$} {w}""#,
        is_mixed: false,
    },
    Row {
        literal: r#""{:w$} {w}""#,
        arguments: "x, w = w + 1",
        new_text: r#""{x:w$} {w}", w = w + 1"#,
        is_mixed: true,
    },
    Row {
        literal: r#""{x} {}""#,
        arguments: "y, x = w",
        new_text: r#""{w} {y}""#,
        is_mixed: false,
    },
    Row {
        literal: r#""{} {x}""#,
        arguments: "y + 1, x = w",
        new_text: r#""{} {w}", y + 1"#,
        is_mixed: true,
    },
    Row {
        literal: r#""{}""#,
        arguments: "a = x",
        new_text: r#""{x}""#,
        is_mixed: false,
    },
];

/// Calls that clippy leaves as they are, since an index stays. The results print the same.
pub const NUMBERED: [Row; 2] = [
    Row {
        literal: r#""{0} {2} {1}""#,
        arguments: "x, y + 1, w",
        new_text: r#""{x} {w} {0}", y + 1"#,
        is_mixed: true,
    },
    Row {
        literal: r#""{2} {1} {0} {2}""#,
        arguments: "x + 1, y, w + 1",
        new_text: r#""{1} {y} {0} {1}", x + 1, w + 1"#,
        is_mixed: true,
    },
];
