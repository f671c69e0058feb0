//! Calls, and the titles of the messages of rustc 1.95 for them.

/// A call of `format!`, and the titles of the messages of rustc for it.
#[derive(Clone, Copy)]
pub struct Row {
    /// The text of the string, which stands for itself in an ordinary literal.
    pub text: &'static str,
    /// The arguments, with a comma and a space between them.
    pub arguments: &'static str,
    /// The titles, each on a line. Those of warnings begin with `warning: `.
    pub titles: &'static str,
}

/// The titles of `rustc --edition 2021` for `format!("TEXT", ARGUMENTS)`, where `a`, `b`, `c`, `d`
/// and `w` are variables.
pub const ROWS: [Row; 61] = [
    Row {
        text: "{}",
        arguments: "",
        titles: "1 positional argument in format string, but no arguments were given",
    },
    Row {
        text: "{}{}{}",
        arguments: "a",
        titles: "3 positional arguments in format string, but there is 1 argument",
    },
    Row {
        text: "{0} {1}",
        arguments: "a",
        titles: "invalid reference to positional argument 1 (there is 1 argument)",
    },
    Row {
        text: "{2}",
        arguments: "a, b",
        titles: "invalid reference to positional argument 2 (there are 2 arguments)\n\
            multiple unused formatting arguments",
    },
    Row {
        text: "{5}{7}{9}",
        arguments: "a, b",
        titles: "invalid reference to positional arguments 5, 7 and 9 (there are 2 arguments)\n\
            multiple unused formatting arguments",
    },
    Row {
        text: "{:1$}",
        arguments: "a",
        titles: "invalid reference to positional argument 1 (there is 1 argument)",
    },
    Row {
        text: "{:.1$}",
        arguments: "a",
        titles: "invalid reference to positional argument 1 (there is 1 argument)",
    },
    Row {
        text: "{:.*}",
        arguments: "w",
        titles: "2 positional arguments in format string, but there is 1 argument",
    },
    Row {
        text: "{:.*} {}",
        arguments: "w, a",
        titles: "3 positional arguments in format string, but there are 2 arguments",
    },
    Row {
        text: "x",
        arguments: "a",
        titles: "argument never used",
    },
    Row {
        text: "x",
        arguments: "a, b",
        titles: "multiple unused formatting arguments",
    },
    Row {
        text: "x {}",
        arguments: "a, b, c",
        titles: "multiple unused formatting arguments",
    },
    Row {
        text: "{a}",
        arguments: "a",
        titles: "redundant argument",
    },
    Row {
        text: "{a}",
        arguments: "a = a, b = b",
        titles: "named argument never used",
    },
    Row {
        text: "{0}",
        arguments: "a, z = b",
        titles: "named argument never used",
    },
    Row {
        text: "{a} {a}",
        arguments: "a = a, a = b",
        titles: "duplicate argument named `a`",
    },
    Row {
        text: "{a} {}",
        arguments: "a = b, c",
        titles: "positional arguments cannot follow named arguments",
    },
    Row {
        text: "{}",
        arguments: "z = a",
        titles: "warning: named argument `z` is not used by name",
    },
    Row {
        text: "{} {z}",
        arguments: "z = a",
        titles: "warning: named argument `z` is not used by name",
    },
    Row {
        text: "{:z$}",
        arguments: "a, z = w, y = w",
        titles: "named argument never used",
    },
    Row {
        text: "{:q}",
        arguments: "a",
        titles: "unknown format trait `q`",
    },
    Row {
        text: "{:abc}",
        arguments: "a",
        titles: "unknown format trait `abc`",
    },
    Row {
        text: "{:q} {:r}",
        arguments: "a",
        titles: "unknown format trait `q`\n\
            unknown format trait `r`\n\
            2 positional arguments in format string, but there is 1 argument",
    },
    Row {
        text: "{:0$}",
        arguments: "w, a",
        titles: "argument never used",
    },
    Row {
        text: "{0:1$.2$}",
        arguments: "a, w",
        titles: "invalid reference to positional argument 2 (there are 2 arguments)",
    },
    Row {
        text: "{a:b$.c$}",
        arguments: "d = 1",
        titles: "named argument never used",
    },
    Row {
        text: "{1} {}",
        arguments: "a",
        titles: "invalid reference to positional argument 1 (there is 1 argument)",
    },
    Row {
        text: "{1} {} {}",
        arguments: "a",
        titles: "invalid reference to positional argument 1 (there is 1 argument)",
    },
    Row {
        text: "{a.b}",
        arguments: "a",
        titles: "invalid format string: field access isn't supported",
    },
    Row {
        text: "{a?}",
        arguments: "",
        titles: "invalid format string: expected `}`, found `?`",
    },
    Row {
        text: "{",
        arguments: "a, b",
        titles: "invalid format string: expected `}` but string was terminated",
    },
    Row {
        text: "}",
        arguments: "",
        titles: "invalid format string: unmatched `}` found",
    },
    Row {
        text: "{:.*}",
        arguments: "z = 3, y = 1.0",
        titles: "warning: named argument `y` is not used by name\n\
            warning: named argument `z` is not used by name",
    },
    Row {
        text: "{a} {b}",
        arguments: "a, b, c",
        titles: "redundant arguments",
    },
    Row {
        text: "{a} {9}",
        arguments: "a, b",
        titles: "invalid reference to positional argument 9 (there are 2 arguments)\n\
            redundant argument",
    },
    Row {
        text: "{:q}{}",
        arguments: "1, z = 2",
        titles: "unknown format trait `q`\nwarning: named argument `z` is not used by name",
    },
    Row {
        text: "{:1$} {:.0$}",
        arguments: "1, z = 2",
        titles: "warning: named argument `z` is not used by name\n\
            warning: named argument `z` is not used by name",
    },
    Row {
        text: "{a}",
        arguments: "z = 1, z = 2",
        titles: "duplicate argument named `z`\nnamed argument never used",
    },
    Row {
        text: "{a}",
        arguments: "z = 1, z = 2, 3, y = 4, 5",
        titles: "duplicate argument named `z`\npositional arguments cannot follow named arguments",
    },
    Row {
        text: "{9} {9:9$} {2}",
        arguments: "a",
        titles: "invalid reference to positional arguments 2 and 9 (there is 1 argument)\n\
            argument never used",
    },
    Row {
        text: "{a:.*} {b:.*}",
        arguments: "w",
        titles: "2 positional arguments in format string, but there is 1 argument",
    },
    Row {
        text: "{:x?} {:X?} {:#?} {:e} {:E} {:o} {:p} {:b} {:x} {:X}",
        arguments: "1, 2, 3, 4, 5, 6, &7, 8, 9, 10",
        titles: "",
    },
    Row {
        text: "{b:a$}",
        arguments: "a",
        titles: "argument never used",
    },
    Row {
        text: "{0}",
        arguments: "1, a, b = 2",
        titles: "multiple unused formatting arguments",
    },
    Row {
        text: "{}",
        arguments: "a, a + 1",
        titles: "argument never used",
    },
    Row {
        text: "{} {1}",
        arguments: "1, z = 2, z = 3, y = 4",
        titles: "duplicate argument named `z`\nnamed argument never used",
    },
    Row {
        text: "{a} {}",
        arguments: "1, 2, 3",
        titles: "multiple unused formatting arguments",
    },
    Row {
        text: "{0:?} {1:?}",
        arguments: "a, b, c, d",
        titles: "multiple unused formatting arguments",
    },
    Row {
        text: "{:>1$} {:<0$}",
        arguments: "1, 2",
        titles: "",
    },
    Row {
        text: "{x} {y:z$.w$}",
        arguments: "x = 1, y = 2, z = 3, w = 4",
        titles: "",
    },
    Row {
        text: "{} {} {z}",
        arguments: "1, z = 2",
        titles: "warning: named argument `z` is not used by name",
    },
    Row {
        text: "{{}} {}",
        arguments: "1, 2",
        titles: "argument never used",
    },
    Row {
        text: "{:?} {:#?} {:02x} {:+e}",
        arguments: "1, 2, 3, 4, 5",
        titles: "argument never used",
    },
    Row {
        text: "{type} {}",
        arguments: "type = 1, 2",
        titles: "positional arguments cannot follow named arguments",
    },
    Row {
        text: "{0} {0} {1}",
        arguments: "a",
        titles: "invalid reference to positional argument 1 (there is 1 argument)",
    },
    Row {
        text: "{a} {b}",
        arguments: "a, 1, b",
        titles: "redundant arguments",
    },
    Row {
        text: "{:é}",
        arguments: "1",
        titles: "unknown format trait `é`",
    },
    Row {
        text: "{:xx} {:X}",
        arguments: "1, 2",
        titles: "invalid format string: expected `}`, found `x`",
    },
    Row {
        text: "{:65535$}",
        arguments: "1",
        titles: "invalid reference to positional argument 65535 (there is 1 argument)",
    },
    Row {
        text: "{a:a$} {b:.b$}",
        arguments: "a = 1, c = 2",
        titles: "named argument never used",
    },
    Row {
        text: "{a}",
        arguments: "b = a",
        titles: "named argument never used",
    },
];
