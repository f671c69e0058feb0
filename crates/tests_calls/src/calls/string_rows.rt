//! Calls with a fault of the string or of a trait, or without a fault.

use super::shown_rows::ShownRow;

/// The output of `rustc --edition 2021 --error-format=json` for `format!("TEXT", ARGUMENTS)`, where
/// `a`, `b`, `c`, `d` and `w` are variables.
pub const STRINGS: &[ShownRow] = &[
    ShownRow {
        text: "{:q}",
        arguments: "a",
        output: "^3..4 \n\
            = the only appropriate formatting traits are:\n\
            - ``, which uses the `Display` trait\n\
            - `?`, which uses the `Debug` trait\n\
            - `e`, which uses the `LowerExp` trait\n\
            - `E`, which uses the `UpperExp` trait\n\
            - `o`, which uses the `Octal` trait\n\
            - `p`, which uses the `Pointer` trait\n\
            - `b`, which uses the `Binary` trait\n\
            - `x`, which uses the `LowerHex` trait\n\
            - `X`, which uses the `UpperHex` trait\n",
    },
    ShownRow {
        text: "{:abc}",
        arguments: "a",
        output: "^3..6 \n\
            = the only appropriate formatting traits are:\n\
            - ``, which uses the `Display` trait\n\
            - `?`, which uses the `Debug` trait\n\
            - `e`, which uses the `LowerExp` trait\n\
            - `E`, which uses the `UpperExp` trait\n\
            - `o`, which uses the `Octal` trait\n\
            - `p`, which uses the `Pointer` trait\n\
            - `b`, which uses the `Binary` trait\n\
            - `x`, which uses the `LowerHex` trait\n\
            - `X`, which uses the `UpperHex` trait\n",
    },
    ShownRow {
        text: "{:q} {:r}",
        arguments: "a",
        output: "^3..4 \n\
            = the only appropriate formatting traits are:\n\
            - ``, which uses the `Display` trait\n\
            - `?`, which uses the `Debug` trait\n\
            - `e`, which uses the `LowerExp` trait\n\
            - `E`, which uses the `UpperExp` trait\n\
            - `o`, which uses the `Octal` trait\n\
            - `p`, which uses the `Pointer` trait\n\
            - `b`, which uses the `Binary` trait\n\
            - `x`, which uses the `LowerHex` trait\n\
            - `X`, which uses the `UpperHex` trait\n\
            ^8..9 \n\
            = the only appropriate formatting traits are:\n\
            - ``, which uses the `Display` trait\n\
            - `?`, which uses the `Debug` trait\n\
            - `e`, which uses the `LowerExp` trait\n\
            - `E`, which uses the `UpperExp` trait\n\
            - `o`, which uses the `Octal` trait\n\
            - `p`, which uses the `Pointer` trait\n\
            - `b`, which uses the `Binary` trait\n\
            - `x`, which uses the `LowerHex` trait\n\
            - `X`, which uses the `UpperHex` trait\n\
            -13..14 \n\
            ^1..5 \n\
            ^6..10 \n",
    },
    ShownRow {
        text: "{a.b}",
        arguments: "",
        output: "^2..5 not supported in format string\n\
            = consider moving this expression to a local variable and then using the local here instead\n\
            ? consider using a positional formatting argument instead 2..5 `0` 7..7 `, a.b`\n",
    },
    ShownRow {
        text: "{a.b}",
        arguments: "a",
        output: "^2..5 not supported in format string\n\
            = consider moving this expression to a local variable and then using the local here instead\n\
            ? consider using a positional formatting argument instead 2..5 `1` 10..10 `, a.b`\n",
    },
    ShownRow {
        text: "{a.b} {}",
        arguments: "a, b",
        output: "^2..5 not supported in format string\n\
            = consider moving this expression to a local variable and then using the local here instead\n\
            ? consider using a positional formatting argument instead 2..5 `2` 16..16 `, a.b`\n",
    },
    ShownRow {
        text: "{a.0}",
        arguments: "a, w = b",
        output: "^2..5 not supported in format string\n\
            = consider moving this expression to a local variable and then using the local here instead\n\
            ? consider using a positional formatting argument instead 2..5 `1` 10..10 `, a.0`\n",
    },
    ShownRow {
        text: "{a.b}",
        arguments: "w = a",
        output: "^2..5 not supported in format string\n\
            = consider moving this expression to a local variable and then using the local here instead\n\
            ? consider using a positional formatting argument instead 2..5 `0` 7..7 `, a.b`\n",
    },
    ShownRow {
        text: "{a=}",
        arguments: "a",
        output: "-1..2 because of this opening brace\n\
            ^3..4 expected `}` in format string\n\
            = to print `{`, you can escape it using `{{`\n\
            ? use rust debug printing macro call `dbg!(a)`\n",
    },
    ShownRow {
        text: "{=}",
        arguments: "w = a",
        output: "-1..2 because of this opening brace\n\
            ^2..3 expected `}` in format string\n\
            = to print `{`, you can escape it using `{{`\n\
            ? use rust debug printing macro call `dbg!(a)`\n",
    },
    ShownRow {
        text: "{a=}",
        arguments: "a, b",
        output: "-1..2 because of this opening brace\n\
            ^3..4 expected `}` in format string\n\
            = to print `{`, you can escape it using `{{`\n",
    },
    ShownRow {
        text: "{a?}",
        arguments: "",
        output: "^3..4 expected `:` before `?` to format with `Debug` in format string\n\
            ^3..4 help: add a colon before the format specifier: `:?`\n\
            = to print `{`, you can escape it using `{{`\n",
    },
    ShownRow {
        text: "{",
        arguments: "a, b",
        output: "-1..2 because of this opening brace\n\
            ^2..2 expected `}` in format string\n\
            = if you intended to print `{`, you can escape it using `{{`\n",
    },
    ShownRow {
        text: "}",
        arguments: "",
        output: "^1..2 unmatched `}` in format string\n\
            = if you intended to print `}`, you can escape it using `}}`\n",
    },
    ShownRow {
        text: "{:q}{}",
        arguments: "1, z = 2",
        output: "^3..4 \n\
            = the only appropriate formatting traits are:\n\
            - ``, which uses the `Display` trait\n\
            - `?`, which uses the `Debug` trait\n\
            - `e`, which uses the `LowerExp` trait\n\
            - `E`, which uses the `UpperExp` trait\n\
            - `o`, which uses the `Octal` trait\n\
            - `p`, which uses the `Pointer` trait\n\
            - `b`, which uses the `Binary` trait\n\
            - `x`, which uses the `LowerHex` trait\n\
            - `X`, which uses the `UpperHex` trait\n\
            -5..7 this formatting argument uses named argument `z` by position\n\
            ^13..14 this named argument is referred to by position in formatting string\n\
            ? use the named argument by name to avoid ambiguity 6..6 `z`\n",
    },
    ShownRow {
        text: "{:x?} {:X?} {:#?} {:e} {:E} {:o} {:p} {:b} {:x} {:X}",
        arguments: "1, 2, 3, 4, 5, 6, &7, 8, 9, 10",
        output: "",
    },
    ShownRow {
        text: "{:>1$} {:<0$}",
        arguments: "1, 2",
        output: "",
    },
    ShownRow {
        text: "{x} {y:z$.w$}",
        arguments: "x = 1, y = 2, z = 3, w = 4",
        output: "",
    },
    ShownRow {
        text: "{:é}",
        arguments: "1",
        output: "^3..5 \n\
            = the only appropriate formatting traits are:\n\
            - ``, which uses the `Display` trait\n\
            - `?`, which uses the `Debug` trait\n\
            - `e`, which uses the `LowerExp` trait\n\
            - `E`, which uses the `UpperExp` trait\n\
            - `o`, which uses the `Octal` trait\n\
            - `p`, which uses the `Pointer` trait\n\
            - `b`, which uses the `Binary` trait\n\
            - `x`, which uses the `LowerHex` trait\n\
            - `X`, which uses the `UpperHex` trait\n",
    },
    ShownRow {
        text: "{:xx} {:X}",
        arguments: "1, 2",
        output: "-1..2 because of this opening brace\n\
            ^4..4 expected `}` in format string\n\
            = if you intended to print `{`, you can escape it using `{{`\n",
    },
    ShownRow {
        text: "{r#a}",
        arguments: "",
        output: "-2..4 help: remove the `r#`\n\
            ^2..5 raw identifier used here in format string\n\
            = identifiers in format strings can be keywords and don't need to be prefixed with `r#`\n",
    },
    ShownRow {
        text: "{a:?#}",
        arguments: "",
        output: "^5..6 expected `'}'` in format string\n\
            ? did you mean `#?`? 4..6 `#?`\n",
    },
    ShownRow {
        text: "{a,}",
        arguments: "",
        output: "-1..2 because of this opening brace\n\
            ^3..4 expected `}` in format string\n\
            = to print `{`, you can escape it using `{{`\n",
    },
    ShownRow {
        text: "{:q} {:>q}",
        arguments: "1, 2",
        output: "^3..4 \n\
            = the only appropriate formatting traits are:\n\
            - ``, which uses the `Display` trait\n\
            - `?`, which uses the `Debug` trait\n\
            - `e`, which uses the `LowerExp` trait\n\
            - `E`, which uses the `UpperExp` trait\n\
            - `o`, which uses the `Octal` trait\n\
            - `p`, which uses the `Pointer` trait\n\
            - `b`, which uses the `Binary` trait\n\
            - `x`, which uses the `LowerHex` trait\n\
            - `X`, which uses the `UpperHex` trait\n\
            ^9..10 \n\
            = the only appropriate formatting traits are:\n\
            - ``, which uses the `Display` trait\n\
            - `?`, which uses the `Debug` trait\n\
            - `e`, which uses the `LowerExp` trait\n\
            - `E`, which uses the `UpperExp` trait\n\
            - `o`, which uses the `Octal` trait\n\
            - `p`, which uses the `Pointer` trait\n\
            - `b`, which uses the `Binary` trait\n\
            - `x`, which uses the `LowerHex` trait\n\
            - `X`, which uses the `UpperHex` trait\n",
    },
    ShownRow {
        text: "{",
        arguments: "a",
        output: "-1..2 because of this opening brace\n\
            ^2..2 expected `}` in format string\n\
            = if you intended to print `{`, you can escape it using `{{`\n",
    },
];
