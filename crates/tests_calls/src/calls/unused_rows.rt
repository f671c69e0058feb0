//! Calls with arguments that no placeholder refers to.

use super::shown_rows::ShownRow;

/// The output of `rustc --edition 2021 --error-format=json` for `format!("TEXT", ARGUMENTS)`, where
/// `a`, `b`, `c`, `d` and `w` are variables.
pub const UNUSED: &[ShownRow] = &[
    ShownRow {
        text: "x",
        arguments: "a",
        output: "-0..3 formatting specifier missing\n\
            ^5..6 argument never used\n\
            ? format specifiers use curly braces, consider adding a format specifier 2..2 `{}`\n",
    },
    ShownRow {
        text: "x",
        arguments: "a, b",
        output: "-0..3 multiple missing formatting specifiers\n\
            ^5..6 argument never used\n\
            ^8..9 argument never used\n\
            ? format specifiers use curly braces, consider adding 2 format specifiers 2..2 `{}{}`\n",
    },
    ShownRow {
        text: "x {}",
        arguments: "a, b, c",
        output: "-0..6 multiple missing formatting specifiers\n\
            ^11..12 argument never used\n\
            ^14..15 argument never used\n\
            = consider adding 2 format specifiers\n",
    },
    ShownRow {
        text: "{a}",
        arguments: "a = a, b = b",
        output: "-0..5 formatting specifier missing\n\
            ^18..19 named argument never used\n",
    },
    ShownRow {
        text: "{0}",
        arguments: "a, z = b",
        output: "-0..5 formatting specifier missing\n\
            ^14..15 named argument never used\n",
    },
    ShownRow {
        text: "{:z$}",
        arguments: "a, z = w, y = w",
        output: "-0..7 formatting specifier missing\n\
            ^23..24 named argument never used\n",
    },
    ShownRow {
        text: "{:0$}",
        arguments: "w, a",
        output: "-0..7 formatting specifier missing\n\
            ^12..13 argument never used\n",
    },
    ShownRow {
        text: "{a:b$.c$}",
        arguments: "d = 1",
        output: "-0..11 formatting specifier missing\n\
            ^17..18 named argument never used\n\
            ? format specifiers use curly braces, consider adding a format specifier 10..10 `{}`\n",
    },
    ShownRow {
        text: "{b:a$}",
        arguments: "a",
        output: "-0..8 formatting specifier missing\n\
            ^10..11 argument never used\n\
            ? format specifiers use curly braces, consider adding a format specifier 7..7 `{}`\n",
    },
    ShownRow {
        text: "{0}",
        arguments: "1, a, b = 2",
        output: "-0..5 multiple missing formatting specifiers\n\
            ^10..11 argument never used\n\
            ^17..18 named argument never used\n\
            = consider adding 2 format specifiers\n",
    },
    ShownRow {
        text: "{}",
        arguments: "a, a + 1",
        output: "-0..4 formatting specifier missing\n\
            ^9..14 argument never used\n",
    },
    ShownRow {
        text: "{a} {}",
        arguments: "1, 2, 3",
        output: "-0..8 multiple missing formatting specifiers\n\
            ^13..14 argument never used\n\
            ^16..17 argument never used\n\
            = consider adding 2 format specifiers\n",
    },
    ShownRow {
        text: "{0:?} {1:?}",
        arguments: "a, b, c, d",
        output: "-0..13 multiple missing formatting specifiers\n\
            ^21..22 argument never used\n\
            ^24..25 argument never used\n\
            = consider adding 2 format specifiers\n",
    },
    ShownRow {
        text: "{{}} {}",
        arguments: "1, 2",
        output: "-0..9 formatting specifier missing\n\
            ^14..15 argument never used\n",
    },
    ShownRow {
        text: "{:?} {:#?} {:02x} {:+e}",
        arguments: "1, 2, 3, 4, 5",
        output: "-0..25 formatting specifier missing\n\
            ^39..40 argument never used\n",
    },
    ShownRow {
        text: "{a:a$} {b:.b$}",
        arguments: "a = 1, c = 2",
        output: "-0..16 formatting specifier missing\n\
            ^29..30 named argument never used\n",
    },
    ShownRow {
        text: "x {}",
        arguments: "1, 2",
        output: "-0..6 formatting specifier missing\n\
            ^11..12 argument never used\n",
    },
    ShownRow {
        text: "x {}",
        arguments: "1, 2, 3",
        output: "-0..6 multiple missing formatting specifiers\n\
            ^11..12 argument never used\n\
            ^14..15 argument never used\n\
            = consider adding 2 format specifiers\n",
    },
    ShownRow {
        text: "{a}",
        arguments: "a",
        output: "^7..8 help: this can be removed\n\
            = the formatting specifier is referencing the binding already 2..3\n",
    },
    ShownRow {
        text: "{a} {b}",
        arguments: "a, b, c",
        output: "^11..12 \n\
            ^14..15 \n\
            = the formatting specifiers are referencing the bindings already 2..3 6..7\n\
            ? this can be removed 11..14 `` 14..17 ``\n",
    },
    ShownRow {
        text: "{a} {9}",
        arguments: "a, b",
        output: "^6..7 \n\
            = positional arguments are zero-based\n\
            -11..14 help: this can be removed\n\
            ^11..12 \n\
            = the formatting specifier is referencing the binding already 2..3\n",
    },
    ShownRow {
        text: "{a} {b}",
        arguments: "a, 1, b",
        output: "^11..12 \n\
            ^17..18 \n\
            = the formatting specifiers are referencing the bindings already 2..3 6..7\n\
            ? this can be removed 11..14 `` 17..18 ``\n",
    },
    ShownRow {
        text: "{a} {b}",
        arguments: "a, b",
        output: "^11..12 \n\
            ^14..15 \n\
            = the formatting specifiers are referencing the bindings already 2..3 6..7\n\
            ? this can be removed 11..14 `` 14..15 ``\n",
    },
    ShownRow {
        text: "{a}",
        arguments: "a, 1",
        output: "-7..10 help: this can be removed\n\
            ^7..8 \n\
            = the formatting specifier is referencing the binding already 2..3\n",
    },
    ShownRow {
        text: "{a}",
        arguments: "1, a",
        output: "^10..11 help: this can be removed\n\
            = the formatting specifier is referencing the binding already 2..3\n",
    },
    ShownRow {
        text: "{a} {z}",
        arguments: "a, z = 1",
        output: "^11..12 \n\
            = the formatting specifier is referencing the binding already 2..3\n",
    },
    ShownRow {
        text: "{a} {a} {b}",
        arguments: "a, b",
        output: "^15..16 \n\
            ^18..19 \n\
            = the formatting specifiers are referencing the bindings already 2..3 6..7 10..11\n\
            ? this can be removed 15..18 `` 18..19 ``\n",
    },
    ShownRow {
        text: "{b} {a}",
        arguments: "a, b",
        output: "^11..12 \n\
            ^14..15 \n\
            = the formatting specifiers are referencing the bindings already 2..3 6..7\n\
            ? this can be removed 11..14 `` 14..15 ``\n",
    },
    ShownRow {
        text: "{a}",
        arguments: "a, a",
        output: "^10..11 \n\
            ^7..8 \n\
            = the formatting specifiers are referencing the bindings already 2..3\n\
            ? this can be removed 7..10 `` 10..11 ``\n",
    },
];
