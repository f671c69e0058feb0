//! Calls in which the names of arguments are at fault, or their order.

use super::shown_rows::ShownRow;

/// The output of `rustc --edition 2021 --error-format=json` for `format!("TEXT", ARGUMENTS)`, where
/// `a`, `b`, `c`, `d` and `w` are variables.
pub const NAMES: &[ShownRow] = &[
    ShownRow {
        text: "{a} {a}",
        arguments: "a = a, a = b",
        output: "-11..12 previously here\n\
            ^18..19 duplicate argument\n",
    },
    ShownRow {
        text: "{a} {}",
        arguments: "a = b, c",
        output: "-10..15 named argument\n\
            ^17..18 positional arguments must be before named arguments\n",
    },
    ShownRow {
        text: "{}",
        arguments: "z = a",
        output: "-1..3 this formatting argument uses named argument `z` by position\n\
            ^6..7 this named argument is referred to by position in formatting string\n\
            ? use the named argument by name to avoid ambiguity 2..2 `z`\n",
    },
    ShownRow {
        text: "{} {z}",
        arguments: "z = a",
        output: "-1..3 this formatting argument uses named argument `z` by position\n\
            ^10..11 this named argument is referred to by position in formatting string\n\
            ? use the named argument by name to avoid ambiguity 2..2 `z`\n",
    },
    ShownRow {
        text: "{:.*}",
        arguments: "z = 3, y = 1.0",
        output: "-1..6 this formatting argument uses named argument `y` by position\n\
            ^16..17 this named argument is referred to by position in formatting string\n\
            ? use the named argument by name to avoid ambiguity 2..2 `y`\n\
            -4..5 this formatting argument uses named argument `z` by position\n\
            ^9..10 this named argument is referred to by position in formatting string\n\
            ? use the named argument by name to avoid ambiguity 4..5 `z$`\n",
    },
    ShownRow {
        text: "{:1$} {:.0$}",
        arguments: "1, z = 2",
        output: "-3..5 this formatting argument uses named argument `z` by position\n\
            ^19..20 this named argument is referred to by position in formatting string\n\
            ? use the named argument by name to avoid ambiguity 3..5 `z$`\n\
            -7..13 this formatting argument uses named argument `z` by position\n\
            ^19..20 this named argument is referred to by position in formatting string\n\
            ? use the named argument by name to avoid ambiguity 8..8 `z`\n",
    },
    ShownRow {
        text: "{a}",
        arguments: "z = 1, z = 2",
        output: "-7..8 previously here\n\
            ^14..15 duplicate argument\n\
            -0..5 formatting specifier missing\n\
            ^11..12 named argument never used\n\
            ? format specifiers use curly braces, consider adding a format specifier 4..4 `{}`\n",
    },
    ShownRow {
        text: "{a}",
        arguments: "z = 1, z = 2, 3, y = 4, 5",
        output: "-7..8 previously here\n\
            ^14..15 duplicate argument\n\
            -7..12 named argument\n\
            ^21..22 positional arguments must be before named arguments\n",
    },
    ShownRow {
        text: "{} {1}",
        arguments: "1, z = 2, z = 3, y = 4",
        output: "-13..14 previously here\n\
            ^20..21 duplicate argument\n\
            -0..8 formatting specifier missing\n\
            ^31..32 named argument never used\n",
    },
    ShownRow {
        text: "{} {} {z}",
        arguments: "1, z = 2",
        output: "-4..6 this formatting argument uses named argument `z` by position\n\
            ^16..17 this named argument is referred to by position in formatting string\n\
            ? use the named argument by name to avoid ambiguity 5..5 `z`\n",
    },
    ShownRow {
        text: "{type} {}",
        arguments: "type = 1, 2",
        output: "-13..21 named argument\n\
            ^23..24 positional arguments must be before named arguments\n",
    },
    ShownRow {
        text: "{0}",
        arguments: "z = a",
        output: "-1..4 this formatting argument uses named argument `z` by position\n\
            ^7..8 this named argument is referred to by position in formatting string\n\
            ? use the named argument by name to avoid ambiguity 2..3 `z`\n",
    },
    ShownRow {
        text: "{0 }",
        arguments: "z = 1",
        output: "-1..5 this formatting argument uses named argument `z` by position\n\
            ^8..9 this named argument is referred to by position in formatting string\n\
            ? use the named argument by name to avoid ambiguity 2..4 `z`\n",
    },
    ShownRow {
        text: "{:.*}",
        arguments: "y = 3, z = 1.0",
        output: "-1..6 this formatting argument uses named argument `z` by position\n\
            ^16..17 this named argument is referred to by position in formatting string\n\
            ? use the named argument by name to avoid ambiguity 2..2 `z`\n\
            -4..5 this formatting argument uses named argument `y` by position\n\
            ^9..10 this named argument is referred to by position in formatting string\n\
            ? use the named argument by name to avoid ambiguity 4..5 `y$`\n",
    },
    ShownRow {
        text: "{:0$}",
        arguments: "z = 3",
        output: "-1..6 this formatting argument uses named argument `z` by position\n\
            ^9..10 this named argument is referred to by position in formatting string\n\
            ? use the named argument by name to avoid ambiguity 2..2 `z`\n\
            -3..5 this formatting argument uses named argument `z` by position\n\
            ^9..10 this named argument is referred to by position in formatting string\n\
            ? use the named argument by name to avoid ambiguity 3..5 `z$`\n",
    },
    ShownRow {
        text: "{:5}",
        arguments: "z = 3",
        output: "-1..5 this formatting argument uses named argument `z` by position\n\
            ^8..9 this named argument is referred to by position in formatting string\n\
            ? use the named argument by name to avoid ambiguity 2..2 `z`\n",
    },
    ShownRow {
        text: "{ }",
        arguments: "z = 3",
        output: "-1..4 this formatting argument uses named argument `z` by position\n\
            ^7..8 this named argument is referred to by position in formatting string\n\
            ? use the named argument by name to avoid ambiguity 2..3 `z`\n",
    },
    ShownRow {
        text: "{ :5}",
        arguments: "z = 3",
        output: "-1..6 this formatting argument uses named argument `z` by position\n\
            ^9..10 this named argument is referred to by position in formatting string\n\
            ? use the named argument by name to avoid ambiguity 2..3 `z`\n",
    },
    ShownRow {
        text: "{:1$}",
        arguments: "a, z = 3",
        output: "-3..5 this formatting argument uses named argument `z` by position\n\
            ^12..13 this named argument is referred to by position in formatting string\n\
            ? use the named argument by name to avoid ambiguity 3..5 `z$`\n",
    },
    ShownRow {
        text: "{:.1$}",
        arguments: "1.0, z = 3",
        output: "-4..6 this formatting argument uses named argument `z` by position\n\
            ^15..16 this named argument is referred to by position in formatting string\n\
            ? use the named argument by name to avoid ambiguity 4..6 `z$`\n",
    },
    ShownRow {
        text: "{0} {0}",
        arguments: "z = a",
        output: "-1..4 this formatting argument uses named argument `z` by position\n\
            ^11..12 this named argument is referred to by position in formatting string\n\
            ? use the named argument by name to avoid ambiguity 2..3 `z`\n\
            -5..8 this formatting argument uses named argument `z` by position\n\
            ^11..12 this named argument is referred to by position in formatting string\n\
            ? use the named argument by name to avoid ambiguity 6..7 `z`\n",
    },
];
