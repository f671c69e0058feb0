//! Calls in which arguments are missing.

use super::shown_rows::ShownRow;

/// The output of `rustc --edition 2021 --error-format=json` for `format!("TEXT", ARGUMENTS)`, where
/// `a`, `b`, `c`, `d` and `w` are variables.
pub const MISSING: &[ShownRow] = &[
    ShownRow {
        text: "{}",
        arguments: "",
        output: "^1..3 \n",
    },
    ShownRow {
        text: "{}{}{}",
        arguments: "a",
        output: "-10..11 \n\
            ^1..3 \n\
            ^3..5 \n\
            ^5..7 \n",
    },
    ShownRow {
        text: "{0} {1}",
        arguments: "a",
        output: "^6..7 \n\
            = positional arguments are zero-based\n",
    },
    ShownRow {
        text: "{2}",
        arguments: "a, b",
        output: "^2..3 \n\
            = positional arguments are zero-based\n\
            -0..5 multiple missing formatting specifiers\n\
            ^10..11 argument never used\n\
            ^7..8 argument never used\n",
    },
    ShownRow {
        text: "{5}{7}{9}",
        arguments: "a, b",
        output: "^2..3 \n\
            ^5..6 \n\
            ^8..9 \n\
            = positional arguments are zero-based\n\
            -0..11 multiple missing formatting specifiers\n\
            ^13..14 argument never used\n\
            ^16..17 argument never used\n",
    },
    ShownRow {
        text: "{:1$}",
        arguments: "a",
        output: "^3..5 \n\
            = positional arguments are zero-based\n\
            = for information about formatting flags, visit https://doc.rust-lang.org/std/fmt/index.html\n",
    },
    ShownRow {
        text: "{:.1$}",
        arguments: "a",
        output: "^3..6 \n\
            = positional arguments are zero-based\n\
            = for information about formatting flags, visit https://doc.rust-lang.org/std/fmt/index.html\n",
    },
    ShownRow {
        text: "{:.*}",
        arguments: "w",
        output: "-3..5 this precision flag adds an extra required argument at position 0, which is why there are 2 arguments expected\n\
            -9..10 \n\
            ^1..6 \n\
            = positional arguments are zero-based\n\
            = for information about formatting flags, visit https://doc.rust-lang.org/std/fmt/index.html\n",
    },
    ShownRow {
        text: "{:.*} {}",
        arguments: "w, a",
        output: "-12..13 \n\
            -15..16 \n\
            -3..5 this precision flag adds an extra required argument at position 0, which is why there are 3 arguments expected\n\
            ^1..6 \n\
            ^7..9 \n\
            = positional arguments are zero-based\n\
            = for information about formatting flags, visit https://doc.rust-lang.org/std/fmt/index.html\n",
    },
    ShownRow {
        text: "{0:1$.2$}",
        arguments: "a, w",
        output: "^6..9 \n\
            = positional arguments are zero-based\n\
            = for information about formatting flags, visit https://doc.rust-lang.org/std/fmt/index.html\n",
    },
    ShownRow {
        text: "{1} {}",
        arguments: "a",
        output: "^2..3 \n\
            = positional arguments are zero-based\n",
    },
    ShownRow {
        text: "{1} {} {}",
        arguments: "a",
        output: "^2..3 \n\
            ^9..9 \n\
            = positional arguments are zero-based\n",
    },
    ShownRow {
        text: "{9} {9:9$} {2}",
        arguments: "a",
        output: "^13..14 \n\
            ^2..3 \n\
            ^6..7 \n\
            ^8..10 \n\
            = positional arguments are zero-based\n\
            = for information about formatting flags, visit https://doc.rust-lang.org/std/fmt/index.html\n\
            -0..16 formatting specifier missing\n\
            ^18..19 argument never used\n",
    },
    ShownRow {
        text: "{a:.*} {b:.*}",
        arguments: "w",
        output: "-17..18 \n\
            ^11..13 this precision flag adds an extra required argument at position 1, which is why there are 2 arguments expected\n\
            ^4..6 this precision flag adds an extra required argument at position 0, which is why there are 2 arguments expected\n\
            = positional arguments are zero-based\n\
            = for information about formatting flags, visit https://doc.rust-lang.org/std/fmt/index.html\n",
    },
    ShownRow {
        text: "{0} {0} {1}",
        arguments: "a",
        output: "^10..11 \n\
            = positional arguments are zero-based\n",
    },
    ShownRow {
        text: "{:65535$}",
        arguments: "1",
        output: "^3..9 \n\
            = positional arguments are zero-based\n\
            = for information about formatting flags, visit https://doc.rust-lang.org/std/fmt/index.html\n",
    },
    ShownRow {
        text: "{:>5} {}",
        arguments: "",
        output: "^1..6 \n\
            ^7..9 \n\
            = for information about formatting flags, visit https://doc.rust-lang.org/std/fmt/index.html\n",
    },
    ShownRow {
        text: "{:?} {}",
        arguments: "",
        output: "^1..5 \n\
            ^6..8 \n",
    },
    ShownRow {
        text: "{:x?} {}",
        arguments: "",
        output: "^1..6 \n\
            ^7..9 \n\
            = for information about formatting flags, visit https://doc.rust-lang.org/std/fmt/index.html\n",
    },
    ShownRow {
        text: "{:.} {}",
        arguments: "",
        output: "^1..5 \n\
            ^6..8 \n",
    },
    ShownRow {
        text: "{:-} {}",
        arguments: "",
        output: "^1..5 \n\
            ^6..8 \n\
            = for information about formatting flags, visit https://doc.rust-lang.org/std/fmt/index.html\n",
    },
    ShownRow {
        text: "{:#} {}",
        arguments: "",
        output: "^1..5 \n\
            ^6..8 \n\
            = for information about formatting flags, visit https://doc.rust-lang.org/std/fmt/index.html\n",
    },
    ShownRow {
        text: "{:05} {}",
        arguments: "",
        output: "^1..6 \n\
            ^7..9 \n\
            = for information about formatting flags, visit https://doc.rust-lang.org/std/fmt/index.html\n",
    },
    ShownRow {
        text: "{:.3} {}",
        arguments: "",
        output: "^1..6 \n\
            ^7..9 \n\
            = for information about formatting flags, visit https://doc.rust-lang.org/std/fmt/index.html\n",
    },
    ShownRow {
        text: "{:a$} {}",
        arguments: "",
        output: "^1..6 \n\
            ^7..9 \n\
            = for information about formatting flags, visit https://doc.rust-lang.org/std/fmt/index.html\n",
    },
    ShownRow {
        text: "{a:.*}",
        arguments: "",
        output: "^4..6 this precision flag adds an extra required argument at position 0, which is why there is 1 argument expected\n\
            = positional arguments are zero-based\n\
            = for information about formatting flags, visit https://doc.rust-lang.org/std/fmt/index.html\n",
    },
    ShownRow {
        text: "{0} {:.*}",
        arguments: "",
        output: "^2..3 \n\
            ^6..6 \n\
            ^7..9 \n\
            = positional arguments are zero-based\n\
            = for information about formatting flags, visit https://doc.rust-lang.org/std/fmt/index.html\n",
    },
    ShownRow {
        text: "{a:1$.2$}",
        arguments: "",
        output: "^4..6 \n\
            ^6..9 \n\
            = positional arguments are zero-based\n\
            = for information about formatting flags, visit https://doc.rust-lang.org/std/fmt/index.html\n",
    },
    ShownRow {
        text: "é{} {}",
        arguments: "1",
        output: "-11..12 \n\
            ^3..5 \n\
            ^6..8 \n",
    },
    ShownRow {
        text: "{:.*} {:.*} {}",
        arguments: "1",
        output: "-18..19 \n\
            -3..5 this precision flag adds an extra required argument at position 0, which is why there are 5 arguments expected\n\
            -9..11 this precision flag adds an extra required argument at position 2, which is why there are 5 arguments expected\n\
            ^1..6 \n\
            ^13..15 \n\
            ^7..12 \n\
            = positional arguments are zero-based\n\
            = for information about formatting flags, visit https://doc.rust-lang.org/std/fmt/index.html\n",
    },
];
