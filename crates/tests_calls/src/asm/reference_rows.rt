//! Calls of `asm!` in which a placeholder refers to no operand.

use super::rows::Row;

/// The output of `rustc --edition 2021 --error-format=json` for `asm!(CALL)`, for x86-64 and
/// without its words on registers and types. `x` and `y` are variables.
pub const REFERENCES: &[Row] = &[
    Row {
        call: "\"{}\", \"{}\", in(reg) x",
        output: "invalid reference to argument at index 1\n\
            ^7..9 from here\n\
            = there is 1 argument\n",
    },
    Row {
        call: "\"{0}\", in(\"eax\") x",
        output: "invalid reference to argument at index 0\n\
            -7..18 explicit register argument\n\
            ^1..4 from here\n\
            = no positional arguments were given\n\
            = explicit register arguments cannot be used in the asm template 7..18\n\
            ? use the register name directly in the assembly code 7..18\n",
    },
    Row {
        call: "\"{a}\", in(reg) x",
        output: "there is no argument named `a`\n\
            ^2..3 \n\
            argument never used\n\
            ^7..16 argument never used\n\
            ? if this argument is intentionally unused, consider using it in an asm comment: `\"/* \
            {0} */\"`\n",
    },
    Row {
        call: "\"{}\", a = in(reg) x",
        output: "invalid reference to argument at index 0\n\
            -6..19 named argument\n\
            ^1..3 from here\n\
            = no positional arguments were given\n\
            = named arguments cannot be referenced by position 6..19\n\
            named argument never used\n\
            ^6..19 named argument never used\n\
            ? if this argument is intentionally unused, consider using it in an asm comment: `\"/* \
            {a} */\"`\n",
    },
    Row {
        call: "\"{} {3} {z}\", \"{0:eax}\", in(reg) x, in(reg) y",
        output: "invalid reference to argument at index 3\n\
            ^4..7 from here\n\
            = there are 2 arguments\n\
            there is no argument named `z`\n\
            ^9..10 \n\
            asm template modifier must be a single character\n\
            ^18..21 \n\
            argument never used\n\
            ^36..45 argument never used\n\
            ? if this argument is intentionally unused, consider using it in an asm comment: `\"/* \
            {1} */\"`\n",
    },
    Row {
        call: "\"{9:eax}\", in(reg) x",
        output: "invalid reference to argument at index 9\n\
            ^1..8 from here\n\
            = there is 1 argument\n\
            asm template modifier must be a single character\n\
            ^4..7 \n\
            argument never used\n\
            ^11..20 argument never used\n\
            ? if this argument is intentionally unused, consider using it in an asm comment: `\"/* \
            {0} */\"`\n",
    },
    Row {
        call: "\"{0} {1}\", in(reg) x, a = const 5",
        output: "invalid reference to argument at index 1\n\
            -22..33 named argument\n\
            ^5..8 from here\n\
            = there is 1 positional argument\n\
            = named arguments cannot be referenced by position 22..33\n\
            named argument never used\n\
            ^22..33 named argument never used\n\
            ? if this argument is intentionally unused, consider using it in an asm comment: `\"/* \
            {a} */\"`\n",
    },
    Row {
        call: "\"{} {}\", \"{}\", in(reg) x, in(reg) y",
        output: "invalid reference to argument at index 2\n\
            ^10..12 from here\n\
            = there are 2 arguments\n",
    },
    Row {
        call: "\"{x}\"",
        output: "there is no argument named `x`\n\
            ^2..3 \n",
    },
    Row {
        call: "\"{0}\"",
        output: "invalid reference to argument at index 0\n\
            ^1..4 from here\n\
            = no arguments were given\n",
    },
    Row {
        call: "\"{0} {0}\"",
        output: "invalid reference to argument at index 0\n\
            ^1..4 from here\n\
            = no arguments were given\n\
            invalid reference to argument at index 0\n\
            ^5..8 from here\n\
            = no arguments were given\n",
    },
    Row {
        call: "\"{q} {q}\"",
        output: "there is no argument named `q`\n\
            ^2..3 \n\
            there is no argument named `q`\n\
            ^6..7 \n",
    },
    Row {
        call: "\"{a} {0}\", a = in(reg) x, b = in(reg) y",
        output: "invalid reference to argument at index 0\n\
            -11..24 named argument\n\
            ^5..8 from here\n\
            = no positional arguments were given\n\
            = named arguments cannot be referenced by position 11..24\n\
            named argument never used\n\
            ^26..39 named argument never used\n\
            ? if this argument is intentionally unused, consider using it in an asm comment: `\"/* \
            {b} */\"`\n",
    },
    Row {
        call: "\"{}\", \"{}{}\", \"{1}\", in(reg) x, in(reg) y, out(\"eax\") _",
        output: "invalid reference to argument at index 2\n\
            -43..55 explicit register argument\n\
            ^9..11 from here\n\
            = there are 2 positional arguments\n\
            = explicit register arguments cannot be used in the asm template 43..55\n\
            ? use the register name directly in the assembly code 43..55\n",
    },
    Row {
        call: "\"{a} {b} {c}\", a = in(reg) x, b = const 1",
        output: "there is no argument named `c`\n\
            ^10..11 \n",
    },
    Row {
        call: "\"{a:rr}\", \"{:rr}\", \"{9:rr} {q:rr}\", in(reg) x",
        output: "there is no argument named `a`\n\
            ^2..3 \n\
            asm template modifier must be a single character\n\
            ^4..6 \n\
            asm template modifier must be a single character\n\
            ^13..15 \n\
            invalid reference to argument at index 9\n\
            ^20..26 from here\n\
            = there is 1 argument\n\
            asm template modifier must be a single character\n\
            ^23..25 \n\
            there is no argument named `q`\n\
            ^28..29 \n\
            asm template modifier must be a single character\n\
            ^30..32 \n",
    },
    Row {
        call: "\"mov {}\", \"add {}\", in(\"eax\") x, b = in(reg) y",
        output: "invalid reference to argument at index 0\n\
            -20..31 explicit register argument\n\
            ^5..7 from here\n\
            = no positional arguments were given\n\
            = explicit register arguments cannot be used in the asm template 20..31\n\
            ? use the register name directly in the assembly code 20..31\n\
            invalid reference to argument at index 1\n\
            -33..46 named argument\n\
            ^15..17 from here\n\
            = no positional arguments were given\n\
            = named arguments cannot be referenced by position 33..46\n\
            named argument never used\n\
            ^33..46 named argument never used\n\
            ? if this argument is intentionally unused, consider using it in an asm comment: `\"/* \
            {b} */\"`\n",
    },
    Row {
        call: "\"é{}é{7}é{z}é{:zz}\", in(reg) x",
        output: "invalid reference to argument at index 7\n\
            ^7..10 from here\n\
            = there is 1 argument\n\
            there is no argument named `z`\n\
            ^13..14 \n\
            invalid reference to argument at index 1\n\
            ^17..22 from here\n\
            = there is 1 argument\n\
            asm template modifier must be a single character\n\
            ^19..21 \n",
    },
    Row {
        call: "\"{}\", \"{0}\", \"{}\", in(reg) x",
        output: "invalid reference to argument at index 1\n\
            ^14..16 from here\n\
            = there is 1 argument\n",
    },
    Row {
        call: "\"{a:}\"",
        output: "there is no argument named `a`\n\
            ^2..3 \n",
    },
    Row {
        call: "\"{} {} {}\", in(reg) x, in(reg) y",
        output: "invalid reference to argument at index 2\n\
            ^7..9 from here\n\
            = there are 2 arguments\n",
    },
];
