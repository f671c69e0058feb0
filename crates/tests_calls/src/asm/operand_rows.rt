//! Calls of `asm!` with a fault in the list of operands, or with operands that are not used.

use super::rows::Row;

/// The output of `rustc --edition 2021 --error-format=json` for `asm!(CALL)`, for x86-64 and
/// without its words on registers and types. `x` and `y` are variables.
pub const OPERANDS: &[Row] = &[
    Row {
        call: "\"nop\", in(reg) x",
        output: "argument never used\n\
            ^7..16 argument never used\n\
            ? if this argument is intentionally unused, consider using it in an asm comment: `\"/* \
            {0} */\"`\n",
    },
    Row {
        call: "\"nop\", a = in(reg) x",
        output: "named argument never used\n\
            ^7..20 named argument never used\n\
            ? if this argument is intentionally unused, consider using it in an asm comment: `\"/* \
            {a} */\"`\n",
    },
    Row {
        call: "\"nop\", in(reg) x, in(reg) y",
        output: "multiple unused asm arguments\n\
            ^18..27 argument never used\n\
            ^7..16 argument never used\n\
            ? if these arguments are intentionally unused, consider using them in an asm comment: \
            `\"/* {0} {1} */\"`\n",
    },
    Row {
        call: "\"nop\", in(reg) x, b = in(reg) y, in(\"eax\") 1",
        output: "multiple unused asm arguments\n\
            ^18..31 named argument never used\n\
            ^7..16 argument never used\n\
            ? if these arguments are intentionally unused, consider using them in an asm comment: \
            `\"/* {0} {b} */\"`\n",
    },
    Row {
        call: "\"{a}\", a = in(reg) x, a = in(reg) y",
        output: "duplicate argument named `a`\n\
            -7..20 previously here\n\
            ^22..35 duplicate argument\n\
            argument never used\n\
            ^22..35 argument never used\n\
            ? if this argument is intentionally unused, consider using it in an asm comment: `\"/* \
            {1} */\"`\n",
    },
    Row {
        call: "\"{a} {1}\", a = in(reg) x, a = in(reg) y",
        output: "duplicate argument named `a`\n\
            -11..24 previously here\n\
            ^26..39 duplicate argument\n",
    },
    Row {
        call: "\"{a} {a2} {1}\", a = in(reg) x, in(reg) y, in(reg) x, a2 = in(reg) y",
        output: "positional arguments cannot follow named arguments or explicit register \
            arguments\n\
            -16..29 named argument\n\
            ^31..40 positional argument\n\
            positional arguments cannot follow named arguments or explicit register arguments\n\
            -16..29 named argument\n\
            ^42..51 positional argument\n\
            argument never used\n\
            ^42..51 argument never used\n\
            ? if this argument is intentionally unused, consider using it in an asm comment: `\"/* \
            {2} */\"`\n",
    },
    Row {
        call: "\"{0}\", in(\"eax\") x, in(reg) y",
        output: "positional arguments cannot follow named arguments or explicit register \
            arguments\n\
            -7..18 explicit register argument\n\
            ^20..29 positional argument\n\
            invalid reference to argument at index 0\n\
            -7..18 explicit register argument\n\
            ^1..4 from here\n\
            = there is 1 positional argument\n\
            = explicit register arguments cannot be used in the asm template 7..18\n\
            ? use the register name directly in the assembly code 7..18\n\
            argument never used\n\
            ^20..29 argument never used\n\
            ? if this argument is intentionally unused, consider using it in an asm comment: `\"/* \
            {1} */\"`\n",
    },
    Row {
        call: "\"{0} {1}\", a = in(reg) x, in(\"ebx\") x, in(reg) y, in(reg) y",
        output: "positional arguments cannot follow named arguments or explicit register \
            arguments\n\
            -11..24 named argument\n\
            -26..37 explicit register argument\n\
            ^39..48 positional argument\n\
            positional arguments cannot follow named arguments or explicit register arguments\n\
            -11..24 named argument\n\
            -26..37 explicit register argument\n\
            ^50..59 positional argument\n\
            invalid reference to argument at index 0\n\
            -11..24 named argument\n\
            ^1..4 from here\n\
            = there are 2 positional arguments\n\
            = named arguments cannot be referenced by position 11..24\n\
            invalid reference to argument at index 1\n\
            -26..37 explicit register argument\n\
            ^5..8 from here\n\
            = there are 2 positional arguments\n\
            = explicit register arguments cannot be used in the asm template 26..37\n\
            ? use the register name directly in the assembly code 26..37\n\
            multiple unused asm arguments\n\
            ^11..24 named argument never used\n\
            ^39..48 argument never used\n\
            ^50..59 argument never used\n\
            ? if these arguments are intentionally unused, consider using them in an asm comment: \
            `\"/* {a} {2} {3} */\"`\n",
    },
    Row {
        call: "\"{a}\", a = in(\"eax\") x",
        output: "explicit register arguments cannot have names\n\
            ^7..22 \n\
            there is no argument named `a`\n\
            ^2..3 \n",
    },
    Row {
        call: "\"{a}\", \"{b\", \"{c}\", a = in(reg) x, a = in(reg) y",
        output: "duplicate argument named `a`\n\
            -20..33 previously here\n\
            ^35..48 duplicate argument\n\
            invalid asm template string: expected `}` but string was terminated\n\
            -8..9 because of this opening brace\n\
            ^10..10 expected `}` in asm template string\n\
            = if you intended to print `{`, you can escape it using `{{`\n",
    },
    Row {
        call: "\"{0}\", a = in(\"ecx\") x",
        output: "explicit register arguments cannot have names\n\
            ^7..22 \n\
            invalid reference to argument at index 0\n\
            -7..22 explicit register argument\n\
            ^1..4 from here\n\
            = no positional arguments were given\n\
            = explicit register arguments cannot be used in the asm template 7..22\n\
            ? use the register name directly in the assembly code 7..22\n",
    },
    Row {
        call: "\"{b}{a}\", a = in(reg) x, a = in(reg) y, b = in(reg) x, b = in(reg) y",
        output: "duplicate argument named `a`\n\
            -10..23 previously here\n\
            ^25..38 duplicate argument\n\
            duplicate argument named `b`\n\
            -40..53 previously here\n\
            ^55..68 duplicate argument\n\
            multiple unused asm arguments\n\
            ^25..38 argument never used\n\
            ^55..68 argument never used\n\
            ? if these arguments are intentionally unused, consider using them in an asm comment: \
            `\"/* {1} {3} */\"`\n",
    },
    Row {
        call: "\"{0}{1}{2}{3}\", a = in(reg) x, in(\"eax\") y, in(reg) x, a = in(reg) y",
        output: "positional arguments cannot follow named arguments or explicit register \
            arguments\n\
            -16..29 named argument\n\
            -31..42 explicit register argument\n\
            ^44..53 positional argument\n\
            duplicate argument named `a`\n\
            -16..29 previously here\n\
            ^55..68 duplicate argument\n\
            invalid reference to argument at index 0\n\
            -16..29 named argument\n\
            ^1..4 from here\n\
            = there are 2 positional arguments\n\
            = named arguments cannot be referenced by position 16..29\n\
            invalid reference to argument at index 1\n\
            -31..42 explicit register argument\n\
            ^4..7 from here\n\
            = there are 2 positional arguments\n\
            = explicit register arguments cannot be used in the asm template 31..42\n\
            ? use the register name directly in the assembly code 31..42\n\
            named argument never used\n\
            ^16..29 named argument never used\n\
            ? if this argument is intentionally unused, consider using it in an asm comment: `\"/* \
            {a} */\"`\n",
    },
    Row {
        call: "\"{1}{1}\", in(reg) x, in(reg) y",
        output: "argument never used\n\
            ^10..19 argument never used\n\
            ? if this argument is intentionally unused, consider using it in an asm comment: `\"/* \
            {0} */\"`\n",
    },
];
