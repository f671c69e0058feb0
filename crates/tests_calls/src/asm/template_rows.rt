//! Calls of `asm!` with a fault of a template, or without a fault.

use super::rows::Row;

/// The output of `rustc --edition 2021 --error-format=json` for `asm!(CALL)`, for x86-64 and
/// without its words on registers and types. `x` and `y` are variables.
pub const TEMPLATES: &[Row] = &[
    Row {
        call: "\"{\", \"{}\", in(reg) x, in(reg) y",
        output: "invalid asm template string: expected `}` but string was terminated\n\
            -1..2 because of this opening brace\n\
            ^2..2 expected `}` in asm template string\n\
            = if you intended to print `{`, you can escape it using `{{`\n",
    },
    Row {
        call: "\"{}\", \"{\", in(reg) x, in(reg) y",
        output: "invalid asm template string: expected `}` but string was terminated\n\
            -7..8 because of this opening brace\n\
            ^8..8 expected `}` in asm template string\n\
            = if you intended to print `{`, you can escape it using `{{`\n",
    },
    Row {
        call: "\"{0:eax}\", in(reg) x",
        output: "asm template modifier must be a single character\n\
            ^4..7 \n",
    },
    Row {
        call: "\"{0:eax} {9}\", in(reg) x",
        output: "asm template modifier must be a single character\n\
            ^4..7 \n\
            invalid reference to argument at index 9\n\
            ^9..12 from here\n\
            = there is 1 argument\n",
    },
    Row {
        call: "\"{0}\", \"{}\", \"{}\", in(reg) x, in(reg) y",
        output: "",
    },
    Row {
        call: "\"{:.*} {}\", in(reg) x, in(reg) y",
        output: "invalid asm template string: expected `}`, found `.`\n\
            -1..2 because of this opening brace\n\
            ^3..3 expected `}` in asm template string\n\
            = if you intended to print `{`, you can escape it using `{{`\n",
    },
    Row {
        call: "\"{0:?}\", in(reg) x",
        output: "invalid asm template string: expected `}`, found `?`\n\
            ^4..5 expected `:` before `?` to format with `Debug` in asm template string\n\
            = to print `{`, you can escape it using `{{`\n",
    },
    Row {
        call: "\"{0:}\", in(reg) x",
        output: "",
    },
    Row {
        call: "\"{r#a}\", r#a = in(reg) x",
        output: "invalid asm template string: raw identifiers are not supported\n\
            ^2..5 raw identifier used here in asm template string\n\
            = identifiers in format strings can be keywords and don't need to be prefixed with \
            `r#`\n",
    },
    Row {
        call: "\"{a}\", r#a = in(reg) x",
        output: "",
    },
    Row {
        call: "\"{0}\", sym main",
        output: "",
    },
    Row {
        call: "\"{0} {}\", in(reg) x, in(\"al\") y, lateout(\"cl\") _",
        output: "",
    },
    Row {
        call: "\"{}}\", in(reg) x",
        output: "invalid asm template string: unmatched `}` found\n\
            ^3..4 unmatched `}` in asm template string\n\
            = if you intended to print `}`, you can escape it using `}}`\n",
    },
    Row {
        call: "\"é{}é{\", in(reg) x",
        output: "invalid asm template string: expected `}` but string was terminated\n\
            -7..8 because of this opening brace\n\
            ^8..8 expected `}` in asm template string\n\
            = if you intended to print `{`, you can escape it using `{{`\n",
    },
    Row {
        call: "\"nop\"",
        output: "",
    },
    Row {
        call: "\"nop\", in(\"eax\") x",
        output: "",
    },
    Row {
        call: "\"{a.b}\"",
        output: "invalid asm template string: field access isn't supported\n\
            ^2..5 not supported in asm template string\n\
            = consider moving this expression to a local variable and then using the local here \
            instead\n",
    },
    Row {
        call: "\"{_}\"",
        output: "invalid asm template string: invalid argument name `_`\n\
            ^2..3 invalid argument name in asm template string\n\
            = argument name cannot be a single underscore\n",
    },
    Row {
        call: "\"{65536}\"",
        output: "invalid asm template string: integer `65536` does not fit into the type `u16` whose \
            range is `0..=65535`\n\
            ^2..8 integer out of range for `u16` in asm template string\n",
    },
    Row {
        call: "\"{a:{}}\"",
        output: "invalid asm template string: expected `}`, found `{`\n\
            -1..2 because of this opening brace\n\
            ^4..4 expected `}` in asm template string\n\
            = if you intended to print `{`, you can escape it using `{{`\n",
    },
    Row {
        call: "\"{ 0 }\", in(reg) x",
        output: "invalid asm template string: expected `}`, found `0`\n\
            -1..2 because of this opening brace\n\
            ^3..3 expected `}` in asm template string\n\
            = if you intended to print `{`, you can escape it using `{{`\n",
    },
];
