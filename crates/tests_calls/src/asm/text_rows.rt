//! Texts of attributes, with the words of rustc 1.95 for them.

/// A text of an attribute, and the words of rustc for it.
#[derive(Clone, Copy)]
pub struct TextRow {
    /// The literal.
    pub literal: &'static str,
    /// The text that it stands for.
    pub text: &'static str,
    /// Of each fault its title, its labels, whose lines are sorted, and its help, each on a line,
    /// and the faults are sorted. Byte ranges count from the start of the literal. A label has the
    /// sign `^` or `-`, its range and its text, and a help has `?`.
    pub output: &'static str,
}

/// The output of `rustc --edition 2021 --error-format=json` for
/// `#[diagnostic::on_unimplemented(message = LITERAL)] pub trait T<A, B: Copy, const N: usize> {}`.
pub const TEXT_ROWS: [TextRow; 27] = [
    TextRow {
        literal: "\"{\"",
        text: "{",
        output: "expected `}` but string was terminated\n\
            -2..2 expected `}`\n\
            ^0..3 \n",
    },
    TextRow {
        literal: "\"}\"",
        text: "}",
        output: "unmatched `}` found\n\
            -1..2 unmatched `}`\n\
            ^0..3 \n",
    },
    TextRow {
        literal: "\"{Self} {}\"",
        text: "{Self} {}",
        output: "positional format arguments are not allowed here\n\
            ^9..9 \n\
            ? only named format arguments with the name of one of the generic types are allowed in \
            this context\n",
    },
    TextRow {
        literal: "\"{0}\"",
        text: "{0}",
        output: "positional format arguments are not allowed here\n\
            ^2..3 \n\
            ? only named format arguments with the name of one of the generic types are allowed in \
            this context\n",
    },
    TextRow {
        literal: "\"{A:?}\"",
        text: "{A:?}",
        output: "invalid format specifier\n\
            ^3..5 \n\
            ? no format specifier are supported in this position\n",
    },
    TextRow {
        literal: "\"{Z}\"",
        text: "{Z}",
        output: "there is no parameter `Z` on trait `T`\n\
            ^2..3 \n\
            ? expect either a generic argument name or `{Self}` as format argument\n",
    },
    TextRow {
        literal: "r\"{\"",
        text: "{",
        output: "expected `}` but string was terminated\n\
            -4..4 expected `}`\n\
            ^0..4 \n",
    },
    TextRow {
        literal: "\"{Self} {A}} x\"",
        text: "{Self} {A}} x",
        output: "unmatched `}` found\n\
            -11..12 unmatched `}`\n\
            ^0..15 \n",
    },
    TextRow {
        literal: "\"{A:?} {Z:x} {}\"",
        text: "{A:?} {Z:x} {}",
        output: "invalid format specifier\n\
            ^3..5 \n\
            ? no format specifier are supported in this position\n\
            invalid format specifier\n\
            ^9..11 \n\
            ? no format specifier are supported in this position\n\
            positional format arguments are not allowed here\n\
            ^14..14 \n\
            ? only named format arguments with the name of one of the generic types are allowed in \
            this context\n\
            there is no parameter `Z` on trait `T`\n\
            ^8..9 \n\
            ? expect either a generic argument name or `{Self}` as format argument\n",
    },
    TextRow {
        literal: "\"{Self} {A} {B} {N}\"",
        text: "{Self} {A} {B} {N}",
        output: "",
    },
    TextRow {
        literal: "\"{ A } {Self }\"",
        text: "{ A } {Self }",
        output: "expected `}`, found `A`\n\
            -3..3 expected `}`\n\
            ^0..15 \n",
    },
    TextRow {
        literal: "\"{{}} {Z}\"",
        text: "{{}} {Z}",
        output: "there is no parameter `Z` on trait `T`\n\
            ^7..8 \n\
            ? expect either a generic argument name or `{Self}` as format argument\n",
    },
    TextRow {
        literal: "\"{This} {Trait} {ItemContext}\"",
        text: "{This} {Trait} {ItemContext}",
        output: "there is no parameter `ItemContext` on trait `T`\n\
            ^17..28 \n\
            ? expect either a generic argument name or `{Self}` as format argument\n\
            there is no parameter `This` on trait `T`\n\
            ^2..6 \n\
            ? expect either a generic argument name or `{Self}` as format argument\n\
            there is no parameter `Trait` on trait `T`\n\
            ^9..14 \n\
            ? expect either a generic argument name or `{Self}` as format argument\n",
    },
    TextRow {
        literal: "r\"{Z} {:x}\"",
        text: "{Z} {:x}",
        output: "invalid format specifier\n\
            ^0..11 \n\
            ? no format specifier are supported in this position\n\
            positional format arguments are not allowed here\n\
            ^0..11 \n\
            ? only named format arguments with the name of one of the generic types are allowed in \
            this context\n\
            there is no parameter `Z` on trait `T`\n\
            ^0..11 \n\
            ? expect either a generic argument name or `{Self}` as format argument\n",
    },
    TextRow {
        literal: "r#\"{A}} \"#",
        text: "{A}} ",
        output: "unmatched `}` found\n\
            -4..5 unmatched `}`\n\
            ^0..10 \n",
    },
    TextRow {
        literal: "\"\\t{Z} {A:}\"",
        text: "\t{Z} {A:}",
        output: "invalid format specifier\n\
            ^9..10 \n\
            ? no format specifier are supported in this position\n\
            there is no parameter `Z` on trait `T`\n\
            ^4..5 \n\
            ? expect either a generic argument name or `{Self}` as format argument\n",
    },
    TextRow {
        literal: "\"\\t{A}} \"",
        text: "\t{A}} ",
        output: "unmatched `}` found\n\
            -6..7 unmatched `}`\n\
            ^0..9 \n",
    },
    TextRow {
        literal: "\"{r#A}\"",
        text: "{r#A}",
        output: "raw identifiers are not supported\n\
            -2..5 raw identifier used here\n\
            ^0..7 \n",
    },
    TextRow {
        literal: "\"{A.b}\"",
        text: "{A.b}",
        output: "field access isn't supported\n\
            -2..5 not supported\n\
            ^0..7 \n",
    },
    TextRow {
        literal: "\"{_}\"",
        text: "{_}",
        output: "invalid argument name `_`\n\
            -2..3 invalid argument name\n\
            ^0..5 \n",
    },
    TextRow {
        literal: "\"{A:{}}\"",
        text: "{A:{}}",
        output: "expected `}`, found `{`\n\
            -4..4 expected `}`\n\
            ^0..8 \n",
    },
    TextRow {
        literal: "\"{:?}\"",
        text: "{:?}",
        output: "invalid format specifier\n\
            ^2..4 \n\
            ? no format specifier are supported in this position\n\
            positional format arguments are not allowed here\n\
            ^2..2 \n\
            ? only named format arguments with the name of one of the generic types are allowed in \
            this context\n",
    },
    TextRow {
        literal: "\"{a}\"",
        text: "{a}",
        output: "there is no parameter `a` on trait `T`\n\
            ^2..3 \n\
            ? expect either a generic argument name or `{Self}` as format argument\n",
    },
    TextRow {
        literal: "\"é{é} {Z}é {:é}\"",
        text: "é{é} {Z}é {:é}",
        output: "invalid format specifier\n\
            ^15..18 \n\
            ? no format specifier are supported in this position\n\
            positional format arguments are not allowed here\n\
            ^15..15 \n\
            ? only named format arguments with the name of one of the generic types are allowed in \
            this context\n\
            there is no parameter `Z` on trait `T`\n\
            ^9..10 \n\
            ? expect either a generic argument name or `{Self}` as format argument\n\
            there is no parameter `é` on trait `T`\n\
            ^4..6 \n\
            ? expect either a generic argument name or `{Self}` as format argument\n",
    },
    TextRow {
        literal: "\"{A?}\"",
        text: "{A?}",
        output: "expected `}`, found `?`\n\
            -3..4 expected `:` before `?` to format with `Debug`\n\
            ^0..6 \n",
    },
    TextRow {
        literal: "\"{A:?#}\"",
        text: "{A:?#}",
        output: "invalid format specifier\n\
            ^3..6 \n\
            ? no format specifier are supported in this position\n",
    },
    TextRow {
        literal: "\"\"",
        text: "",
        output: "",
    },
];
