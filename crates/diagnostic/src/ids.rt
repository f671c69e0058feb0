//! The kinds of faults.

/// A kind of fault. The meaning of each is in its rule, which the crate `fault_rules` has.
#[derive(Clone, Copy, Debug, Eq, PartialEq)]
pub enum Id {
    // of a format string
    UnmatchedClosingBrace,
    MissingClosingBrace,
    ClosingBraceAsFill,
    UnderscoreAsName,
    IntegerTooLarge,
    UnnamedArgument,
    TextAfterColon,
    RawIdentifier,
    FlagAfterType,
    MissingColon,
    DebugBeforeColon,
    AlignmentBeforeColon,
    NumericGrouping,
    DebugEquals,
    SignBeforeColon,
    FieldAccess,
    TupleIndex,
    // of a call
    PositionalAfterNamed,
    RepeatedName,
    MissingName,
    UnknownTrait,
    MissingArgument,
    UnusedArgument,
    RedundantArgument,
    NameUsedByIndex,
    // of a call whose format string is not read
    MissingFormatString,
    NoStringLiteral,
    MissingComma,
    MissingExpression,
    // of inline assembly
    OperandOrder,
    RegisterName,
    WrongOperand,
    LongModifier,
    // of a text of an attribute
    SpecifierInMessage,
    PositionalInMessage,
    MissingParameter,
}

impl Id {
    ghost use Rattle.std.specs.Prelude.{◌≡◌};
    ghost use Rattle.diagnostic.specs.Ids.{name};

    /// Returns the name in kebab case, as `missing-colon`. Does not allocate.
    #[tactic(auto, unfolding(crate::specs::Ids::name))]
    pub fn name(self) -> &'static str
        ensures { result.now ≡ name self }
    {
        match self {
            Id::UnmatchedClosingBrace => "unmatched-closing-brace",
            Id::MissingClosingBrace => "missing-closing-brace",
            Id::ClosingBraceAsFill => "closing-brace-as-fill",
            Id::UnderscoreAsName => "underscore-as-name",
            Id::IntegerTooLarge => "integer-too-large",
            Id::UnnamedArgument => "unnamed-argument",
            Id::TextAfterColon => "text-after-colon",
            Id::RawIdentifier => "raw-identifier",
            Id::FlagAfterType => "flag-after-type",
            Id::MissingColon => "missing-colon",
            Id::DebugBeforeColon => "debug-before-colon",
            Id::AlignmentBeforeColon => "alignment-before-colon",
            Id::NumericGrouping => "numeric-grouping",
            Id::DebugEquals => "debug-equals",
            Id::SignBeforeColon => "sign-before-colon",
            Id::FieldAccess => "field-access",
            Id::TupleIndex => "tuple-index",
            Id::PositionalAfterNamed => "positional-after-named",
            Id::RepeatedName => "repeated-name",
            Id::MissingName => "missing-name",
            Id::UnknownTrait => "unknown-trait",
            Id::MissingArgument => "missing-argument",
            Id::UnusedArgument => "unused-argument",
            Id::RedundantArgument => "redundant-argument",
            Id::NameUsedByIndex => "name-used-by-index",
            Id::MissingFormatString => "missing-format-string",
            Id::NoStringLiteral => "no-string-literal",
            Id::MissingComma => "missing-comma",
            Id::MissingExpression => "missing-expression",
            Id::OperandOrder => "operand-order",
            Id::RegisterName => "register-name",
            Id::WrongOperand => "wrong-operand",
            Id::LongModifier => "long-modifier",
            Id::SpecifierInMessage => "specifier-in-message",
            Id::PositionalInMessage => "positional-in-message",
            Id::MissingParameter => "missing-parameter",
        }
    }
}
