//! The kinds of the faults of a string.

ghost use Rattle.std.specs.Prelude.{◌≡◌};
ghost use Rattle.rustc_parse_format.specs.FaultViews.{seen_fault};
ghost use Rattle.text_diagnostics.specs.Ids.{text_id};

use diagnostic::Id;
use rustc_parse_format::Fault;

/// Returns the kind of a fault, whose name is the `id` of the fault. Does not allocate.
#[tactic(auto, unfolding(crate::specs::Ids::text_id))]
pub fn id_of(fault: &Fault<'_>) -> Id
    ensures { result ≡ text_id (seen_fault fault.now) }
{
    match fault {
        Fault::UnmatchedBrace(_) => Id::UnmatchedClosingBrace,
        Fault::MissingBrace(..) => Id::MissingClosingBrace,
        Fault::FillBrace(..) => Id::ClosingBraceAsFill,
        Fault::Underscore(_) => Id::UnderscoreAsName,
        Fault::TooLarge(..) => Id::IntegerTooLarge,
        Fault::Unnamed(_) => Id::UnnamedArgument,
        Fault::TextAfterColon(_) => Id::TextAfterColon,
        Fault::RawIdentifier(..) => Id::RawIdentifier,
        Fault::LateFlag(..) => Id::FlagAfterType,
        Fault::MissingColon(_) => Id::MissingColon,
        Fault::LateDebug(..) => Id::DebugBeforeColon,
        Fault::LateAlign(..) => Id::AlignmentBeforeColon,
        Fault::Grouping(..) => Id::NumericGrouping,
        Fault::DebugPrint(..) => Id::DebugEquals,
        Fault::LateSign(_) => Id::SignBeforeColon,
        Fault::FieldAccess(_) => Id::FieldAccess,
        Fault::TupleIndex(_) => Id::TupleIndex,
    }
}
