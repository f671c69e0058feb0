//! The ids of faults.

ghost use Rattle.std.specs.Prelude.{◌≡◌};
ghost use Rattle.rustc_parse_format.specs.FaultIds.{fault_id};
ghost use Rattle.rustc_parse_format.specs.FaultViews.{seen_fault};

use crate::faults::Fault;

/// Returns the id of a fault.
#[tactic(auto, unfolding(crate::specs::FaultIds::fault_id))]
fn id_of(fault: &Fault<'_>) -> &'static str
    ensures { result.now ≡ fault_id (seen_fault fault.now) }
{
    match fault {
        Fault::UnmatchedBrace(_) => "unmatched-closing-brace",
        Fault::MissingBrace(..) => "missing-closing-brace",
        Fault::FillBrace(..) => "closing-brace-as-fill",
        Fault::Underscore(_) => "underscore-as-name",
        Fault::TooLarge(..) => "integer-too-large",
        Fault::Unnamed(_) => "unnamed-argument",
        Fault::TextAfterColon(_) => "text-after-colon",
        Fault::RawIdentifier(..) => "raw-identifier",
        Fault::LateFlag(..) => "flag-after-type",
        Fault::MissingColon(_) => "missing-colon",
        Fault::LateDebug(..) => "debug-before-colon",
        Fault::LateAlign(..) => "alignment-before-colon",
        Fault::Grouping(..) => "numeric-grouping",
        Fault::DebugPrint(..) => "debug-equals",
        Fault::LateSign(_) => "sign-before-colon",
        Fault::FieldAccess(_) => "field-access",
        Fault::TupleIndex(_) => "tuple-index",
    }
}

impl Fault<'_> {
    ghost use Rattle.std.specs.Prelude.{◌≡◌};
    ghost use Rattle.rustc_parse_format.specs.FaultIds.{fault_id, kind};
    ghost use Rattle.rustc_parse_format.specs.Faults.{Fault as FaultValue};
    ghost use Rattle.rustc_parse_format.specs.FaultViews.{seen_fault};
    ghost use Rattle.rustc_parse_format.specs.World.{Place};

    /// Returns the id of the fault in kebab case, such as `missing-closing-brace`: the same for all
    /// faults of a kind, and another for each kind. Does not allocate.
    #[tactic(auto, using(crate::proofs::FaultIds::one_kind))]
    pub fn id(&self) -> &'static str
        ensures id { result.now ≡ fault_id (seen_fault self.now) }
        ensures one_kind { (f : FaultValue Place) → fault_id f ≡ result.now
            → kind f ≡ kind (seen_fault self.now) }
    {
        id_of(self)
    }
}
