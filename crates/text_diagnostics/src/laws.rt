//! Laws about what is said of faults.

ghost use Rattle.std.specs.Prelude.{◌≡◌};
ghost use Rattle.diagnostic.specs.Ids.{name};
ghost use Rattle.rustc_parse_format.specs.FaultIds.{fault_id};
ghost use Rattle.rustc_parse_format.specs.Faults.{Fault};
ghost use Rattle.rustc_parse_format.specs.World.{Place};
ghost use Rattle.text_diagnostics.specs.Ids.{text_id};

/// The name of the kind of a fault is the id that the parser gives the fault.
pub fn names_are_ids()
    ensures { (f : Fault Place) → name (text_id f) ≡ fault_id f }
{}
