//! Theorems about the definitions alone, each as the contract of a function that does nothing.

ghost use Rattle.std.specs.Prelude.{◌≡◌};
ghost use Rattle.rustc_parse_format.specs.Types.{DiagnosticNamed, Mode};
ghost use Rattle.placeholder_check.specs.Names.{NamesAlone};

/// States that in the mode `DiagnosticNamed` placeholders use arguments by name only: if a text
/// reads as a list of pieces, each of their uses is by name. So in a report on them no index is
/// missing, and each index that is given is unused. This holds in no other mode. Does nothing.
pub fn uses_are_by_name()
    ensures named { NamesAlone DiagnosticNamed }
    ensures only { (m : Mode) → NamesAlone m → m ≡ DiagnosticNamed }
{}
