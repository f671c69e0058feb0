//! Theorems about the definitions alone, each as the contract of a function that does nothing.
//!
//! Each says what the edit of a suggestion does to a placeholder: of the faults of all calls from
//! its opening brace on, exactly the own faults of the suggestion go. The others stay, with their
//! spans, and no other comes. The premises are those without which this is false.

ghost use Rattle.std.specs.Prelude.{◌≡◌, ◌++◌, ℕ, IsTrue, IsFalse, [], ◌∷◌, codes, length};
ghost use Rattle.rustc_parse_format.specs.Characters.{Text, begins_raw, after_word, first_passes};
ghost use Rattle.rustc_parse_format.specs.Characters.{begins_with, is_id_start};
ghost use Rattle.rustc_parse_format.specs.Faults.{RawIdentifier};
ghost use Rattle.rustc_parse_format.specs.Marks.{span_through, up_to};
ghost use Rattle.rustc_parse_format.specs.Types.{Diagnostic, Format, Mode};
ghost use Rattle.rustc_parse_format.specs.Placeholder.{cut};
ghost use Rattle.rustc_parse_format.specs.Specification.{alternate_at, type_at};
ghost use Rattle.fault_fixes.specs.Fixing.{all_faults};
ghost use Rattle.fault_fixes.specs.Losing.{LosesOnly, MovesFlag, colon_faults, colon_moves};
ghost use Rattle.fault_fixes.specs.Losing.{moved_span};

/// States what the removal of an `r#` does, in each mode: only the fault of the raw identifier
/// goes. The text that follows the `r#` begins with a word that is no raw identifier. Does nothing.
pub fn remove_raw_ident()
    ensures { (mode : Mode) (c : ℕ) (t : Text) → IsTrue (first_passes is_id_start t)
        → IsFalse (begins_raw t)
        → LosesOnly (RawIdentifier (up_to (codes "r#" ++ t) (after_word t))
        (span_through (codes "r#" ++ t) (codes "#" ++ t)) ∷ []) (moved_span (length t) 2 0)
        (all_faults mode c (codes "{r#" ++ t)) (all_faults mode c (codes "{" ++ t)) }
{}

/// States what the insertion of a colon does, in the modes `Format` and `Diagnostic`: in a field
/// that is a position and white space alone, before a `?` with a closing brace after it and no
/// second one. The fault of the missing colon goes, with those of the missing brace and of the
/// brace that then closes nothing. Does nothing.
pub fn add_missing_colon()
    ensures format { (c : ℕ) (u r : Text) → (cut Format u).spec_at ≡ []
        → IsFalse (begins_with 125 r)
        → LosesOnly (colon_faults u r) (colon_moves r)
        (all_faults Format c (codes "{" ++ (u ++ (codes "?}" ++ r))))
        (all_faults Format c (codes "{" ++ (u ++ (codes ":?}" ++ r)))) }
    ensures diagnostic { (c : ℕ) (u r : Text) → (cut Diagnostic u).spec_at ≡ []
        → IsFalse (begins_with 125 r)
        → LosesOnly (colon_faults u r) (colon_moves r)
        (all_faults Diagnostic c (codes "{" ++ (u ++ (codes "?}" ++ r))))
        (all_faults Diagnostic c (codes "{" ++ (u ++ (codes ":?}" ++ r)))) }
{}

/// States what it does to move a flag in front of the type `?`, in the mode `Format`: the fault of
/// the late flag goes, with those of the missing brace and of the brace that then closes nothing.
/// The flags `x` and `X` may follow all parts before the type; before the flag `#` are at most a
/// fill, an alignment and a sign. Does nothing.
pub fn reorder_format_parameter()
    // the flags `#`, `x` and `X`
    ensures number_sign { MovesFlag 35 (λ s. alternate_at s) }
    ensures lower_hex { MovesFlag 120 (λ s. type_at s) }
    ensures upper_hex { MovesFlag 88 (λ s. type_at s) }
{}
