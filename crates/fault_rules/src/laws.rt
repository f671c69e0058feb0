//! Laws about the rules, and about the ids and the labels by which programs find suggestions.

ghost use Rattle.std.specs.Prelude.{◌≡◌, Some, false, filter, map, true};
ghost use Rattle.std.specs.List.{list_any};
ghost use Rattle.asm_faults.specs.AsmFaults.{AsmFault};
ghost use Rattle.asm_faults.specs.Words.{asm_id};
ghost use Rattle.call_faults.specs.CallFaults.{CallFault};
ghost use Rattle.call_faults.specs.Words.{call_id};
ghost use Rattle.diagnostic.specs.Ids.{name};
ghost use Rattle.diagnostic.specs.Suggestions.{is_applied, label_text};
ghost use Rattle.diagnostic.specs.declared.ids.Id.{Id};
ghost use Rattle.fault_rules.specs.Rules.{ids, is_id};
ghost use Rattle.fault_rules.specs.Suggestions.{is_shown, label_suggestion, needs_arguments};
ghost use Rattle.rustc_parse_format.specs.FaultIds.{fault_id};
ghost use Rattle.rustc_parse_format.specs.Faults.{Fault};
ghost use Rattle.rustc_parse_format.specs.World.{Place};
ghost use Rattle.source_report.specs.Suggestions.{is_applicable, suggestion_of};
ghost use Rattle.text_diagnostics.specs.Suggestions.{suggestions_of};

/// Each kind of fault has a rule with its name. The kind of a fault of a text of an attribute is
/// one of these.
pub fn each_kind_has_a_rule()
    ensures { (k : Id) → is_id (name k) ids ≡ true }
{}

/// Each fault of a call, also one of its format string, has a rule with its id.
pub fn each_fault_has_a_rule()
    ensures { (f : CallFault) → is_id (call_id f) ids ≡ true }
{}

/// Each fault of inline assembly, also one of a template, has a rule with its id.
pub fn each_asm_fault_has_a_rule()
    ensures { (f : AsmFault) → is_id (asm_id f) ids ≡ true }
{}

/// A fault of a string has a suggestion that a program applies exactly if its id is that of such
/// faults. Only a fault for whose suggestion the arguments of the call count may be another one.
pub fn applied_by_id()
    ensures { (f : Fault Place) → needs_arguments f ≡ false
        → list_any is_applied (suggestions_of f) ≡ is_applicable (fault_id f) }
{}

/// Each suggestion for a fault of a string that is shown as a label is found by the text of that
/// label.
pub fn found_by_label()
    ensures { (f : Fault Place)
        → map (λ s. suggestion_of (label_text s)) (filter is_shown (suggestions_of f))
        ≡ map (λ s. Some (label_suggestion s)) (filter is_shown (suggestions_of f)) }
{}
