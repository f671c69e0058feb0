//! The format string, and the fault of it that rustc shows.

ghost use Rattle.std.specs.Prelude.{◌≡◌, [], IfOk, List, ◌++◌, ◌∷◌, map, option_map};
ghost use Rattle.rustc_parse_format.specs.Faults.{Fault as FaultValue};
ghost use Rattle.rustc_parse_format.specs.FaultViews.{seen_fault};
ghost use Rattle.rustc_parse_format.specs.State.{calls};
ghost use Rattle.rustc_parse_format.specs.World.{Place, faults_in};
ghost use Rattle.text_faults.specs.Texts.{first_faults, shown_fault as fault_shown, text_fault};

use rustc_parse_format::{Argument, Fault, Parser};
use std::alloc::{AllocError, Global};

/// Returns the fault that is shown of those of a call up to `fault`, where `choice` is that of
/// those before it.
fn choose<'a>(choice: Option<Fault<'a>>, fault: Fault<'a>) -> Option<Fault<'a>>
    ensures { (fs : List (FaultValue Place)) → option_map seen_fault choice.entry ≡ fault_shown fs
        → option_map seen_fault result ≡ fault_shown (fs ++ seen_fault fault.entry ∷ []) }
{
    if choice.is_some() && !fault.is_front() {
        choice
    } else {
        Some(fault)
    }
}

/// Returns of the faults of a call the one whose error comes first in the list of a parser, or
/// `None` if there is none.
fn shown_fault(faults: Vec<Fault<'_>>) -> Option<Fault<'_>>
    ensures { option_map seen_fault result ≡ fault_shown (map seen_fault faults.entry.items) }
{
    let mut choice = None;
    for fault in faults {
        choice = choose(choice, fault);
    }
    choice
}

/// Returns the faults of the first call of a parser that finds any. Returns `Err` if an allocation
/// fails.
fn first_faults<'a>(alloc: Global, parser: &mut Parser<'a>) -> Result<Vec<Fault<'a>>, AllocError>
    ensures { IfOk result (λ v. map seen_fault v.items
        ≡ faults_in parser.old.world (first_faults (calls parser.old))) }
{
    let mut argument = Argument::default();
    let mut faults = Vec::new(alloc);
    while faults.is_empty() && !parser.is_at_end() {
        parser.next_with_faults(&mut argument, &mut faults)?;
    }
    Ok(faults)
}

/// Returns the fault of a text that rustc shows: of the calls of a parser from where it is, up to
/// the first one that finds any. Returns `None` if they find none. The parser is then after these
/// calls. Returns `Err` if an allocation fails, and the parser may then be after some of them.
pub fn text_fault<'a>(
    alloc: Global,
    parser: &mut Parser<'a>,
) -> Result<Option<Fault<'a>>, AllocError>
    ensures { IfOk result (λ o. option_map seen_fault o ≡ text_fault parser.old) }
{
    let faults = first_faults(alloc, parser)?;
    Ok(shown_fault(faults))
}
