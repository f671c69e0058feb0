//! What rustc says of a fault.

ghost use Rattle.std.specs.Prelude.{◌≡◌, IfOk, chars, string_bytes};
ghost use Rattle.diagnostic.specs.Parts.{seen_diagnostic};
ghost use Rattle.rustc_parse_format.specs.FaultViews.{seen_fault as seen_text_fault};
ghost use Rattle.message_faults.specs.Diagnostics.{at_spot, parameter_title, text_diagnostic};

use crate::faults::MessageFault;
use crate::words::{
    PARAMETER_HELP, POSITIONAL_HELP, POSITIONAL_TITLE, SPECIFIER_HELP, SPECIFIER_TITLE,
};
use diagnostic::{Diagnostic, Id, Level, push_help, push_primary, push_secondary};
use rustc_parse_format::Fault;
use std::alloc::{AllocError, Global};
use text_diagnostics::id_of;
use text_faults::Spot;

/// Returns the diagnostic of a fault of the text: about its literal, with a label of the place in
/// it. Returns `Err` if an allocation fails.
fn text_diagnostic(alloc: Global, fault: &Fault<'_>) -> Result<Diagnostic<Spot>, AllocError>
    ensures { IfOk result (λ d. seen_diagnostic d ≡ text_diagnostic (seen_text_fault fault.now)) }
{
    let error = fault.error(alloc)?;
    let spot = Spot::Bytes {
        start: error.span.start,
        end: error.span.end,
    };
    let mut labels = Vec::new(alloc);
    push_primary(&mut labels, Spot::Literal, "")?;
    push_secondary(&mut labels, spot, &error.label)?;
    Ok(Diagnostic {
        level: Level::Warning,
        id: id_of(fault),
        title: error.description,
        labels,
        notes: Vec::new(alloc),
        suggestions: Vec::new(alloc),
    })
}

/// Returns a diagnostic with one label, which has no text, and a help. Returns `Err` if an
/// allocation fails.
fn at_spot(
    alloc: Global,
    id: Id,
    title: String,
    help: &str,
    spot: Spot,
) -> Result<Diagnostic<Spot>, AllocError>
    ensures { IfOk result (λ d. seen_diagnostic d
        ≡ at_spot id (string_bytes title) help.now spot) }
{
    let mut labels = Vec::new(alloc);
    push_primary(&mut labels, spot, "")?;
    let mut notes = Vec::new(alloc);
    push_help(&mut notes, help)?;
    Ok(Diagnostic {
        level: Level::Warning,
        id,
        title,
        labels,
        notes,
        suggestions: Vec::new(alloc),
    })
}

/// Returns the title of a name that is that of no parameter of a trait. Returns `Err` if an
/// allocation fails.
fn parameter_title(alloc: Global, name: &str, trait_name: &str) -> Result<String, AllocError>
    ensures { IfOk result (λ s. string_bytes s
        ≡ parameter_title (chars name.now) (chars trait_name.now)) }
{
    let title = format!(in alloc; "there is no parameter `{name}` on trait `{trait_name}`")?;
    Ok(title)
}

impl<'a> MessageFault<'a> {
    ghost use Rattle.std.specs.Prelude.{◌≡◌, IfOk, chars};
    ghost use Rattle.diagnostic.specs.Parts.{seen_diagnostic};
    ghost use Rattle.message_faults.specs.Diagnostics.{diagnostic};
    ghost use Rattle.message_faults.specs.Views.{seen_fault};

    /// Returns what rustc says of the fault, for a trait of this name: a warning. Returns `Err` if
    /// an allocation fails.
    #[tactic(auto, unfolding(crate::specs::Diagnostics::diagnostic))]
    pub fn diagnostic(
        &self,
        alloc: Global,
        trait_name: &str,
    ) -> Result<Diagnostic<Spot>, AllocError>
        ensures { IfOk result (λ d. seen_diagnostic d
            ≡ diagnostic (chars trait_name.now) (seen_fault self.now)) }
    {
        match self {
            MessageFault::Text(fault) => text_diagnostic(alloc, fault),
            MessageFault::Specifier { spot } => {
                let title = String::from_str(alloc, SPECIFIER_TITLE)?;
                at_spot(alloc, Id::SpecifierInMessage, title, SPECIFIER_HELP, *spot)
            }
            MessageFault::Positional { spot } => {
                let title = String::from_str(alloc, POSITIONAL_TITLE)?;
                at_spot(
                    alloc,
                    Id::PositionalInMessage,
                    title,
                    POSITIONAL_HELP,
                    *spot,
                )
            }
            MessageFault::MissingParameter { spot, name } => {
                let title = parameter_title(alloc, name, trait_name)?;
                at_spot(alloc, Id::MissingParameter, title, PARAMETER_HELP, *spot)
            }
        }
    }
}
