//! What inlining is asked to do, and what it relies on.

ghost use Rattle.std.specs.Prelude.{◌≡◌};
ghost use Rattle.file_inlines.specs.Terms.{is_inlined, left_reason, seen_terms};

use crate::calls::CallInlining;
use inlined_arguments::Obstacle;
use macro_owners::{Facts, is_certain};

/// What is known of the compiler of a file, and of names of macros.
#[derive(Clone, Copy)]
pub(crate) struct Premises<'f> {
    /// Whether the compiler captures variables in format strings.
    pub captures_variables: bool,
    /// What the files of the package say of names.
    pub package_facts: &'f Facts,
    /// What the file says of names.
    pub file_facts: &'f Facts,
}

/// Which calls are inlined.
#[derive(Clone, Copy)]
pub(crate) struct Terms<'f> {
    /// Whether a call is that has other arguments too: these stay.
    pub allows_mixed: bool,
    /// What is known, or `None` where the compiler is taken to capture variables, and each macro to
    /// be that of its row.
    pub premises: Option<Premises<'f>>,
}

impl<'f> Terms<'f> {
    /// Returns the reason why a call of a macro of this name is left that could be inlined, or
    /// `None` if it is inlined.
    pub(crate) fn reason(self, name: &[u8]) -> Option<CallInlining>
        ensures { result ≡ left_reason (seen_terms self.entry) name.now }
    {
        let Some(premises) = self.premises else {
            return None;
        };
        if !premises.captures_variables {
            Some(CallInlining::Unchanged(Obstacle::CapturesNone))
        } else if is_certain(premises.package_facts, premises.file_facts, name) {
            None
        } else {
            Some(CallInlining::Uncertain)
        }
    }
}

/// Returns whether a call is inlined.
pub(crate) fn is_inlined(inlining: CallInlining) -> bool
    ensures { result ≡ is_inlined inlining }
{
    matches!(inlining, CallInlining::Inlined)
}
