//! The numbers of calls that are inlined, and of those that are left.

use crate::rewrites::RewrittenFile;
use file_inlines::CallInlining;
use inlined_arguments::Obstacle;

/// The numbers of calls that are inlined, and of those that are left, by the reason.
#[derive(Clone, Copy)]
pub struct Inlinings {
    /// The number of calls that are inlined.
    pub inlined_calls: usize,
    uncounted_calls: usize,
    calls_without_variable: usize,
    mixed_calls: usize,
    captureless_calls: usize,
    lone_strings: usize,
    const_form: usize,
    comment: usize,
    faulty_calls: usize,
    calls_without_literal: usize,
    other_meaning: usize,
    assembly: usize,
    uncertain_calls: usize,
    spoiled_calls: usize,
}

/// The numbers before the first call.
pub const NO_CALLS: Inlinings = Inlinings {
    inlined_calls: 0,
    uncounted_calls: 0,
    calls_without_variable: 0,
    mixed_calls: 0,
    captureless_calls: 0,
    lone_strings: 0,
    const_form: 0,
    comment: 0,
    faulty_calls: 0,
    calls_without_literal: 0,
    other_meaning: 0,
    assembly: 0,
    uncertain_calls: 0,
    spoiled_calls: 0,
};

/// Adds one.
fn count(number: &mut usize) {
    *number = number.saturating_add(1);
}

impl Inlinings {
    /// Counts a call that is left.
    fn add_obstacle(&mut self, reason: Obstacle) {
        match reason {
            Obstacle::Uncounted => count(&mut self.uncounted_calls),
            Obstacle::NoVariable => count(&mut self.calls_without_variable),
            Obstacle::Mixed => count(&mut self.mixed_calls),
            Obstacle::CapturesNone => count(&mut self.captureless_calls),
            Obstacle::Alone => count(&mut self.lone_strings),
            Obstacle::ConstForm => count(&mut self.const_form),
            Obstacle::Comment => count(&mut self.comment),
            Obstacle::Faulty => count(&mut self.faulty_calls),
            Obstacle::NoLiteral => count(&mut self.calls_without_literal),
            Obstacle::OtherMeaning => count(&mut self.other_meaning),
        }
    }

    /// Counts the calls of a file.
    pub fn add(&mut self, file: &RewrittenFile) {
        for call in &file.calls {
            match *call {
                CallInlining::Inlined if file.has_inlines => count(&mut self.inlined_calls),
                CallInlining::Inlined => count(&mut self.spoiled_calls),
                CallInlining::Unchanged(reason) => self.add_obstacle(reason),
                CallInlining::Assembly => count(&mut self.assembly),
                CallInlining::Uncertain => count(&mut self.uncertain_calls),
                CallInlining::Unread(_) => {}
            }
        }
    }

    /// Returns how many calls are left for each reason, with the reason.
    pub fn rows(&self) -> [(usize, &'static str); 13] {
        [
            (self.calls_without_variable, "no argument is a variable"),
            (self.mixed_calls, "another argument is no variable"),
            (self.uncounted_calls, "the number of arguments is not known"),
            (self.captureless_calls, "the macro captures no variables"),
            (
                self.lone_strings,
                "the string alone may be no format string",
            ),
            (
                self.const_form,
                "a const fn may make the call only as it is",
            ),
            (self.comment, "a comment would go with an argument"),
            (self.faulty_calls, "the call is not clean"),
            (self.calls_without_literal, "the literal is not known"),
            (self.other_meaning, "it would mean something else"),
            (self.assembly, "a template of assembly"),
            (self.uncertain_calls, "the macro may be another one"),
            (
                self.spoiled_calls,
                "the file has other faults with them, or breaks",
            ),
        ]
    }
}
