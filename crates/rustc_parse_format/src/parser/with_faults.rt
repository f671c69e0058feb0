//! One call of a parser that leaves its faults to the caller.

use crate::faults::Fault;
use crate::parser::Parser;
use crate::types::{Argument, PieceKind};
use std::alloc::AllocError;

impl<'input> Parser<'input> {
    ghost use Rattle.std.specs.Prelude.{◌≡◌, ◌++◌, IfOk, IsOk, OnErr, OnOk, map, option_map};
    ghost use Rattle.rustc_parse_format.specs.Views.{seen_taken};
    ghost use Rattle.rustc_parse_format.specs.FaultViews.{seen_fault};
    ghost use Rattle.rustc_parse_format.specs.State.{AddsNothing, IsPutBack, state_after};
    ghost use Rattle.rustc_parse_format.specs.State.{next_call};
    ghost use Rattle.rustc_parse_format.specs.Steps.{AreFew};
    ghost use Rattle.rustc_parse_format.specs.World.{faults_in, piece_in};

    /// Returns the next piece as [`Parser::next_into`] does, but moves the faults of this call to
    /// the end of `faults`, in the order in which they were found, and makes no errors of them:
    /// [`Parser::errors`] stay as they are. [`Fault::error`] makes the error of a fault; in the
    /// list of a parser it comes before all earlier errors if [`Fault::is_front`] says so, and else
    /// after them.
    ///
    /// Returns `Err` if an allocation fails, and the parser and `faults` are then unchanged. A call
    /// allocates only to keep a fault, the place of a placeholder or a line; any other call always
    /// returns `Ok`. The value of `argument` has a meaning only if the call returns a placeholder.
    pub fn next_with_faults(
        &mut self,
        argument: &mut Argument<'input>,
        faults: &mut Vec<Fault<'input>>,
    ) -> Result<Option<PieceKind<'input>>, AllocError>
        ensures piece { IfOk result (λ t. option_map (seen_taken argument.new) t
            ≡ option_map (piece_in self.old.world) (next_call self.old).piece) }
        ensures faults { OnOk result (map seen_fault faults.new.items ≡ map seen_fault
            faults.old.items ++ faults_in self.old.world (next_call self.old).faults) }
        ensures state { OnOk result (self.new
            ≡ record (state_after self.old (next_call self.old)) { errors = self.old.errors }) }
        ensures err { OnErr result (IsPutBack self.old self.new) }
        ensures kept { OnErr result (faults.new.items ≡ faults.old.items) }
        ensures spare { AddsNothing self.old (next_call self.old) → IsOk result }
        ensures few { AreFew self.new.input self.new.rest self.new.rewinds }
    {
        self.steps_are_few();
        if self.reader.is_at_end() {
            self.end_line()?;
            return Ok(None);
        }
        let start = self.reader.call_start();
        let count = faults.len();
        if let Ok(piece) = self.reader.piece_into(self.mode, argument) {
            if let Ok(_) = self.reader.move_faults(faults) {
                if let Ok(_) = self.lists.take_over(self.alloc, &mut self.reader) {
                    self.steps_are_few();
                    return Ok(piece);
                }
            }
        }
        faults.truncate(count);
        self.reader.rewind(self.alloc, start);
        Err(AllocError)
    }
}
