//! The parser for callers in C and other languages: one call reads a whole input and writes the
//! results into buffers of the caller.
#![tactic(auto)]

ghost use Rattle.std.specs.Prelude.{[], ◌∷◌, ◌≡◌, ◌<◌, IfNone, IfSome, Some, slice_index_or};
ghost use Rattle.rustc_parse_format.specs.Types.{Mode};
ghost use Rattle.flat_reading.specs.Interface.{Fits, IsCounted, IsDescribed, IsKept, SameBuffers};
ghost use Rattle.flat_reading.specs.Interface.{contents, first_state_of, mode_meant, refusal};

use flat_reading::read::{Buffers, read};
use flat_reading::records::{
    Answer, DONE, Extent, Fault, NO_MEMORY, Options, Peek, SHORT, Spec, Step,
};
use flat_reading::task::task_of;
use std::alloc::Global;

/// Reads an input, call by call, up to and including the call at its end, and writes the results
/// into buffers of the caller. The header `bindings/c/dephungo.h` describes the records.
///
/// Returns one of the codes of `flat_reading::records`:
///
/// - `DONE`: all results are written, and `answer` has their lengths.
/// - `SHORT`: a buffer is too short. `answer` has the lengths needed, in records and, for `texts`,
///   in bytes; the contents of the buffers are unspecified.
/// - `NO_MEMORY`: an allocation fails. `answer` is unchanged; the contents of the buffers are
///   unspecified.
/// - Any other code: the input or an option is invalid (not UTF-8, no such mode, or more than
///   10^12 bytes or hashes of a raw literal), and nothing is written.
#[unsafe(no_mangle)]
pub extern "C" fn dephungo_read(
    alloc: Global,
    input: &[u8],
    snippet: &[u8],
    options: &Options,
    buffers: &mut Buffers<'_>,
    answer: &mut Answer,
) -> u32
    // The code of an invalid input or option is returned exactly if there is one, and then nothing
    // is written.
    ensures refused { IfSome (refusal input.now snippet.now options.now) (λ e. result ≡ e) }
    ensures accepted { IfNone (refusal input.now snippet.now options.now) (result < 3) }
    ensures unwritten { IfSome (refusal input.now snippet.now options.now)
        (λ e. (answer.new ≡ answer.old) × (contents buffers.new ≡ contents buffers.old)) }

    // The answer has the lengths of all results; they are written if they fit, which the code
    // says; the records past these lengths in a buffer are unchanged.
    ensures counted { result < 2 → (m : Mode) → mode_meant options.now.mode ≡ Some m
        → IsCounted (first_state_of m options.now input.now snippet.now) answer.new }
    ensures described { result ≡ DONE → (m : Mode) → mode_meant options.now.mode ≡ Some m
        → IsDescribed (first_state_of m options.now input.now snippet.now) input.now
        (contents buffers.new) answer.new }
    ensures done { result ≡ DONE → Fits (contents buffers.old) answer.new }
    ensures short { result ≡ SHORT → ¬ (Fits (contents buffers.old) answer.new) }
    ensures kept { result < 2 → IsKept answer.new (contents buffers.old) (contents buffers.new) }
    ensures same { SameBuffers buffers.old buffers.new }
    ensures refused_memory { result ≡ NO_MEMORY → answer.new ≡ answer.old }
{
    let request = match task_of(input, snippet, options) {
        Ok(request) => request,
        Err(code) => return code,
    };
    let Ok(()) = read(alloc, request, buffers, answer) else {
        return NO_MEMORY;
    };
    if buffers.has_room_for(answer) {
        DONE
    } else {
        SHORT
    }
}

/// Returns the version of the library, and of the header that describes it, as one number:
/// 1,000,000 times its first number, 1,000 times its second one, and its third one.
#[unsafe(no_mangle)]
pub extern "C" fn dephungo_version() -> u32
    ensures { result ≡ 3000 }
{
    3_000
}

/// Returns how many bytes a record has that is shared with C, for one of the numbers that the
/// header gives the records, and 0 for another number.
#[unsafe(no_mangle)]
pub extern "C" fn dephungo_size_of(record: u32) -> usize
    ensures { result ≡ slice_index_or (16 ∷ 40 ∷ 24 ∷ 176 ∷ 96 ∷ 144 ∷ 56 ∷ 96 ∷ []) «record» 0 }
{
    let sizes = [
        size_of::<Extent>(),
        size_of::<Peek>(),
        size_of::<Options>(),
        size_of::<Spec>(),
        size_of::<Step>(),
        size_of::<Fault>(),
        size_of::<Answer>(),
        size_of::<Buffers<'static>>(),
    ];
    match sizes.get(record as usize) {
        Some(size) => *size,
        None => 0,
    }
}
