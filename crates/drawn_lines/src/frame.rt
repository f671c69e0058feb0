//! The layout of a picture.

ghost use Rattle.std.specs.Prelude.{◌≡◌, ◌<◌, ◌≤◌, ◌^◌, IfSome, decimal, length};
ghost use Rattle.drawn_lines.specs.Places.{seen_picture};
ghost use Rattle.drawn_lines.specs.Frames.{line_indent};

use crate::glyphs::indent;
use crate::paint::Gutter;
use crate::places::{Picture, after_lines};
use crate::window::Window;

/// How a picture is laid out.
#[derive(Clone, Copy)]
pub struct Frame<'a> {
    /// The source.
    pub picture: &'a Picture<'a>,
    /// The columns of the numbers of the lines, and the colours.
    pub gutter: Gutter,
    /// Which columns of the lines are drawn.
    pub window: Window,
}

/// Returns the indent of a line of the source, unless it is blank.
#[tactic(auto, unfolding(crate::specs::Places::line))]
pub fn line_indent(picture: &Picture<'_>, number: usize) -> Option<usize>
    requires { length picture.now.source.now < 2 ^ 59 }
    ensures value { result ≡ line_indent (seen_picture picture.now) number }
    ensures small { IfSome result (λ n. n < 2 ^ 62) }
{
    indent(after_lines(picture.source, number))
}

/// Returns the number of digits of a number.
#[tactic(auto, using(crate::proofs::GlyphLemmas::digit_steps))]
pub fn digits(number: usize) -> usize
    ensures { result ≡ length (decimal number) }
{
    let mut rest = number;
    let mut count = 1;
    while rest >= 10 {
        rest /= 10;
        count += 1;
    }
    count
}
