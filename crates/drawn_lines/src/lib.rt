//! Lines of a source as rustc draws them: the characters and the columns that these take, colours,
//! places, the gutter with the numbers of the lines, and the windows to which lines are cut.
#![tactic(auto)]

mod extent;
mod frame;
mod glyphs;
pub mod laws;
mod lines;
mod paint;
mod places;
mod printable;
mod window;

pub use extent::{Extent, Spot};
pub use frame::{Frame, digits, line_indent};
pub use glyphs::{
    draws_nothing, glyph, glyph_count, put_glyphs, put_glyphs_after, put_painted_glyphs,
    put_painted_run, put_run, split_first, width,
};
pub use lines::{
    put_code, put_decimal, put_gap, put_gutter, put_line_number, put_number_bar, put_parting,
    put_source, put_source_line,
};
pub use paint::{
    Gutter, Palette, Style, has_colours, palette_of, put_change, put_closing, put_note_sign,
    put_opening, put_painted_text, put_reset, put_sign, rank,
};
pub use places::{ORIGIN, Picture, WIDTH, after_lines, extent_of, line, offsets, split_line};
pub use printable::{is_drawn_as_is, is_non_ascii_drawn_as_is};
pub use window::{Window, columns, put_shown_line, shift};
