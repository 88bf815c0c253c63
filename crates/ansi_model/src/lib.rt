//! A model of a terminal that reads bytes, and the bytes that are sent to one.
//!
//! A terminal (`specs/Emulator`) reads bytes one by one (`specs/Sequences`); most functions here
//! append bytes to a text, and their contracts say what they do to every terminal that reads them:
//! a sequence by its standard name (`Performs`), what a backend's call does to the screen that the
//! terminal shows (`Turns`), or a symbol in its place (`Prints`). Between two symbols a `Pen` says
//! what is known of the terminal; between two calls flags say which of its columns are continuation
//! columns. Columns and rows are counted from 0 here, and from 1 in the bytes. If real terminals
//! differ the model is no longer sure, and what stands in a column isn't known if a part of its
//! symbol was written over.
#![tactic(auto)]

mod command;
mod flags;
mod glyph;
pub mod laws;
mod pen;
mod screen;
mod sequences;
mod sgr;
mod symbol;

pub use command::{
    Command, KeyboardEnhancementFlags, SetCursorStyle, keyboard_pops, push_command,
    push_keyboard_flags, push_title,
};
pub use flags::{
    blank_flags, clear_flags, clear_part_flags, is_continuation, lower_flags, mark_symbol,
    raise_flags, symbol_end, tail_end,
};
pub use glyph::{Glyph, glyph_of, is_printed};
pub use pen::{Pen, change_sgr, put_disputed, put_plain, put_spaces, put_symbol, set_sgr};
pub use screen::{
    append_lines, ask_size, clear_screen, closing_alternate, leaving, make_blank,
    opening_alternate, save_screen, scroll_region_down, scroll_region_up, set_cursor_position,
    set_visible,
};
pub use sequences::{
    delete_lines, erase, erase_all, hide_cursor, insert_lines, line_feeds, move_to, reset_region,
    set_region, show_cursor, update_begin, update_end,
};
pub use sgr::{Sgr, push_sgr};
pub use symbol::{is_plain, is_symbol, only_printable, push_plain, push_symbol};
