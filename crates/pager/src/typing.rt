//! What is typed of a search or of a filter.

ghost use Rattle.std.specs.Prelude.{◌≡◌, OnOk, OnErr};
ghost use Rattle.pager.specs.Moves.{empty_line, has_typed, gives_up, with_edit};
ghost use Rattle.pager.specs.Pages.{typing_cursor};

use crate::pager::{Mode, Pager};
use ratatui_core::layout::{Position, Rect};
use ratatui_core::text::Span;
use std::alloc::{AllocError, Global};
use text_field::{Edit, TextField};

/// How many characters may be typed.
const MOST: usize = 80;

// A line in which nothing is typed.
pub(crate) fn empty_line(alloc: Global) -> TextField
    ensures { result ≡ empty_line }
{
    TextField::new(alloc).with_limit(MOST)
}

// Where the cursor stands in the last row of an area: after one column, and after what is typed
// before it.
pub(crate) fn typing_cursor(before: &str, area: Rect) -> Option<Position>
    ensures { result ≡ typing_cursor before.now area }
{
    let columns = Span::raw(before).width();
    if area.height == 0 || columns >= usize::from(area.width.saturating_sub(1)) {
        return None;
    }
    Some(Position {
        x: area.x.saturating_add(columns as u16 + 1),
        y: area.y.saturating_add(area.height - 1),
    })
}

impl Pager<'_> {
    // Whether something is typed.
    pub(crate) fn has_typed(&self) -> bool
        ensures { result ≡ has_typed self.now }
    {
        !self.typed.text().is_empty()
    }

    // Whether an edit gives the search up.
    fn gives_up(&self, edit: Edit) -> bool
        ensures { result ≡ gives_up edit self.now }
    {
        match edit {
            Edit::DeleteLeft(_) => !self.has_typed(),
            _ => false,
        }
    }

    // Edits what is typed; where nothing is typed, a deletion to the left gives the search up.
    pub(crate) fn edit(&mut self, edit: Edit) -> Result<(), AllocError>
        ensures ok { OnOk result (self.new ≡ with_edit edit self.old) }
        ensures err { OnErr result (self.new ≡ self.old) }
    {
        if self.gives_up(edit) {
            self.mode = Mode::Reading;
            return Ok(());
        }
        self.typed.apply(edit)
    }
}
