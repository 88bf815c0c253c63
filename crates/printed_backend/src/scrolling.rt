//! Rows that leave the screen.

ghost use Rattle.std.specs.Prelude.{◌≡◌, ◌<◌, ◌≤◌, OnOk, OnErr};
ghost use Rattle.rtui_backend.specs.Screen.{Appends, ScrollsUp, cursor_of};
ghost use Rattle.printed_backend.specs.Printed.{shown_on, failed_calls, HasOnlyDrawn};
ghost use Rattle.printed_backend.specs.Inner.{ScrollsFront};

use crate::backend::PrintedBackend;
use crate::printing::push_rows;
use rtui_geometry::Position;
use std::alloc::AllocError;
use std::ops::Range;

impl PrintedBackend {
    // Scrolls the first `end` rows up by `n`, and prints those that leave.
    fn scroll_front(&mut self, end: u16, n: u16) -> Result<(), AllocError>
        requires some { 0 < end }
        requires rows { end ≤ (shown_on self.old).height }
        requires moves { 0 < n }
        ensures ok { OnOk result (ScrollsFront end n (shown_on self.old) (shown_on self.new)) }
        ensures memory { OnErr result (HasOnlyDrawn self.old self.new) }
        ensures failures { failed_calls self.new ≡ failed_calls self.old }
    {
        // as much as one row of single bytes takes
        let columns = usize::from(self.screen.buffer().area().width);
        let mut text = String::with_capacity(self.alloc, columns + 2)?;
        let rows = push_rows(self.alloc, &mut text, &self.rows, &self.screen, end, n)?;
        self.raise_row(n, end)?;
        self.text.push_str(text.as_str())?;
        self.rows = rows;
        // below the first row no row leaves, so this takes no memory
        let _ = self.screen.scroll_up(1..end, n);
        Ok(())
    }

    // Moves the cursor's row down by `n`, and scrolls what goes past the last row.
    pub(crate) fn append(&mut self, n: u16) -> Result<(), AllocError>
        ensures ok { OnOk result (Appends (shown_on self.old) n (shown_on self.new)) }
        ensures memory { OnErr result (HasOnlyDrawn self.old self.new) }
        ensures failures { failed_calls self.new ≡ failed_calls self.old }
    {
        let place = self.place();
        let height = self.screen.buffer().area().height;
        if height == 0 {
            return Ok(());
        }
        let below = height - 1 - place.y;
        if n > below {
            self.scroll_front(height, n - below)?;
        }
        self.move_to(Position {
            x: place.x,
            y: place.y + n.min(below),
        });
        Ok(())
    }

    // Moves the rows of a region up by `n`, and prints those that leave one at the top.
    pub(crate) fn scroll_up(&mut self, region: Range<u16>, n: u16) -> Result<(), AllocError>
        ensures ok { OnOk result
            (ScrollsUp region.start region.end n (shown_on self.old) (shown_on self.new)) }
        ensures memory { OnErr result (HasOnlyDrawn self.old self.new) }
        ensures failures { failed_calls self.new ≡ failed_calls self.old }
    {
        if region.start > 0 {
            let _ = self.screen.scroll_up(region, n);
            return Ok(());
        }
        let end = region.end.min(self.screen.buffer().area().height);
        if end == 0 || n == 0 {
            return Ok(());
        }
        self.scroll_front(end, n)
    }
}
