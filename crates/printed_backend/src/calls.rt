//! The backend's calls of the trait.

ghost use Rattle.std.specs.Prelude.{◌≡◌, true};
ghost use Rattle.rtui_backend.specs.Failures.{Counts};
ghost use Rattle.printed_backend.specs.Printed.{shown_on, failed_calls};

use crate::backend::PrintedBackend;
use rtui_backend::{AsCell, Backend, ClearType, WindowSize};
use rtui_geometry::{Position, Size};
use std::alloc::AllocError;
use std::ops::Range;

impl PrintedBackend {
    // Counts a failure, if there was one, and gives the answer back.
    fn counted(&mut self, answer: Result<(), AllocError>) -> Result<(), AllocError>
        ensures answer { result ≡ answer }
        ensures screen { shown_on self.new ≡ shown_on self.old }
        ensures counts { Counts result (failed_calls self.old) (failed_calls self.new) }
    {
        if answer.is_err() {
            self.failures = self.failures.saturating_add(1);
        }
        answer
    }
}

impl Backend for PrintedBackend {
    ghost use Rattle.std.specs.Prelude.{true};
    ghost use Rattle.printed_backend.specs.Printed.{shown_on, failed_calls, HasOnlyDrawn};

    type Error = AllocError;

    ghost screen = { shown_on };

    ghost failures = { failed_calls };

    ghost is_flushed = { λ b. true };

    ghost stops_at = { HasOnlyDrawn };

    fn draw<C: AsCell, I: Iterator<Item = (u16, u16, C)>>(
        &mut self,
        content: I,
    ) -> Result<(), AllocError> {
        let drawn = self.put_all(content);
        self.counted(drawn)
    }

    fn append_lines(&mut self, n: u16) -> Result<(), AllocError> {
        let appended = self.append(n);
        self.counted(appended)
    }

    fn scroll_region_up(&mut self, region: Range<u16>, n: u16) -> Result<(), AllocError> {
        let scrolled = self.scroll_up(region, n);
        self.counted(scrolled)
    }

    fn scroll_region_down(&mut self, region: Range<u16>, n: u16) -> Result<(), AllocError> {
        self.screen.scroll_down(region, n);
        Ok(())
    }

    fn hide_cursor(&mut self) -> Result<(), AllocError> {
        let _ = self.screen.hide_cursor();
        Ok(())
    }

    fn show_cursor(&mut self) -> Result<(), AllocError> {
        let _ = self.screen.show_cursor();
        Ok(())
    }

    fn get_cursor_position(&mut self) -> Result<Position, AllocError> {
        Ok(self.place())
    }

    fn set_cursor_position(&mut self, position: Position) -> Result<(), AllocError> {
        self.move_to(position);
        Ok(())
    }

    fn clear(&mut self) -> Result<(), AllocError> {
        self.clear_region(ClearType::All)
    }

    fn clear_region(&mut self, clear_type: ClearType) -> Result<(), AllocError> {
        self.screen.clear_part(clear_type);
        Ok(())
    }

    fn size(&mut self) -> Result<Size, AllocError> {
        Ok(self.screen.buffer().area().as_size())
    }

    fn window_size(&mut self) -> Result<WindowSize, AllocError> {
        Ok(WindowSize {
            columns_rows: self.screen.buffer().area().as_size(),
            pixels: Size::ZERO,
        })
    }

    fn flush(&mut self) -> Result<(), AllocError> {
        Ok(())
    }
}
