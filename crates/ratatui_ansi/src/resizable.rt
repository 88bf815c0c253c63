use crate::backend::AnsiBackend;
use crate::error::AnsiError;
use ratatui_core::backend::Resizable;
use ratatui_core::layout::Size;
use std::io::Write;

impl<W: Write + Drop> Resizable for AnsiBackend<W> {
    fn take_size(&mut self, size: Size) -> Result<bool, AnsiError> {
        let failures = self.sender.failures;
        match self.resize(size) {
            Ok(()) => Ok(true),
            Err(AnsiError::Size) => {
                // a size that isn't taken is no failure
                self.sender.failures = failures;
                Ok(false)
            }
            Err(error) => Err(error),
        }
    }
}
