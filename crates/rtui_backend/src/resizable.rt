ghost use Rattle.std.specs.Prelude.{◌≡◌, true, false, IfOk};
ghost use Rattle.rtui_backend.specs.Failures.{Counts};
ghost use Rattle.rtui_backend.specs.Screen.{size_of, HasNoCells};

use crate::backend::Backend;
use crate::test::{TestBackend, TestError};
use rtui_geometry::Size;

/// A backend whose screen takes another size when it is told one, as a window's.
pub trait Resizable: Backend {
    /// Gives the screen another size, in columns and rows; it may have any contents then. Answers
    /// whether it was taken: a size is refused only if it has no columns or no rows, and then
    /// nothing has changed.
    ///
    /// # Errors
    ///
    /// The backend's own error if the call failed, also if memory was refused. Nothing is said of
    /// the screen then.
    fn take_size(&mut self, size: Size) -> Result<bool, Self::Error>
        ensures taken { IfOk result (λ is_taken. is_taken ≡ true
            → size_of (Self.screen self.new) ≡ size) }
        ensures refused { IfOk result (λ is_taken. is_taken ≡ false → HasNoCells size) }
        ensures kept { IfOk result (λ is_taken. is_taken ≡ false → self.new ≡ self.old) }
        ensures counts { Counts result (Self.failures self.old) (Self.failures self.new) };
}

impl Resizable for TestBackend {
    fn take_size(&mut self, size: Size) -> Result<bool, TestError> {
        match self.resize(size.width, size.height) {
            Ok(()) => Ok(true),
            Err(_) => Err(self.failed(TestError::Memory)),
        }
    }
}
