//! Which columns of a line a row shows.

ghost use Rattle.std.specs.Prelude.{◌≡◌, ◌^◌, ◌<◌};
ghost use Rattle.pager.specs.Pages.{view_from};

/// The columns of a line that a row shows: those from one on and before another one, as far as the
/// row's width goes.
#[derive(Debug, Clone, Copy, PartialEq, Eq)]
pub struct View {
    /// The column that stands in the row's first one.
    pub left: u64,
    /// The column before which it ends.
    pub limit: u64,
    /// The row's columns.
    pub width: u16,
}

impl View {
    // As many columns as the row has, from one on.
    pub(crate) fn new(left: u64, width: u16) -> View
        requires { left < 2 ^ 63 }
        ensures { result ≡ view_from left width }
    {
        View {
            left,
            limit: left + u64::from(width),
            width,
        }
    }
}
