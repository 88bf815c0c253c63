//! The status line.

ghost use Rattle.std.specs.Prelude.{◌≡◌};
ghost use Rattle.logview.specs.Rows.{status_text, status_style};

use arrayvec::ArrayString;
use itoa::Buffer;
use ratatui_core::style::Style;

// How many lines there were. It takes no memory.
pub fn status_text(count: u64) -> ArrayString<27>
    ensures { result.bytes ≡ status_text count }
{
    let mut digits = Buffer::new();
    let mut text = ArrayString::new();
    text.push_str("lines: ");
    text.push_str(digits.format(count));
    text
}

// How it looks: in reverse video.
pub fn status_style() -> Style
    ensures { result ≡ status_style }
{
    Style::new().reversed()
}
