//! What is written through the list of a line's spans.

ghost use Rattle.std.specs.Prelude.{◌≡◌};
ghost use Rattle.guide.specs.Restyling.{restyled};

use ratatui_core::style::Style;
use ratatui_core::text::Line;

/// Gives the first span of a line another style.
pub fn restyle_first(line: &mut Line<'_>, style: Style)
    ensures { line.new ≡ record line.old { spans = restyled style line.old.spans } }
{
    if let Some(span) = line.spans.items.first_mut() {
        span.style = style;
    }
}
