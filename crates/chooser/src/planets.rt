//! The list that is shown.

ghost use Rattle.std.specs.Prelude.{IfOk};
ghost use Rattle.chooser.specs.Choosing.{IsPlanetList};

use ratatui_core::text::Line;
use std::alloc::{AllocError, Global};
use widget_list::List;

const PLANETS: [&str; 8] = [
    "Mercury", "Venus", "Earth", "Mars", "Jupiter", "Saturn", "Uranus", "Neptune",
];

/// Makes a list of the planets, with a mark at the one that is chosen.
///
/// # Errors
///
/// `AllocError` if memory is refused.
#[tactic(auto, unfolding(crate::specs::Choosing::planet_items))]
pub fn planets(alloc: Global) -> Result<List<'static>, AllocError>
    ensures { IfOk result IsPlanetList }
{
    let list = List::raw(alloc, &PLANETS)?;
    Ok(list.highlight_symbol(Line::raw(alloc, "> ")?))
}
