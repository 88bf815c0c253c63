//! Where two buffers differ.

ghost use Rattle.std.specs.Prelude.{◌≡◌, ◌↔◌, ℕ, ◌<◌, ◌≤◌, length, slice_index_or, IsNone, IsTrue, IfSome, MatchOption};
ghost use Rattle.ratatui_core.specs.Buffer.{IsEqualBuffer, IsEqual, empty_cell};
ghost use Rattle.ratatui_test.specs.Apart.{DifferAt};

use crate::picture::write_buffer;
use bitflags::Flags;
use ratatui_core::buffer::laws::{equality_is_by_cells, equality_is_by_looks};
use ratatui_core::buffer::{Buffer, Cell};
use ratatui_core::layout::Position;
use ratatui_core::style::Modifier;
use std::fmt;

/// What differs between two buffers: their areas, or else a cell, the first one in reading order.
/// It prints as a line that says what each side has there, and a picture of both.
///
/// ```
/// at (1, 0): left "e", right "a"
/// left:
/// |Hello|
///   ^
/// right:
/// |Hallo|
///   ^
/// ```
#[derive(Clone, Copy)]
pub struct BufferDifference<'b> {
    /// The one buffer.
    pub left: &'b Buffer,
    /// The other one.
    pub right: &'b Buffer,
    /// The position of the first cell that differs; none if the areas do.
    pub position: Option<Position>,
}

/// Returns what differs between two buffers, or nothing if they are equal: if they have the same
/// area, and equal cells. An unset symbol equals a blank.
///
/// ```
/// if let Some(apart) = difference(&left, &right) {
///     told = format!(in alloc; "{apart}")?;
/// }
/// ```
pub fn difference<'b>(left: &'b Buffer, right: &'b Buffer) -> Option<BufferDifference<'b>>
    ensures none { IsNone result ↔ IsEqualBuffer left.now right.now }
    ensures first { IfSome result (λ d. DifferAt left.now right.now d.position) }
    ensures sides { IfSome result (λ d. (d.left.now ≡ left.now) × (d.right.now ≡ right.now)) }
{
    if *left.area() != *right.area() {
        return Some(BufferDifference {
            left,
            right,
            position: None,
        });
    }
    let place = first_apart(left.content(), right.content())?;
    let (x, y) = left.pos_of(place);
    Some(BufferDifference {
        left,
        right,
        position: Some(Position { x, y }),
    })
}

// The first place at which two lists of cells differ.
fn first_apart(left: &[Cell], right: &[Cell]) -> Option<usize>
    requires { length left.now ≡ length right.now }
    ensures { MatchOption result
        ((k : ℕ) → k < length left.now
        → IsEqual (slice_index_or left.now k empty_cell) (slice_index_or right.now k empty_cell))
        (λ i. (i < length left.now)
        × (IsEqual (slice_index_or left.now i empty_cell) (slice_index_or right.now i empty_cell) → ⊥)
        × ((k : ℕ) → k < i
        → IsEqual (slice_index_or left.now k empty_cell) (slice_index_or right.now k empty_cell))) }
{
    for i in 0..left.len() {
        if !is_equal(&left[i], &right[i]) {
            return Some(i);
        }
    }
    None
}

// Whether two cells are equal.
#[tactic(auto, unfolding(rtui_cell::specs::Equality::is_same))]
fn is_equal(left: &Cell, right: &Cell) -> bool
    ensures { IsTrue result ↔ IsEqual left.now right.now }
{
    equality_is_by_looks();
    left == right
}

const MODIFIERS: [(Modifier, &str); 9] = [
    (Modifier::BOLD, "BOLD"),
    (Modifier::DIM, "DIM"),
    (Modifier::ITALIC, "ITALIC"),
    (Modifier::UNDERLINED, "UNDERLINED"),
    (Modifier::SLOW_BLINK, "SLOW_BLINK"),
    (Modifier::RAPID_BLINK, "RAPID_BLINK"),
    (Modifier::REVERSED, "REVERSED"),
    (Modifier::HIDDEN, "HIDDEN"),
    (Modifier::CROSSED_OUT, "CROSSED_OUT"),
];

// Writes the modifiers that one of two cells has alone.
fn write_modifiers<W: fmt::Write>(
    f: &mut fmt::Formatter<W>,
    left: Modifier,
    right: Modifier,
) -> fmt::Result {
    for (modifier, name) in MODIFIERS {
        if left.contains(modifier) && !right.contains(modifier) {
            write!(f, "; {name} left")?;
        }
        if right.contains(modifier) && !left.contains(modifier) {
            write!(f, "; {name} right")?;
        }
    }
    Ok(())
}

// Writes what two cells have, as far as it differs; their symbols in any case.
fn write_cells<W: fmt::Write>(f: &mut fmt::Formatter<W>, left: &Cell, right: &Cell) -> fmt::Result {
    write!(f, "left {:?}, right {:?}", left.symbol(), right.symbol())?;
    if left.fg != right.fg {
        write!(f, "; fg {}, {}", left.fg, right.fg)?;
    }
    if left.bg != right.bg {
        write!(f, "; bg {}, {}", left.bg, right.bg)?;
    }
    if left.underline_color != right.underline_color {
        let (left, right) = (left.underline_color, right.underline_color);
        write!(f, "; underline_color {left}, {right}")?;
    }
    write_modifiers(f, left.modifier, right.modifier)?;
    if left.diff_option != right.diff_option {
        let (left, right) = (left.diff_option, right.diff_option);
        write!(f, "; diff_option {left:?}, {right:?}")?;
    }
    if left.skip != right.skip {
        write!(f, "; skip {}, {}", left.skip, right.skip)?;
    }
    Ok(())
}

impl BufferDifference<'_> {
    // Writes where and what differs.
    fn write_head<W: fmt::Write>(&self, f: &mut fmt::Formatter<W>) -> fmt::Result {
        let Some(position) = self.position else {
            return write!(
                f,
                "areas: left {}, right {}",
                self.left.area(),
                self.right.area()
            );
        };
        write!(f, "at {position}: ")?;
        match (self.left.cell(position), self.right.cell(position)) {
            (Some(left), Some(right)) => write_cells(f, left, right),
            _ => f.write_str("no cell"),
        }
    }
}

/// A line that says where and what differs, and a picture of both buffers: a row between bars for
/// each of theirs, and a mark under the position.
impl fmt::Display for BufferDifference<'_> {
    fn fmt<W: fmt::Write>(&self, f: &mut fmt::Formatter<W>) -> fmt::Result {
        self.write_head(f)?;
        f.write_str("\nleft:")?;
        write_buffer(f, self.left, self.position)?;
        f.write_str("\nright:")?;
        write_buffer(f, self.right, self.position)
    }
}
