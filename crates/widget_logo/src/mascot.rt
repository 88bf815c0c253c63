//! The mascot.

ghost use Rattle.std.specs.Prelude.{◌≡◌, OnOk, IsOk};
ghost use Rattle.widget_logo.specs.declared.mascot.MascotEyeColor.TheVariants.{Default as DefaultEye};
ghost use Rattle.widget_logo.specs.Mascots.{mascot_row, mascot_dot, dot_color, eye_color, halves_shown};

use ratatui_core::buffer::{Buffer, Cell, CellChange, change_area};
use ratatui_core::layout::{Position, Rect};
use ratatui_core::style::Color;
use ratatui_core::widgets::Widget;
use std::alloc::{AllocError, Global};

// The dots of the mascot, row by row: `r` the rat, `h` its hat, `e` its eye, `s` a screen, `b` the
// screen's border and the rat's nose, `c` what is written on the screen, `.` none.
static DOTS: [[u8; 32]; 32] = [
    *b"................hhhhhh..........",
    *b"..............hhhhhhhhhh........",
    *b".............hhhhhhhhhhhh.......",
    *b".............hhhhhhhhhhhh.......",
    *b".............hhhhhhhhhhhh.......",
    *b"..............hhhhhhhhhh........",
    *b"...............hhhhhhhh..rrrr...",
    *b"...............hhhhhhhh.rrrrrr..",
    *b"...............hhhhhhhh.rrrrrr..",
    *b"..............rrrrrrrrrrrrrrrr..",
    *b"............rrrrrrrrrrrrrrrrr...",
    *b"..........rrrrrrrrrrrrrrrrrrr...",
    *b"........rrrrrreerrrrrrrrrrrrr...",
    *b"......rrrrrrrreerrrrrrrrrrrr....",
    *b"....bbrrrrrrrrrrrrrrrrrrrrr.....",
    *b"....bbrrrrrrrrrrrrrrrrrrrr......",
    *b"......rrrrrrrrrrrrrrrrrrr.......",
    *b"..........rrrrrrrrrrrrrrr.......",
    *b"bbbbbbbbbbbb.rrrrrrrrrrrrr......",
    *b"bssssssssssb.rrrrrrrrrrrrrr.....",
    *b"bsccsccccssb.rrrrrrrrrrrrrrr....",
    *b"bssssssssssbrrrrrrrrrrrrrrrr....",
    *b"bsccccssssrrrrrrrrrrrrrrrrrrr...",
    *b"bssssssssrrrrrrrrrrrrrrrrrrrr...",
    *b"bsccscccssrrrr.rrrrrrrrrrrrrr...",
    *b"bssssssssssb..rrrrrrrrrrrrrrr.rr",
    *b"bscssssssssb.rrrrrrrrrrrrrrrr..r",
    *b"bssssssssssb.rrrrrrrrrrrrrrrr..r",
    *b"bbbbbbbbbbbb.rrrrrrrrrrrrrrrrrrr",
    *b"bbbbbbbbbbbbbrrrrrrrr.rrrrrrrrr.",
    *b"bbbbbbbbbbbb.rrrrrrr.rrrrrrr....",
    *b"................................",
];

/// Which colour the mascot's eye has.
#[derive(Debug, Default, Clone, Copy, PartialEq, Eq, Hash)]
pub enum MascotEyeColor {
    /// Dark grey.
    #[default]
    Default,
    /// Red.
    Red,
}

/// A rat with a cook's hat at a screen, of 32 columns and 16 rows.
///
/// Its calls and its size are those of ratatui's mascot; the picture is this project's own.
///
/// ```
/// frame.render_widget(RatatuiMascot::new().set_eye(MascotEyeColor::Red), area)
/// ```
#[derive(Debug, Default, Clone, Copy, PartialEq, Eq, Hash)]
pub struct RatatuiMascot {
    eye: MascotEyeColor,
}

impl RatatuiMascot {
    /// Makes a mascot with an eye of dark grey.
    pub fn new() -> RatatuiMascot
        ensures { result ≡ record { eye = DefaultEye } }
    {
        RatatuiMascot {
            eye: MascotEyeColor::Default,
        }
    }

    /// Sets the colour of the eye.
    pub fn set_eye(self, eye: MascotEyeColor) -> RatatuiMascot
        ensures { result ≡ record { eye = eye } }
    {
        let _ = self;
        RatatuiMascot { eye }
    }
}

// A row of dots, none below the last one.
fn dots_of(y: usize) -> &'static [u8]
    ensures { result.now ≡ mascot_row y }
{
    if y < 32 { &DOTS[y] } else { &[] }
}

// The dot in a column and a row of dots.
fn dot(x: usize, y: usize) -> u8
    ensures { result ≡ mascot_dot x y }
{
    let row = dots_of(y);
    if x < row.len() { row[x] } else { b'.' }
}

impl MascotEyeColor {
    // The colour of a dot, if it has one.
    fn color(self, dot: u8) -> Option<Color>
        ensures { result ≡ dot_color self dot }
    {
        match dot {
            b'r' => Some(Color::Indexed(252)),
            b'h' => Some(Color::Indexed(231)),
            b'e' => Some(self.eye_color()),
            b's' => Some(Color::Indexed(232)),
            b'b' => Some(Color::Indexed(237)),
            b'c' => Some(Color::Indexed(248)),
            _ => None,
        }
    }

    // The colour of the eye.
    fn eye_color(self) -> Color
        ensures { result ≡ eye_color self }
    {
        match self {
            MascotEyeColor::Default => Color::Indexed(236),
            MascotEyeColor::Red => Color::Indexed(196),
        }
    }
}

// Shows two dots in a cell, one over the other.
fn show_halves(
    alloc: Global,
    upper: Option<Color>,
    lower: Option<Color>,
    is_one: bool,
    cell: &mut Cell,
) -> Result<(), AllocError>
    ensures ok { OnOk result (cell.new ≡ halves_shown upper lower is_one cell.old) }
    ensures succeeds { IsOk result }
{
    match (upper, lower) {
        (None, None) => Ok(()),
        (Some(upper), None) => {
            cell.fg = upper;
            cell.set_char(alloc, '▀')
        }
        (None, Some(lower)) => {
            cell.fg = lower;
            cell.set_char(alloc, '▄')
        }
        (Some(upper), Some(lower)) => {
            cell.fg = upper;
            if is_one {
                return cell.set_char(alloc, '█');
            }
            cell.bg = lower;
            cell.set_char(alloc, '▀')
        }
    }
}

// A mascot at the corner of an area.
#[derive(Drop)]
struct Placed {
    eye: MascotEyeColor,
    area: Rect,
}

impl CellChange for Placed {
    ghost use Rattle.std.specs.Prelude.{⊤};
    ghost use Rattle.widget_logo.specs.Mascots.{mascot_cell};

    ghost made = { λ m. mascot_cell m.eye m.area };

    ghost is_light = { λ _ _ _. ⊤ };

    fn change(&self, alloc: Global, position: Position, cell: &mut Cell) -> Result<(), AllocError> {
        let x = usize::from(position.x.saturating_sub(self.area.x));
        let y = usize::from(position.y.saturating_sub(self.area.y));
        let upper = dot(x, 2 * y);
        let lower = dot(x, 2 * y + 1);
        let is_one = upper == lower;
        show_halves(
            alloc,
            self.eye.color(upper),
            self.eye.color(lower),
            is_one,
            cell,
        )
    }
}

/// From the corner of the area on, as far as the buffer has it: two dots in a cell, one over the
/// other. A cell without dots stays, and so do the backgrounds of cells with one dot. It takes no
/// memory.
impl Widget for &RatatuiMascot {
    ghost use Rattle.std.specs.Prelude.{⊤};
    ghost use Rattle.widget_logo.specs.Mascots.{RendersMascot};

    ghost renders = { λ mascot. RendersMascot mascot.now.eye };

    ghost is_short = { λ _ _ _. ⊤ };

    fn render(self, area: Rect, buf: &mut Buffer) -> Result<(), AllocError> {
        let part = area.intersection(*buf.area());
        let placed = Placed {
            eye: self.eye,
            area: part,
        };
        change_area(buf, part, &placed)
    }
}

impl Widget for RatatuiMascot {
    ghost use Rattle.std.specs.Prelude.{⊤};
    ghost use Rattle.widget_logo.specs.Mascots.{RendersMascot};

    ghost renders = { λ mascot. RendersMascot mascot.eye };

    ghost is_short = { λ _ _ _. ⊤ };

    fn render(self, area: Rect, buf: &mut Buffer) -> Result<(), AllocError> {
        (&self).render(area, buf)
    }
}
