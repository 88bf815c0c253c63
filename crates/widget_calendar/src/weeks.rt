//! The days of a month, a week in each row.

ghost use Rattle.std.specs.Prelude.{◌≡◌};
ghost use Rattle.widget_calendar.specs.Calendars.{last_digit, digit_before, background_of, day_style};

use crate::events::DateStyler;
use crate::letters::put_char;
use crate::month::Month;
use ratatui_core::buffer::{Cell, CellChange};
use ratatui_core::layout::{Position, Rect};
use ratatui_core::style::Style;
use std::alloc::{AllocError, Global};

/// The weeks of a month in an area.
#[derive(Drop)]
pub(crate) struct Weeks<'b, DS: DateStyler> {
    pub(crate) events: &'b DS,
    pub(crate) days: Style,
    pub(crate) beside: Option<Style>,
    pub(crate) month: Month,
    pub(crate) area: Rect,
}

impl<'b, DS: DateStyler> Weeks<'b, DS> {
    // The style in which the day in a place is written, if it is.
    #[tactic(auto, using(crate::proofs::WeekLemmas::style_missing))]
    fn style(&self, place: u32) -> Option<Style>
        ensures { let w = self.now in
            result ≡ day_style (DS.style_of w.events.now) w.days w.beside w.month.date place }
    {
        let is_in_month = self.month.is_in_month(place);
        let under = if is_in_month {
            self.days
        } else {
            self.days.patch(self.beside?)
        };
        let day = self.month.day(place)?;
        Some(under.patch(self.events.get_style(day)))
    }
}

// The character of the last digit of a number.
fn last_digit(number: u32) -> char
    ensures { result ≡ last_digit number }
{
    char::from(b'0' + (number % 10) as u8)
}

// The character of the digit before it, a blank if there is none.
fn digit_before(number: u32) -> char
    ensures { result ≡ digit_before number }
{
    if number < 10 {
        ' '
    } else {
        last_digit(number / 10)
    }
}

// The background of a style alone.
fn background(style: Style) -> Style
    ensures { result ≡ background_of style }
{
    Style {
        bg: style.bg,
        ..Style::new()
    }
}

impl<'b, DS: DateStyler> CellChange for Weeks<'b, DS> {
    ghost use Rattle.std.specs.Prelude.{⊤};
    ghost use Rattle.widget_calendar.specs.Calendars.{week_cell};

    ghost made = { λ w. week_cell (DS.style_of w.events.now) w.days w.beside w.month.date w.area };

    ghost is_light = { λ _ _ _. ⊤ };

    fn change(&self, alloc: Global, position: Position, cell: &mut Cell) -> Result<(), AllocError> {
        let x = u32::from(position.x.saturating_sub(self.area.x));
        let y = u32::from(position.y.saturating_sub(self.area.y));
        let place = 7 * y + x / 3;
        if x == 0 {
            return put_char(alloc, ' ', Style::new(), cell);
        }
        if x % 3 == 0 {
            return put_char(alloc, ' ', background(self.days), cell);
        }
        let Some(style) = self.style(place) else {
            return put_char(alloc, ' ', background(self.days), cell);
        };
        let number = self.month.number(place);
        if x % 3 == 1 {
            put_char(alloc, digit_before(number), style, cell)
        } else {
            put_char(alloc, last_digit(number), style, cell)
        }
    }
}
