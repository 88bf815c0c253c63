//! A month.

ghost use Rattle.std.specs.Prelude.{◌≡◌, Some, None};
ghost use Rattle.ratatui_core.specs.Style.{new_style};
ghost use Rattle.rtui_drawing.specs.Drawings.{IsDone};
ghost use Rattle.widget_calendar.specs.Calendars.{columns_of_month, rows_of_month, weeks};
ghost use Rattle.widget_calendar.specs.Calendars.{heading, heading_if, weekdays_if};
ghost use Rattle.widget_calendar.specs.Calendars.{rows_above_weekdays, rows_above_weeks};

use crate::events::DateStyler;
use crate::letters::{Letters, WEEKDAYS, month_text};
use crate::month::Month;
use crate::weeks::Weeks;
use jiff::civil::Date;
use ratatui_core::buffer::Buffer;
use ratatui_core::layout::Rect;
use ratatui_core::style::Style;
use ratatui_core::widgets::Widget;
use rtui_drawing::{Cut, put_change, put_style};
use rtui_inside::{DrawInside, render_inside};
use std::alloc::AllocError;
use widget_boxes::{Block, columns_around_if, rows_around_if};

/// A calendar of a month: its days in weeks from Sunday on, a week in each row, each day in its own
/// style over that of the days.
///
/// ```
/// let monthly = Monthly::new(date, events)
///     .show_month_header(Style::new().bold())
///     .show_weekdays_header(Style::new());
/// frame.render_widget(monthly, area)
/// ```
#[derive(Debug, Drop)]
pub struct Monthly<'a, DS: DateStyler> {
    display_date: Date,
    events: DS,
    show_surrounding: Option<Style>,
    show_weekday: Option<Style>,
    show_month: Option<Style>,
    default_style: Style,
    block: Option<Block<'a>>,
}

impl<'a, DS: DateStyler> Monthly<'a, DS> {
    /// Makes a calendar of the month of a date, which asks `events` for the style of each day. It has
    /// no header, no box and no style, and shows no days beside the month. Takes no memory.
    pub fn new(display_date: Date, events: DS) -> Monthly<'a, DS>
        ensures { result ≡ record {
          display_date = display_date;
          events = events;
          show_surrounding = None;
          show_weekday = None;
          show_month = None;
          default_style = new_style;
          block = None;
        } }
    {
        Monthly {
            display_date,
            events,
            show_surrounding: None,
            show_weekday: None,
            show_month: None,
            default_style: Style::new(),
            block: None,
        }
    }

    /// Shows the days of the months beside it in its first week and its last one, in a style over
    /// that of the days.
    pub fn show_surrounding(mut self, style: Style) -> Monthly<'a, DS>
        ensures { result ≡ record self.entry { show_surrounding = Some style } }
    {
        self.show_surrounding = Some(style);
        self
    }

    /// Shows a row with the weekdays, in a style.
    pub fn show_weekdays_header(mut self, style: Style) -> Monthly<'a, DS>
        ensures { result ≡ record self.entry { show_weekday = Some style } }
    {
        self.show_weekday = Some(style);
        self
    }

    /// Shows a row with the month and its year, in a style.
    pub fn show_month_header(mut self, style: Style) -> Monthly<'a, DS>
        ensures { result ≡ record self.entry { show_month = Some style } }
    {
        self.show_month = Some(style);
        self
    }

    /// Sets the style of the days.
    pub fn default_style(mut self, style: Style) -> Monthly<'a, DS>
        ensures { result ≡ record self.entry { default_style = style } }
    {
        self.default_style = style;
        self
    }

    /// Puts the calendar in a box.
    pub fn block(mut self, block: Block<'a>) -> Monthly<'a, DS>
        ensures { result ≡ record self.entry { block = Some block.entry } }
    {
        self.block = Some(block);
        self
    }

    /// Returns how many columns the calendar takes with its box; at most 65535.
    pub fn width(&self) -> u16
        ensures { result ≡ columns_of_month self.now }
    {
        let columns = columns_around_if(&self.block).saturating_add(21);
        columns.min(65535) as u16
    }

    /// Returns how many rows the calendar takes with its headers and its box; at most 65535.
    pub fn height(&self) -> u16
        ensures { result ≡ rows_of_month self.now }
    {
        let rows = Month::of(self.display_date).weeks() + self.rows_above_weeks();
        let rows = rows_around_if(&self.block).saturating_add(usize::from(rows));
        rows.min(65535) as u16
    }

    // How many rows stand above the weekdays.
    fn rows_above_weekdays(&self) -> u16
        ensures { result ≡ rows_above_weekdays self.now }
    {
        u16::from(self.show_month.is_some())
    }

    // How many rows stand above the weeks.
    fn rows_above_weeks(&self) -> u16
        ensures { result ≡ rows_above_weeks self.now }
    {
        self.rows_above_weekdays() + u16::from(self.show_weekday.is_some())
    }

    // Puts the month and its year into the middle of a row.
    fn put_heading(&self, style: Style, row: Rect, buf: &mut Buffer) -> Result<(), AllocError>
        ensures { let d = heading self.now.display_date style row in
            IsDone d row result buf.old buf.new }
    {
        let text = month_text(self.display_date);
        let middle = Cut::Middle(text.len() as u16).of(row);
        let letters = Letters {
            text: text.as_str(),
            skipped: text.len().saturating_sub(usize::from(row.width)) / 2,
            style,
            row: middle,
        };
        put_style(style, row, buf);
        put_change(&letters, middle, buf)
    }

    // Puts the month and its year into a row, if they are shown.
    fn put_month(&self, row: Rect, buf: &mut Buffer) -> Result<(), AllocError>
        ensures { let d = heading_if self.now.show_month self.now.display_date row in
            IsDone d row result buf.old buf.new }
    {
        match self.show_month {
            None => Ok(()),
            Some(style) => self.put_heading(style, row, buf),
        }
    }

    // Puts the weekdays into a row, if they are shown.
    fn put_weekdays(&self, row: Rect, buf: &mut Buffer) -> Result<(), AllocError>
        ensures { let d = weekdays_if self.now.show_weekday row in
            IsDone d row result buf.old buf.new }
    {
        let Some(style) = self.show_weekday else {
            return Ok(());
        };
        let letters = Letters {
            text: WEEKDAYS,
            skipped: 0,
            style,
            row,
        };
        put_change(&letters, row, buf)
    }

    // Puts the weeks into an area, a week in each row.
    fn put_weeks(&self, month: Month, area: Rect, buf: &mut Buffer) -> Result<(), AllocError>
        ensures { let m = self.now in
            let own = DS.style_of m.events in
            let d = weeks own m.default_style m.show_surrounding month.date area in
            IsDone d area result buf.old buf.new }
    {
        let part = Cut::First(21).of(area);
        let weeks = Weeks {
            events: &self.events,
            days: self.default_style,
            beside: self.show_surrounding,
            month,
            area: part,
        };
        put_change(&weeks, part, buf)
    }
}

// The month, the weekdays and the weeks inside the box, in rows from above.
impl<'a, DS: DateStyler> DrawInside for Monthly<'a, DS> {
    ghost use Rattle.widget_calendar.specs.Calendars.{calendar_drawing};

    ghost drawing = { calendar_drawing DS.style_of };

    #[tactic(auto, using(rtui_drawing::proofs::DrawingLemmas::drawing_steps))]
    fn draw_inside(&self, inner: Rect, buf: &mut Buffer) -> Result<(), AllocError> {
        let month = Month::of(self.display_date);
        self.put_month(Cut::Rows(0, 1).of(inner), buf)?;
        self.put_weekdays(Cut::Rows(self.rows_above_weekdays(), 1).of(inner), buf)?;
        let days = Cut::Rows(self.rows_above_weeks(), month.weeks()).of(inner);
        self.put_weeks(month, days, buf)
    }
}

/// Over the area, as far as the buffer has it: the box, and inside the month, the weekdays and the
/// weeks, as far as there are rows and columns.
impl<'b, 'a, DS: DateStyler> Widget for &'b Monthly<'a, DS> {
    ghost use Rattle.widget_boxes.specs.Framed.{IsShortFrame};
    ghost use Rattle.widget_calendar.specs.Calendars.{RendersMonthly, LeavesMonthly};

    ghost renders = { λ m. RendersMonthly DS.style_of m.now };

    ghost leaves = { λ m. LeavesMonthly DS.style_of m.now };

    ghost is_short = { λ m _ s. IsShortFrame m.now.block s };

    fn render(self, area: Rect, buf: &mut Buffer) -> Result<(), AllocError> {
        render_inside(self, Style::new(), &self.block, area, buf)
    }
}

impl<'a, DS: DateStyler + Drop> Widget for Monthly<'a, DS> {
    ghost use Rattle.widget_boxes.specs.Framed.{IsShortFrame};
    ghost use Rattle.widget_calendar.specs.Calendars.{RendersMonthly, LeavesMonthly};

    ghost renders = { RendersMonthly DS.style_of };

    ghost leaves = { LeavesMonthly DS.style_of };

    ghost is_short = { λ m _ s. IsShortFrame m.block s };

    fn render(self, area: Rect, buf: &mut Buffer) -> Result<(), AllocError> {
        (&self).render(area, buf)
    }
}
