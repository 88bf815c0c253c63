//! Days with a style of their own.

ghost use Rattle.std.specs.Prelude.{◌≡◌, [], ℤ, OnOk, OnErr};
ghost use Rattle.ratatui_core.specs.Style.{Style};
ghost use Rattle.jiff_core.specs.Date.{epoch_day};
ghost use Rattle.widget_calendar.specs.Events.{dates_of, IsAdded};

use jiff::civil::Date;
use ratatui_core::style::Style;
use std::alloc::{AllocError, Global};
use std::collections::BTreeMap;

/// What says which style each day has of its own, over that of the days.
pub trait DateStyler {
    // the style of each day, by its number from 1970-01-01 on
    ghost style_of: { Self → ℤ → Style };

    /// Returns the style of a day.
    fn get_style(&self, date: Date) -> Style
        ensures { result ≡ style_of self.now (epoch_day date) };
}

/// Dates with a style each.
///
/// ```
/// let mut events = CalendarEventStore::new(alloc);
/// events.add(date, Style::new().red())?;
/// ```
#[derive(Debug, Drop)]
pub struct CalendarEventStore {
    events: BTreeMap<Date, Style>,
}

impl CalendarEventStore {
    /// Makes a store without events. Takes no memory.
    pub fn new(alloc: Global) -> CalendarEventStore
        ensures { dates_of result ≡ [] }
    {
        CalendarEventStore {
            events: BTreeMap::new(alloc),
        }
    }

    /// Gives a date a style, in place of the one that it had.
    ///
    /// # Errors
    ///
    /// `AllocError` if memory is refused; nothing has changed then.
    #[tactic(auto, using(crate::proofs::EventLemmas::style_added))]
    pub fn add(&mut self, date: Date, style: Style) -> Result<(), AllocError>
        ensures added { OnOk result (IsAdded date style self.old self.new) }
        ensures err { OnErr result (dates_of self.new ≡ dates_of self.old) }
    {
        self.events.insert(date, style)?;
        Ok(())
    }
}

impl DateStyler for CalendarEventStore {
    ghost use Rattle.widget_calendar.specs.Events.{style_on};

    ghost style_of = { style_on };

    fn get_style(&self, date: Date) -> Style {
        match self.events.get(&date) {
            Some(style) => *style,
            None => Style::new(),
        }
    }
}

impl<'b, T: DateStyler> DateStyler for &'b T {
    ghost style_of = { λ events. T.style_of events.now };

    fn get_style(&self, date: Date) -> Style {
        (**self).get_style(date)
    }
}
