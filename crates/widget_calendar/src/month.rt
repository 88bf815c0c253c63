//! A month in weeks from Sunday on.

ghost use Rattle.std.specs.Prelude.{◌≡◌, ◌+◌, ◌-◌, ◌%◌, ◌≤◌, IsOk, IfOk, IfSome, is_some};
ghost use Rattle.jiff_core.specs.Date.{epoch_day, month_length};
ghost use Rattle.widget_calendar.specs.Days.{first_day, column_of_first, weeks_of, day_at, is_day};
ghost use Rattle.widget_calendar.specs.Days.{is_in_month, length_before, day_number};

use jiff::civil::Date;
use jiff_core::civil;

/// A month as it stands in weeks from Sunday on: a date of it, its 1st, the column of that, how
/// many days it has, and how many the month before it has.
#[derive(Clone, Copy)]
pub(crate) struct Month {
    date: civil::Date,
    first: civil::Date,
    column: u8,
    days: u8,
    before: u8,
    ghost first_is: { epoch_day first ≡ first_day date },
    ghost column_is: { column ≡ column_of_first date },
    ghost days_is: { days ≡ month_length date },
    ghost before_is: { before ≡ length_before date },
}

impl Month {
    /// The month of a date.
    pub(crate) fn of(date: Date) -> Month
        ensures { result.date ≡ date }
    {
        let date = date.to_plain();
        let first = civil::Date::constrain(date.year, date.month, 1);
        Month {
            date,
            first,
            column: (first.weekday().index() + 1) % 7,
            days: civil::days_in_month(date.year, date.month),
            before: days_before(date),
        }
    }

    /// How many weeks have a day of the month.
    pub(crate) fn weeks(self) -> u16
        ensures value { result ≡ weeks_of self.date }
        ensures few { result ≤ 6 }
    {
        (u16::from(self.column) + u16::from(self.days) + 6) / 7
    }

    /// Whether the day in a place is one of the month.
    pub(crate) fn is_in_month(self, place: u32) -> bool
        ensures { result ≡ is_in_month self.date place }
    {
        let column = u32::from(self.column);
        column <= place && place < column + u32::from(self.days)
    }

    /// Which day of its month stands in a place.
    pub(crate) fn number(self, place: u32) -> u32
        requires { place ≤ 1_000_000 }
        ensures { result ≡ day_number self.date place }
    {
        let column = u32::from(self.column);
        let end = column + u32::from(self.days);
        if place < column {
            u32::from(self.before) + place + 1 - column
        } else if place < end {
            place + 1 - column
        } else {
            place + 1 - end
        }
    }

    /// The day in a place, if the calendar has it.
    pub(crate) fn day(self, place: u32) -> Option<Date>
        ensures some { IfSome result (λ date. epoch_day date ≡ day_at self.date place) }
        ensures there { is_some result ≡ is_day (day_at self.date place) }
    {
        let days = i64::from(place) - i64::from(self.column);
        match self.first.checked_add(days) {
            Ok(date) => Some(Date::from_plain(date)),
            Err(_) => None,
        }
    }
}

// How many days the month before has.
fn days_before(date: civil::Date) -> u8
    ensures { result ≡ length_before date }
{
    if date.month == 1 {
        return 31;
    }
    civil::days_in_month(date.year, date.month - 1)
}
