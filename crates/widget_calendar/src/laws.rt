//! Laws of calendars that are no single call's clause.

ghost use Rattle.std.specs.Prelude.{◌≡◌, ◌<◌, ◌+◌, ◌*◌, ◌%◌, ◌↔◌, ℕ, IfSome, IsTrue};
ghost use Rattle.jiff_core.specs.declared.civil.date.Date.{Date};
ghost use Rattle.jiff_core.specs.Date.{epoch_day, weekday_of};
ghost use Rattle.ratatui_core.specs.Layout.{Rect};
ghost use Rattle.ratatui_core.specs.Buffer.{BufferData, IsPlainFrom};
ghost use Rattle.widget_boxes.specs.Boxes.{IsNarrowBox};
ghost use Rattle.widget_calendar.specs.declared.monthly.Monthly.{Monthly};
ghost use Rattle.widget_calendar.specs.Days.{weeks_of, day_at, is_in_month, day_number, HasOwnDay};
ghost use Rattle.widget_calendar.specs.Calendars.{RendersMonthly};

use crate::events::DateStyler;

/// Says that in each column stand days of one weekday, in the first one Sundays.
pub fn columns_are_weekdays()
    ensures { (shown day : Date) (place : ℕ) → epoch_day day ≡ day_at shown place
        → (weekday_of day + 1) % 7 ≡ place % 7 }
{}

/// Says that the weeks that are shown are those in which a day of the month stands.
pub fn weeks_have_days_of_the_month()
    ensures { (shown : Date) (week : ℕ) → (week < weeks_of shown) ↔ HasOwnDay shown week }
{}

/// Says that in these weeks each number is that of the day in its place, and that the days of the
/// month are those of its year and month.
pub fn numbers_are_those_of_days()
    ensures number { (shown day : Date) (place : ℕ) → place < 7 * weeks_of shown
        → epoch_day day ≡ day_at shown place → day_number shown place ≡ day.day }
    ensures own { (shown day : Date) (place : ℕ) → place < 7 * weeks_of shown
        → epoch_day day ≡ day_at shown place
        → (IsTrue (is_in_month shown place) ↔ ((day.year ≡ shown.year) × (day.month ≡ shown.month))) }
{}

/// Says that a calendar keeps cells plain, if it has no box or a narrow one; so a screen can show
/// it.
pub fn calendars_keep_cells_plain<DS: DateStyler>()
    ensures { (m : Monthly DS) (area : Rect) (old new : BufferData) → IfSome m.block IsNarrowBox
        → IsPlainFrom 0 old → RendersMonthly DS.style_of m area old new → IsPlainFrom 0 new }
{}
