//! Rows, and the calendars that they ask for.

use crate::shown::{panels_of, points};
use crate::styles::style_of;
use jiff::civil::Date;
use ratatui_core::layout::Rect;
use ratatui_core::widgets::Widget;
use std::alloc::{AllocError, Global};
use widget_boxes::Block;
use widget_calendar::{CalendarEventStore, Monthly};

// A row as it is written.
#[derive(Drop)]
pub struct Case<'a> {
    date: Date,
    width: u16,
    height: u16,
    words: &'a str,
    events: &'a str,
}

// A date, as 2026-11-29 or -9999-01-01.
fn date_of(text: &str) -> Option<Date> {
    let (rest, day) = text.rsplit_once('-')?;
    let (year, month) = rest.rsplit_once('-')?;
    let year = year.parse::<i16>().ok()?;
    let month = month.parse::<i8>().ok()?;
    let day = day.parse::<i8>().ok()?;
    Date::new(year, month, day).ok()
}

// A number, or 0.
fn number(text: &str) -> u16 {
    match text.parse::<u16>() {
        Ok(number) => number,
        Err(_) => 0,
    }
}

// An area: its column, its row, and how many there are of both.
fn area_of(text: &str) -> Option<Rect> {
    let (x, rest) = text.split_once(',')?;
    let (y, rest) = rest.split_once(',')?;
    let (width, height) = rest.split_once(',')?;
    Some(Rect::new(number(x), number(y), number(width), number(height)))
}

// The events of a row.
fn events_of(alloc: Global, text: &str) -> Result<CalendarEventStore, AllocError> {
    let mut events = CalendarEventStore::new(alloc);
    for word in text.split(' ') {
        if let Some((date, letters)) = word.split_once(':') {
            if let Some(date) = date_of(date) {
                events.add(date, style_of(letters))?;
            }
        }
    }
    Ok(events)
}

// A calendar with what a word says.
fn with_word<'a>(
    alloc: Global,
    month: Monthly<'a, &'a CalendarEventStore>,
    word: &str,
) -> Result<Monthly<'a, &'a CalendarEventStore>, AllocError> {
    match word.split_once(':') {
        Some(("month", letters)) => Ok(month.show_month_header(style_of(letters))),
        Some(("weekdays", letters)) => Ok(month.show_weekdays_header(style_of(letters))),
        Some(("beside", letters)) => Ok(month.show_surrounding(style_of(letters))),
        Some(("days", letters)) => Ok(month.default_style(style_of(letters))),
        Some(_) => Ok(month),
        None => match word {
            "box" => Ok(month.block(Block::bordered(alloc))),
            "title" => Ok(month.block(Block::new(alloc).title_raw("title")?)),
            _ => Ok(month),
        },
    }
}

impl<'a> Case<'a> {
    // Reads a row.
    pub fn read(line: &'a str) -> Option<Case<'a>> {
        let (date, rest) = line.split_once('\t')?;
        let (size, rest) = rest.split_once('\t')?;
        let (words, events) = rest.split_once('\t')?;
        let (width, height) = size.split_once('x')?;
        Some(Case {
            date: date_of(date)?,
            width: number(width),
            height: number(height),
            words,
            events,
        })
    }

    // The area in which the calendar is rendered.
    fn area(&self) -> Rect {
        for word in self.words.split(' ') {
            if let Some(("in", text)) = word.split_once(':') {
                if let Some(area) = area_of(text) {
                    return area;
                }
            }
        }
        Rect::new(0, 0, self.width, self.height)
    }

    // What is printed of it.
    pub fn shown(&self, alloc: Global) -> Result<String, AllocError> {
        let events = events_of(alloc, self.events)?;
        let mut month = Monthly::new(self.date, &events);
        for word in self.words.split(' ') {
            month = with_word(alloc, month, word)?;
        }
        let mut buffer = points(alloc, self.width, self.height)?;
        (&month).render(self.area(), &mut buffer)?;
        let panels = panels_of(alloc, &buffer)?;
        let (width, height) = (month.width(), month.height());
        format!(in alloc; "{width} columns, {height} rows\n{panels}")
    }
}
