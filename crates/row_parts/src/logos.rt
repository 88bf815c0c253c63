//! Rows of logos and mascots.

use crate::rows::Row;
use ratatui_core::buffer::Buffer;
use ratatui_core::widgets::Widget;
use std::alloc::{AllocError, Global};
use widget_logo::{MascotEyeColor, RatatuiLogo, RatatuiMascot};

// Renders the logo of a row.
pub fn render(alloc: Global, row: &Row<'_>, buffer: &mut Buffer) -> Result<String, AllocError> {
    let mut logo = RatatuiLogo::tiny();
    for word in row.words.split(' ') {
        if word == "small" {
            logo = RatatuiLogo::small();
        }
    }
    logo.render(row.area(), buffer)?;
    Ok(String::new(alloc))
}

// Renders the mascot of a row.
pub fn render_mascot(
    alloc: Global,
    row: &Row<'_>,
    buffer: &mut Buffer,
) -> Result<String, AllocError> {
    let mut mascot = RatatuiMascot::new();
    for word in row.words.split(' ') {
        if word == "red" {
            mascot = mascot.set_eye(MascotEyeColor::Red);
        }
    }
    mascot.render(row.area(), buffer)?;
    Ok(String::new(alloc))
}
