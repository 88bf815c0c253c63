//! A theme in TOML.

use ratatui_serde::Serde;
use rtui_layout::Constraint;
use rtui_style::{Color, Modifier, Style};
use serde::{Deserialize, Serialize};
use std::test::Fail;
use widget_boxes::{BorderType, Borders};

#[derive(Drop, Serialize, Deserialize)]
struct Theme {
    #[serde(with = "ratatui_serde")]
    accent: Color,
    #[serde(with = "ratatui_serde")]
    borders: Borders,
    #[serde(with = "ratatui_serde")]
    border_type: BorderType,
    columns: Vec<Serde<Constraint>>,
    #[serde(with = "ratatui_serde")]
    title: Style,
    #[serde(with = "ratatui_serde")]
    selected: Style,
}

const THEME: &str = r##"accent = "light-red"
borders = "TOP | BOTTOM"
border_type = "Rounded"
columns = [{ Length = 3 }, { Ratio = [1, 3] }, { Fill = 1 }]
title = { fg = "Yellow", bg = "#202020", add_modifier = "BOLD" }

[selected]
add_modifier = "REVERSED | ITALIC"
sub_modifier = "DIM"
"##;

const COLUMNS: [Serde<Constraint>; 3] = [
    Serde(Constraint::Length(3)),
    Serde(Constraint::Ratio(1, 3)),
    Serde(Constraint::Fill(1)),
];

// Whether a theme has what stands in the file.
fn is_read(theme: &Theme) -> bool {
    theme.accent == Color::LightRed
        && theme.borders == Borders::TOP | Borders::BOTTOM
        && theme.border_type == BorderType::Rounded
        && theme.columns.as_slice() == COLUMNS.as_slice()
        && theme.title
            == Style::new()
                .fg(Color::Yellow)
                .bg(Color::Rgb(32, 32, 32))
                .add_modifier(Modifier::BOLD)
        && theme.selected
            == Style::new()
                .add_modifier(Modifier::REVERSED | Modifier::ITALIC)
                .remove_modifier(Modifier::DIM)
}

#[test]
fn a_theme_is_read(rt: HostRuntime) -> Result<(), Fail> {
    let theme: Theme = toml::from_str(rt.alloc(), THEME)?;
    assert!(rt; is_read(&theme));
    Ok(())
}

#[test]
fn a_theme_is_read_back(rt: HostRuntime) -> Result<(), Fail> {
    let alloc = rt.alloc();
    let theme: Theme = toml::from_str(alloc, THEME)?;
    let text = toml::to_string(alloc, &theme)?;
    let back: Theme = toml::from_str(alloc, text.as_str())?;
    assert!(rt; is_read(&back), "{text}");
    Ok(())
}
