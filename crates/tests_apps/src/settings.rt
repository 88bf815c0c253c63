//! Settings in files: the examples of doc comments.

use ratatui_serde::Serde;
use rtui_layout::Constraint;
use rtui_style::{Color, Modifier, Style};
use serde::{Deserialize, Serialize};
use std::test::Fail;

#[derive(Drop, Serialize, Deserialize)]
struct Theme {
    #[serde(with = "ratatui_serde")]
    title: Style,
    columns: Vec<Serde<Constraint>>,
}

#[test]
fn a_theme(rt: HostRuntime) -> Result<(), Fail> {
    let text = r##"title = { fg = "Yellow", bg = "#202020", add_modifier = "BOLD" }
columns = [{ Length = 3 }, { Fill = 1 }]
"##;
    let theme: Theme = toml::from_str(rt.alloc(), text)?;
    let title = Style::new()
        .fg(Color::Yellow)
        .bg(Color::Rgb(32, 32, 32))
        .add_modifier(Modifier::BOLD);
    assert!(rt; theme.title == title);
    let columns = [Serde(Constraint::Length(3)), Serde(Constraint::Fill(1))];
    assert!(rt; theme.columns.as_slice() == columns.as_slice());
    Ok(())
}

#[test]
fn widths(rt: HostRuntime) -> Result<(), Fail> {
    let alloc = rt.alloc();
    let widths: Vec<Serde<Constraint>> = serde_json::from_str(
        alloc,
        r#"[{"Length":3},{"Fill":1}]"#,
    )?;
    let wanted = [Serde(Constraint::Length(3)), Serde(Constraint::Fill(1))];
    assert!(rt; widths.as_slice() == wanted.as_slice());
    Ok(())
}
