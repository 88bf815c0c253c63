//! Examples of styles, colours and symbols.
use ratatui_core::style::palette::{material, tailwind};
use ratatui_core::style::{Color, Modifier, Style, Stylize};
use ratatui_core::symbols::merge::{BorderSymbol, MergeStrategy};
use ratatui_core::symbols::{Marker, border, line};
use ratatui_core::text::Line;
use std::alloc::AllocError;
use std::test::Fail;

#[test]
fn a_style_is_laid_over_another(rt: HostRuntime) {
    let warning = Style::new().fg(Color::Yellow).add_modifier(Modifier::BOLD);
    let shown = Style::new().bg(Color::Black).patch(warning);
    assert!(rt;
        shown
            == Style::new()
                .fg(Color::Yellow)
                .bg(Color::Black)
                .add_modifier(Modifier::BOLD)
    );
}

#[test]
fn texts_are_styled_by_shorthands(rt: HostRuntime) -> Result<(), AllocError> {
    let alloc = rt.alloc();
    let title = "Files".bold().yellow().on_blue();
    let line = Line::raw(alloc, "plain text in a green line")?.green();
    assert!(rt; title.style.bg == Some(Color::Blue));
    assert!(rt; line.style.fg == Some(Color::Green));
    Ok(())
}

#[test]
fn palettes_have_colours(rt: HostRuntime) {
    assert!(rt; material::RED.a700 == Color::Rgb(213, 0, 0));
    assert!(rt; tailwind::SLATE.c500 == Color::Rgb(100, 116, 139));
}

#[test]
fn sets_have_symbols(rt: HostRuntime) {
    assert!(rt; border::DOUBLE.top_left == "╔");
    let round = border::Set {
        top_left: line::ROUNDED_TOP_LEFT,
        ..border::PLAIN
    };
    assert!(rt; round.top_left == "╭");
    assert!(rt; line::DOUBLE.cross == "╬");
}

#[test]
fn markers_are_read_and_printed(rt: HostRuntime) -> Result<(), AllocError> {
    let alloc = rt.alloc();
    assert!(rt; "Braille".parse::<Marker>() == Ok(Marker::Braille));
    assert!(rt; Marker::HalfBlock.to_string(alloc)?.as_str() == "HalfBlock");
    Ok(())
}

#[test]
fn borders_are_merged(rt: HostRuntime) {
    assert!(rt; MergeStrategy::Replace.merge("│", "━") == "━");
    assert!(rt; MergeStrategy::Exact.merge("│", "━") == "┿");
    assert!(rt; MergeStrategy::Exact.merge("┘", "╭") == "╭");
    assert!(rt; MergeStrategy::Fuzzy.merge("┘", "╭") == "┼");
}

#[test]
fn border_symbols_are_joined(rt: HostRuntime) -> Result<(), Fail> {
    let plain: BorderSymbol = "─".parse()?;
    let thick: BorderSymbol = "┃".parse()?;
    assert!(rt; plain.exact(thick).to_str() == Some("╂"));
    Ok(())
}
