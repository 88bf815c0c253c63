//! What each setting is written as, as the serde of `ratatui` writes it, and that it is read back.

use bitflags::Flags;
use ratatui_serde::{Serde, Setting};
use rtui_layout::Constraint;
use rtui_style::{Color, Modifier, Style};
use std::alloc::{AllocError, Global};
use widget_boxes::{BorderType, Borders};

// Whether a value is written as this JSON, and read from it.
fn is_row<T: Setting + PartialEq>(alloc: Global, value: T, json: &str) -> bool {
    is_written(alloc, value, json) && is_read(alloc, value, json)
}

// Whether a value is written as this JSON.
fn is_written<T: Setting>(alloc: Global, value: T, json: &str) -> bool {
    match serde_json::to_string(alloc, &Serde(value)) {
        Ok(text) => text.as_str() == json,
        Err(_) => false,
    }
}

// Whether this JSON is read as a value.
fn is_read<T: Setting + PartialEq>(alloc: Global, value: T, json: &str) -> bool {
    match serde_json::from_str::<Serde<T>>(alloc, json) {
        Ok(read) => read.0 == value,
        Err(_) => false,
    }
}

// Whether this JSON is refused.
fn is_refused<T: Setting>(alloc: Global, json: &str) -> bool {
    serde_json::from_str::<Serde<T>>(alloc, json).is_err()
}

#[test]
fn colors(rt: HostRuntime) {
    let alloc = rt.alloc();
    assert!(rt; is_row(alloc, Color::Red, r#""Red""#));
    assert!(rt; is_row(alloc, Color::LightMagenta, r#""LightMagenta""#));
    assert!(rt; is_row(alloc, Color::Rgb(255, 0, 255), r##""#FF00FF""##));
    assert!(rt; is_row(alloc, Color::Indexed(10), r#""10""#));
    assert!(rt; is_read(alloc, Color::White, r#""bright-white""#));
    assert!(rt; is_read(alloc, Color::Rgb(0, 255, 0), r##""#00ff00""##));
    assert!(rt; is_refused::<Color>(alloc, r#""invalid""#));
    assert!(rt; is_refused::<Color>(alloc, r##""#00000000""##));
    assert!(rt; is_refused::<Color>(alloc, "10"));
}

#[test]
fn modifiers(rt: HostRuntime) {
    let alloc = rt.alloc();
    assert!(rt; is_row(alloc, Modifier::NONE, r#""""#));
    assert!(rt; is_row(alloc, Modifier::BOLD, r#""BOLD""#));
    assert!(rt;
        is_row(
            alloc,
            Modifier::BOLD | Modifier::ITALIC,
            r#""BOLD | ITALIC""#
        )
    );
    assert!(rt;
        is_row(
            alloc,
            Modifier::ALL,
            r#""BOLD | DIM | ITALIC | UNDERLINED | SLOW_BLINK | RAPID_BLINK | REVERSED | HIDDEN | CROSSED_OUT""#
        )
    );
    assert!(rt;
        is_row(
            alloc,
            Modifier::from_bits_retain(0x8001),
            r#""BOLD | 0x8000""#
        )
    );
    assert!(rt; is_row(alloc, Modifier::from_bits_retain(0xfe00), r#""0xfe00""#));
    assert!(rt; is_read(alloc, Modifier::BOLD | Modifier::DIM, r#"" DIM|BOLD ""#));
    assert!(rt; is_refused::<Modifier>(alloc, r#""bold""#));
    assert!(rt; is_refused::<Modifier>(alloc, r#""BOLD |""#));
}

#[test]
fn constraints(rt: HostRuntime) {
    let alloc = rt.alloc();
    assert!(rt; is_row(alloc, Constraint::Length(3), r#"{"Length":3}"#));
    assert!(rt; is_row(alloc, Constraint::Min(0), r#"{"Min":0}"#));
    assert!(rt; is_row(alloc, Constraint::Max(65535), r#"{"Max":65535}"#));
    assert!(rt; is_row(alloc, Constraint::Percentage(50), r#"{"Percentage":50}"#));
    assert!(rt; is_row(alloc, Constraint::Ratio(1, 3), r#"{"Ratio":[1,3]}"#));
    assert!(rt; is_row(alloc, Constraint::Fill(1), r#"{"Fill":1}"#));
    assert!(rt; is_refused::<Constraint>(alloc, r#"{"Length":65536}"#));
    assert!(rt; is_refused::<Constraint>(alloc, r#"{"Ratio":[1]}"#));
    assert!(rt; is_refused::<Constraint>(alloc, r#"{"Length":3,"Min":1}"#));
    assert!(rt; is_refused::<Constraint>(alloc, r#""Length""#));
}

#[test]
fn borders(rt: HostRuntime) {
    let alloc = rt.alloc();
    assert!(rt; is_row(alloc, Borders::NONE, r#""""#));
    assert!(rt; is_row(alloc, Borders::TOP | Borders::LEFT, r#""TOP | LEFT""#));
    assert!(rt; is_row(alloc, Borders::ALL, r#""TOP | RIGHT | BOTTOM | LEFT""#));
    assert!(rt; is_read(alloc, Borders::ALL, r#""ALL""#));
    assert!(rt; is_row(alloc, Borders::from_bits_retain(0x90), r#""0x90""#));
    assert!(rt; is_row(alloc, BorderType::Rounded, r#""Rounded""#));
    assert!(rt; is_row(alloc, BorderType::QuadrantOutside, r#""QuadrantOutside""#));
    assert!(rt; is_refused::<Borders>(alloc, r#""MIDDLE""#));
    assert!(rt; is_refused::<BorderType>(alloc, r#""rounded""#));
}

#[test]
fn styles(rt: HostRuntime) {
    let alloc = rt.alloc();
    assert!(rt; is_row(alloc, Style::new(), "{}"));
    let warning = Style::new().fg(Color::Yellow).bg(Color::Rgb(32, 32, 32));
    assert!(rt; is_row(alloc, warning, r##"{"fg":"Yellow","bg":"#202020"}"##));
    let loud = Style::new()
        .underline_color(Color::Red)
        .add_modifier(Modifier::BOLD)
        .remove_modifier(Modifier::DIM);
    assert!(rt;
        is_row(
            alloc,
            loud,
            r#"{"underline_color":"Red","add_modifier":"BOLD","sub_modifier":"DIM"}"#
        )
    );
    assert!(rt; is_read(alloc, Style::new(), r#"{"fg":null,"add_modifier":null}"#));
    assert!(rt;
        is_read(
            alloc,
            warning,
            r##"{"bg":"#202020","other":[1],"fg":"yellow"}"##
        )
    );
    assert!(rt; is_refused::<Style>(alloc, r#"{"fg":"Red","fg":"Red"}"#));
    assert!(rt; is_refused::<Style>(alloc, r#"{"add_modifier":"LOUD"}"#));
}

#[test]
fn sets_without_serde(rt: HostRuntime) -> Result<(), AllocError> {
    let alloc = rt.alloc();
    let bold = Serde(Modifier::BOLD | Modifier::ITALIC);
    assert!(rt; format!(in alloc; "{bold}")?.as_str() == "BOLD | ITALIC");
    assert!(rt; "ITALIC | BOLD".parse() == Ok(bold));
    let sides = Serde(Borders::TOP | Borders::LEFT);
    assert!(rt; format!(in alloc; "{sides}")?.as_str() == "TOP | LEFT");
    assert!(rt; "LEFT|TOP".parse() == Ok(sides));
    assert!(rt; "ALL".parse() == Ok(Serde(Borders::ALL)));
    assert!(rt; "NORTH".parse::<Serde<Borders>>().is_err());
    Ok(())
}
