//! Bytes that are sent, beside those of a terminal's manual.
use ansi_model::{
    Glyph, Sgr, append_lines, delete_lines, erase, erase_all, glyph_of, hide_cursor, insert_lines,
    is_symbol, move_to, push_plain, push_sgr, reset_region, scroll_region_down, scroll_region_up,
    set_region, show_cursor,
};
use bitflags::Flags;
use rtui_backend::ClearType;
use rtui_cell::Cell;
use rtui_style::{Color, Modifier};
use std::alloc::Global;
use std::test::Fail;

#[test]
fn moves_and_erases(rt: HostRuntime) -> Result<(), Fail> {
    let mut out = String::new(rt.alloc());
    move_to(&mut out, 4, 2)?;
    erase(&mut out, ClearType::AfterCursor)?;
    erase(&mut out, ClearType::BeforeCursor)?;
    erase(&mut out, ClearType::CurrentLine)?;
    erase(&mut out, ClearType::UntilNewLine)?;
    erase_all(&mut out, 80, 24)?;
    assert!(rt;
        out.as_str() == "\u{1b}[3;5H\u{1b}[J\u{1b}[1J\u{1b}[2K\u{1b}[K\u{1b}[24;80H\u{1b}[1J"
    );
    Ok(())
}

#[test]
fn cursors_and_regions(rt: HostRuntime) -> Result<(), Fail> {
    let mut out = String::new(rt.alloc());
    hide_cursor(&mut out)?;
    show_cursor(&mut out)?;
    set_region(&mut out, 1, 9)?;
    delete_lines(&mut out, 3)?;
    insert_lines(&mut out, 12)?;
    reset_region(&mut out)?;
    append_lines(&mut out, 2)?;
    assert!(rt;
        out.as_str() == "\u{1b}[?25l\u{1b}[?25h\u{1b}[2;9r\u{1b}[3M\u{1b}[12L\u{1b}[r\r\n\n"
    );
    Ok(())
}

// Whether a region of a screen of 5 rows scrolls up, the region, by how many rows, and what is sent
// for it.
type Scrolled = (bool, (u16, u16), u16, &'static str);

static SCROLLED: [Scrolled; 8] = [
    (true, (0, 9), 2, "\u{1b}[5;1H\r\n\n"),
    (true, (0, 3), 1, "\u{1b}[1;3r\u{1b}[3;1H\r\n\u{1b}[r"),
    (
        true,
        (0, 1),
        1,
        "\u{1b}[1;2r\u{1b}[2;1H\n\u{1b}[1;1H\u{1b}[1L\u{1b}[r",
    ),
    (true, (1, 4), 2, "\u{1b}[2;4r\u{1b}[2;1H\u{1b}[2M\u{1b}[r"),
    (true, (4, 9), 2, "\u{1b}[5;1H\u{1b}[2K"),
    (false, (0, 3), 7, "\u{1b}[1;3r\u{1b}[1;1H\u{1b}[7L\u{1b}[r"),
    (false, (2, 3), 1, "\u{1b}[3;1H\u{1b}[2K"),
    (false, (5, 9), 1, ""),
];

// Whether scrolling sends what it should.
fn scrolls(alloc: Global, case: &Scrolled) -> Result<bool, Fail> {
    let (up, (start, end), rows, sent) = *case;
    let mut out = String::new(alloc);
    let answer = if up {
        scroll_region_up(&mut out, 5, start..end, rows)
    } else {
        scroll_region_down(&mut out, 5, start..end, rows)
    };
    answer?;
    Ok(out.as_str() == sent)
}

#[test]
fn regions_that_scroll(rt: HostRuntime) -> Result<(), Fail> {
    for case in &SCROLLED {
        assert!(rt; scrolls(rt.alloc(), case)?);
    }
    Ok(())
}

// A rendition: its three colours and its modifiers, and what is sent for it.
struct Rendition {
    fg: Color,
    bg: Color,
    underline: Color,
    modifiers: u16,
    sent: &'static str,
}

static RENDITIONS: [Rendition; 8] = [
    Rendition {
        fg: Color::Reset,
        bg: Color::Reset,
        underline: Color::Reset,
        modifiers: 0,
        sent: "\u{1b}[0m",
    },
    Rendition {
        fg: Color::Red,
        bg: Color::LightBlue,
        underline: Color::Reset,
        modifiers: 0b1001,
        sent: "\u{1b}[0;1;4;31;104m",
    },
    Rendition {
        fg: Color::White,
        bg: Color::Black,
        underline: Color::Reset,
        modifiers: 511,
        sent: "\u{1b}[0;1;2;3;4;5;6;7;8;9;97;40m",
    },
    Rendition {
        fg: Color::Indexed(9),
        bg: Color::Rgb(1, 20, 255),
        underline: Color::Indexed(0),
        modifiers: 0,
        sent: "\u{1b}[0;38;5;9;48;2;1;20;255;58;5;0m",
    },
    Rendition {
        fg: Color::Rgb(1, 20, 255),
        bg: Color::Rgb(2, 3, 4),
        underline: Color::Indexed(7),
        modifiers: 0b1_0100_1111,
        sent: "\u{1b}[0;1;2;3;4;7;9;38;2;1;20;255m\u{1b}[48;2;2;3;4;58;5;7m",
    },
    Rendition {
        fg: Color::Rgb(1, 20, 255),
        bg: Color::Rgb(2, 3, 4),
        underline: Color::Rgb(5, 6, 7),
        modifiers: 0b1_1111,
        sent: "\u{1b}[0;1;2;3;4;5;38;2;1;20;255;48;2;2;3;4m\u{1b}[58;2;5;6;7m",
    },
    Rendition {
        fg: Color::Reset,
        bg: Color::Reset,
        underline: Color::Red,
        modifiers: 0,
        sent: "",
    },
    Rendition {
        fg: Color::Reset,
        bg: Color::Reset,
        underline: Color::Reset,
        modifiers: 512,
        sent: "",
    },
];

// Whether a rendition is sent as it should be; nothing is sent for one that can't be.
fn is_sent(alloc: Global, case: &Rendition) -> Result<bool, Fail> {
    let mut cell = Cell::EMPTY;
    cell.fg = case.fg;
    cell.bg = case.bg;
    cell.underline_color = case.underline;
    cell.modifier = Modifier::from_bits_retain(case.modifiers);
    let sgr = Sgr::of(&cell);
    let mut out = String::new(alloc);
    if sgr.is_sendable() {
        push_sgr(&mut out, &sgr)?;
    }
    Ok(out.as_str() == case.sent)
}

#[test]
fn renditions(rt: HostRuntime) -> Result<(), Fail> {
    for case in &RENDITIONS {
        assert!(rt; is_sent(rt.alloc(), case)?);
    }
    Ok(())
}

static SYMBOLS: [&str; 5] = ["a", "コ", "e\u{301}", "👩\u{200d}🔬", "コ\u{200b}"];

static NO_SYMBOLS: [&str; 10] = [
    "",
    "a\u{1b}[2J",
    "\u{9b}2J",
    "\u{7f}",
    "a\u{202e}b",
    "\u{301}",
    "\n",
    "ab",
    "日本",
    "コa",
];

static GLYPHS: [(&str, Option<Glyph>); 8] = [
    ("─", Some(Glyph::Plain('─'))),
    ("é", Some(Glyph::Plain('é'))),
    ("コ", Some(Glyph::Whole(2))),
    ("e\u{301}", Some(Glyph::Whole(1))),
    ("❤\u{fe0f}", Some(Glyph::Disputed(2))),
    ("ab", None),
    ("", None),
    ("\u{9b}", None),
];

#[test]
fn symbols(rt: HostRuntime) {
    assert!(rt; SYMBOLS.iter().all(|symbol| is_symbol(symbol)));
    assert!(rt; !NO_SYMBOLS.iter().any(|text| is_symbol(text)));
    assert!(rt; GLYPHS.iter().all(|(text, glyph)| glyph_of(text) == *glyph));
}

#[test]
fn a_plain_character(rt: HostRuntime) -> Result<(), Fail> {
    let mut out = String::new(rt.alloc());
    push_plain(&mut out, '~')?;
    assert!(rt; out.as_str() == "~");
    Ok(())
}
