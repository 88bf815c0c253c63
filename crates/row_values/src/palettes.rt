//! Palettes by their names.
use ratatui_core::style::Color;
use ratatui_core::style::palette::material::{self, AccentedPalette, NonAccentedPalette};
use ratatui_core::style::palette::tailwind::{self, Palette};
use row_words::answer::Answer;
use row_words::args::Args;
use row_words::error::RowError;
use row_words::names::entry_of;

static TAILWIND: [(&str, Palette); 22] = [
    ("SLATE", tailwind::SLATE),
    ("GRAY", tailwind::GRAY),
    ("ZINC", tailwind::ZINC),
    ("NEUTRAL", tailwind::NEUTRAL),
    ("STONE", tailwind::STONE),
    ("RED", tailwind::RED),
    ("ORANGE", tailwind::ORANGE),
    ("AMBER", tailwind::AMBER),
    ("YELLOW", tailwind::YELLOW),
    ("LIME", tailwind::LIME),
    ("GREEN", tailwind::GREEN),
    ("EMERALD", tailwind::EMERALD),
    ("TEAL", tailwind::TEAL),
    ("CYAN", tailwind::CYAN),
    ("SKY", tailwind::SKY),
    ("BLUE", tailwind::BLUE),
    ("INDIGO", tailwind::INDIGO),
    ("VIOLET", tailwind::VIOLET),
    ("PURPLE", tailwind::PURPLE),
    ("FUCHSIA", tailwind::FUCHSIA),
    ("PINK", tailwind::PINK),
    ("ROSE", tailwind::ROSE),
];

static ACCENTED: [(&str, AccentedPalette); 16] = [
    ("RED", material::RED),
    ("PINK", material::PINK),
    ("PURPLE", material::PURPLE),
    ("DEEP_PURPLE", material::DEEP_PURPLE),
    ("INDIGO", material::INDIGO),
    ("BLUE", material::BLUE),
    ("LIGHT_BLUE", material::LIGHT_BLUE),
    ("CYAN", material::CYAN),
    ("TEAL", material::TEAL),
    ("GREEN", material::GREEN),
    ("LIGHT_GREEN", material::LIGHT_GREEN),
    ("LIME", material::LIME),
    ("YELLOW", material::YELLOW),
    ("AMBER", material::AMBER),
    ("ORANGE", material::ORANGE),
    ("DEEP_ORANGE", material::DEEP_ORANGE),
];

static NOT_ACCENTED: [(&str, NonAccentedPalette); 3] = [
    ("BROWN", material::BROWN),
    ("GRAY", material::GRAY),
    ("BLUE_GRAY", material::BLUE_GRAY),
];

fn put_all(shades: &[Color], answer: &mut Answer) -> Result<(), RowError> {
    for shade in shades {
        answer.add(*shade)?;
    }
    Ok(())
}

fn put_tailwind(palette: &Palette, answer: &mut Answer) -> Result<(), RowError> {
    let shades = [
        palette.c50,
        palette.c100,
        palette.c200,
        palette.c300,
        palette.c400,
        palette.c500,
        palette.c600,
        palette.c700,
        palette.c800,
        palette.c900,
        palette.c950,
    ];
    put_all(&shades, answer)
}

fn put_accented(palette: &AccentedPalette, answer: &mut Answer) -> Result<(), RowError> {
    let shades = [
        palette.c50,
        palette.c100,
        palette.c200,
        palette.c300,
        palette.c400,
        palette.c500,
        palette.c600,
        palette.c700,
        palette.c800,
        palette.c900,
        palette.a100,
        palette.a200,
        palette.a400,
        palette.a700,
    ];
    put_all(&shades, answer)
}

fn put_not_accented(palette: &NonAccentedPalette, answer: &mut Answer) -> Result<(), RowError> {
    let shades = [
        palette.c50,
        palette.c100,
        palette.c200,
        palette.c300,
        palette.c400,
        palette.c500,
        palette.c600,
        palette.c700,
        palette.c800,
        palette.c900,
    ];
    put_all(&shades, answer)
}

fn tailwind_shades(name: &str, answer: &mut Answer) -> Result<(), RowError> {
    match name {
        "BLACK" => answer.add(tailwind::BLACK),
        "WHITE" => answer.add(tailwind::WHITE),
        _ => put_tailwind(entry_of(&TAILWIND, name).ok_or(RowError::Unread)?, answer),
    }
}

fn material_shades(name: &str, answer: &mut Answer) -> Result<(), RowError> {
    match name {
        "BLACK" => answer.add(material::BLACK),
        "WHITE" => answer.add(material::WHITE),
        _ => match entry_of(&ACCENTED, name) {
            Some(palette) => put_accented(palette, answer),
            None => put_not_accented(
                entry_of(&NOT_ACCENTED, name).ok_or(RowError::Unread)?,
                answer,
            ),
        },
    }
}

/// Adds the shades of a palette, or black or white, by its name.
pub fn palette(args: &mut Args<'_>, answer: &mut Answer) -> Result<(), RowError> {
    match args.word()? {
        "tailwind" => tailwind_shades(args.word()?, answer),
        "material" => material_shades(args.word()?, answer),
        _ => Err(RowError::Unread),
    }
}
