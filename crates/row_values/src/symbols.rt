//! Symbols by their names, sets of them, tables of patterns, and markers.
use ratatui_core::symbols::{
    DOT, Marker, bar, block, border, braille, half_block, line, pixel, scrollbar, shade,
};
use row_words::answer::Answer;
use row_words::args::Args;
use row_words::error::RowError;
use row_words::names::{entry_of, named};

// Symbols that have names of their own.
static SYMBOLS: [(&str, &str); 90] = [
    ("bar::FULL", bar::FULL),
    ("bar::SEVEN_EIGHTHS", bar::SEVEN_EIGHTHS),
    ("bar::THREE_QUARTERS", bar::THREE_QUARTERS),
    ("bar::FIVE_EIGHTHS", bar::FIVE_EIGHTHS),
    ("bar::HALF", bar::HALF),
    ("bar::THREE_EIGHTHS", bar::THREE_EIGHTHS),
    ("bar::ONE_QUARTER", bar::ONE_QUARTER),
    ("bar::ONE_EIGHTH", bar::ONE_EIGHTH),
    ("block::FULL", block::FULL),
    ("block::SEVEN_EIGHTHS", block::SEVEN_EIGHTHS),
    ("block::THREE_QUARTERS", block::THREE_QUARTERS),
    ("block::FIVE_EIGHTHS", block::FIVE_EIGHTHS),
    ("block::HALF", block::HALF),
    ("block::THREE_EIGHTHS", block::THREE_EIGHTHS),
    ("block::ONE_QUARTER", block::ONE_QUARTER),
    ("block::ONE_EIGHTH", block::ONE_EIGHTH),
    ("line::VERTICAL", line::VERTICAL),
    ("line::DOUBLE_VERTICAL", line::DOUBLE_VERTICAL),
    ("line::THICK_VERTICAL", line::THICK_VERTICAL),
    ("line::HORIZONTAL", line::HORIZONTAL),
    ("line::DOUBLE_HORIZONTAL", line::DOUBLE_HORIZONTAL),
    ("line::THICK_HORIZONTAL", line::THICK_HORIZONTAL),
    ("line::TOP_RIGHT", line::TOP_RIGHT),
    ("line::DOUBLE_TOP_RIGHT", line::DOUBLE_TOP_RIGHT),
    ("line::THICK_TOP_RIGHT", line::THICK_TOP_RIGHT),
    ("line::ROUNDED_TOP_RIGHT", line::ROUNDED_TOP_RIGHT),
    ("line::TOP_LEFT", line::TOP_LEFT),
    ("line::DOUBLE_TOP_LEFT", line::DOUBLE_TOP_LEFT),
    ("line::THICK_TOP_LEFT", line::THICK_TOP_LEFT),
    ("line::ROUNDED_TOP_LEFT", line::ROUNDED_TOP_LEFT),
    ("line::BOTTOM_RIGHT", line::BOTTOM_RIGHT),
    ("line::DOUBLE_BOTTOM_RIGHT", line::DOUBLE_BOTTOM_RIGHT),
    ("line::THICK_BOTTOM_RIGHT", line::THICK_BOTTOM_RIGHT),
    ("line::ROUNDED_BOTTOM_RIGHT", line::ROUNDED_BOTTOM_RIGHT),
    ("line::BOTTOM_LEFT", line::BOTTOM_LEFT),
    ("line::DOUBLE_BOTTOM_LEFT", line::DOUBLE_BOTTOM_LEFT),
    ("line::THICK_BOTTOM_LEFT", line::THICK_BOTTOM_LEFT),
    ("line::ROUNDED_BOTTOM_LEFT", line::ROUNDED_BOTTOM_LEFT),
    ("line::VERTICAL_LEFT", line::VERTICAL_LEFT),
    ("line::DOUBLE_VERTICAL_LEFT", line::DOUBLE_VERTICAL_LEFT),
    ("line::THICK_VERTICAL_LEFT", line::THICK_VERTICAL_LEFT),
    ("line::VERTICAL_RIGHT", line::VERTICAL_RIGHT),
    ("line::DOUBLE_VERTICAL_RIGHT", line::DOUBLE_VERTICAL_RIGHT),
    ("line::THICK_VERTICAL_RIGHT", line::THICK_VERTICAL_RIGHT),
    ("line::HORIZONTAL_DOWN", line::HORIZONTAL_DOWN),
    ("line::DOUBLE_HORIZONTAL_DOWN", line::DOUBLE_HORIZONTAL_DOWN),
    ("line::THICK_HORIZONTAL_DOWN", line::THICK_HORIZONTAL_DOWN),
    ("line::HORIZONTAL_UP", line::HORIZONTAL_UP),
    ("line::DOUBLE_HORIZONTAL_UP", line::DOUBLE_HORIZONTAL_UP),
    ("line::THICK_HORIZONTAL_UP", line::THICK_HORIZONTAL_UP),
    ("line::CROSS", line::CROSS),
    ("line::DOUBLE_CROSS", line::DOUBLE_CROSS),
    ("line::THICK_CROSS", line::THICK_CROSS),
    (
        "line::LIGHT_DOUBLE_DASH_VERTICAL",
        line::LIGHT_DOUBLE_DASH_VERTICAL,
    ),
    (
        "line::HEAVY_DOUBLE_DASH_VERTICAL",
        line::HEAVY_DOUBLE_DASH_VERTICAL,
    ),
    (
        "line::LIGHT_DOUBLE_DASH_HORIZONTAL",
        line::LIGHT_DOUBLE_DASH_HORIZONTAL,
    ),
    (
        "line::HEAVY_DOUBLE_DASH_HORIZONTAL",
        line::HEAVY_DOUBLE_DASH_HORIZONTAL,
    ),
    (
        "line::LIGHT_TRIPLE_DASH_VERTICAL",
        line::LIGHT_TRIPLE_DASH_VERTICAL,
    ),
    (
        "line::HEAVY_TRIPLE_DASH_VERTICAL",
        line::HEAVY_TRIPLE_DASH_VERTICAL,
    ),
    (
        "line::LIGHT_TRIPLE_DASH_HORIZONTAL",
        line::LIGHT_TRIPLE_DASH_HORIZONTAL,
    ),
    (
        "line::HEAVY_TRIPLE_DASH_HORIZONTAL",
        line::HEAVY_TRIPLE_DASH_HORIZONTAL,
    ),
    (
        "line::LIGHT_QUADRUPLE_DASH_VERTICAL",
        line::LIGHT_QUADRUPLE_DASH_VERTICAL,
    ),
    (
        "line::HEAVY_QUADRUPLE_DASH_VERTICAL",
        line::HEAVY_QUADRUPLE_DASH_VERTICAL,
    ),
    (
        "line::LIGHT_QUADRUPLE_DASH_HORIZONTAL",
        line::LIGHT_QUADRUPLE_DASH_HORIZONTAL,
    ),
    (
        "line::HEAVY_QUADRUPLE_DASH_HORIZONTAL",
        line::HEAVY_QUADRUPLE_DASH_HORIZONTAL,
    ),
    ("border::QUADRANT_TOP_LEFT", border::QUADRANT_TOP_LEFT),
    ("border::QUADRANT_TOP_RIGHT", border::QUADRANT_TOP_RIGHT),
    ("border::QUADRANT_BOTTOM_LEFT", border::QUADRANT_BOTTOM_LEFT),
    (
        "border::QUADRANT_BOTTOM_RIGHT",
        border::QUADRANT_BOTTOM_RIGHT,
    ),
    ("border::QUADRANT_TOP_HALF", border::QUADRANT_TOP_HALF),
    ("border::QUADRANT_BOTTOM_HALF", border::QUADRANT_BOTTOM_HALF),
    ("border::QUADRANT_LEFT_HALF", border::QUADRANT_LEFT_HALF),
    ("border::QUADRANT_RIGHT_HALF", border::QUADRANT_RIGHT_HALF),
    (
        "border::QUADRANT_TOP_LEFT_BOTTOM_LEFT_BOTTOM_RIGHT",
        border::QUADRANT_TOP_LEFT_BOTTOM_LEFT_BOTTOM_RIGHT,
    ),
    (
        "border::QUADRANT_TOP_LEFT_TOP_RIGHT_BOTTOM_LEFT",
        border::QUADRANT_TOP_LEFT_TOP_RIGHT_BOTTOM_LEFT,
    ),
    (
        "border::QUADRANT_TOP_LEFT_TOP_RIGHT_BOTTOM_RIGHT",
        border::QUADRANT_TOP_LEFT_TOP_RIGHT_BOTTOM_RIGHT,
    ),
    (
        "border::QUADRANT_TOP_RIGHT_BOTTOM_LEFT_BOTTOM_RIGHT",
        border::QUADRANT_TOP_RIGHT_BOTTOM_LEFT_BOTTOM_RIGHT,
    ),
    (
        "border::QUADRANT_TOP_LEFT_BOTTOM_RIGHT",
        border::QUADRANT_TOP_LEFT_BOTTOM_RIGHT,
    ),
    (
        "border::QUADRANT_TOP_RIGHT_BOTTOM_LEFT",
        border::QUADRANT_TOP_RIGHT_BOTTOM_LEFT,
    ),
    ("border::QUADRANT_BLOCK", border::QUADRANT_BLOCK),
    ("border::ONE_EIGHTH_TOP_EIGHT", border::ONE_EIGHTH_TOP_EIGHT),
    (
        "border::ONE_EIGHTH_BOTTOM_EIGHT",
        border::ONE_EIGHTH_BOTTOM_EIGHT,
    ),
    (
        "border::ONE_EIGHTH_LEFT_EIGHT",
        border::ONE_EIGHTH_LEFT_EIGHT,
    ),
    (
        "border::ONE_EIGHTH_RIGHT_EIGHT",
        border::ONE_EIGHTH_RIGHT_EIGHT,
    ),
    ("shade::EMPTY", shade::EMPTY),
    ("shade::LIGHT", shade::LIGHT),
    ("shade::MEDIUM", shade::MEDIUM),
    ("shade::DARK", shade::DARK),
    ("shade::FULL", shade::FULL),
    ("DOT", DOT),
];

static LINES: [(&str, line::Set<'static>); 10] = [
    ("line::NORMAL", line::NORMAL),
    ("line::ROUNDED", line::ROUNDED),
    ("line::DOUBLE", line::DOUBLE),
    ("line::THICK", line::THICK),
    ("line::LIGHT_DOUBLE_DASHED", line::LIGHT_DOUBLE_DASHED),
    ("line::LIGHT_TRIPLE_DASHED", line::LIGHT_TRIPLE_DASHED),
    ("line::LIGHT_QUADRUPLE_DASHED", line::LIGHT_QUADRUPLE_DASHED),
    ("line::HEAVY_DOUBLE_DASHED", line::HEAVY_DOUBLE_DASHED),
    ("line::HEAVY_TRIPLE_DASHED", line::HEAVY_TRIPLE_DASHED),
    ("line::HEAVY_QUADRUPLE_DASHED", line::HEAVY_QUADRUPLE_DASHED),
];

static BORDERS: [(&str, border::Set<'static>); 18] = [
    ("border::PLAIN", border::PLAIN),
    ("border::ROUNDED", border::ROUNDED),
    ("border::DOUBLE", border::DOUBLE),
    ("border::THICK", border::THICK),
    ("border::LIGHT_DOUBLE_DASHED", border::LIGHT_DOUBLE_DASHED),
    ("border::LIGHT_TRIPLE_DASHED", border::LIGHT_TRIPLE_DASHED),
    (
        "border::LIGHT_QUADRUPLE_DASHED",
        border::LIGHT_QUADRUPLE_DASHED,
    ),
    ("border::HEAVY_DOUBLE_DASHED", border::HEAVY_DOUBLE_DASHED),
    ("border::HEAVY_TRIPLE_DASHED", border::HEAVY_TRIPLE_DASHED),
    (
        "border::HEAVY_QUADRUPLE_DASHED",
        border::HEAVY_QUADRUPLE_DASHED,
    ),
    ("border::QUADRANT_OUTSIDE", border::QUADRANT_OUTSIDE),
    ("border::QUADRANT_INSIDE", border::QUADRANT_INSIDE),
    ("border::ONE_EIGHTH_WIDE", border::ONE_EIGHTH_WIDE),
    ("border::ONE_EIGHTH_TALL", border::ONE_EIGHTH_TALL),
    ("border::PROPORTIONAL_WIDE", border::PROPORTIONAL_WIDE),
    ("border::PROPORTIONAL_TALL", border::PROPORTIONAL_TALL),
    ("border::FULL", border::FULL),
    ("border::EMPTY", border::EMPTY),
];

// Adds symbols, one after another, as one text.
fn put_joined(symbols: &[&str], answer: &mut Answer) -> Result<(), RowError> {
    let mut joined = String::new(*answer.text.allocator());
    for symbol in symbols {
        joined.push_str(symbol)?;
    }
    answer.add(joined.as_str())
}

fn put_characters(symbols: &[char], answer: &mut Answer) -> Result<(), RowError> {
    let mut joined = String::new(*answer.text.allocator());
    for symbol in symbols {
        joined.push(*symbol)?;
    }
    answer.add(joined.as_str())
}

fn put_bar(set: &bar::Set<'_>, answer: &mut Answer) -> Result<(), RowError> {
    let symbols = [
        set.full,
        set.seven_eighths,
        set.three_quarters,
        set.five_eighths,
        set.half,
        set.three_eighths,
        set.one_quarter,
        set.one_eighth,
        set.empty,
    ];
    put_joined(&symbols, answer)
}

fn put_block(set: &block::Set<'_>, answer: &mut Answer) -> Result<(), RowError> {
    let symbols = [
        set.full,
        set.seven_eighths,
        set.three_quarters,
        set.five_eighths,
        set.half,
        set.three_eighths,
        set.one_quarter,
        set.one_eighth,
        set.empty,
    ];
    put_joined(&symbols, answer)
}

fn put_line(set: &line::Set<'_>, answer: &mut Answer) -> Result<(), RowError> {
    let symbols = [
        set.vertical,
        set.horizontal,
        set.top_right,
        set.top_left,
        set.bottom_right,
        set.bottom_left,
        set.vertical_left,
        set.vertical_right,
        set.horizontal_down,
        set.horizontal_up,
        set.cross,
    ];
    put_joined(&symbols, answer)
}

fn put_border(set: &border::Set<'_>, answer: &mut Answer) -> Result<(), RowError> {
    let symbols = [
        set.top_left,
        set.top_right,
        set.bottom_left,
        set.bottom_right,
        set.vertical_left,
        set.vertical_right,
        set.horizontal_top,
        set.horizontal_bottom,
    ];
    put_joined(&symbols, answer)
}

fn put_scrollbar(set: &scrollbar::Set<'_>, answer: &mut Answer) -> Result<(), RowError> {
    put_joined(&[set.track, set.thumb, set.begin, set.end], answer)
}

// A symbol, or a set that has a table, by its name.
fn by_name(name: &str, answer: &mut Answer) -> Result<(), RowError> {
    if let Some(symbol) = entry_of(&SYMBOLS, name) {
        return answer.add(*symbol);
    }
    match entry_of(&LINES, name) {
        Some(set) => put_line(set, answer),
        None => put_border(entry_of(&BORDERS, name).ok_or(RowError::Unread)?, answer),
    }
}

// A set that has no table, by its name.
fn set_by_name(name: &str, answer: &mut Answer) -> Result<(), RowError> {
    match name {
        "bar::NINE_LEVELS" => put_bar(&bar::NINE_LEVELS, answer),
        "bar::THREE_LEVELS" => put_bar(&bar::THREE_LEVELS, answer),
        "bar::Set::default" => put_bar(&bar::Set::default(), answer),
        "block::NINE_LEVELS" => put_block(&block::NINE_LEVELS, answer),
        "block::THREE_LEVELS" => put_block(&block::THREE_LEVELS, answer),
        "block::Set::default" => put_block(&block::Set::default(), answer),
        "line::Set::default" => put_line(&line::Set::default(), answer),
        "border::Set::default" => put_border(&border::Set::default(), answer),
        _ => by_name(name, answer),
    }
}

fn scrollbar_by_name(name: &str, answer: &mut Answer) -> Result<(), RowError> {
    match name {
        "DOUBLE_VERTICAL" => put_scrollbar(&scrollbar::DOUBLE_VERTICAL, answer),
        "DOUBLE_HORIZONTAL" => put_scrollbar(&scrollbar::DOUBLE_HORIZONTAL, answer),
        "VERTICAL" => put_scrollbar(&scrollbar::VERTICAL, answer),
        "HORIZONTAL" => put_scrollbar(&scrollbar::HORIZONTAL, answer),
        "Set::default" => put_scrollbar(&scrollbar::Set::default(), answer),
        _ => Err(RowError::Unread),
    }
}

/// Adds a symbol, a set of symbols or a table of patterns; or a marker that is read from its name.
pub fn symbols(args: &mut Args<'_>, answer: &mut Answer) -> Result<(), RowError> {
    match args.word()? {
        "braille::BRAILLE" => put_characters(&braille::BRAILLE, answer),
        "pixel::QUADRANTS" => put_characters(&pixel::QUADRANTS, answer),
        "pixel::SEXTANTS" => put_characters(&pixel::SEXTANTS, answer),
        "pixel::OCTANTS" => put_characters(&pixel::OCTANTS, answer),
        "half_block" => put_halves(answer),
        "Marker" => named::<Marker>(args, answer),
        "Marker::default" => answer.print(args.alloc, &Marker::default()),
        "Marker::Custom" => answer.print(args.alloc, &Marker::Custom(args.char()?)),
        name => match name.strip_prefix("scrollbar::") {
            Some(name) => scrollbar_by_name(name, answer),
            None => set_by_name(name, answer),
        },
    }
}

fn put_halves(answer: &mut Answer) -> Result<(), RowError> {
    let halves = [half_block::UPPER, half_block::LOWER, half_block::FULL];
    put_characters(&halves, answer)
}
