//! What stands in the columns of a terminal.
use ansi_model::Sgr;
use rtui_backend::ClearType;
use rtui_cell::Cell;
use rtui_geometry::Position;

// One of the columns of a symbol, counted from 0, and how many the symbol takes; none at all if
// nothing is known.
#[derive(Clone, Copy)]
pub struct Column<'a> {
    pub symbol: &'a str,
    pub sgr: Sgr,
    pub index: u16,
    pub count: u16,
}

pub const BLANK: Column<'static> = Column {
    symbol: " ",
    sgr: Sgr::DEFAULT,
    index: 0,
    count: 1,
};

// Columns that are written over.
#[derive(Clone, Copy)]
pub enum Area {
    Run(Position, u16),
    Part(ClearType, Position),
}

impl Area {
    pub fn has(self, a: u16, b: u16) -> bool {
        match self {
            Area::Run(from, count) => { b == from.y && from.x <= a && a - from.x < count }
            Area::Part(ClearType::All, _) => true,
            Area::Part(ClearType::AfterCursor, at) => at.y < b || (b == at.y && at.x <= a),
            Area::Part(ClearType::BeforeCursor, at) => b < at.y || (b == at.y && a <= at.x),
            Area::Part(ClearType::CurrentLine, at) => b == at.y,
            Area::Part(ClearType::UntilNewLine, at) => b == at.y && at.x <= a,
        }
    }

    // The first row that may have a column here, and how many may from there on.
    pub fn rows(self, height: u16) -> (u16, u16) {
        match self {
            Area::Run(at, _) | Area::Part(ClearType::CurrentLine | ClearType::UntilNewLine, at) => {
                (at.y, 1)
            }
            Area::Part(_, _) => (0, height),
        }
    }

    // Whether a symbol, of which this is column `a` of row `b`, has a column here.
    pub fn meets(self, a: u16, b: u16, column: Column<'_>) -> bool {
        let first = a.saturating_sub(column.index);
        for k in 0..column.count {
            if self.has(first.saturating_add(k), b) {
                return true;
            }
        }
        false
    }
}

// Whether a letter of ASCII stands in a column.
fn is_letter(column: Option<Column<'_>>, letter: u8) -> bool {
    match column {
        Some(shown) => matches!(shown.symbol.as_bytes(), [byte] if *byte == letter),
        None => false,
    }
}

// Whether the columns show the letters of a text, one each.
pub fn are_letters(columns: &[Option<Column<'_>>], text: &str) -> bool {
    columns.len() == text.len()
        && columns
            .iter()
            .zip(text.as_bytes())
            .all(|(column, letter)| is_letter(*column, *letter))
}

// Whether what stands in a column has the look of a cell.
fn is_shown(column: Option<Column<'_>>, cell: &Cell) -> bool {
    match column {
        Some(column) if column.index == 0 => {
            cell.symbol() == column.symbol && Sgr::of(cell) == column.sgr
        }
        Some(_) => cell.symbol() == " " && Sgr::of(cell) == Sgr::DEFAULT,
        None => false,
    }
}

pub fn are_shown(columns: &[Option<Column<'_>>], cells: &[Cell]) -> bool {
    columns.len() == cells.len()
        && columns
            .iter()
            .zip(cells.iter())
            .all(|(column, cell)| is_shown(*column, cell))
}
