//! A terminal that reads what a writer was sent: the model, computed.
use crate::columns::{Area, BLANK, Column, are_letters, are_shown};
use crate::parameters::with_parameters;
use ansi_model::{Sgr, is_plain, is_symbol};
use rtui_backend::{ClearType, TestBackend};
use rtui_cell::CellWidth;
use rtui_geometry::Position;
use std::alloc::{AllocError, Global};

// A terminal that was blank; `sure` until real terminals would differ.
#[derive(Drop)]
pub struct Reader<'a> {
    width: u16,
    height: u16,
    sgr: Sgr,
    x: u16,
    y: u16,
    top: u16,
    bottom: u16,
    columns: Vec<Option<Column<'a>>>,
    history: Vec<Vec<Option<Column<'a>>>>,
    // How many of its rows were left there.
    rows_left: usize,
    visible: bool,
    modes: Modes,
    sure: bool,
    alloc: Global,
}

// Modes that other programs may leave set, and that change how a terminal takes text.
#[derive(Clone, Copy, Default, PartialEq, Eq)]
struct Modes {
    inserts: bool,
    origin: bool,
    sides: bool,
    unwrapped: bool,
    held: bool,
    shifted: bool,
    lettered: bool,
    coded: bool,
}

impl<'a> Reader<'a> {
    // A terminal of this size after it has read a text; before, other programs left it as these two
    // other texts do.
    pub fn of(
        alloc: Global,
        width: u16,
        height: u16,
        left: (&'a str, &'a str),
        sent: &'a str,
    ) -> Result<Reader<'a>, AllocError> {
        let count = usize::from(width) * usize::from(height);
        let mut reader = Reader {
            width,
            height,
            sgr: Sgr::DEFAULT,
            x: 0,
            y: 0,
            top: 0,
            bottom: height,
            columns: Vec::from_elem(alloc, Some(BLANK), count)?,
            history: Vec::new(alloc),
            rows_left: 0,
            visible: true,
            modes: Modes::default(),
            sure: true,
            alloc,
        };
        reader.read(left.0)?;
        reader.read(left.1)?;
        reader.rows_left = reader.history.len();
        reader.sure = true;
        reader.read(sent)?;
        Ok(reader)
    }

    fn read(&mut self, sent: &'a str) -> Result<(), AllocError> {
        let mut is_first = true;
        for part in sent.split('\u{1b}') {
            let text = if is_first {
                part
            } else {
                self.read_sequence(part)
            };
            self.read_text(text)?;
            is_first = false;
        }
        Ok(())
    }

    // Text with carriage returns and line feeds.
    fn read_text(&mut self, text: &'a str) -> Result<(), AllocError> {
        let mut from = 0;
        for (at, ch) in text.char_indices() {
            if !ch.is_control() {
                continue;
            }
            self.print(text.get(from..at).unwrap_or(""));
            from = at + ch.len_utf8();
            match ch {
                '\r' => self.x = 0,
                '\n' => self.feed_line()?,
                '\u{e}' => self.modes.shifted = true,
                '\u{f}' => self.modes.shifted = false,
                _ => self.sure = false,
            }
        }
        self.print(text.get(from..).unwrap_or(""));
        Ok(())
    }

    // Does what a sequence says; the text after it.
    fn read_sequence(&mut self, part: &'a str) -> &'a str {
        let Some(sequence) = part.strip_prefix('[') else {
            return self.read_escape(part);
        };
        for (at, ch) in sequence.char_indices() {
            if !ch.is_ascii_digit() && !matches!(ch, ';' | '?' | '<' | '>' | ' ') {
                self.perform(sequence.get(..at).unwrap_or(""), ch);
                return sequence.get(at + ch.len_utf8()..).unwrap_or("");
            }
        }
        self.sure = false;
        ""
    }

    // A string for the operating system, the end of one, the letters of G0 to G2, or the coding; the
    // text after it.
    fn read_escape(&mut self, part: &'a str) -> &'a str {
        if part.starts_with(']') {
            self.sure = self.sure && !part.chars().any(|c| c.is_control());
            return "";
        }
        let length = if part.starts_with(['\\', '}']) { 1 } else { 2 };
        match part.get(..length) {
            Some("\\" | "}" | "*B" | ")B") => {}
            Some("(B") => self.modes.lettered = false,
            Some("(0") => self.modes.lettered = true,
            Some("%G") => self.modes.coded = false,
            Some("%@") => self.modes.coded = true,
            _ => self.sure = false,
        }
        part.get(length..).unwrap_or("")
    }

    // DECSET and DECRST.
    fn set_mode(&mut self, mode: &str, on: bool) {
        match mode {
            "25" => self.visible = on,
            "6" => {
                self.modes.origin = on;
                self.x = 0;
                self.y = 0;
            }
            "69" => self.modes.sides = on,
            "7" => self.modes.unwrapped = !on,
            "2026" => self.modes.held = on,
            "1000" | "1002" | "1003" | "1004" | "1006" | "2004" | "2048" => {}
            _ => self.sure = false,
        }
    }

    fn perform(&mut self, parameters: &str, last: char) {
        if last == 'm' {
            let (sgr, is_known) = with_parameters(self.sgr, parameters);
            self.sgr = sgr;
            self.sure = self.sure && is_known;
            return;
        }
        if let Some(mode) = parameters.strip_prefix('?') {
            self.sure = self.sure && (last == 'h' || last == 'l');
            self.set_mode(mode, last == 'h');
            return;
        }
        if parameters.starts_with(['<', '>']) {
            self.sure = self.sure && last == 'u';
            return;
        }
        if let Some(style) = parameters.strip_suffix(' ') {
            self.sure = self.sure && last == 'q' && style.len() == 1 && style <= "6";
            return;
        }
        let mut numbers = parameters.split(';');
        let first = numbers.next().unwrap_or("").parse().unwrap_or(0);
        match numbers.next() {
            Some(second) => self.perform_two(last, first, second.parse().unwrap_or(0)),
            None => self.perform_one(last, first),
        }
    }

    fn perform_two(&mut self, last: char, first: u16, second: u16) {
        match last {
            'H' => {
                self.x = second.saturating_sub(1).min(self.width.saturating_sub(1));
                self.y = first.saturating_sub(1).min(self.height.saturating_sub(1));
            }
            'r' => {
                self.sure = self.sure && first < second && second <= self.height;
                self.set_region(first.saturating_sub(1), second);
            }
            't' => self.sure = self.sure && (first == 22 || first == 23) && second == 2,
            _ => self.sure = false,
        }
    }

    fn perform_one(&mut self, last: char, n: u16) {
        match (last, n) {
            ('J', 0) => self.erase(ClearType::AfterCursor),
            ('J', 1) => self.erase(ClearType::BeforeCursor),
            ('K', 0) => self.erase(ClearType::UntilNewLine),
            ('K', 2) => self.erase(ClearType::CurrentLine),
            ('r', 0) => self.set_region(0, self.height),
            ('h', 4) => self.modes.inserts = true,
            ('l', 4) => self.modes.inserts = false,
            ('n', 6) => {}
            ('M', _) => {
                let is_row = 0 < self.y && self.top <= self.y && self.y < self.bottom;
                self.sure = self.sure && self.has_own_sgr() && is_row && self.x == 0 && 0 < n;
                self.raise(self.y, self.bottom, n);
            }
            ('L', _) => {
                let is_row = self.top <= self.y && self.y < self.bottom;
                self.sure = self.sure && self.has_own_sgr() && is_row && self.x == 0 && 0 < n;
                self.lower(self.y, self.bottom, n);
            }
            _ => self.sure = false,
        }
    }

    fn has_own_sgr(&self) -> bool {
        self.sgr == Sgr::DEFAULT
    }

    fn set_region(&mut self, top: u16, bottom: u16) {
        self.top = top;
        self.bottom = bottom;
        self.x = 0;
        self.y = 0;
    }

    // Plain characters one by one, any other text as one symbol.
    fn print(&mut self, text: &'a str) {
        let taken = Modes {
            held: false,
            ..self.modes
        };
        self.sure = self.sure && (text.is_empty() || taken == Modes::default());
        if text.chars().all(|c| is_plain(c)) {
            for (at, ch) in text.char_indices() {
                self.print_symbol(text.get(at..at + ch.len_utf8()).unwrap_or(""), 1);
            }
        } else {
            self.sure = self.sure && is_symbol(text);
            self.print_whole(text, text.cell_width());
        }
    }

    // A symbol that isn't plain; with U+FE0F some terminals print it in one column, and all look
    // alike over blanks only.
    fn print_whole(&mut self, symbol: &'a str, count: u16) {
        if !symbol.chars().skip(1).any(|c| c == '\u{fe0f}') {
            self.print_symbol(symbol, count);
            return;
        }
        self.sure = self.sure && self.are_blank(count);
        self.print_symbol(symbol, count);
        self.x = self.width;
    }

    // Whether so many columns from the cursor on show blanks in the rendition.
    fn are_blank(&self, count: u16) -> bool {
        let sgr = self.sgr;
        for k in 0..count {
            let is_blank = match self.column(self.x.saturating_add(k), self.y) {
                Some(column) => column.symbol == " " && column.sgr == sgr && column.count == 1,
                None => false,
            };
            if !is_blank {
                return false;
            }
        }
        true
    }

    fn print_symbol(&mut self, symbol: &'a str, count: u16) {
        let is_in = 0 < count && count <= self.width.saturating_sub(self.x) && self.y < self.height;
        self.sure = self.sure && is_in;
        let at = Position {
            x: self.x,
            y: self.y,
        };
        self.overwrite(Area::Run(at, count), symbol, self.sgr, count);
        self.x = self.x.saturating_add(count);
    }

    fn erase(&mut self, part: ClearType) {
        let is_kept = !matches!(part, ClearType::AfterCursor) || 0 < self.x || 0 < self.y;
        self.sure = self.sure && self.has_own_sgr() && self.x < self.width && is_kept;
        let at = Position {
            x: self.x,
            y: self.y,
        };
        self.overwrite(Area::Part(part, at), " ", Sgr::DEFAULT, 1);
    }

    // Writes an area over: with one symbol of so many columns, or with symbols of one column each.
    fn overwrite(&mut self, area: Area, symbol: &'a str, sgr: Sgr, count: u16) {
        let width = self.width;
        let first = self.x;
        let (top, height) = area.rows(self.height);
        let before = usize::from(top) * usize::from(width);
        let count_of_rows = usize::from(height) * usize::from(width);
        let mut a: u16 = 0;
        let mut b = top;
        for slot in self.columns.iter_mut().skip(before).take(count_of_rows) {
            if area.has(a, b) {
                let index = if count == 1 {
                    0
                } else {
                    a.saturating_sub(first)
                };
                *slot = Some(Column {
                    symbol,
                    sgr,
                    index,
                    count,
                });
            } else if let Some(old) = *slot {
                if area.meets(a, b, old) {
                    *slot = None;
                }
            }
            a = a.saturating_add(1);
            if a >= width {
                a = 0;
                b = b.saturating_add(1);
            }
        }
    }

    fn column(&self, a: u16, b: u16) -> Option<Column<'a>> {
        let place = usize::from(b) * usize::from(self.width) + usize::from(a);
        match self.columns.get(place) {
            Some(column) => *column,
            None => None,
        }
    }

    fn set_column(&mut self, a: u16, b: u16, column: Option<Column<'a>>) {
        let place = usize::from(b) * usize::from(self.width) + usize::from(a);
        if let Some(slot) = self.columns.get_mut(place) {
            *slot = column;
        }
    }

    fn set_row(&mut self, b: u16, from: Option<u16>) {
        for a in 0..self.width {
            let column = match from {
                Some(row) => self.column(a, row),
                None => Some(BLANK),
            };
            self.set_column(a, b, column);
        }
    }

    // The rows from `top` up to `bottom`, moved up.
    fn raise(&mut self, top: u16, bottom: u16, n: u16) {
        for b in top..bottom {
            let from = b.saturating_add(n);
            self.set_row(b, if from < bottom { Some(from) } else { None });
        }
    }

    // The rows from `top` up to `bottom`, moved down.
    fn lower(&mut self, top: u16, bottom: u16, n: u16) {
        for b in (top..bottom).rev() {
            let from = b.saturating_sub(n);
            let is_moved = n <= b && top <= from;
            self.set_row(b, if is_moved { Some(from) } else { None });
        }
    }

    fn feed_line(&mut self) -> Result<(), AllocError> {
        self.sure = self.sure && self.x < self.width;
        let below = self.y.saturating_add(1);
        if below != self.bottom {
            self.y = below.min(self.height.saturating_sub(1));
            return Ok(());
        }
        let mut row = Vec::new(self.alloc);
        for a in 0..self.width {
            let column = self.column(a, 0);
            self.sure = self.sure && column.is_some();
            row.push(column)?;
        }
        self.history.push(row)?;
        self.sure = self.sure && self.has_own_sgr() && self.top == 0;
        self.raise(self.top, self.bottom, 1);
        Ok(())
    }

    /// Returns whether it is sure of what it shows, and these are all the rows that scrolled off,
    /// without what its history had before.
    pub fn has_above(&self, rows: &[&str]) -> bool {
        self.sure
            && self.history.len().checked_sub(self.rows_left) == Some(rows.len())
            && self
                .history
                .iter()
                .skip(self.rows_left)
                .zip(rows.iter())
                .all(|(row, text)| are_letters(row.as_slice(), text))
    }

    /// Returns whether a place is covered by a symbol that begins left of it.
    pub fn is_behind(&self, x: u16, y: u16) -> bool {
        match self.column(x, y) {
            Some(column) => 0 < column.index,
            None => false,
        }
    }

    /// Returns whether it is sure of what it shows, with its cursor in this place, and shows what a
    /// screen in memory does, below the rows that were left in its history.
    pub fn shows(&self, cursor: Position, screen: &TestBackend) -> bool {
        let x = self.x.min(self.width.saturating_sub(1));
        let is_calm = self.sure
            && self.has_own_sgr()
            && self.modes == Modes::default()
            && self.top == 0
            && self.bottom == self.height;
        if !is_calm
            || x != cursor.x
            || self.y != cursor.y
            || self.visible != screen.cursor_visible()
        {
            return false;
        }
        are_shown(self.columns.as_slice(), screen.buffer().content())
            && self.history.len().checked_sub(self.rows_left) == Some(screen.scrollback().len())
            && self
                .history
                .iter()
                .skip(self.rows_left)
                .zip(screen.scrollback().iter())
                .all(|(row, cells)| are_shown(row.as_slice(), cells.as_slice()))
    }
}
