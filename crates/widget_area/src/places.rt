//! Rows of lines that are wrapped, and the places among them.

ghost use Rattle.std.specs.Prelude.{◌≡◌, ◌≤◌, ◌<◌, ◌+◌, ◌-◌, ◌/◌, ◌%◌, nat_lt, IfSome, IfNone, is_some, true};
ghost use Rattle.std.specs.Prelude.{if◌then◌else◌};
ghost use Rattle.std.specs.Str.{IsCharBoundary};
ghost use Rattle.text_area.specs.Lines.{feeds, nth_start};
ghost use Rattle.text_area.specs.Areas.{area_text};
ghost use Rattle.widget_area.specs.Wraps.{stride_of, rows_of_columns};
ghost use Rattle.widget_area.specs.Windows.{cursor_row, cursor_column, end_column, cursor_place, wrapped_rows};

use crate::columns::column_after_line;
use crate::widget::TextAreaWidget;
use std::marker::Model;
use text_places::{BrokenText, Place};

// How many columns of a line stand in each of its rows, if there is room for so many.
pub(crate) fn stride_of(room: u16) -> u16
    requires { 0 < room }
    ensures value { result ≡ stride_of room }
    ensures some { 0 < result }
    ensures fits { result ≤ room }
{
    (room - 1).max(1)
}

// How many rows a line takes that ends before a column.
pub(crate) fn rows_of_columns(stride: u16, end: usize) -> usize
    requires { 0 < stride }
    ensures { result ≡ rows_of_columns stride end }
{
    end.saturating_sub(1) / usize::from(stride) + 1
}

// In which of so many columns a cursor stands, if it is in a column and in a row of its line.
pub(crate) fn column_in_row(stride: u16, column: usize, row: usize, room: u16) -> u16
    requires some { 0 < stride }
    requires fits { stride ≤ room }
    ensures value { result
        ≡ if nat_lt row (column / stride) then room - 1 else column % stride }
    ensures within { result < room }
{
    let stride = usize::from(stride);
    if row < column / stride {
        room - 1
    } else {
        (column % stride) as u16
    }
}

impl<'a> TextAreaWidget<'a> {
    // The column after the line of a number, which begins at a byte, if the cursor is in a row and in
    // a column.
    pub(crate) fn end_column(&self, row: usize, column: usize, number: usize, start: usize) -> usize
        requires start { start ≡ nth_start number (area_text self.now.text.now) }
        requires boundary { IsCharBoundary (area_text self.now.text.now) start }
        ensures { result ≡ end_column self.now row column number }
    {
        if number == row {
            self.column_after_rest(column)
        } else {
            column_after_line(self.tab, self.text.line_from(start))
        }
    }

    // The cursor's place, which is in a row and in a column.
    pub(crate) fn cursor_place(&self, stride: u16, row: usize, column: usize) -> Place
        requires some { 0 < stride }
        requires row { row ≡ cursor_row self.now }
        requires column { column ≡ cursor_column self.now }
        ensures { result ≡ cursor_place self.now stride }
    {
        let rows = rows_of_columns(stride, self.column_after_rest(column));
        Place {
            line: row,
            row: (column / usize::from(stride)).min(rows - 1),
        }
    }
}

// The lines of a text as they are wrapped, and where the one begins that was asked for last.
#[derive(Drop)]
pub(crate) struct WrappedText<'b, 'a> {
    widget: &'b TextAreaWidget<'a>,
    stride: u16,
    line: usize,
    start: usize,
}

impl<'b, 'a> Model for WrappedText<'b, 'a> {
    ghost use Rattle.std.specs.Prelude.{ℕ};
    ghost use Rattle.widget_area.specs.declared.widget.TextAreaWidget.{TextAreaWidget};
    ghost use Rattle.widget_area.specs.Inner.{IsAtLine};

    ghost Value = { TextAreaWidget × ℕ };

    ghost view = { λ text. (text.widget.now, text.stride) };

    ghost invariant = { λ text. IsAtLine text.widget.now text.stride text.line text.start };
}

impl<'b, 'a> WrappedText<'b, 'a> {
    // The lines of a text, with so many columns of each in a row.
    pub(crate) fn new(widget: &'b TextAreaWidget<'a>, stride: u16) -> WrappedText<'b, 'a>
        requires { 0 < stride }
        ensures { result ≡ (widget.now, stride) }
    {
        WrappedText {
            widget,
            stride,
            line: 0,
            start: 0,
        }
    }

    // Where the line of a number begins, or `None` if there is none. The line before the one that was
    // asked for last is found from there.
    fn line_start(&self, number: usize) -> Option<usize>
        ensures start { IfSome result (λ start.
            start ≡ nth_start number (area_text self.now.0.text.now)) }
        ensures boundary { IfSome result (λ start.
            IsCharBoundary (area_text self.now.0.text.now) start) }
        ensures within { is_some result ≡ true
            → number ≤ feeds (area_text self.now.0.text.now) }
        ensures none { IfNone result (feeds (area_text self.now.0.text.now) < number) }
    {
        if number < self.line && self.line - number == 1 {
            self.widget.text.start_before(self.line, self.start)
        } else {
            self.widget.text.line_start(number)
        }
    }
}

impl<'b, 'a> BrokenText for WrappedText<'b, 'a> {
    ghost use Rattle.widget_area.specs.PlaceRows.{wrapped_rows-some, wrapped_rows-past};

    ghost rows = { λ text. wrapped_rows text.0 text.1 };

    ghost count = { λ text. feeds (area_text text.0.text.now) + 1 };

    fn rows_of_line(&mut self, line: usize) -> usize {
        let Some(start) = self.line_start(line) else {
            return 1;
        };
        self.line = line;
        self.start = start;
        let row = self.widget.text.cursor_row();
        let column = self.widget.cursor_column();
        let end = self.widget.end_column(row, column, line, start);
        rows_of_columns(self.stride, end)
    }

    fn line_count(&self) -> usize {
        self.widget.text.line_count()
    }

    ghost some = { λ text. wrapped_rows-some text.0 text.1 };

    ghost after = { λ text. wrapped_rows-past text.0 text.1 };
}
