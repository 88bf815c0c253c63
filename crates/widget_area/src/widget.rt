//! A text area in an area.

ghost use Rattle.std.specs.Prelude.{◌≡◌, ◌≤◌, ◌<◌, ◌+◌, ◌-◌, Some, None, true};
ghost use Rattle.ratatui_core.specs.Style.{new_style};
ghost use Rattle.widget_boxes.specs.Boxes.{IsBoxArea};
ghost use Rattle.widget_area.specs.Windows.{gutter_columns, cursor_column, plain_plan, wrapped_plan, plan_of};
ghost use Rattle.widget_area.specs.Windows.{column_after_rest, view_of};
ghost use Rattle.widget_area.specs.TextAreas.{IsNewWidget};

use crate::columns::{column_past, window_start};
use crate::numbers::digit_count;
use crate::places::{WrappedText, column_in_row, stride_of};
use crate::plan::Plan;
use crate::view::AreaView;
use ratatui_core::buffer::Buffer;
use ratatui_core::layout::{Position, Rect};
use ratatui_core::style::{Modifier, Style};
use ratatui_core::widgets::StatefulWidget;
use rtui_inside::{DrawStateInside, render_state_inside};
use std::alloc::AllocError;
use text_area::TextArea;
use text_places::{Place, view_begin};
use widget_boxes::Block;

/// A `TextAreaWidget` shows the text of a `TextArea` over an area, in a box if it has one: a line in
/// each row, from the view's first line and column on.
///
/// From one rendering to the next the view moves only as far as the cursor wants it. A wide grapheme
/// at an edge of the view is not cut: a blank stands there. A tab is shown as blanks, and any other
/// control character as one blank. Lines that are longer than the area is wide end at its right
/// edge, unless they are wrapped ([`wrap`](TextAreaWidget::wrap)).
///
/// ```
/// let widget = TextAreaWidget::new(&editor.area)
///     .line_numbers(Style::new().dim())
///     .placeholder("Type a text", Style::new().dim());
/// frame.render_stateful_widget(widget, body, &mut self.view)?;
/// if let Some(position) = self.view.cursor {
///     frame.set_cursor_position(position);
/// }
/// ```
#[derive(Drop)]
pub struct TextAreaWidget<'a> {
    pub(crate) text: &'a TextArea,
    block: Option<Block<'a>>,
    pub(crate) style: Style,
    pub(crate) cursor_line_style: Style,
    pub(crate) selection_style: Style,
    pub(crate) line_numbers: Option<Style>,
    pub(crate) placeholder: &'a str,
    pub(crate) placeholder_style: Style,
    pub(crate) tab: u16,
    pub(crate) wraps: bool,
}

impl<'a> TextAreaWidget<'a> {
    /// Makes a widget of a text: without a box, numbers and a placeholder, and without a style but
    /// that what is selected is reversed. A tab leads to the next multiple of eight columns.
    pub fn new(text: &'a TextArea) -> TextAreaWidget<'a>
        ensures { IsNewWidget text.now result }
    {
        TextAreaWidget {
            text,
            block: None,
            style: Style::new(),
            cursor_line_style: Style::new(),
            selection_style: Style::new().add_modifier(Modifier::REVERSED),
            line_numbers: None,
            placeholder: "",
            placeholder_style: Style::new(),
            tab: 8,
            wraps: false,
        }
    }

    /// Puts the text in a box.
    pub fn block(mut self, block: Block<'a>) -> TextAreaWidget<'a>
        ensures { result ≡ record self.entry { block = Some block.entry } }
    {
        self.block = Some(block);
        self
    }

    /// Sets the style of the text, which is laid over its whole area.
    pub fn style(mut self, style: Style) -> TextAreaWidget<'a>
        ensures { result ≡ record self.entry { style = style } }
    {
        self.style = style;
        self
    }

    /// Sets the style of the row of the cursor's line, under its number too.
    pub fn cursor_line_style(mut self, style: Style) -> TextAreaWidget<'a>
        ensures { result ≡ record self.entry { cursor_line_style = style } }
    {
        self.cursor_line_style = style;
        self
    }

    /// Sets the style of what is selected.
    pub fn selection_style(mut self, style: Style) -> TextAreaWidget<'a>
        ensures { result ≡ record self.entry { selection_style = style } }
    {
        self.selection_style = style;
        self
    }

    /// Shows the number of each line before it, from 1 on, in a style, with a blank after it, where
    /// that leaves a column for the text. All have as many columns as the last line's number.
    pub fn line_numbers(mut self, style: Style) -> TextAreaWidget<'a>
        ensures { result ≡ record self.entry { line_numbers = Some style } }
    {
        self.line_numbers = Some(style);
        self
    }

    /// Sets a text of one line that is shown in a style as long as there is no other.
    pub fn placeholder(mut self, text: &'a str, style: Style) -> TextAreaWidget<'a>
        ensures { result
            ≡ record self.entry { placeholder = text.entry; placeholder_style = style } }
    {
        self.placeholder = text;
        self.placeholder_style = style;
        self
    }

    /// Says to multiples of how many columns a tab leads: 0 is taken for 1.
    pub fn tab_width(mut self, columns: u16) -> TextAreaWidget<'a>
        ensures { result ≡ record self.entry { tab = columns } }
    {
        self.tab = columns;
        self
    }

    /// Says whether lines that are longer than the area is wide go on in the next rows.
    ///
    /// A row shows the graphemes that begin in its columns, all but the last one of the area: there a
    /// wide grapheme ends that begins in the one before, or the cursor stands after a line that
    /// fills the row. The style of the cursor's line covers all its rows, and a line's number stands
    /// in the first one. The view doesn't move as long as the cursor's row is in it; its first column
    /// stays as it is.
    pub fn wrap(mut self, wraps: bool) -> TextAreaWidget<'a>
        ensures { result ≡ record self.entry { wraps = wraps } }
    {
        self.wraps = wraps;
        self
    }

    // How many columns the numbers take of so many.
    fn gutter_columns(&self, width: u16) -> u16
        ensures value { result ≡ gutter_columns self.now width }
        ensures fits { 0 < width → result < width }
    {
        if self.line_numbers.is_none() {
            return 0;
        }
        let columns = digit_count(self.text.line_count()) + 1;
        if columns < width { columns } else { 0 }
    }

    // The cursor's column in its line.
    pub(crate) fn cursor_column(&self) -> usize
        ensures { result ≡ cursor_column self.now }
    {
        let is_plain = self.text.is_plain_line();
        column_past(is_plain, self.tab, 0, self.text.cursor_line().0)
    }

    // The column after the cursor's line, which has the cursor in a column.
    pub(crate) fn column_after_rest(&self, column: usize) -> usize
        ensures { result ≡ column_after_rest self.now column }
    {
        let is_plain = self.text.is_plain_line();
        column_past(is_plain, self.tab, column, self.text.cursor_line().1)
    }

    // What is shown in an area with a line in each row, if the view was this one before.
    fn plain_plan(&self, view: AreaView, area: Rect) -> Plan
        requires { IsBoxArea area }
        ensures value { result ≡ plain_plan self.now view area }
        ensures stride { 0 < result.stride }
        ensures numbers { result.numbers + result.stride ≤ area.width }
        ensures x { result.x < area.width - result.numbers }
        ensures y { result.y < area.height }
    {
        let numbers = self.gutter_columns(area.width);
        let row = self.text.cursor_row();
        let column = self.cursor_column();
        let top = window_start(view.top, row, area.height);
        let left = window_start(view.left, column, area.width - numbers);
        let (from, to) = self.text.selection();
        Plan {
            top,
            above: view.row,
            left,
            stride: area.width - numbers,
            numbers,
            row,
            column,
            x: (column - left) as u16,
            y: (row - top) as u16,
            from,
            to,
        }
    }

    // What is shown in an area whose lines are wrapped, if the view was this one before.
    fn wrapped_plan(&self, view: AreaView, area: Rect) -> Plan
        requires { IsBoxArea area }
        ensures value { result ≡ wrapped_plan self.now view area }
        ensures stride { 0 < result.stride }
        ensures numbers { result.numbers + result.stride ≤ area.width }
        ensures x { result.x < area.width - result.numbers }
        ensures y { result.y < area.height }
    {
        let numbers = self.gutter_columns(area.width);
        let stride = stride_of(area.width - numbers);
        let row = self.text.cursor_row();
        let column = self.cursor_column();
        let cursor = self.cursor_place(stride, row, column);
        let former = Place {
            line: view.top,
            row: view.row,
        };
        let mut text = WrappedText::new(self, stride);
        let (begin, y) = view_begin(&mut text, former, cursor, usize::from(area.height));
        let (from, to) = self.text.selection();
        Plan {
            top: begin.line,
            above: begin.row,
            left: view.left,
            stride,
            numbers,
            row,
            column,
            x: column_in_row(stride, column, cursor.row, area.width - numbers),
            y: y as u16,
            from,
            to,
        }
    }

    // What is shown in an area, if the view was this one before.
    fn plan(&self, view: AreaView, area: Rect) -> Plan
        requires { IsBoxArea area }
        ensures value { result ≡ plan_of self.now view area }
        ensures stride { 0 < result.stride }
        ensures numbers { result.numbers + result.stride ≤ area.width }
        ensures x { result.x < area.width - result.numbers }
        ensures y { result.y < area.height }
    {
        if self.wraps {
            self.wrapped_plan(view, area)
        } else {
            self.plain_plan(view, area)
        }
    }
}

// The view of a plan in an area.
fn view_of(plan: &Plan, area: Rect) -> AreaView
    requires some { IsBoxArea area }
    requires x { plan.now.x < area.width - plan.now.numbers }
    requires y { plan.now.y < area.height }
    ensures { result ≡ view_of plan.now area }
{
    let x = area.x + plan.numbers + plan.x;
    let y = area.y + plan.y;
    AreaView {
        top: plan.top,
        row: plan.above,
        left: plan.left,
        cursor: Some(Position { x, y }),
    }
}

// The lines in view, and the placeholder if there is no text.
impl<'a> DrawStateInside for TextAreaWidget<'a> {
    type State = AreaView;

    ghost use Rattle.widget_area.specs.Windows.{next_view};
    ghost use Rattle.widget_area.specs.TextAreas.{area_drawing};

    ghost drawing = { area_drawing };

    ghost next = { next_view };

    #[tactic(auto, using(rtui_drawing::proofs::DrawingLemmas::drawing_steps))]
    fn draw_state_inside(
        &self,
        inner: Rect,
        buf: &mut Buffer,
        state: &mut AreaView,
    ) -> Result<(), AllocError> {
        let plan = self.plan(*state, inner);
        self.draw_plan(&plan, inner, buf)?;
        *state = view_of(&plan, inner);
        Ok(())
    }
}

/// Renders over the area, as far as the buffer has it: the style, the box, and inside the lines in
/// view.
impl<'b, 'a> StatefulWidget for &'b TextAreaWidget<'a> {
    type State = AreaView;

    ghost use Rattle.widget_area.specs.TextAreas.{RendersArea, LeavesArea, IsShortArea};

    ghost renders = { λ widget. RendersArea widget.now };

    ghost leaves = { λ widget. LeavesArea widget.now };

    ghost is_short = { λ widget. IsShortArea widget.now };

    fn render(self, area: Rect, buf: &mut Buffer, state: &mut AreaView) -> Result<(), AllocError> {
        state.cursor = None;
        render_state_inside(self, self.style, &self.block, area, buf, state)
    }
}

impl<'a> StatefulWidget for TextAreaWidget<'a> {
    type State = AreaView;

    ghost use Rattle.widget_area.specs.TextAreas.{RendersArea, LeavesArea, IsShortArea};

    ghost renders = { RendersArea };

    ghost leaves = { LeavesArea };

    ghost is_short = { IsShortArea };

    fn render(self, area: Rect, buf: &mut Buffer, state: &mut AreaView) -> Result<(), AllocError> {
        StatefulWidget::render(&self, area, buf, state)
    }
}
