//! A field in an area.

ghost use Rattle.std.specs.Prelude.{◌≡◌, OnOk, IfOk, IsOk, OnErr, Some, true};
ghost use Rattle.text_field.specs.Field.{field_text};
ghost use Rattle.ratatui_core.specs.Layout.{IsInside};
ghost use Rattle.ratatui_core.specs.Widgets.{ChangesWithin};
ghost use Rattle.widget_boxes.specs.Boxes.{IsBoxArea};
ghost use Rattle.widget_field.specs.Fields.{IsNewInput, ShowsParts, ShowsField, masked, if_none};
ghost use Rattle.widget_field.specs.Fields.{text_behind, style_behind, position_if, IsShortText};

use crate::mask::masked;
use crate::painting::render_parts;
use ratatui_core::buffer::Buffer;
use ratatui_core::layout::{Position, Rect};
use ratatui_core::style::Style;
use ratatui_core::widgets::StatefulWidget;
use std::alloc::{AllocError, Global};
use text_field::TextField;
use widget_boxes::{Block, cloned_block, render_frame};

/// An `Input` shows a `TextField` in the first row of an area, in a box if it has one.
///
/// The text is shown from a grapheme on, so that the cursor stands in the area. From one rendering
/// to the next the view moves as little as it can: as the cursor wants it, or to the left if there
/// is room for more of the text. No wide grapheme is cut.
///
/// ```
/// let input = Input::new().block(Block::bordered(alloc));
/// frame.render_stateful_widget(input, area, field)?;
/// if let Some(position) = cursor_position(field) {
///     frame.set_cursor_position(position);
/// }
/// ```
#[derive(Debug, PartialEq, Eq, Drop)]
pub struct Input<'a> {
    block: Option<Block<'a>>,
    pub(crate) style: Style,
    placeholder: &'a str,
    placeholder_style: Style,
    mask: Option<char>,
}

impl<'a> Input<'a> {
    /// Makes an input without a box, a style, a placeholder and a mask.
    pub fn new() -> Input<'a>
        ensures { IsNewInput result }
    {
        Input {
            block: None,
            style: Style::new(),
            placeholder: "",
            placeholder_style: Style::new(),
            mask: None,
        }
    }

    /// Puts the input in a box.
    pub fn block(mut self, block: Block<'a>) -> Input<'a>
        ensures { result ≡ record self.entry { block = Some block.entry } }
    {
        self.block = Some(block);
        self
    }

    /// Sets the style of the input, which is laid over its whole area.
    pub fn style(mut self, style: Style) -> Input<'a>
        ensures { result ≡ record self.entry { style = style } }
    {
        self.style = style;
        self
    }

    /// Sets a text that is shown in a style as long as the field has none.
    pub fn placeholder(mut self, text: &'a str, style: Style) -> Input<'a>
        ensures { result
            ≡ record self.entry { placeholder = text.entry; placeholder_style = style } }
    {
        self.placeholder = text;
        self.placeholder_style = style;
        self
    }

    /// Shows this character in place of each grapheme of the field's text, for what nobody is to
    /// read. A rendering then takes memory for a masked copy of the text.
    pub fn mask(mut self, mask: char) -> Input<'a>
        ensures { result ≡ record self.entry { mask = Some mask } }
    {
        self.mask = Some(mask);
        self
    }

    /// Makes an equal input.
    ///
    /// # Errors
    ///
    /// `AllocError` if memory is refused.
    pub fn clone(&self, alloc: Global) -> Result<Input<'a>, AllocError>
        ensures { let same = ⟦<Input<'a> as PartialEq>⟧.eq in
            IfOk result (λ input. same self.now input ≡ true) }
    {
        Ok(Input {
            block: cloned_block(alloc, &self.block)?,
            style: self.style,
            placeholder: self.placeholder,
            placeholder_style: self.placeholder_style,
            mask: self.mask,
        })
    }

    // What is shown after the cursor, and in which style, if the text after it is shown so.
    fn behind<'f>(&self, field: &TextField, after: &'f str) -> (&'f str, Style)
    where
        'a: 'f,
        ensures text { result.0.now
            ≡ if_none (field_text field.now) self.now.placeholder.now after.now }
        ensures style { result.1 ≡ style_behind self.now field.now }
    {
        if field.is_empty() {
            (self.placeholder, self.placeholder_style)
        } else {
            (after, Style::new())
        }
    }

    // Renders the parts of a field as they are shown; answers where the view begins, and the
    // cursor's column.
    fn render_shown(
        &self,
        part: Rect,
        buf: &mut Buffer,
        field: &TextField,
    ) -> Result<(usize, u16), AllocError>
        requires some { IsBoxArea part }
        requires inside { IsInside part buf.old.area }
        ensures within { ChangesWithin part buf.old buf.new }
        ensures ok { let f = field.now in let input = self.now in
            IfOk result (λ at. ShowsParts (masked input.mask f.before) f.first (text_behind input f)
            (style_behind input f) part at.0 at.1 buf.old buf.new) }
        ensures short { IsShortText self.now field.now → IsOk result }
    {
        let first = field.view_start();
        match self.mask {
            None => {
                let (behind, style) = self.behind(field, field.after());
                render_parts(field.before(), first, behind, style, part, buf)
            }
            Some(mask) => {
                let alloc = buf.allocator();
                let before = masked(alloc, field.before(), mask)?;
                let after = masked(alloc, field.after(), mask)?;
                let (behind, style) = self.behind(field, after.as_str());
                render_parts(before.as_str(), first, behind, style, part, buf)
            }
        }
    }

    // Renders a field in the first row of a part.
    fn render_field(
        &self,
        part: Rect,
        buf: &mut Buffer,
        field: &mut TextField,
    ) -> Result<(), AllocError>
        requires some { IsBoxArea part }
        requires inside { IsInside part buf.old.area }
        ensures within { ChangesWithin part buf.old buf.new }
        ensures ok { OnOk result (ShowsField self.now field.old field.new part buf.old buf.new) }
        ensures err { OnErr result (field.new ≡ field.old) }
        ensures short { IsShortText self.now field.old → IsOk result }
    {
        let (start, column) = self.render_shown(part, buf, field)?;
        field.set_view(start, Some((column, part.y)));
        Ok(())
    }
}

/// Returns the column and the row of the buffer in which the cursor stood when the field was
/// rendered last, for `Frame::set_cursor_position`, or `None` if there was no place for it.
pub fn cursor_position(field: &TextField) -> Option<Position>
    ensures { result ≡ position_if field.now.place }
{
    match field.cursor_place() {
        Some((x, y)) => Some(Position { x, y }),
        None => None,
    }
}

/// Renders over the area, as far as the buffer has it: the style, the box, and the field in the
/// first row inside it.
impl<'b, 'a> StatefulWidget for &'b Input<'a> {
    type State = TextField;

    ghost use Rattle.std.specs.Prelude.{◌≡◌};
    ghost use Rattle.widget_field.specs.Fields.{RendersInput, IsShortInput, hidden};

    ghost renders = { λ input. RendersInput input.now };

    ghost leaves = { λ _ old new _ _ _. new ≡ hidden old };

    ghost is_short = { λ input field _. IsShortInput input.now field };

    fn render(self, area: Rect, buf: &mut Buffer, state: &mut TextField) -> Result<(), AllocError> {
        let first = state.view_start();
        state.set_view(first, None);
        let Some(inner) = render_frame(self.style, &self.block, area, buf)? else {
            return Ok(());
        };
        self.render_field(inner, buf, state)
    }
}

impl<'a> StatefulWidget for Input<'a> {
    type State = TextField;

    ghost use Rattle.std.specs.Prelude.{◌≡◌};
    ghost use Rattle.widget_field.specs.Fields.{RendersInput, IsShortInput, hidden};

    ghost renders = { RendersInput };

    ghost leaves = { λ _ old new _ _ _. new ≡ hidden old };

    ghost is_short = { λ input field _. IsShortInput input field };

    fn render(self, area: Rect, buf: &mut Buffer, state: &mut TextField) -> Result<(), AllocError> {
        StatefulWidget::render(&self, area, buf, state)
    }
}
