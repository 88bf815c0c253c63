//! A symbol that turns, and a label.

ghost use Rattle.std.specs.Prelude.{◌≡◌, Some, IfOk, true, length, map, slice_get};
ghost use Rattle.std.specs.Option.{option_map};
ghost use Rattle.ratatui_core.specs.Buffer.{columns, text_pieces};
ghost use Rattle.rtui_drawing.specs.Cuts.{cut_from};
ghost use Rattle.rtui_drawing.specs.declared.cut.Cut.TheVariants.{After};
ghost use Rattle.rtui_drawing.specs.Drawings.{IsDone, IsRowIn, put_pieces};
ghost use Rattle.widget_throbber.specs.Sets.{turned_symbol, symbol_number};
ghost use Rattle.widget_throbber.specs.Throbbers.{IsNewThrobber, label_drawing, turned_symbol_drawing};

use crate::set::{BRAILLE_SIX, Set, WhichUse};
use crate::state::ThrobberState;
use ratatui_core::buffer::Buffer;
use ratatui_core::layout::Rect;
use ratatui_core::style::Style;
use ratatui_core::text::Span;
use ratatui_core::widgets::StatefulWidget;
use rtui_drawing::{Cut, write, write_span};
use rtui_inside::{DrawStateInside, render_state_inside};
use std::alloc::{AllocError, Global};

/// A symbol that turns while something goes on, and a label beside it, in one row.
///
/// ```
/// state.calc_next();
/// let throbber = Throbber::new().label(Span::raw("Loading")).throbber_set(ASCII);
/// frame.render_stateful_widget(throbber, area, &mut state) // "/ Loading"
/// ```
#[derive(Debug, PartialEq, Eq, Drop)]
pub struct Throbber<'a> {
    label: Option<Span<'a>>,
    pub(crate) style: Style,
    throbber_style: Style,
    throbber_set: Set,
    use_type: WhichUse,
}

impl<'a> Throbber<'a> {
    /// Makes a throbber of six dots that turns, without a label and styles; takes no memory.
    pub fn new() -> Throbber<'a>
        ensures { IsNewThrobber result }
    {
        Throbber {
            label: None,
            style: Style::new(),
            throbber_style: Style::new(),
            throbber_set: BRAILLE_SIX,
            use_type: WhichUse::Spin,
        }
    }

    /// Sets the text after the symbol.
    pub fn label(mut self, label: Span<'a>) -> Throbber<'a>
        ensures { result ≡ record self.entry { label = Some label.entry } }
    {
        self.label = Some(label);
        self
    }

    /// Sets the style of the whole area.
    pub fn style(mut self, style: Style) -> Throbber<'a>
        ensures { result ≡ record self.entry { style = style } }
    {
        self.style = style;
        self
    }

    /// Sets the style of the symbol.
    pub fn throbber_style(mut self, style: Style) -> Throbber<'a>
        ensures { result ≡ record self.entry { throbber_style = style } }
    {
        self.throbber_style = style;
        self
    }

    /// Sets the symbols.
    pub fn throbber_set(mut self, set: Set) -> Throbber<'a>
        ensures { result ≡ record self.entry { throbber_set = set } }
    {
        self.throbber_set = set;
        self
    }

    /// Sets which symbol of the set stands: the full one, the empty one, or one after the other.
    pub fn use_type(mut self, use_type: WhichUse) -> Throbber<'a>
        ensures { result ≡ record self.entry { use_type = use_type } }
    {
        self.use_type = use_type;
        self
    }

    /// Makes an equal throbber.
    ///
    /// # Errors
    ///
    /// `AllocError` if memory is refused.
    pub fn clone(&self, alloc: Global) -> Result<Throbber<'a>, AllocError>
        ensures { let same = ⟦<Throbber<'a> as PartialEq>⟧.eq in
            IfOk result (λ throbber. same self.now throbber ≡ true) }
    {
        Ok(Throbber {
            label: cloned_label(alloc, &self.label)?,
            style: self.style,
            throbber_style: self.throbber_style,
            throbber_set: self.throbber_set,
            use_type: self.use_type,
        })
    }

    // The symbol that stands.
    fn symbol(&self, state: &ThrobberState) -> Option<&'static str>
        ensures { let t = self.now in
            option_map (λ s. s.now) result ≡ turned_symbol t.throbber_set t.use_type state.now.index }
    {
        let set = self.throbber_set;
        match self.use_type {
            WhichUse::Full => Some(set.full),
            WhichUse::Empty => Some(set.empty),
            WhichUse::Spin => turned(set.symbols, state),
        }
    }

    // Writes a text of the symbol's style at the left of a row, and answers the row after it.
    fn put_text(&self, text: &str, row: Rect, buf: &mut Buffer) -> Result<Rect, AllocError>
        requires { IsRowIn buf.old.area row }
        ensures done { let ps = text_pieces row.width self.now.throbber_style text.now in
            IsDone (put_pieces ps) row result buf.old buf.new }
        ensures rest { let ps = text_pieces row.width self.now.throbber_style text.now in
            IfOk result (λ rest. rest ≡ cut_from (After (columns ps)) row) }
        ensures left { IfOk result (IsRowIn buf.new.area) }
    {
        let columns = write(text, self.throbber_style, row, buf)?;
        Ok(Cut::After(columns).of(row))
    }

    // Writes the label at the left of a row.
    fn put_label(&self, row: Rect, buf: &mut Buffer) -> Result<(), AllocError>
        requires { IsRowIn buf.old.area row }
        ensures { IsDone (label_drawing self.now.label row.width) row result buf.old buf.new }
    {
        if let Some(label) = &self.label {
            write_span(label, row, buf)?;
        }
        Ok(())
    }

    // Writes a symbol, a blank and the label in a row.
    fn put_symbol(&self, symbol: &str, row: Rect, buf: &mut Buffer) -> Result<(), AllocError>
        requires { IsRowIn buf.old.area row }
        ensures { IsDone (turned_symbol_drawing self.now symbol.now row.width) row result buf.old buf.new }
    {
        let row = self.put_text(symbol, row, buf)?;
        let row = self.put_text(" ", row, buf)?;
        self.put_label(row, buf)
    }
}

// An equal label, if there is one.
fn cloned_label<'a>(alloc: Global, label: &Option<Span<'a>>) -> Result<Option<Span<'a>>, AllocError>
    ensures { IfOk result (λ cloned. cloned ≡ label.now) }
{
    match label {
        Some(label) => Ok(Some(label.clone(alloc)?)),
        None => Ok(None),
    }
}

// The symbol that a state means, counted around some.
fn turned(symbols: &'static [&'static str], state: &ThrobberState) -> Option<&'static str>
    ensures { let texts = map (λ symbol. symbol.now) symbols.now in
        let k = symbol_number state.now.index (length texts) in
        option_map (λ s. s.now) result ≡ slice_get texts k }
{
    if symbols.is_empty() {
        return None;
    }
    Some(symbols[state.number(symbols.len())])
}

impl Default for Throbber<'_> {
    ghost is_default = { IsNewThrobber };

    fn default() -> Self {
        Throbber::new()
    }
}

// The symbol, a blank and the label in the first row, as far as it has columns.
impl<'a> DrawStateInside for Throbber<'a> {
    type State = ThrobberState;

    ghost use Rattle.widget_throbber.specs.Throbbers.{throbber_drawing};

    ghost drawing = { throbber_drawing };

    ghost next = { λ _ s _. s };

    fn draw_state_inside(
        &self,
        inner: Rect,
        buf: &mut Buffer,
        state: &mut ThrobberState,
    ) -> Result<(), AllocError> {
        let Some(symbol) = self.symbol(state) else {
            return Ok(());
        };
        self.put_symbol(symbol, Cut::Rows(0, 1).of(inner), buf)
    }
}

/// Over the area, as far as the buffer has it: the style, and in the first row the symbol, a blank
/// and the label, as far as it has columns. Of a set without symbols that turn nothing is written.
/// The state stays as it is.
impl<'b, 'a> StatefulWidget for &'b Throbber<'a> {
    type State = ThrobberState;

    ghost use Rattle.widget_throbber.specs.Throbbers.{RendersThrobber, LeavesThrobber};
    ghost use Rattle.widget_throbber.specs.Throbbers.{IsShortThrobber};

    ghost renders = { λ throbber. RendersThrobber throbber.now };

    ghost leaves = { λ throbber. LeavesThrobber throbber.now };

    ghost is_short = { λ throbber. IsShortThrobber throbber.now };

    fn render(
        self,
        area: Rect,
        buf: &mut Buffer,
        state: &mut ThrobberState,
    ) -> Result<(), AllocError> {
        render_state_inside(self, self.style, &None, area, buf, state)
    }
}

impl<'a> StatefulWidget for Throbber<'a> {
    type State = ThrobberState;

    ghost use Rattle.widget_throbber.specs.Throbbers.{RendersThrobber, LeavesThrobber};
    ghost use Rattle.widget_throbber.specs.Throbbers.{IsShortThrobber};

    ghost renders = { RendersThrobber };

    ghost leaves = { LeavesThrobber };

    ghost is_short = { IsShortThrobber };

    fn render(
        self,
        area: Rect,
        buf: &mut Buffer,
        state: &mut ThrobberState,
    ) -> Result<(), AllocError> {
        (&self).render(area, buf, state)
    }
}
