//! A bar that shows which part of a content is seen.

ghost use Rattle.std.specs.Prelude.{◌≡◌, ◌≤◌, ◌<◌, ◌+◌, ◌-◌, Some, OnOk, IsOk};
ghost use Rattle.ratatui_core.specs.Layout.{IsInside, HasPosition};
ghost use Rattle.ratatui_core.specs.Buffer.{IsShort};
ghost use Rattle.ratatui_core.specs.Widgets.{ChangesWithin};
ghost use Rattle.widget_boxes.specs.Boxes.{IsBoxArea};
ghost use Rattle.widget_scrollbar.specs.declared.scrollbar.ScrollbarOrientation.TheVariants.{VerticalRight};
ghost use Rattle.widget_scrollbar.specs.Scrollbars.{IsNewScrollbar, HasSymbols, IsSetFor, with_bar_symbols};
ghost use Rattle.widget_scrollbar.specs.Scrollbars.{is_upright, side_cut, bar_length};
ghost use Rattle.widget_scrollbar.specs.Scrollbars.{track_length, marks_of, mark_of, position_on_bar};
ghost use Rattle.widget_scrollbar.specs.Scrollbars.{PaintsSymbolIn, PaintsMark, PaintsMarks, EachSymbol};
ghost use Rattle.widget_scrollbar.specs.Inner.{StandsIn};

mod state;

use ratatui_core::buffer::Buffer;
use ratatui_core::layout::{Position, Rect};
use ratatui_core::style::Style;
use ratatui_core::symbols::scrollbar::{DOUBLE_HORIZONTAL, DOUBLE_VERTICAL, Set};
use ratatui_core::widgets::StatefulWidget;
use rtui_drawing::Cut;
pub use state::{ScrollDirection, ScrollbarState};
use std::alloc::{AllocError, Global};

/// At which side of an area a scroll bar stands.
#[derive(Debug, Default, Clone, Copy, PartialEq, Eq, Hash)]
pub enum ScrollbarOrientation {
    /// In the last column.
    #[default]
    VerticalRight,
    /// In the first column.
    VerticalLeft,
    /// In the last row.
    HorizontalBottom,
    /// In the first row.
    HorizontalTop,
}

impl ScrollbarOrientation {
    /// Returns whether it goes from above to below.
    pub fn is_vertical(&self) -> bool
        ensures { result ≡ is_upright self.now }
    {
        match self {
            ScrollbarOrientation::VerticalRight | ScrollbarOrientation::VerticalLeft => true,
            ScrollbarOrientation::HorizontalBottom | ScrollbarOrientation::HorizontalTop => false,
        }
    }
}

/// A bar at a side of an area: an arrow at each end, a track between them, and on it a thumb where
/// the part that is seen lies. Its symbols are painted from its start to its end, each in the
/// columns that it takes, as far as the area goes; so one of several columns covers those right of
/// it, and in a row the next symbol covers it.
///
/// ```
/// let mut state = ScrollbarState::new(lines).position(first);
/// Scrollbar::new(ScrollbarOrientation::VerticalRight).render(area, buf, &mut state)?;
/// ```
#[derive(Debug, Clone, Copy, PartialEq, Eq, Hash)]
pub struct Scrollbar<'a> {
    orientation: ScrollbarOrientation,
    thumb_style: Style,
    thumb_symbol: &'a str,
    track_style: Style,
    track_symbol: Option<&'a str>,
    begin_symbol: Option<&'a str>,
    begin_style: Style,
    end_symbol: Option<&'a str>,
    end_style: Style,
}

impl<'a> Scrollbar<'a> {
    /// Makes a bar of double lines at a side, with arrows; takes no memory.
    pub fn new(orientation: ScrollbarOrientation) -> Scrollbar<'a>
        ensures { IsNewScrollbar orientation result }
    {
        let set = symbols_for(orientation);
        Scrollbar {
            orientation,
            thumb_style: Style::new(),
            thumb_symbol: set.thumb,
            track_style: Style::new(),
            track_symbol: Some(set.track),
            begin_symbol: Some(set.begin),
            begin_style: Style::new(),
            end_symbol: Some(set.end),
            end_style: Style::new(),
        }
    }

    /// Puts the bar at another side, in double lines.
    pub fn orientation(self, orientation: ScrollbarOrientation) -> Scrollbar<'a>
        ensures { HasSymbols orientation self.entry result }
    {
        let set = symbols_for(orientation);
        self.symbols(set).at_side(orientation)
    }

    /// Puts the bar at another side, with these symbols.
    pub fn orientation_and_symbol(
        self,
        orientation: ScrollbarOrientation,
        symbols: Set<'a>,
    ) -> Scrollbar<'a>
        ensures { result ≡ record (with_bar_symbols symbols.entry self.entry)
            { orientation = orientation } }
    {
        self.symbols(symbols).at_side(orientation)
    }

    // The bar at another side.
    fn at_side(mut self, orientation: ScrollbarOrientation) -> Scrollbar<'a>
        ensures { result ≡ record self.entry { orientation = orientation } }
    {
        self.orientation = orientation;
        self
    }

    /// Sets the symbols of the bar; a part that it doesn't show stays hidden.
    pub fn symbols(mut self, symbols: Set<'a>) -> Scrollbar<'a>
        ensures { result ≡ with_bar_symbols symbols.entry self.entry }
    {
        self.thumb_symbol = symbols.thumb;
        if self.track_symbol.is_some() {
            self.track_symbol = Some(symbols.track);
        }
        if self.begin_symbol.is_some() {
            self.begin_symbol = Some(symbols.begin);
        }
        if self.end_symbol.is_some() {
            self.end_symbol = Some(symbols.end);
        }
        self
    }

    /// Sets the symbol of the thumb.
    pub fn thumb_symbol(mut self, symbol: &'a str) -> Scrollbar<'a>
        ensures { result ≡ record self.entry { thumb_symbol = symbol.entry } }
    {
        self.thumb_symbol = symbol;
        self
    }

    /// Sets the style of the thumb.
    pub fn thumb_style(mut self, style: Style) -> Scrollbar<'a>
        ensures { result ≡ record self.entry { thumb_style = style } }
    {
        self.thumb_style = style;
        self
    }

    /// Sets the symbol of the track, or takes the track away.
    pub fn track_symbol(mut self, symbol: Option<&'a str>) -> Scrollbar<'a>
        ensures { result ≡ record self.entry { track_symbol = symbol.entry } }
    {
        self.track_symbol = symbol;
        self
    }

    /// Sets the style of the track.
    pub fn track_style(mut self, style: Style) -> Scrollbar<'a>
        ensures { result ≡ record self.entry { track_style = style } }
    {
        self.track_style = style;
        self
    }

    /// Sets the symbol at the start, or takes it away.
    pub fn begin_symbol(mut self, symbol: Option<&'a str>) -> Scrollbar<'a>
        ensures { result ≡ record self.entry { begin_symbol = symbol.entry } }
    {
        self.begin_symbol = symbol;
        self
    }

    /// Sets the style of the symbol at the start.
    pub fn begin_style(mut self, style: Style) -> Scrollbar<'a>
        ensures { result ≡ record self.entry { begin_style = style } }
    {
        self.begin_style = style;
        self
    }

    /// Sets the symbol at the end, or takes it away.
    pub fn end_symbol(mut self, symbol: Option<&'a str>) -> Scrollbar<'a>
        ensures { result ≡ record self.entry { end_symbol = symbol.entry } }
    {
        self.end_symbol = symbol;
        self
    }

    /// Sets the style of the symbol at the end.
    pub fn end_style(mut self, style: Style) -> Scrollbar<'a>
        ensures { result ≡ record self.entry { end_style = style } }
    {
        self.end_style = style;
        self
    }

    /// Sets the style of the whole bar.
    pub fn style(mut self, style: Style) -> Scrollbar<'a>
        ensures { result ≡ record self.entry
            { thumb_style = style; track_style = style; begin_style = style; end_style = style } }
    {
        self.thumb_style = style;
        self.track_style = style;
        self.begin_style = style;
        self.end_style = style;
        self
    }

    // Where the bar stands: the row or the column at its side of an area.
    fn side_cut(&self, area: Rect) -> Cut
        ensures { result ≡ side_cut self.now.orientation area }
    {
        match self.orientation {
            ScrollbarOrientation::VerticalRight => Cut::Last(1),
            ScrollbarOrientation::VerticalLeft => Cut::First(1),
            ScrollbarOrientation::HorizontalBottom => Cut::Rows(area.height.saturating_sub(1), 1),
            ScrollbarOrientation::HorizontalTop => Cut::Rows(0, 1),
        }
    }

    // How many cells the bar has.
    fn length(&self, area: Rect) -> u16
        ensures { result ≡ bar_length self.now.orientation area }
    {
        if self.orientation.is_vertical() {
            area.height
        } else {
            area.width
        }
    }
}

impl Default for Scrollbar<'_> {
    ghost is_default = { IsNewScrollbar VerticalRight };

    fn default() -> Self {
        Scrollbar::new(ScrollbarOrientation::VerticalRight)
    }
}

impl<'a> Scrollbar<'a> {
    // How long the track is over an area: the bar without its arrows.
    fn track_length(&self, area: Rect) -> u16
        ensures { let length = bar_length self.now.orientation area in
            result ≡ track_length self.now length }
    {
        let arrows = u16::from(self.begin_symbol.is_some()) + u16::from(self.end_symbol.is_some());
        self.length(area).saturating_sub(arrows)
    }

    // The marks of the bar over an area.
    fn marks(&self, state: &ScrollbarState, area: Rect) -> Marks<'a>
        requires { 0 < track_length self.now (bar_length self.now.orientation area) }
        ensures { result ≡ marks_of self.now state.now area }
    {
        let track = self.track_length(area);
        let begin = u16::from(self.begin_symbol.is_some());
        let (thumb, length) = state.thumb(track, self.length(area));
        Marks {
            is_vertical: self.orientation.is_vertical(),
            area: self.side_cut(area).of(area),
            track: begin,
            thumb: begin + thumb,
            after_thumb: begin + thumb + length,
            after_track: begin + track,
            bar: *self,
        }
    }
}

// The symbols of double lines for a side.
fn symbols_for<'a>(orientation: ScrollbarOrientation) -> Set<'a>
    ensures { IsSetFor orientation result }
{
    if orientation.is_vertical() {
        DOUBLE_VERTICAL
    } else {
        DOUBLE_HORIZONTAL
    }
}

// The marks of a bar by their places: an arrow, the track, the thumb, the track, an arrow.
#[derive(Clone, Copy)]
pub(crate) struct Marks<'a> {
    is_vertical: bool,
    area: Rect,
    track: u16,
    thumb: u16,
    after_thumb: u16,
    after_track: u16,
    bar: Scrollbar<'a>,
}

impl<'a> Marks<'a> {
    // The symbol and the style at a place.
    fn mark(&self, place: u16) -> (Option<&'a str>, Style)
        ensures { result ≡ mark_of self.now place }
    {
        let bar = &self.bar;
        if place < self.track {
            (bar.begin_symbol, bar.begin_style)
        } else if place < self.thumb {
            (bar.track_symbol, bar.track_style)
        } else if place < self.after_thumb {
            (Some(bar.thumb_symbol), bar.thumb_style)
        } else if place < self.after_track {
            (bar.track_symbol, bar.track_style)
        } else {
            (bar.end_symbol, bar.end_style)
        }
    }
}

// Paints a symbol from a position of an area on, in at most the columns that the area has from there.
fn paint_symbol(
    symbol: &str,
    style: Style,
    at: Position,
    area: Rect,
    buf: &mut Buffer,
) -> Result<(), AllocError>
    requires some { IsBoxArea area }
    requires here { HasPosition area at }
    requires inside { IsInside area buf.old.area }
    ensures within { ChangesWithin area buf.old buf.new }
    ensures ok { OnOk result (PaintsSymbolIn area at style symbol.now buf.old buf.new) }
    ensures short { IsShort symbol.now → IsOk result }
{
    let room = area.x + area.width - at.x;
    buf.set_stringn(at.x, at.y, symbol, usize::from(room), style)?;
    Ok(())
}

impl<'a> Marks<'a> {
    // Where a place stands.
    fn position(&self, place: u16) -> Position
        requires across { (position_on_bar self.now place).x ≤ 65535 }
        requires down { (position_on_bar self.now place).y ≤ 65535 }
        ensures { result ≡ position_on_bar self.now place }
    {
        let Rect { x, y, .. } = self.area;
        if self.is_vertical {
            Position { x, y: y + place }
        } else {
            Position { x: x + place, y }
        }
    }

    // Paints the symbol of a place of a bar that stands in an area.
    fn paint_mark(&self, place: u16, area: Rect, buf: &mut Buffer) -> Result<(), AllocError>
        requires some { IsBoxArea area }
        requires here { HasPosition area (position_on_bar self.now place) }
        requires inside { IsInside area buf.old.area }
        ensures within { ChangesWithin area buf.old buf.new }
        ensures ok { OnOk result (PaintsMark self.now area place buf.old buf.new) }
        ensures short { EachSymbol IsShort self.now.bar → IsOk result }
    {
        let (symbol, style) = self.mark(place);
        match symbol {
            Some(symbol) => paint_symbol(symbol, style, self.position(place), area, buf),
            None => Ok(()),
        }
    }

    // Paints the symbols of so many places of a bar that stands in an area, one after the other.
    fn paint(&self, count: u16, area: Rect, buf: &mut Buffer) -> Result<(), AllocError>
        requires some { IsBoxArea area }
        requires here { StandsIn self.now count area }
        requires inside { IsInside area buf.old.area }
        ensures within { ChangesWithin area buf.old buf.new }
        ensures ok { OnOk result (PaintsMarks self.now area count buf.old buf.new) }
        ensures short { EachSymbol IsShort self.now.bar → IsOk result }
    {
        for place in 0..count {
            self.paint_mark(place, area, buf)?;
        }
        Ok(())
    }
}

/// At its side of the area, as far as the buffer has it; a bar without a content or without room
/// for a track shows nothing.
impl<'b, 'a> StatefulWidget for &'b Scrollbar<'a> {
    type State = ScrollbarState;

    ghost use Rattle.std.specs.Prelude.{◌≡◌};
    ghost use Rattle.ratatui_core.specs.Buffer.{IsShort};
    ghost use Rattle.widget_scrollbar.specs.Scrollbars.{RendersScrollbar, EachSymbol};

    ghost renders = { λ bar. RendersScrollbar bar.now };

    ghost leaves = { λ _ old new _ _ _. new ≡ old };

    ghost is_short = { λ bar _ _ _. EachSymbol IsShort bar.now };

    fn render(
        self,
        area: Rect,
        buf: &mut Buffer,
        state: &mut ScrollbarState,
    ) -> Result<(), AllocError> {
        let Some(part) = buf.part(area) else {
            return Ok(());
        };
        if state.content_length == 0 || self.track_length(part) == 0 {
            return Ok(());
        }
        let marks = self.marks(state, part);
        marks.paint(self.length(part), part, buf)
    }
}

impl<'a> StatefulWidget for Scrollbar<'a> {
    type State = ScrollbarState;

    ghost use Rattle.std.specs.Prelude.{◌≡◌};
    ghost use Rattle.ratatui_core.specs.Buffer.{IsShort};
    ghost use Rattle.widget_scrollbar.specs.Scrollbars.{RendersScrollbar, EachSymbol};

    ghost renders = { RendersScrollbar };

    ghost leaves = { λ _ old new _ _ _. new ≡ old };

    ghost is_short = { λ bar _ _ _. EachSymbol IsShort bar };

    fn render(
        self,
        area: Rect,
        buf: &mut Buffer,
        state: &mut ScrollbarState,
    ) -> Result<(), AllocError> {
        (&self).render(area, buf, state)
    }
}
