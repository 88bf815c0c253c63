//! A content larger than the area in which it is shown.

ghost use Rattle.std.specs.Prelude.{◌≡◌, ◌⊎◌, ◌≤◌, ◌+◌, ◌-◌, IsOk, OnOk, OnErr, IfOk};
ghost use Rattle.std.specs.Borrow.{sem};
ghost use Rattle.ratatui_core.specs.Layout.{EdgesFit, IsInside};
ghost use Rattle.ratatui_core.specs.Buffer.{IsSameBuffer, area_size};
ghost use Rattle.ratatui_core.specs.Widgets.{ChangesWithin};
ghost use Rattle.widget_boxes.specs.Boxes.{one_if, IsBoxArea};
ghost use Rattle.widget_boxes.specs.Titles.{DoesIf};
ghost use Rattle.widget_scrollbar.specs.declared.scrollbar.ScrollbarOrientation.TheVariants.{VerticalRight};
ghost use Rattle.widget_scrollbar.specs.declared.scrollbar.ScrollbarOrientation.TheVariants.{HorizontalBottom};
ghost use Rattle.widget_scroll_view.specs.Places.{has_bar, has_vertical, has_horizontal, view_area};
ghost use Rattle.widget_scroll_view.specs.Places.{vertical_bar, horizontal_bar, shown_offset, shown_area};
ghost use Rattle.widget_scroll_view.specs.ScrollViews.{IsNewScrollView, PaintsBar, PaintsBars};
ghost use Rattle.widget_scroll_view.specs.ScrollViews.{ShowsContent, HasShortCells, bar_state};
ghost use Rattle.widget_scroll_view.specs.ScrollViews.{with_track, state_after, settled_view};
ghost use Rattle.widget_scroll_view.specs.Contents.{LendsContent, KeepsVisibilities};

use crate::state::ScrollViewState;
use crate::window::Window;
use ratatui_core::buffer::{Buffer, change_area};
use ratatui_core::layout::{Position, Rect, Size};
use ratatui_core::widgets::{StatefulWidget, Widget};
use std::alloc::{AllocError, Global};
use widget_scrollbar::{Scrollbar, ScrollbarOrientation, ScrollbarState};

/// When a scroll bar stands.
#[derive(Debug, Default, Clone, Copy, PartialEq, Eq, Hash)]
pub enum ScrollbarVisibility {
    /// If the content is larger than what the other bar leaves of the area.
    #[default]
    Automatic,
    /// Always.
    Always,
    /// Never.
    Never,
}

/// A content of any size, of which an area shows a part, with a scroll bar at the right and one at
/// the bottom where they are needed. A bar takes a column or a row, but never the last one; it has
/// arrows if it has three cells. A wide character that the right edge cuts is shown as a blank in
/// its style; of one that the left edge cuts the content's own cells after it are shown, which are
/// blanks. A rendering copies the cells that it shows, and looks at no others.
///
/// ```
/// let mut view = ScrollView::new(alloc, Size::new(12, 8))?;
/// let whole = view.area();
/// view.render_widget(&text, whole)?;
/// let mut state = ScrollViewState::with_offset(Position::new(0, 2));
/// frame.render_stateful_widget(&view, area, &mut state)
/// ```
#[derive(Debug, PartialEq, Eq, Hash, Drop)]
pub struct ScrollView {
    content: Buffer,
    vertical_scrollbar_visibility: ScrollbarVisibility,
    horizontal_scrollbar_visibility: ScrollbarVisibility,
}

impl ScrollView {
    /// Makes a view of an empty content of this size, in columns and rows.
    ///
    /// # Errors
    ///
    /// `AllocError` if memory is refused. A content without cells takes none.
    pub fn new(alloc: Global, size: Size) -> Result<ScrollView, AllocError>
        ensures value { IfOk result (IsNewScrollView size) }
        ensures succeeds { (size.width ≡ 0) ⊎ (size.height ≡ 0) → IsOk result }
    {
        Ok(ScrollView {
            content: Buffer::empty(alloc, Rect::new(0, 0, size.width, size.height))?,
            vertical_scrollbar_visibility: ScrollbarVisibility::Automatic,
            horizontal_scrollbar_visibility: ScrollbarVisibility::Automatic,
        })
    }

    /// Sets when the bar at the right stands.
    pub fn vertical_scrollbar_visibility(mut self, visibility: ScrollbarVisibility) -> ScrollView
        ensures { result ≡ record self { vertical_scrollbar_visibility = visibility } }
    {
        self.vertical_scrollbar_visibility = visibility;
        self
    }

    /// Sets when the bar at the bottom stands.
    pub fn horizontal_scrollbar_visibility(mut self, visibility: ScrollbarVisibility) -> ScrollView
        ensures { result ≡ record self { horizontal_scrollbar_visibility = visibility } }
    {
        self.horizontal_scrollbar_visibility = visibility;
        self
    }

    /// Sets when each bar stands.
    pub fn scrollbars_visibility(self, visibility: ScrollbarVisibility) -> ScrollView
        ensures { result ≡ record self {
          vertical_scrollbar_visibility = visibility;
          horizontal_scrollbar_visibility = visibility;
        } }
    {
        self.vertical_scrollbar_visibility(visibility)
            .horizontal_scrollbar_visibility(visibility)
    }

    /// Returns the content's area: its corner is the first column of the first row, unless the
    /// content was given another one.
    pub fn area(&self) -> Rect
        ensures value { result ≡ self.now.content.area }
        ensures edges { EdgesFit result }
    {
        *self.content.area()
    }

    /// Returns the content.
    pub fn buffer(&self) -> &Buffer
        ensures { result.now ≡ self.now.content }
    {
        &self.content
    }

    /// Returns the content, to paint on.
    pub fn buffer_mut(&mut self) -> &mut Buffer
        ensures* writes_back { sem 𝓛 (LendsContent self.entry result) }
        ensures value { result.now ≡ self.old.content }
    {
        &mut self.content
    }

    /// Renders a widget over an area of the content.
    ///
    /// # Conditions
    ///
    /// The widget may be rendered over this area of the content, as far as it says.
    ///
    /// # Errors
    ///
    /// `AllocError` if memory is refused. Then no cell outside the widget's reach has changed,
    /// which is the area unless the widget says otherwise.
    pub fn render_widget<W: Widget>(&mut self, widget: W, area: Rect) -> Result<(), AllocError>
        requires { W.can_render widget area self.old.content }
        ensures keeps { KeepsVisibilities self.old self.new }
        ensures area { self.new.content.area ≡ self.old.content.area }
        ensures ok { OnOk result (W.renders widget area self.old.content self.new.content) }
        ensures err { let reach = W.reach widget area in
            OnErr result (ChangesWithin reach self.old.content self.new.content) }
        ensures left { OnErr result (W.leaves widget area self.old.content self.new.content) }
        ensures short { W.is_short widget area self.old.content → IsOk result }
    {
        widget.render(area, &mut self.content)
    }

    /// Renders a widget over an area of the content, from its state on.
    ///
    /// # Conditions
    ///
    /// The widget may be rendered over this area of the content in this state, as far as it says.
    ///
    /// # Errors
    ///
    /// `AllocError` if memory is refused. Then no cell outside the widget's reach has changed,
    /// which is the area unless the widget says otherwise; the widget says what its state is then.
    pub fn render_stateful_widget<W: StatefulWidget>(
        &mut self,
        widget: W,
        area: Rect,
        state: &mut W::State,
    ) -> Result<(), AllocError>
        requires { W.can_render widget state.old area self.old.content }
        ensures keeps { KeepsVisibilities self.old self.new }
        ensures area { self.new.content.area ≡ self.old.content.area }
        ensures ok { OnOk result (W.renders widget state.old state.new area
            self.old.content self.new.content) }
        ensures err { let reach = W.reach widget area in
            OnErr result (ChangesWithin reach self.old.content self.new.content) }
        ensures left { OnErr result (W.leaves widget state.old state.new area
            self.old.content self.new.content) }
        ensures short { W.is_short widget state.old area self.old.content → IsOk result }
    {
        widget.render(area, &mut self.content, state)
    }

    /// Brings a state up to date as a rendering over an area does, and draws nothing: the offset is
    /// at most the one from which on the content's end is shown, and the state knows the sizes. The
    /// area is the part that a buffer has of what the view is rendered over; without cells the
    /// state stays. It takes no memory.
    pub fn settle(&self, area: Rect, state: &mut ScrollViewState)
        ensures { state.new ≡ settled_view self.now area state.old }
    {
        if !area.is_empty() {
            let view = self.view_area(area);
            *state = self.state_after(view, self.shown_offset(view, state.offset));
        }
    }

    /// Returns what the bars leave of an area for the content.
    pub fn view_area(&self, area: Rect) -> Rect
        ensures value { result ≡ view_area self.now area }
        ensures inside { IsInside result area }
    {
        Rect {
            width: less_one_if(area.width, self.has_vertical(area)),
            height: less_one_if(area.height, self.has_horizontal(area)),
            ..area
        }
    }

    /// Makes an equal view.
    ///
    /// # Errors
    ///
    /// `AllocError` if memory is refused. A content without cells takes none.
    pub fn clone(&self, alloc: Global) -> Result<ScrollView, AllocError>
        ensures content { IfOk result (λ v. IsSameBuffer self.now.content v.content) }
        ensures rest { IfOk result (KeepsVisibilities self.now) }
        ensures succeeds { area_size self.now.content.area ≡ 0 → IsOk result }
    {
        Ok(ScrollView {
            content: self.content.clone(alloc)?,
            vertical_scrollbar_visibility: self.vertical_scrollbar_visibility,
            horizontal_scrollbar_visibility: self.horizontal_scrollbar_visibility,
        })
    }

    // Whether the bar at the right stands in an area.
    fn has_vertical(&self, area: Rect) -> bool
        ensures { result ≡ has_vertical self.now area }
    {
        let size = self.content.area().as_size();
        let below = has_bar(
            self.horizontal_scrollbar_visibility,
            size.width,
            area.width,
            area.height,
        );
        let room = less_one_if(area.height, below);
        has_bar(
            self.vertical_scrollbar_visibility,
            size.height,
            room,
            area.width,
        )
    }

    // Whether the bar at the bottom stands in an area.
    fn has_horizontal(&self, area: Rect) -> bool
        ensures { result ≡ has_horizontal self.now area }
    {
        let room = less_one_if(area.width, self.has_vertical(area));
        has_bar(
            self.horizontal_scrollbar_visibility,
            self.content.area().width,
            room,
            area.height,
        )
    }

    // The offset at which a view of this area shows the content.
    fn shown_offset(&self, view: Rect, offset: Position) -> Position
        ensures { result ≡ shown_offset self.now.content view offset }
    {
        let size = self.content.area().as_size();
        Position {
            x: offset.x.min(size.width.saturating_sub(view.width)),
            y: offset.y.min(size.height.saturating_sub(view.height)),
        }
    }

    // The state after a rendering in a view from an offset on.
    fn state_after(&self, view: Rect, offset: Position) -> ScrollViewState
        ensures { result ≡ state_after self.now.content view offset }
    {
        ScrollViewState {
            offset,
            size: Some(self.content.area().as_size()),
            page_size: Some(view.as_size()),
        }
    }

    // The part of a view in which the content stands.
    fn shown_area(&self, view: Rect) -> Rect
        ensures value { result ≡ shown_area self.now.content view }
        ensures edges { EdgesFit self.now.content.area }
    {
        let size = self.content.area().as_size();
        Rect {
            width: view.width.min(size.width),
            height: view.height.min(size.height),
            ..view
        }
    }
}

// Whether a bar stands beside a content of this length that has this room, and takes one of this
// breadth.
fn has_bar(visibility: ScrollbarVisibility, length: u16, room: u16, breadth: u16) -> bool
    ensures { result ≡ has_bar visibility length room breadth }
{
    let wants = match visibility {
        ScrollbarVisibility::Automatic => room < length,
        ScrollbarVisibility::Always => true,
        ScrollbarVisibility::Never => false,
    };
    wants && breadth > 1
}

// A number, less one if a bar takes it.
fn less_one_if(number: u16, is_taken: bool) -> u16
    ensures { result ≡ number - one_if is_taken }
{
    number.saturating_sub(u16::from(is_taken))
}

// What a bar shows of a content of this length, of which this many cells are seen from an offset on.
fn bar_state(length: u16, room: u16, offset: u16) -> ScrollbarState
    ensures { result ≡ bar_state length room offset }
{
    let positions = usize::from(length.saturating_sub(room)) + 1;
    ScrollbarState::new(positions)
        .position(usize::from(offset))
        .viewport_content_length(usize::from(room))
}

// A bar over a row or a column: without its arrows where they would leave no track.
fn with_track<'a>(bar: Scrollbar<'a>, area: Rect) -> Scrollbar<'a>
    ensures { result ≡ with_track area bar.entry }
{
    if area.width.max(area.height) > 2 {
        return bar;
    }
    bar.begin_symbol(None).end_symbol(None)
}

// Paints a bar of double lines over an area, for a content of this length of which this many cells
// are seen from an offset on.
fn paint_bar(
    orientation: ScrollbarOrientation,
    length: u16,
    room: u16,
    offset: u16,
    area: Rect,
    buf: &mut Buffer,
) -> Result<(), AllocError>
    ensures succeeds { IsOk result }
    ensures painted { PaintsBar orientation (bar_state length room offset) area buf.old buf.new }
{
    let mut state = bar_state(length, room, offset);
    let bar = with_track(Scrollbar::new(orientation), area);
    bar.render(area, buf, &mut state)
}

impl ScrollView {
    // Paints the bar at the right of an area, if it stands there.
    fn paint_vertical(
        &self,
        area: Rect,
        view: Rect,
        offset: Position,
        buf: &mut Buffer,
    ) -> Result<(), AllocError>
        requires { IsBoxArea area }
        ensures succeeds { IsOk result }
        ensures painted { let height = self.now.content.area.height in
            let state = bar_state height view.height offset.y in
            let paints = PaintsBar VerticalRight state (vertical_bar area view) in
            DoesIf (has_vertical self.now area) paints buf.old buf.new }
    {
        if !self.has_vertical(area) {
            return Ok(());
        }
        let bar = Rect {
            x: area.x + (area.width - 1),
            y: area.y,
            width: 1,
            height: view.height,
        };
        paint_bar(
            ScrollbarOrientation::VerticalRight,
            self.content.area().height,
            view.height,
            offset.y,
            bar,
            buf,
        )
    }

    // Paints the bar at the bottom of an area, if it stands there.
    fn paint_horizontal(
        &self,
        area: Rect,
        view: Rect,
        offset: Position,
        buf: &mut Buffer,
    ) -> Result<(), AllocError>
        requires { IsBoxArea area }
        ensures succeeds { IsOk result }
        ensures painted { let width = self.now.content.area.width in
            let state = bar_state width view.width offset.x in
            let paints = PaintsBar HorizontalBottom state (horizontal_bar area view) in
            DoesIf (has_horizontal self.now area) paints buf.old buf.new }
    {
        if !self.has_horizontal(area) {
            return Ok(());
        }
        let bar = Rect {
            x: area.x,
            y: area.y + (area.height - 1),
            width: view.width,
            height: 1,
        };
        paint_bar(
            ScrollbarOrientation::HorizontalBottom,
            self.content.area().width,
            view.width,
            offset.x,
            bar,
            buf,
        )
    }

    // Paints the bars that stand in an area, of which they leave a view.
    fn paint_bars(
        &self,
        area: Rect,
        view: Rect,
        offset: Position,
        buf: &mut Buffer,
    ) -> Result<(), AllocError>
        requires some { IsBoxArea area }
        requires view { view ≡ view_area self.now area }
        ensures succeeds { IsOk result }
        ensures painted { PaintsBars self.now offset area buf.old buf.new }
    {
        self.paint_vertical(area, view, offset, buf)?;
        self.paint_horizontal(area, view, offset, buf)
    }

    // Shows the content from an offset on in a view.
    fn show_content(&self, view: Rect, offset: Position, buf: &mut Buffer) -> Result<(), AllocError>
        requires across { let shown = shown_area self.now.content view in
            offset.x + shown.width ≤ self.now.content.area.width }
        requires down { let shown = shown_area self.now.content view in
            offset.y + shown.height ≤ self.now.content.area.height }
        ensures area { buf.new.area ≡ buf.old.area }
        ensures ok { let shown = shown_area self.now.content view in
            OnOk result (ShowsContent self.now.content offset shown buf.old buf.new) }
        ensures err { OnErr result
            (ChangesWithin (shown_area self.now.content view) buf.old buf.new) }
        ensures short { HasShortCells self.now.content offset view buf.old → IsOk result }
    {
        let area = self.shown_area(view);
        let window = Window {
            content: &self.content,
            offset,
            area,
        };
        change_area(buf, area, &window)
    }
}

/// Over the area, as far as the buffer has it: the bars that stand, with their thumbs where the
/// part lies that is seen, and in what they leave the content from the state's offset on. Where the
/// content is smaller, what is there stays, and so does the corner between two bars. The state's
/// offset is at most the one from which on the content's end is shown. A refused view leaves its
/// state as it was.
impl<'v> StatefulWidget for &'v ScrollView {
    type State = ScrollViewState;

    ghost use Rattle.std.specs.Prelude.{◌≡◌};
    ghost use Rattle.widget_scroll_view.specs.ScrollViews.{RendersScrollView, IsShortScrollView};

    ghost renders = { λ view. RendersScrollView view.now };

    ghost leaves = { λ _ old new _ _ _. new ≡ old };

    ghost is_short = { λ view. IsShortScrollView view.now };

    fn render(
        self,
        area: Rect,
        buf: &mut Buffer,
        state: &mut ScrollViewState,
    ) -> Result<(), AllocError> {
        let Some(part) = buf.part(area) else {
            return Ok(());
        };
        let view = self.view_area(part);
        let offset = self.shown_offset(view, state.offset);
        self.paint_bars(part, view, offset, buf)?;
        self.show_content(view, offset, buf)?;
        *state = self.state_after(view, offset);
        Ok(())
    }
}

impl StatefulWidget for ScrollView {
    type State = ScrollViewState;

    ghost use Rattle.std.specs.Prelude.{◌≡◌};
    ghost use Rattle.widget_scroll_view.specs.ScrollViews.{RendersScrollView, IsShortScrollView};

    ghost renders = { RendersScrollView };

    ghost leaves = { λ _ old new _ _ _. new ≡ old };

    ghost is_short = { IsShortScrollView };

    fn render(
        self,
        area: Rect,
        buf: &mut Buffer,
        state: &mut ScrollViewState,
    ) -> Result<(), AllocError> {
        (&self).render(area, buf, state)
    }
}
