//! A list of items.

ghost use Rattle.std.specs.Prelude.{◌≡◌, ◌==◌, ◌≤◌, ◌+◌, Some, OnOk, OnErr, IsOk, IfOk, length, true, map};
ghost use Rattle.std.specs.Prelude.{take, drop, IfSome};
ghost use Rattle.std.specs.Prelude.{List as Sequence};
ghost use Rattle.std.specs.Iterator.{IsFinite, Drains};
ghost use Rattle.ratatui_core.specs.Widgets.{ChangesWithin};
ghost use Rattle.widget_boxes.specs.Highlights.{IsHighlighted};
ghost use Rattle.widget_boxes.specs.Lines.{IsShortTitle};
ghost use Rattle.widget_boxes.specs.Titles.{DoesIf};
ghost use Rattle.rtui_drawing.specs.Drawings.{IsDone};
ghost use Rattle.widget_list.specs.Windows.{item_rows, Fit};
ghost use Rattle.widget_list.specs.Items.{is_marked, has_mark_columns, columns_kept_free, item_cut, symbol_or_blanks};
ghost use Rattle.widget_list.specs.Items.{marks_drawing, marks_over, item_drawing, ShowsItem, ShowsItems, ShowsList};
ghost use Rattle.widget_list.specs.Items.{IsNewList, HasShortItems, IsShortItem, raw_item, IsNextListState};
ghost use Rattle.widget_list.specs.Settled.{SettlesList, settled_list};
ghost use Rattle.widget_list.specs.declared.item.ListItem.{ListItem as ItemData};

use crate::item::ListItem;
use crate::state::ListState;
use crate::window::{count_from, offset_for};
use ratatui_core::buffer::{Buffer, Cell, CellChange};
use ratatui_core::layout::{Position, Rect};
use ratatui_core::style::Style;
use ratatui_core::text::Line;
use ratatui_core::widgets::StatefulWidget;
use rtui_drawing::{Cut, put_change, put_line, put_style, put_text};
use std::alloc::{AllocError, Global};
use widget_boxes::{Block, cloned_block, cloned_line, highlight, inner_if, render_frame};

/// From where the items stand one after the other.
#[derive(Debug, Default, Clone, Copy, PartialEq, Eq, Hash)]
pub enum ListDirection {
    /// From above.
    #[default]
    TopToBottom,
    /// From below.
    BottomToTop,
}

/// When the columns of the highlight symbol stay free beside the other items.
#[derive(Debug, Default, Clone, Copy, PartialEq, Eq, Hash)]
pub enum HighlightSpacing {
    /// Always.
    Always,
    /// If an item is selected.
    #[default]
    WhenSelected,
    /// Never; the symbol isn't shown either.
    Never,
}

impl HighlightSpacing {
    // Whether the columns stay free.
    fn has_columns(&self, is_selected: bool) -> bool
        ensures { result ≡ has_mark_columns self.now is_selected }
    {
        match self {
            HighlightSpacing::Always => true,
            HighlightSpacing::WhenSelected => is_selected,
            HighlightSpacing::Never => false,
        }
    }
}

/// Items one below the other, of which one may be selected: the one that a state says.
///
/// ```
/// let list = List::new(items)
///     .highlight_symbol(Line::raw(alloc, "> ")?)
///     .highlight_style(Style::new().bg(Color::Blue));
/// StatefulWidget::render(&list, area, buf, &mut state)?;
/// ```
#[derive(Debug, PartialEq, Eq, Drop)]
pub struct List<'a> {
    block: Option<Block<'a>>,
    items: Vec<ListItem<'a>>,
    pub(crate) style: Style,
    direction: ListDirection,
    highlight_style: Style,
    highlight_symbol: Option<Line<'a>>,
    repeat_highlight_symbol: bool,
    highlight_spacing: HighlightSpacing,
    scroll_padding: usize,
}

impl<'a> List<'a> {
    /// Makes a list of items, without box, styles and highlight symbol; takes no memory.
    pub fn new(items: Vec<ListItem<'a>>) -> List<'a>
        ensures { IsNewList items.entry.items result }
    {
        List {
            block: None,
            items,
            style: Style::new(),
            direction: ListDirection::TopToBottom,
            highlight_style: Style::new(),
            highlight_symbol: None,
            repeat_highlight_symbol: false,
            highlight_spacing: HighlightSpacing::WhenSelected,
            scroll_padding: 0,
        }
    }

    /// Makes a list of plain texts, an item each, as [`ListItem::raw`] makes it.
    ///
    /// ```
    /// let list = List::raw(alloc, &["one", "two"])?;
    /// ```
    ///
    /// # Errors
    ///
    /// `AllocError` if memory is refused.
    pub fn raw(alloc: Global, texts: &[&'a str]) -> Result<List<'a>, AllocError>
        ensures { let items = map (λ text. raw_item text.now) texts.now in
            IfOk result (IsNewList items) }
    {
        Ok(List::new(raw_items(alloc, texts)?))
    }

    /// Makes a list of the items that an iterator gives, an array among them.
    ///
    /// # Conditions
    ///
    /// The iterator comes to an end, and `next` may be called on it until then.
    ///
    /// # Errors
    ///
    /// `AllocError` if memory is refused.
    pub fn try_from_iter<I>(alloc: Global, items: I) -> Result<List<'a>, AllocError>
    where
        I: IntoIterator<Item = ListItem<'a>>,
        requires { (it : I.IntoIter) → I.into_iter_gives items it
            → I.IntoIter.can_next it × IsFinite (I.IntoIter.remaining it) }
        ensures { IfOk result (λ made. (it : I.IntoIter) × (given : Sequence ItemData)
            × I.into_iter_gives items it × Drains I.IntoIter.next_gives it given
            × IsNewList given made) }
    {
        Ok(List::new(Vec::from_iter(alloc, items)?))
    }

    /// Sets the items of the list.
    pub fn items(mut self, items: Vec<ListItem<'a>>) -> List<'a>
        ensures { result ≡ record self.entry { items = items.entry } }
    {
        self.items = items;
        self
    }

    /// Puts the list in a box.
    pub fn block(mut self, block: Block<'a>) -> List<'a>
        ensures { result ≡ record self.entry { block = Some block.entry } }
    {
        self.block = Some(block);
        self
    }

    /// Sets the style of the list.
    pub fn style(mut self, style: Style) -> List<'a>
        ensures { result ≡ record self.entry { style = style } }
    {
        self.style = style;
        self
    }

    /// Sets the direction of the list: from above or from below.
    pub fn direction(mut self, direction: ListDirection) -> List<'a>
        ensures { result ≡ record self.entry { direction = direction } }
    {
        self.direction = direction;
        self
    }

    /// Sets the style of the selected item. A wide character's second column isn't styled: it shows
    /// that character, in its own style.
    pub fn highlight_style(mut self, style: Style) -> List<'a>
        ensures { result ≡ record self.entry { highlight_style = style } }
    {
        self.highlight_style = style;
        self
    }

    /// Sets the symbol before the selected item, in the symbol's own styles over the item's and the
    /// highlight's.
    pub fn highlight_symbol(mut self, symbol: Line<'a>) -> List<'a>
        ensures { result ≡ record self.entry { highlight_symbol = Some symbol.entry } }
    {
        self.highlight_symbol = Some(symbol);
        self
    }

    /// Sets whether the symbol stands before each line of the selected item, or before the first
    /// one.
    pub fn repeat_highlight_symbol(mut self, repeat: bool) -> List<'a>
        ensures { result ≡ record self.entry { repeat_highlight_symbol = repeat } }
    {
        self.repeat_highlight_symbol = repeat;
        self
    }

    /// Sets when the columns of the symbol stay free.
    pub fn highlight_spacing(mut self, spacing: HighlightSpacing) -> List<'a>
        ensures { result ≡ record self.entry { highlight_spacing = spacing } }
    {
        self.highlight_spacing = spacing;
        self
    }

    /// Sets how many items before and after the selected one are in view, if they fit.
    pub fn scroll_padding(mut self, padding: usize) -> List<'a>
        ensures { result ≡ record self.entry { scroll_padding = padding } }
    {
        self.scroll_padding = padding;
        self
    }

    /// Makes an equal list.
    ///
    /// # Errors
    ///
    /// `AllocError` if memory is refused.
    pub fn clone(&self, alloc: Global) -> Result<List<'a>, AllocError>
        ensures { let same = ⟦<List<'a> as PartialEq>⟧.eq in
            IfOk result (λ list. same self.now list ≡ true) }
    {
        Ok(List {
            block: cloned_block(alloc, &self.block)?,
            items: cloned_items(alloc, self.items.as_slice())?,
            style: self.style,
            direction: self.direction,
            highlight_style: self.highlight_style,
            highlight_symbol: cloned_line(alloc, &self.highlight_symbol)?,
            repeat_highlight_symbol: self.repeat_highlight_symbol,
            highlight_spacing: self.highlight_spacing,
            scroll_padding: self.scroll_padding,
        })
    }

    /// Returns how many items there are.
    pub fn len(&self) -> usize
        ensures { result ≡ length self.now.items.items }
    {
        self.items.len()
    }

    /// Returns whether there are none.
    pub fn is_empty(&self) -> bool
        ensures { result ≡ (length self.now.items.items == 0) }
    {
        self.items.is_empty()
    }

    /// Brings a state up to date as a rendering over an area does, and draws nothing: the selection
    /// is at most the last item, and the first item such that the selected one is in view. The area
    /// is the part that a buffer has of what the list is rendered over; without cells inside the
    /// box the state stays. It takes no memory.
    ///
    /// ```
    /// list.settle(self.area, &mut self.list);
    /// ```
    pub fn settle(&self, area: Rect, state: &mut ListState)
        ensures leaves { SettlesList self.now area state.old state.new }
        ensures value { state.new ≡ settled_list self.now area state.old }
    {
        let inner = inner_if(&self.block, area);
        if !inner.is_empty() {
            *state = self.next_state(*state, inner.height);
        }
    }

    // The state after the list is shown in so many rows.
    fn next_state(&self, state: ListState, height: u16) -> ListState
        ensures next { IsNextListState self.now height state result }
        ensures inside { result.offset ≤ length self.now.items.items }
    {
        let items = self.items.as_slice();
        if items.is_empty() {
            return ListState {
                offset: 0,
                selected: None,
            };
        }
        let height = usize::from(height);
        let last = items.len() - 1;
        let selected = state.selected.map(|index| index.min(last));
        ListState {
            offset: offset_for(items, self.scroll_padding, selected, state.offset, height),
            selected,
        }
    }

    // Where an item stands that takes so many rows, after so many others.
    fn item_cut(&self, inner: Rect, used: u16, rows: u16) -> Cut
        ensures { result ≡ item_cut self.now.direction inner used rows }
    {
        match self.direction {
            ListDirection::TopToBottom => Cut::Rows(used, rows),
            ListDirection::BottomToTop => {
                let above = inner.height.saturating_sub(used).saturating_sub(rows);
                Cut::Rows(above, rows)
            }
        }
    }

    // How many columns stay free for the symbol.
    fn columns_kept_free(&self, is_selected: bool, area: Rect) -> u16
        ensures { result ≡ columns_kept_free self.now is_selected area }
    {
        let has_columns = self.highlight_spacing.has_columns(is_selected);
        match &self.highlight_symbol {
            Some(symbol) if has_columns => symbol.width().min(usize::from(area.width)) as u16,
            _ => 0,
        }
    }

    // Whether the symbol stands in a row of an item.
    fn is_marked(&self, is_selected: bool, j: u16) -> bool
        ensures { result ≡ is_marked self.now is_selected j }
    {
        is_selected && (j == 0 || self.repeat_highlight_symbol)
    }

    // Draws the symbol in its columns of a row of the selected item, or blanks.
    fn draw_mark(&self, is_marked: bool, row: Rect, buf: &mut Buffer) -> Result<(), AllocError>
        ensures { let d = symbol_or_blanks self.now.highlight_symbol is_marked in
            IsDone d row result buf.old buf.new }
    {
        if !is_marked {
            return put_change(&Blank, row, buf);
        }
        match &self.highlight_symbol {
            Some(symbol) => put_line(symbol, row, buf),
            None => Ok(()),
        }
    }

    // Draws the symbol or blanks in its columns of each row of an item.
    fn draw_marks(
        &self,
        is_selected: bool,
        columns: Rect,
        buf: &mut Buffer,
    ) -> Result<(), AllocError>
        ensures { let d = marks_drawing self.now is_selected 0 columns.height in
            IsDone d columns result buf.old buf.new }
    {
        for j in 0..columns.height {
            let is_marked = self.is_marked(is_selected, j);
            self.draw_mark(is_marked, Cut::Rows(j, 1).of(columns), buf)?;
        }
        Ok(())
    }

    // Draws an item's text, beside so many columns of the symbol.
    #[tactic(auto, using(rtui_drawing::proofs::DrawingLemmas::drawing_steps))]
    fn draw_text(
        &self,
        item: &ListItem<'a>,
        mark: u16,
        part: Rect,
        buf: &mut Buffer,
    ) -> Result<(), AllocError>
        ensures { let d = item_drawing self.now mark item.now in
            IsDone d part result buf.old buf.new }
    {
        put_style(self.style.patch(item.style), part, buf);
        put_text(&item.content, Cut::After(mark).of(part), buf)
    }

    // Highlights the selected item.
    fn highlight_if(&self, is_selected: bool, part: Rect, buf: &mut Buffer)
        ensures { let f = IsHighlighted part self.now.highlight_style in
            DoesIf is_selected f buf.old buf.new }
    {
        if is_selected {
            highlight(self.highlight_style, part, buf);
        }
    }

    // Draws the symbol or blanks over an item, if columns stay free for it.
    fn draw_marks_over(
        &self,
        is_selected: bool,
        mark: u16,
        part: Rect,
        buf: &mut Buffer,
    ) -> Result<(), AllocError>
        ensures { let d = marks_over self.now is_selected mark part.height in
            IsDone d part result buf.old buf.new }
    {
        if mark == 0 {
            return Ok(());
        }
        self.draw_marks(is_selected, Cut::First(mark).of(part), buf)
    }

    // Draws an item beside so many columns of the symbol.
    fn draw_item(
        &self,
        item: &ListItem<'a>,
        is_selected: bool,
        mark: u16,
        part: Rect,
        buf: &mut Buffer,
    ) -> Result<(), AllocError>
        requires { part.height ≡ item_rows item.now }
        ensures within { ChangesWithin part buf.old buf.new }
        ensures ok { let f = ShowsItem self.now is_selected mark item.now part in
            OnOk result (f buf.old buf.new) }
        ensures short { IfSome self.now.highlight_symbol IsShortTitle → IsShortItem item.now
            → IsOk result }
    {
        self.draw_text(item, mark, part, buf)?;
        self.highlight_if(is_selected, part, buf);
        self.draw_marks_over(is_selected, mark, part, buf)
    }

    // Draws so many items from one on, which fit.
    fn draw_items(
        &self,
        selected: Option<usize>,
        offset: usize,
        count: usize,
        inner: Rect,
        buf: &mut Buffer,
    ) -> Result<(), AllocError>
        requires items { offset + count ≤ length self.now.items.items }
        requires fits { Fit self.now.items.items inner.height offset (offset + count) }
        ensures within { ChangesWithin inner buf.old buf.new }
        ensures ok { let items = take count (drop offset self.now.items.items) in
            let f = ShowsItems self.now selected inner offset 0 items in
            OnOk result (f buf.old buf.new) }
        ensures short { HasShortItems self.now → IsOk result }
    {
        let mark = self.columns_kept_free(selected.is_some(), inner);
        let items = self.items.as_slice();
        let mut used = 0;
        for k in offset..offset + count {
            let item = &items[k];
            let rows = item.height() as u16;
            let part = self.item_cut(inner, used, rows).of(inner);
            self.draw_item(item, selected == Some(k), mark, part, buf)?;
            used += rows;
        }
        Ok(())
    }

    // Draws what is shown of the items, and brings the state up to date.
    fn draw_list(
        &self,
        inner: Rect,
        buf: &mut Buffer,
        state: &mut ListState,
    ) -> Result<(), AllocError>
        ensures within { ChangesWithin inner buf.old buf.new }
        ensures ok { OnOk result
            (ShowsList self.now state.old state.new inner buf.old buf.new) }
        ensures left { OnErr result (state.new ≡ state.old) }
        ensures short { HasShortItems self.now → IsOk result }
    {
        let next = self.next_state(*state, inner.height);
        let count = count_from(
            self.items.as_slice(),
            next.offset,
            usize::from(inner.height),
        );
        self.draw_items(next.selected, next.offset, count, inner, buf)?;
        *state = next;
        Ok(())
    }
}

// An item for each text.
fn raw_items<'a>(alloc: Global, texts: &[&'a str]) -> Result<Vec<ListItem<'a>>, AllocError>
    ensures { IfOk result (λ made. made.items ≡ map (λ text. raw_item text.now) texts.now) }
{
    let mut items = Vec::with_capacity(alloc, texts.len())?;
    for text in texts {
        items.push(ListItem::raw(alloc, text)?)?;
    }
    Ok(items)
}

// Equal items.
fn cloned_items<'a>(alloc: Global, items: &[ListItem<'a>]) -> Result<Vec<ListItem<'a>>, AllocError>
    ensures { IfOk result (λ cloned. cloned.items ≡ items.now) }
{
    let mut cloned = Vec::with_capacity(alloc, items.len())?;
    for item in items {
        cloned.push(item.clone(alloc)?)?;
    }
    Ok(cloned)
}

// A blank in the style that stands there.
#[derive(Drop)]
struct Blank;

impl CellChange for Blank {
    ghost use Rattle.std.specs.Prelude.{⊤};
    ghost use Rattle.widget_list.specs.Items.{left_blank};

    ghost made = { λ _ _. left_blank };

    ghost is_light = { λ _ _ _. ⊤ };

    fn change(&self, alloc: Global, position: Position, cell: &mut Cell) -> Result<(), AllocError> {
        let _ = position;
        cell.set_symbol(alloc, " ")
    }
}

/// Over the area, as far as the buffer has it: the style, the box, and inside the items from the
/// state's first one on, as many as fit whole. The state's selection is at most the last item, and
/// its first item such that the selected one is in view. A refused list leaves its state as it was.
impl<'b, 'a> StatefulWidget for &'b List<'a> {
    type State = ListState;

    ghost use Rattle.std.specs.Prelude.{◌≡◌};
    ghost use Rattle.widget_list.specs.Items.{RendersList, IsShortList};

    ghost renders = { λ list. RendersList list.now };

    ghost leaves = { λ _ old new _ _ _. new ≡ old };

    ghost is_short = { λ list _ _. IsShortList list.now };

    fn render(self, area: Rect, buf: &mut Buffer, state: &mut ListState) -> Result<(), AllocError> {
        let Some(inner) = render_frame(self.style, &self.block, area, buf)? else {
            return Ok(());
        };
        self.draw_list(inner, buf, state)
    }
}

impl<'a> StatefulWidget for List<'a> {
    type State = ListState;

    ghost use Rattle.std.specs.Prelude.{◌≡◌};
    ghost use Rattle.widget_list.specs.Items.{RendersList, IsShortList};

    ghost renders = { RendersList };

    ghost leaves = { λ _ old new _ _ _. new ≡ old };

    ghost is_short = { λ list _ _. IsShortList list };

    fn render(self, area: Rect, buf: &mut Buffer, state: &mut ListState) -> Result<(), AllocError> {
        StatefulWidget::render(&self, area, buf, state)
    }
}
