//! Titles in a row.

ghost use Rattle.std.specs.Prelude.{◌≡◌, ◌==◌, length, Some, IfOk, true, map, List};
ghost use Rattle.std.specs.Iterator.{IsFinite, Drains};
ghost use Rattle.ratatui_core.specs.Text.{LineData, raw_line};
ghost use Rattle.rtui_drawing.specs.Drawings.{DrawsAll, IsRowIn, draw_if, put_style};
ghost use Rattle.widget_tabs.specs.Tabs.{IsNewTabs, selected_of, is_tab_selected, no_part, span_part};
ghost use Rattle.widget_tabs.specs.Tabs.{line_part, padding_part, divider_part, tab_part};
ghost use Rattle.widget_tabs.specs.Inner.{DrawsPart};

use ratatui_core::buffer::Buffer;
use ratatui_core::layout::Rect;
use ratatui_core::style::{Modifier, Style};
use ratatui_core::symbols::line;
use ratatui_core::text::{Line, Lines, Span};
use ratatui_core::widgets::Widget;
use rtui_drawing::{Cut, put_style, write_line, write_span};
use rtui_inside::{DrawInside, render_inside};
use std::alloc::{AllocError, Global};
use widget_boxes::{Block, cloned_block, cloned_line};

/// Titles one after the other in a row, with a divider between each two, of which one may be
/// selected.
///
/// ```
/// let mut titles = Vec::new(alloc);
/// titles.push(Line::raw(alloc, "Files")?)?;
/// titles.push(Line::raw(alloc, "Log")?)?;
/// Tabs::new(titles).select(Some(1)).render(area, buf)?; // " Files │ Log ", "Log" reversed
/// ```
#[derive(Debug, PartialEq, Eq, Drop)]
pub struct Tabs<'a> {
    block: Option<Block<'a>>,
    titles: Vec<Line<'a>>,
    selected: Option<usize>,
    pub(crate) style: Style,
    highlight_style: Style,
    divider: Span<'a>,
    padding_left: Option<Line<'a>>,
    padding_right: Option<Line<'a>>,
}

impl<'a> Tabs<'a> {
    /// Makes tabs with these titles, of which the first is selected: it is reversed. Before and
    /// after each title stands a blank, and between each two a line. Takes no memory.
    pub fn new(titles: Vec<Line<'a>>) -> Tabs<'a>
        ensures { IsNewTabs titles.entry.items result }
    {
        Tabs {
            block: None,
            selected: selected_of(titles.len(), None),
            titles,
            style: Style::new(),
            highlight_style: Style::new().add_modifier(Modifier::REVERSED),
            divider: Span::raw(line::VERTICAL),
            padding_left: None,
            padding_right: None,
        }
    }

    /// Makes tabs with these plain texts as their titles, each as `Line::raw` makes it, of which
    /// the first is selected.
    ///
    /// ```
    /// Tabs::raw(alloc, &["Files", "Log"])?.select(Some(1)).render(area, buf)?;
    /// ```
    ///
    /// # Errors
    ///
    /// `AllocError` if memory is refused.
    pub fn raw(alloc: Global, titles: &[&'a str]) -> Result<Tabs<'a>, AllocError>
        ensures { let lines = map (λ title. raw_line title.now) titles.now in
            IfOk result (IsNewTabs lines) }
    {
        Ok(Tabs::new(raw_lines(alloc, titles)?))
    }

    /// Makes tabs with the titles that an iterator gives, of which the first is selected.
    ///
    /// # Conditions
    ///
    /// The iterator comes to an end, and `next` may be called on it until then.
    ///
    /// # Errors
    ///
    /// `AllocError` if memory is refused.
    pub fn try_from_iter<I>(alloc: Global, titles: I) -> Result<Tabs<'a>, AllocError>
    where
        I: IntoIterator<Item = Line<'a>>,
        requires { (it : I.IntoIter) → I.into_iter_gives titles it
            → I.IntoIter.can_next it × IsFinite (I.IntoIter.remaining it) }
        ensures { IfOk result (λ made. (it : I.IntoIter) × (items : List LineData)
            × I.into_iter_gives titles it × Drains I.IntoIter.next_gives it items
            × IsNewTabs items made) }
    {
        Ok(Tabs::new(Vec::from_iter(alloc, titles)?))
    }

    /// Sets the titles. The selected number stays, as far as there are titles; if none was selected
    /// the first one is.
    pub fn titles(mut self, titles: Vec<Line<'a>>) -> Tabs<'a>
        ensures { let selected = selected_of (length titles.entry.items) self.entry.selected in
            result ≡ record self.entry { titles = titles.entry; selected = selected } }
    {
        self.selected = selected_of(titles.len(), self.selected);
        self.titles = titles;
        self
    }

    /// Puts the tabs in a box.
    pub fn block(mut self, block: Block<'a>) -> Tabs<'a>
        ensures { result ≡ record self.entry { block = Some block.entry } }
    {
        self.block = Some(block);
        self
    }

    /// Selects the title of this number, from 0 on, or none.
    pub fn select(mut self, selected: Option<usize>) -> Tabs<'a>
        ensures { result ≡ record self.entry { selected = selected } }
    {
        self.selected = selected;
        self
    }

    /// Sets the style of the tabs.
    pub fn style(mut self, style: Style) -> Tabs<'a>
        ensures { result ≡ record self.entry { style = style } }
    {
        self.style = style;
        self
    }

    /// Sets the style of the selected title.
    pub fn highlight_style(mut self, style: Style) -> Tabs<'a>
        ensures { result ≡ record self.entry { highlight_style = style } }
    {
        self.highlight_style = style;
        self
    }

    /// Sets the text between each two titles.
    pub fn divider(mut self, divider: Span<'a>) -> Tabs<'a>
        ensures { result ≡ record self.entry { divider = divider.entry } }
    {
        self.divider = divider;
        self
    }

    /// Sets the lines before and after each title.
    pub fn padding(self, left: Line<'a>, right: Line<'a>) -> Tabs<'a>
        ensures { result ≡ record self.entry
            { padding_left = Some left.entry; padding_right = Some right.entry } }
    {
        self.padding_left(left).padding_right(right)
    }

    /// Sets the line before each title.
    pub fn padding_left(mut self, padding: Line<'a>) -> Tabs<'a>
        ensures { result ≡ record self.entry { padding_left = Some padding.entry } }
    {
        self.padding_left = Some(padding);
        self
    }

    /// Sets the line after each title.
    pub fn padding_right(mut self, padding: Line<'a>) -> Tabs<'a>
        ensures { result ≡ record self.entry { padding_right = Some padding.entry } }
    {
        self.padding_right = Some(padding);
        self
    }

    /// Makes equal tabs.
    ///
    /// # Errors
    ///
    /// `AllocError` if memory is refused.
    pub fn clone(&self, alloc: Global) -> Result<Tabs<'a>, AllocError>
        ensures { let same = ⟦<Tabs<'a> as PartialEq>⟧.eq in
            IfOk result (λ tabs. same self.now tabs ≡ true) }
    {
        Ok(Tabs {
            block: cloned_block(alloc, &self.block)?,
            titles: Lines::from_slice(alloc, self.titles.as_slice())?.into_vec(),
            selected: self.selected,
            style: self.style,
            highlight_style: self.highlight_style,
            divider: self.divider.clone(alloc)?,
            padding_left: cloned_line(alloc, &self.padding_left)?,
            padding_right: cloned_line(alloc, &self.padding_right)?,
        })
    }

    // Whether the title of this number is selected.
    fn is_selected(&self, k: usize) -> bool
        ensures { result ≡ is_tab_selected self.now.selected k }
    {
        match self.selected {
            Some(selected) => selected == k,
            None => false,
        }
    }

    // Lays the highlight over the selected title.
    fn highlight_if(&self, is_selected: bool, area: Rect, buf: &mut Buffer)
        ensures { let style = self.now.highlight_style in
            DrawsAll (draw_if is_selected (put_style style)) area buf.old buf.new }
    {
        if is_selected {
            put_style(self.highlight_style, area, buf);
        }
    }

    // Puts a text at the left of a row.
    fn put_span(&self, span: &Span<'_>, row: Rect, buf: &mut Buffer) -> Result<Rect, AllocError>
        requires { IsRowIn buf.old.area row }
        ensures { DrawsPart self.now.highlight_style (span_part span.now) row result buf.old buf.new }
    {
        let columns = write_span(span, row, buf)?;
        Ok(Cut::After(columns).of(row))
    }

    // Puts a line at the left of a row, and the highlight over it if it is selected.
    fn put_line(
        &self,
        line: &Line<'a>,
        is_selected: bool,
        row: Rect,
        buf: &mut Buffer,
    ) -> Result<Rect, AllocError>
        requires { IsRowIn buf.old.area row }
        ensures { let part = line_part line.now is_selected in
            DrawsPart self.now.highlight_style part row result buf.old buf.new }
    {
        let columns = write_line(line, row, buf)?;
        self.highlight_if(is_selected, Cut::First(columns).of(row), buf);
        Ok(Cut::After(columns).of(row))
    }

    // Puts a divider at the left of a row, if it isn't before the first title.
    fn put_divider(&self, k: usize, row: Rect, buf: &mut Buffer) -> Result<Rect, AllocError>
        requires { IsRowIn buf.old.area row }
        ensures { let part = divider_part self.now k in
            DrawsPart self.now.highlight_style part row result buf.old buf.new }
    {
        if k == 0 {
            return Ok(row);
        }
        self.put_span(&self.divider, row, buf)
    }

    // Puts a padding at the left of a row.
    fn put_padding(
        &self,
        padding: &Option<Line<'a>>,
        row: Rect,
        buf: &mut Buffer,
    ) -> Result<Rect, AllocError>
        requires { IsRowIn buf.old.area row }
        ensures { let part = padding_part padding.now in
            DrawsPart self.now.highlight_style part row result buf.old buf.new }
    {
        match padding {
            Some(line) => self.put_line(line, false, row, buf),
            None => self.put_span(&Span::raw(" "), row, buf),
        }
    }

    // Puts a title between its paddings at the left of a row, after a divider if it isn't the first.
    #[tactic(auto, using(crate::proofs::TabLemmas::tab_steps))]
    fn put_tab(
        &self,
        k: usize,
        title: &Line<'a>,
        row: Rect,
        buf: &mut Buffer,
    ) -> Result<Rect, AllocError>
        requires { IsRowIn buf.old.area row }
        ensures { let part = tab_part self.now k title.now in
            DrawsPart self.now.highlight_style part row result buf.old buf.new }
    {
        let row = self.put_divider(k, row, buf)?;
        let row = self.put_padding(&self.padding_left, row, buf)?;
        let row = self.put_line(title, self.is_selected(k), row, buf)?;
        self.put_padding(&self.padding_right, row, buf)
    }
}

// The titles in the first row inside the box, as far as it has columns.
impl<'a> DrawInside for Tabs<'a> {
    ghost use Rattle.widget_tabs.specs.Tabs.{tabs_drawing};

    ghost drawing = { tabs_drawing };

    fn draw_inside(&self, inner: Rect, buf: &mut Buffer) -> Result<(), AllocError> {
        let titles = self.titles.as_slice();
        let mut row = Cut::Rows(0, 1).of(inner);
        for k in 0..titles.len() {
            if row.width == 0 {
                return Ok(());
            }
            row = self.put_tab(k, &titles[k], row, buf)?;
        }
        Ok(())
    }
}

// Which of so many titles is selected, if this one was.
fn selected_of(count: usize, was: Option<usize>) -> Option<usize>
    ensures { result ≡ selected_of count was }
{
    if count == 0 {
        return None;
    }
    Some(was.unwrap_or(0).min(count - 1))
}

/// Over the area, as far as the buffer has it: the style, the box, and in the first row inside the
/// titles, as far as it has columns.
impl<'b, 'a> Widget for &'b Tabs<'a> {
    ghost use Rattle.widget_tabs.specs.Tabs.{RendersTabs, LeavesTabs, IsShortTabs};

    ghost renders = { λ tabs. RendersTabs tabs.now };

    ghost leaves = { λ tabs. LeavesTabs tabs.now };

    ghost is_short = { λ tabs. IsShortTabs tabs.now };

    fn render(self, area: Rect, buf: &mut Buffer) -> Result<(), AllocError> {
        render_inside(self, self.style, &self.block, area, buf)
    }
}

impl<'a> Widget for Tabs<'a> {
    ghost use Rattle.widget_tabs.specs.Tabs.{RendersTabs, LeavesTabs, IsShortTabs};

    ghost renders = { RendersTabs };

    ghost leaves = { LeavesTabs };

    ghost is_short = { IsShortTabs };

    fn render(self, area: Rect, buf: &mut Buffer) -> Result<(), AllocError> {
        (&self).render(area, buf)
    }
}

// A line for each text.
fn raw_lines<'a>(alloc: Global, texts: &[&'a str]) -> Result<Vec<Line<'a>>, AllocError>
    ensures { IfOk result (λ made. made.items ≡ map (λ text. raw_line text.now) texts.now) }
{
    let mut lines = Vec::with_capacity(alloc, texts.len())?;
    for text in texts {
        lines.push(Line::raw(alloc, text)?)?;
    }
    Ok(lines)
}
