//! Bars in groups, with labels and values.

ghost use Rattle.std.specs.Prelude.{◌≡◌, Some, None, IfOk, [], ◌∷◌, true, map};
ghost use Rattle.widget_bars.specs.BarCharts.{raw_bar};
ghost use Rattle.widget_bars.specs.declared.group.BarGroup.{BarGroup as GroupData};
ghost use Rattle.std.specs.Cmp.Lexicographic.{pointwise};
ghost use Rattle.widget_bars.specs.BarCharts.{IsNewBarChart, IsLyingBarChart, with_group};
ghost use Rattle.widget_bars.specs.Inner.{measures_of};
ghost use Rattle.widget_bars.specs.BarCharts.{greatest_bar, greatest_of_chart, bar_label_width};
ghost use Rattle.widget_bars.specs.BarCharts.{widest_bar_label, widest_label, label_columns};

use crate::chart_part::columns_of;
use crate::group::{Bar, BarGroup, raw_bars};
use ratatui_core::buffer::Buffer;
use ratatui_core::layout::{Direction, Rect};
use ratatui_core::style::Style;
use ratatui_core::symbols::bar;
use ratatui_core::text::Line;
use ratatui_core::widgets::Widget;
use rtui_inside::{DrawInside, render_inside};
use std::alloc::{AllocError, Global};
use widget_boxes::{Block, cloned_block};

// What a chart finds out before it renders: the value that fills it, and the columns of the labels
// at its left.
#[derive(Debug, Clone, Copy)]
pub(crate) struct Measures {
    pub(crate) greatest: u64,
    pub(crate) labels: u16,
}

/// Bars in groups, each as long as its share of the greatest value: side by side from below, with
/// labels under them and values on them, or one under the other from the left, with labels at the
/// left and values over them.
///
/// ```
/// let mut bars = Vec::new(alloc);
/// bars.push(Bar::with_label(Line::raw(alloc, "a")?, 3))?;
/// bars.push(Bar::with_label(Line::raw(alloc, "b")?, 8))?;
/// BarChart::new(alloc, bars)?.bar_width(3).render(area, buf)?;
/// ```
#[derive(Debug, PartialEq, Eq, Drop)]
pub struct BarChart<'a> {
    block: Option<Block<'a>>,
    pub(crate) bar_width: u16,
    pub(crate) bar_gap: u16,
    pub(crate) group_gap: u16,
    pub(crate) bar_set: bar::Set<'a>,
    pub(crate) bar_style: Style,
    pub(crate) value_style: Style,
    pub(crate) label_style: Style,
    pub(crate) style: Style,
    pub(crate) groups: Vec<BarGroup<'a>>,
    max: Option<u64>,
    pub(crate) direction: Direction,
}

impl<'a> BarChart<'a> {
    /// Makes a chart of these groups: bars of one column, a column apart, without box and styles.
    /// Takes no memory.
    pub fn grouped(groups: Vec<BarGroup<'a>>) -> BarChart<'a>
        ensures { IsNewBarChart groups.entry.items result }
    {
        BarChart {
            block: None,
            bar_width: 1,
            bar_gap: 1,
            group_gap: 0,
            bar_set: bar::NINE_LEVELS,
            bar_style: Style::new(),
            value_style: Style::new(),
            label_style: Style::new(),
            style: Style::new(),
            groups,
            max: None,
            direction: Direction::Vertical,
        }
    }

    /// Makes a chart without groups, to which [`BarChart::data`] adds them; takes no memory.
    pub fn default_in(alloc: Global) -> BarChart<'a>
        ensures { IsNewBarChart [] result }
    {
        BarChart::grouped(Vec::new(alloc))
    }

    /// Makes a chart of one group of these bars: bars of one column, a column apart, without box
    /// and styles. It takes memory for the group.
    ///
    /// # Errors
    ///
    /// `AllocError` if memory is refused.
    pub fn new(alloc: Global, bars: Vec<Bar<'a>>) -> Result<BarChart<'a>, AllocError>
        ensures { IfOk result (λ c. IsNewBarChart (record { label = None; bars = bars.entry } ∷ []) c) }
    {
        let mut groups = Vec::new(alloc);
        groups.push(BarGroup::new(bars))?;
        Ok(BarChart::grouped(groups))
    }

    /// Makes a chart of one group of bars with plain labels, each as `Line::raw` makes it, and
    /// values.
    ///
    /// ```
    /// BarChart::raw(alloc, &[("a", 3), ("b", 8)])?.bar_width(3).render(area, buf)?;
    /// ```
    ///
    /// # Errors
    ///
    /// `AllocError` if memory is refused.
    pub fn raw(alloc: Global, bars: &[(&'a str, u64)]) -> Result<BarChart<'a>, AllocError>
        ensures { IfOk result (λ c. (group : GroupData) × IsNewBarChart (group ∷ []) c
            × (group.label ≡ None) × (group.bars.items ≡ map raw_bar bars.now)) }
    {
        BarChart::new(alloc, raw_bars(alloc, bars)?)
    }

    /// Makes a chart of one group of bars from below, as [`BarChart::new`] does.
    ///
    /// # Errors
    ///
    /// `AllocError` if memory is refused.
    pub fn vertical(alloc: Global, bars: Vec<Bar<'a>>) -> Result<BarChart<'a>, AllocError>
        ensures { IfOk result (λ c. IsNewBarChart (record { label = None; bars = bars.entry } ∷ []) c) }
    {
        BarChart::new(alloc, bars)
    }

    /// Makes a chart of one group of horizontal bars: bars of one row, a row apart. It takes memory
    /// for the group.
    ///
    /// # Errors
    ///
    /// `AllocError` if memory is refused.
    pub fn horizontal(alloc: Global, bars: Vec<Bar<'a>>) -> Result<BarChart<'a>, AllocError>
        ensures { IfOk result (λ c. IsLyingBarChart (record { label = None; bars = bars.entry } ∷ []) c) }
    {
        Ok(BarChart::new(alloc, bars)?.direction(Direction::Horizontal))
    }

    /// Adds one group after the others; one without bars isn't added. It may take memory for the
    /// group.
    ///
    /// # Errors
    ///
    /// `AllocError` if memory is refused.
    pub fn data(mut self, group: BarGroup<'a>) -> Result<BarChart<'a>, AllocError>
        ensures groups { let groups = with_group self.entry.groups.items group.entry in
            IfOk result (λ chart. chart.groups.items ≡ groups) }
        ensures others { IfOk result
            (λ chart. chart ≡ record self.entry { groups = chart.groups }) }
    {
        if !group.bars.is_empty() {
            self.groups.push(group)?;
        }
        Ok(self)
    }

    /// Puts the chart in a box.
    pub fn block(mut self, block: Block<'a>) -> BarChart<'a>
        ensures { result ≡ record self.entry { block = Some block.entry } }
    {
        self.block = Some(block);
        self
    }

    /// Sets the value whose bar is as long as there is room; without one it is the greatest value.
    pub fn max(mut self, max: u64) -> BarChart<'a>
        ensures { result ≡ record self.entry { max = Some max } }
    {
        self.max = Some(max);
        self
    }

    /// Sets the style of the bars.
    pub fn bar_style(mut self, style: Style) -> BarChart<'a>
        ensures { result ≡ record self.entry { bar_style = style } }
    {
        self.bar_style = style;
        self
    }

    /// Sets the direction of the bars: from below, side by side, or from the left, one under the
    /// other. From the left, a label and a value stand in the middle row of their bar, of an even
    /// number in the lower one of the two: the label as it is styled and aligned itself, in as many
    /// columns as the widest one has, with a blank column after it. A group's label stands in the
    /// row after its bars, if groups are apart.
    pub fn direction(mut self, direction: Direction) -> BarChart<'a>
        ensures { result ≡ record self.entry { direction = direction } }
    {
        self.direction = direction;
        self
    }

    /// Sets how many columns each bar takes; rows, if bars are horizontal.
    pub fn bar_width(mut self, width: u16) -> BarChart<'a>
        ensures { result ≡ record self.entry { bar_width = width } }
    {
        self.bar_width = width;
        self
    }

    /// Sets how many columns are between each two bars; rows, if they are horizontal.
    pub fn bar_gap(mut self, gap: u16) -> BarChart<'a>
        ensures { result ≡ record self.entry { bar_gap = gap } }
    {
        self.bar_gap = gap;
        self
    }

    /// Sets how many columns more are between each two groups; rows, if bars are horizontal.
    pub fn group_gap(mut self, gap: u16) -> BarChart<'a>
        ensures { result ≡ record self.entry { group_gap = gap } }
    {
        self.group_gap = gap;
        self
    }

    /// Sets the symbols for cells that are filled in part.
    pub fn bar_set(mut self, bar_set: bar::Set<'a>) -> BarChart<'a>
        ensures { result ≡ record self.entry { bar_set = bar_set.entry } }
    {
        self.bar_set = bar_set;
        self
    }

    /// Sets the style of the values.
    pub fn value_style(mut self, style: Style) -> BarChart<'a>
        ensures { result ≡ record self.entry { value_style = style } }
    {
        self.value_style = style;
        self
    }

    /// Sets the style of the labels; those at the left of horizontal bars keep their own.
    pub fn label_style(mut self, style: Style) -> BarChart<'a>
        ensures { result ≡ record self.entry { label_style = style } }
    {
        self.label_style = style;
        self
    }

    /// Sets the style of the chart.
    pub fn style(mut self, style: Style) -> BarChart<'a>
        ensures { result ≡ record self.entry { style = style } }
    {
        self.style = style;
        self
    }

    /// Makes an equal chart.
    ///
    /// # Errors
    ///
    /// `AllocError` if memory is refused.
    pub fn clone(&self, alloc: Global) -> Result<BarChart<'a>, AllocError>
        ensures { let same = ⟦<BarChart<'a> as PartialEq>⟧.eq in
            IfOk result (λ chart. same self.now chart ≡ true) }
    {
        Ok(BarChart {
            block: cloned_block(alloc, &self.block)?,
            bar_width: self.bar_width,
            bar_gap: self.bar_gap,
            group_gap: self.group_gap,
            bar_set: self.bar_set,
            bar_style: self.bar_style,
            value_style: self.value_style,
            label_style: self.label_style,
            style: self.style,
            groups: cloned_groups(alloc, self.groups.as_slice())?,
            max: self.max,
            direction: self.direction,
        })
    }

    // What it finds out before it renders.
    pub(crate) fn measures(&self) -> Measures
        ensures { result ≡ measures_of self.now }
    {
        Measures {
            greatest: self.greatest(),
            labels: self.label_columns(),
        }
    }

    // The value that is as high as the bars' rows, at least 1.
    fn greatest(&self) -> u64
        ensures { result ≡ greatest_of_chart self.now }
    {
        if let Some(max) = self.max {
            return max.max(1);
        }
        let mut greatest = 0;
        for group in self.groups.as_slice() {
            greatest = greatest_bar(group.bars.as_slice()).max(greatest);
        }
        greatest.max(1)
    }

    // The greatest number of columns of a bar's label.
    fn widest_label(&self) -> u16
        ensures { result ≡ widest_label self.now.groups.items }
    {
        let mut widest = 0;
        for group in self.groups.as_slice() {
            widest = widest_bar_label(group.bars.as_slice()).max(widest);
        }
        widest
    }

    // The columns of the labels at the left.
    fn label_columns(&self) -> u16
        ensures { result ≡ label_columns self.now }
    {
        match self.direction {
            Direction::Vertical => 0,
            Direction::Horizontal => self.widest_label(),
        }
    }
}

// The greatest number of columns of a label of some bars.
fn widest_bar_label(bars: &[Bar<'_>]) -> u16
    ensures { result ≡ widest_bar_label bars.now }
{
    let mut widest = 0;
    for bar in bars {
        widest = bar_label_width(&bar.label).max(widest);
    }
    widest
}

// How many columns a label takes, at most 65535.
fn bar_label_width(label: &Option<Line<'_>>) -> u16
    ensures { result ≡ bar_label_width label.now }
{
    match label {
        Some(line) => columns_of(line),
        None => 0,
    }
}

// The greatest value of some bars.
fn greatest_bar(bars: &[Bar<'_>]) -> u64
    ensures { result ≡ greatest_bar bars.now }
{
    let mut greatest = 0;
    for bar in bars {
        greatest = bar.value.max(greatest);
    }
    greatest
}

// Equal groups.
fn cloned_groups<'a>(
    alloc: Global,
    groups: &[BarGroup<'a>],
) -> Result<Vec<BarGroup<'a>>, AllocError>
    ensures { let same = ⟦<BarGroup<'a> as PartialEq>⟧.eq in
        IfOk result (λ cloned. pointwise same groups.now cloned.items ≡ true) }
{
    let mut cloned = Vec::with_capacity(alloc, groups.len())?;
    for group in groups {
        cloned.push(group.clone(alloc)?)?;
    }
    Ok(cloned)
}

// The groups inside the box, if bars have columns.
impl<'a> DrawInside for BarChart<'a> {
    ghost use Rattle.widget_bars.specs.BarCharts.{chart_drawing};

    ghost drawing = { chart_drawing };

    #[tactic(auto, using(crate::proofs::ChartLemmas::bar_steps))]
    fn draw_inside(&self, inner: Rect, buf: &mut Buffer) -> Result<(), AllocError> {
        if self.bar_width == 0 {
            return Ok(());
        }
        self.draw_groups(self.measures(), inner, buf)
    }
}

/// Over the area, as far as the buffer has it: the style, the box, and inside the groups from the
/// left, as many bars as fit.
impl<'b, 'a> Widget for &'b BarChart<'a> {
    ghost use Rattle.widget_bars.specs.BarCharts.{RendersBarChart, LeavesBarChart, IsShortBarChart};

    ghost renders = { λ chart. RendersBarChart chart.now };

    ghost leaves = { λ chart. LeavesBarChart chart.now };

    ghost is_short = { λ chart. IsShortBarChart chart.now };

    fn render(self, area: Rect, buf: &mut Buffer) -> Result<(), AllocError> {
        render_inside(self, self.style, &self.block, area, buf)
    }
}

impl<'a> Widget for BarChart<'a> {
    ghost use Rattle.widget_bars.specs.BarCharts.{RendersBarChart, LeavesBarChart, IsShortBarChart};

    ghost renders = { RendersBarChart };

    ghost leaves = { LeavesBarChart };

    ghost is_short = { IsShortBarChart };

    fn render(self, area: Rect, buf: &mut Buffer) -> Result<(), AllocError> {
        (&self).render(area, buf)
    }
}
