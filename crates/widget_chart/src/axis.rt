//! Axes.

ghost use Rattle.std.specs.Prelude.{◌≡◌, ◌<◌, Some, IfOk, slice_index_or, pos, length, option_map};
ghost use Rattle.widget_boxes.specs.Titles.{aligned};
ghost use Rattle.widget_chart.specs.Charts.{IsNewAxis, axis_labels, other_side, side_of_label};
ghost use Rattle.widget_chart.specs.Charts.{aligned_from, with_aligned};

use ratatui_core::layout::HorizontalAlignment;
use ratatui_core::style::Style;
use ratatui_core::text::{Line, Lines};
use std::alloc::{AllocError, Global};
use widget_boxes::cloned_line;

/// An axis of a chart: the coordinates at its ends, and what stands beside it. It is shown if it
/// has labels.
///
/// ```
/// let labels = vec![in alloc; Line::raw(alloc, "0")?, Line::raw(alloc, "100")?]?;
/// let axis = Axis::new().bounds([0, 100]).labels(labels);
/// ```
#[derive(Debug, PartialEq, Eq, Drop)]
pub struct Axis<'a> {
    pub(crate) title: Option<Line<'a>>,
    pub(crate) low: i64,
    pub(crate) high: i64,
    labels: Option<Lines<'a>>,
    pub(crate) labels_alignment: HorizontalAlignment,
    pub(crate) style: Style,
}

impl<'a> Axis<'a> {
    /// Makes an axis without a title and labels. Its bounds are 0 at both ends, so that no points
    /// lie between them. Takes no memory.
    pub fn new() -> Axis<'a>
        ensures { IsNewAxis result }
    {
        Axis {
            title: None,
            low: 0,
            high: 0,
            labels: None,
            labels_alignment: HorizontalAlignment::Left,
            style: Style::new(),
        }
    }

    /// Sets the title of the axis, which stands over the dots: that of the axis below at its right
    /// end, that of the axis at the left in the first row. It is shown if there are more columns
    /// and at least three rows of them.
    pub fn title(self, title: Line<'a>) -> Axis<'a>
        ensures { result ≡ record self.entry { title = Some title.entry } }
    {
        Axis {
            title: Some(title),
            ..self
        }
    }

    /// Sets the coordinates at the ends of the axis: from the left to the right, or from below up.
    /// No points are shown unless the first one is less.
    pub fn bounds(self, bounds: [i64; 2]) -> Axis<'a>
        ensures { let low = slice_index_or bounds 0 (pos 0) in
            let high = slice_index_or bounds 1 (pos 0) in
            result ≡ record self.entry { low = low; high = high } }
    {
        Axis {
            low: bounds[0],
            high: bounds[1],
            ..self
        }
    }

    /// Sets the labels of the axis: from the left to the right, or from below up.
    pub fn labels(self, labels: Vec<Line<'a>>) -> Axis<'a>
        ensures { result ≡ record self.entry { labels = Some labels.entry.items } }
    {
        Axis {
            labels: Some(Lines::from(labels)),
            ..self
        }
    }

    /// Sets how the labels are aligned. Of the axis below only the first label goes by it: it ends
    /// left of the dots, is centred at their first column, or begins at the axis at the left.
    pub fn labels_alignment(self, alignment: HorizontalAlignment) -> Axis<'a>
        ensures { result ≡ record self.entry { labels_alignment = alignment } }
    {
        Axis {
            labels_alignment: alignment,
            ..self
        }
    }

    /// Sets the style of the line of the axis.
    pub fn style(self, style: Style) -> Axis<'a>
        ensures { result ≡ record self.entry { style = style } }
    {
        Axis { style, ..self }
    }

    /// Makes an equal axis.
    ///
    /// # Errors
    ///
    /// `AllocError` if memory is refused.
    pub fn clone(&self, alloc: Global) -> Result<Axis<'a>, AllocError>
        ensures { IfOk result (λ axis. axis ≡ self.now) }
    {
        let labels = match &self.labels {
            Some(labels) => Some(labels.clone(alloc)?),
            None => None,
        };
        Ok(Axis {
            title: cloned_line(alloc, &self.title)?,
            low: self.low,
            high: self.high,
            labels,
            labels_alignment: self.labels_alignment,
            style: self.style,
        })
    }

    // The axis with labels that are aligned as they stand, below or at the left.
    pub(crate) fn aligned(self, is_below: bool) -> Axis<'a>
        ensures { result ≡ with_aligned is_below self.entry }
    {
        let Axis {
            title,
            low,
            high,
            labels,
            labels_alignment,
            style,
        } = self;
        Axis {
            title,
            low,
            high,
            labels: aligned_labels(is_below, labels_alignment, labels),
            labels_alignment,
            style,
        }
    }

    // Its labels.
    pub(crate) fn lines(&self) -> &[Line<'a>]
        ensures { result.now ≡ axis_labels self.now }
    {
        match &self.labels {
            Some(labels) => labels.as_slice(),
            None => &[],
        }
    }
}

// How the first label below is aligned, whose axis aligns it so.
fn other_side(alignment: HorizontalAlignment) -> HorizontalAlignment
    ensures { result ≡ other_side alignment }
{
    match alignment {
        HorizontalAlignment::Left => HorizontalAlignment::Right,
        HorizontalAlignment::Center => HorizontalAlignment::Center,
        HorizontalAlignment::Right => HorizontalAlignment::Left,
    }
}

// How label i of n is aligned, below or at the left.
fn side_of_label(
    is_below: bool,
    alignment: HorizontalAlignment,
    n: usize,
    i: usize,
) -> HorizontalAlignment
    requires { i < n }
    ensures { result ≡ side_of_label is_below alignment n i }
{
    if !is_below {
        alignment
    } else if i == 0 {
        other_side(alignment)
    } else if i + 1 == n {
        HorizontalAlignment::Right
    } else {
        HorizontalAlignment::Center
    }
}

// Aligns a label.
fn align(label: &mut Line<'_>, alignment: HorizontalAlignment)
    ensures { label.new ≡ aligned alignment label.old }
{
    label.alignment = Some(alignment);
}

// Aligns labels, below or at the left.
fn align_all(is_below: bool, alignment: HorizontalAlignment, labels: &mut [Line<'_>])
    ensures { let n = length labels.old in
        labels.new ≡ aligned_from is_below alignment n 0 labels.old }
{
    let n = labels.len();
    for i in 0..n {
        align(&mut labels[i], side_of_label(is_below, alignment, n, i));
    }
}

// Labels that are aligned as they stand, below or at the left.
fn aligned_labels(
    is_below: bool,
    alignment: HorizontalAlignment,
    labels: Option<Lines<'_>>,
) -> Option<Lines<'_>>
    ensures { result
        ≡ option_map (λ ls. aligned_from is_below alignment (length ls) 0 ls) labels.entry }
{
    let mut labels = labels?.into_vec();
    align_all(is_below, alignment, labels.as_mut_slice());
    Some(Lines::from(labels))
}
