//! The bars of a chart, in groups.

ghost use Rattle.std.specs.Prelude.{◌≡◌, Some, None, IfOk, true, map};
ghost use Rattle.ratatui_core.specs.Style.{new_style};
ghost use Rattle.widget_bars.specs.BarCharts.{new_bar, raw_bar};

use ratatui_core::style::Style;
use ratatui_core::text::Line;
use std::alloc::{AllocError, Global};
use widget_boxes::cloned_line;

/// A bar of a chart: a value, a label and styles of its own, if it has them.
#[derive(Debug, PartialEq, Eq, Drop)]
pub struct Bar<'a> {
    pub(crate) value: u64,
    pub(crate) label: Option<Line<'a>>,
    pub(crate) style: Style,
    pub(crate) value_style: Style,
    pub(crate) text_value: Option<&'a str>,
}

impl<'a> Bar<'a> {
    /// Makes a bar of this value, without a label and styles; takes no memory.
    pub fn new(value: u64) -> Bar<'a>
        ensures { result ≡ new_bar value None }
    {
        Bar {
            value,
            label: None,
            style: Style::new(),
            value_style: Style::new(),
            text_value: None,
        }
    }

    /// Makes a bar of this value with a label; takes no memory.
    pub fn with_label(label: Line<'a>, value: u64) -> Bar<'a>
        ensures { result ≡ new_bar value (Some label.entry) }
    {
        Bar::new(value).label(label)
    }

    /// Sets the value of the bar.
    pub fn value(self, value: u64) -> Bar<'a>
        ensures { result ≡ record self.entry { value = value } }
    {
        Bar { value, ..self }
    }

    /// Sets the label of the bar.
    pub fn label(mut self, label: Line<'a>) -> Bar<'a>
        ensures { result ≡ record self.entry { label = Some label.entry } }
    {
        self.label = Some(label);
        self
    }

    /// Sets the style of the bar, over that of the chart's bars.
    pub fn style(self, style: Style) -> Bar<'a>
        ensures { result ≡ record self.entry { style = style } }
    {
        Bar { style, ..self }
    }

    /// Sets the style of the bar's value, over that of the chart's values.
    pub fn value_style(self, style: Style) -> Bar<'a>
        ensures { result ≡ record self.entry { value_style = style } }
    {
        Bar {
            value_style: style,
            ..self
        }
    }

    /// Sets the text in place of the value's digits.
    pub fn text_value(mut self, text: &'a str) -> Bar<'a>
        ensures { result ≡ record self.entry { text_value = Some text.entry } }
    {
        self.text_value = Some(text);
        self
    }

    /// Makes an equal bar.
    ///
    /// # Errors
    ///
    /// `AllocError` if memory is refused.
    pub fn clone(&self, alloc: Global) -> Result<Bar<'a>, AllocError>
        ensures { IfOk result (λ bar. bar ≡ self.now) }
    {
        Ok(Bar {
            value: self.value,
            label: cloned_line(alloc, &self.label)?,
            style: self.style,
            value_style: self.value_style,
            text_value: self.text_value,
        })
    }
}

/// Bars side by side, with a label for all of them, if they have one.
#[derive(Debug, PartialEq, Eq, Drop)]
pub struct BarGroup<'a> {
    pub(crate) label: Option<Line<'a>>,
    pub(crate) bars: Vec<Bar<'a>>,
}

impl<'a> BarGroup<'a> {
    /// Makes a group of these bars, without a label; takes no memory.
    pub fn new(bars: Vec<Bar<'a>>) -> BarGroup<'a>
        ensures { result ≡ record { label = None; bars = bars.entry } }
    {
        BarGroup { label: None, bars }
    }

    /// Makes a group of these bars with a label; takes no memory.
    pub fn with_label(label: Line<'a>, bars: Vec<Bar<'a>>) -> BarGroup<'a>
        ensures { result ≡ record { label = Some label.entry; bars = bars.entry } }
    {
        BarGroup {
            label: Some(label),
            bars,
        }
    }

    /// Sets the label of the group.
    pub fn label(self, label: Line<'a>) -> BarGroup<'a>
        ensures { result ≡ record self.entry { label = Some label.entry } }
    {
        BarGroup {
            label: Some(label),
            ..self
        }
    }

    /// Sets the bars of the group.
    pub fn bars(self, bars: Vec<Bar<'a>>) -> BarGroup<'a>
        ensures { result ≡ record self.entry { bars = bars.entry } }
    {
        BarGroup { bars, ..self }
    }

    /// Makes an equal group.
    ///
    /// # Errors
    ///
    /// `AllocError` if memory is refused.
    pub fn clone(&self, alloc: Global) -> Result<BarGroup<'a>, AllocError>
        ensures { let same = ⟦<BarGroup<'a> as PartialEq>⟧.eq in
            IfOk result (λ group. same self.now group ≡ true) }
    {
        Ok(BarGroup {
            label: cloned_line(alloc, &self.label)?,
            bars: cloned_bars(alloc, self.bars.as_slice())?,
        })
    }
}

// A bar for each label and value.
pub(crate) fn raw_bars<'a>(
    alloc: Global,
    bars: &[(&'a str, u64)],
) -> Result<Vec<Bar<'a>>, AllocError>
    ensures { IfOk result (λ made. made.items ≡ map raw_bar bars.now) }
{
    let mut made = Vec::with_capacity(alloc, bars.len())?;
    for bar in bars {
        let (label, value) = *bar;
        made.push(Bar::with_label(Line::raw(alloc, label)?, value))?;
    }
    Ok(made)
}

// Equal bars.
fn cloned_bars<'a>(alloc: Global, bars: &[Bar<'a>]) -> Result<Vec<Bar<'a>>, AllocError>
    ensures { IfOk result (λ cloned. cloned.items ≡ bars.now) }
{
    let mut cloned = Vec::with_capacity(alloc, bars.len())?;
    for bar in bars {
        cloned.push(bar.clone(alloc)?)?;
    }
    Ok(cloned)
}
