//! Data sets.

ghost use Rattle.std.specs.Prelude.{◌≡◌, Some, IfOk};
ghost use Rattle.widget_chart.specs.Charts.{IsNewDataset};

use ratatui_core::style::Style;
use ratatui_core::symbols::Marker;
use ratatui_core::text::Line;
use std::alloc::{AllocError, Global};
use widget_boxes::cloned_line;

/// How the points of a data set are shown.
#[derive(Debug, Default, Clone, Copy, PartialEq, Eq, Hash)]
pub enum GraphType {
    /// Each as a dot.
    #[default]
    Scatter,
    /// Each as a dot, with a straight line to the next one.
    Line,
    /// Each as a dot, with a straight line to the coordinate 0 under it or over it.
    Bar,
}

/// Points of a chart, which are shown in one colour and, if they have a name, in the legend.
#[derive(Debug, PartialEq, Eq, Drop)]
pub struct Dataset<'a> {
    pub(crate) name: Option<Line<'a>>,
    pub(crate) points: &'a [(i64, i64)],
    pub(crate) marker: Marker,
    pub(crate) graph_type: GraphType,
    pub(crate) style: Style,
}

impl<'a> Dataset<'a> {
    /// Makes a data set of no points, without a name, which shows each point as a dot. Takes no
    /// memory.
    pub fn new() -> Dataset<'a>
        ensures { IsNewDataset result }
    {
        Dataset {
            name: None,
            points: &[],
            marker: Marker::Dot,
            graph_type: GraphType::Scatter,
            style: Style::new(),
        }
    }

    /// Sets the name of the data set, by which the legend knows it.
    pub fn name(mut self, name: Line<'a>) -> Dataset<'a>
        ensures { result ≡ record self.entry { name = Some name.entry } }
    {
        self.name = Some(name);
        self
    }

    /// Sets the points of the data set: their coordinates from the left and from below.
    pub fn data(self, data: &'a [(i64, i64)]) -> Dataset<'a>
        ensures { result ≡ record self.entry { points = data.entry } }
    {
        Dataset {
            points: data,
            ..self
        }
    }

    /// Sets how the dots are marked.
    pub fn marker(mut self, marker: Marker) -> Dataset<'a>
        ensures { result ≡ record self.entry { marker = marker } }
    {
        self.marker = marker;
        self
    }

    /// Sets how the points are shown.
    pub fn graph_type(mut self, graph_type: GraphType) -> Dataset<'a>
        ensures { result ≡ record self.entry { graph_type = graph_type } }
    {
        self.graph_type = graph_type;
        self
    }

    /// Sets the style of the data set: its foreground is the colour of the dots, and all of it is
    /// over the data set's name in the legend.
    pub fn style(mut self, style: Style) -> Dataset<'a>
        ensures { result ≡ record self.entry { style = style } }
    {
        self.style = style;
        self
    }

    /// Makes a data set of the same points, with an equal name.
    ///
    /// # Errors
    ///
    /// `AllocError` if memory is refused.
    pub fn clone(&self, alloc: Global) -> Result<Dataset<'a>, AllocError>
        ensures { IfOk result (λ dataset. dataset ≡ self.now) }
    {
        Ok(Dataset {
            name: cloned_line(alloc, &self.name)?,
            points: self.points,
            marker: self.marker,
            graph_type: self.graph_type,
            style: self.style,
        })
    }
}
