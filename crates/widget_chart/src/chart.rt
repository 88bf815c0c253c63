//! A chart.

ghost use Rattle.std.specs.Prelude.{◌≡◌, ◌<◌, Some, IfOk, true, false, map};
ghost use Rattle.ratatui_core.specs.Layout.{IsInside};
ghost use Rattle.rtui_drawing.specs.Drawings.{IsDone, IsPartOf};
ghost use Rattle.widget_boxes.specs.Boxes.{IsBoxArea};
ghost use Rattle.widget_chart.specs.Charts.{IsNewChart, with_aligned, with_styled_name};
ghost use Rattle.widget_chart.specs.ChartParts.{drawings_of, dotted, all_dotted};
ghost use Rattle.widget_chart.specs.Inner.{IsCanvasOf};
ghost use Rattle.widget_chart.specs.Plots.{legend_of, names_of, plot_of, plot_drawing, style_at_first};

use crate::axis::Axis;
use crate::dataset::{Dataset, GraphType};
use crate::layout::{margins_in, title_columns};
use crate::legend::{LegendPosition, draw_legend_at, legend_box};
use crate::parts::{draw_axes, put_x_title, put_y_title};
use ratatui_core::buffer::Buffer;
use ratatui_core::layout::{Constraint, Position, Rect};
use ratatui_core::style::{Color, Style};
use ratatui_core::widgets::Widget;
use std::alloc::{AllocError, Global};
use widget_boxes::{Block, cloned_block, render_frame};
use widget_canvas::{Bars, Canvas, Drawing, Path, Points};

/// Points of data sets by dots, between an axis below and one at the left.
///
/// ```
/// let data = [(0, 3), (50, 8), (100, 5)];
/// let mut datasets = Vec::new(alloc);
/// datasets.push(Dataset::new().data(&data).graph_type(GraphType::Line))?;
/// let x = Axis::new().bounds([0, 100]);
/// let y = Axis::new().bounds([0, 10]);
/// Chart::new(datasets).x_axis(x).y_axis(y).render(area, buf)?;
/// ```
#[derive(Debug, PartialEq, Eq, Drop)]
pub struct Chart<'a> {
    block: Option<Block<'a>>,
    x_axis: Axis<'a>,
    y_axis: Axis<'a>,
    datasets: Vec<Dataset<'a>>,
    pub(crate) style: Style,
    legend_position: Option<LegendPosition>,
    hidden_legend_constraints: (Constraint, Constraint),
}

impl<'a> Chart<'a> {
    /// Makes a chart of these data sets, without a box, with axes that show nothing; the style of
    /// each data set is laid over its name. Takes no memory.
    pub fn new(mut datasets: Vec<Dataset<'a>>) -> Chart<'a>
        ensures { IsNewChart datasets.entry.items result }
    {
        style_names(datasets.as_mut_slice());
        Chart {
            block: None,
            x_axis: Axis::new(),
            y_axis: Axis::new(),
            datasets,
            style: Style::new(),
            legend_position: Some(LegendPosition::TopRight),
            hidden_legend_constraints: (Constraint::Ratio(1, 4), Constraint::Ratio(1, 4)),
        }
    }

    /// Puts the chart in a box.
    pub fn block(mut self, block: Block<'a>) -> Chart<'a>
        ensures { result ≡ record self.entry { block = Some block.entry } }
    {
        self.block = Some(block);
        self
    }

    /// Sets the style of the chart; its background is that of the dots, too.
    pub fn style(mut self, style: Style) -> Chart<'a>
        ensures { result ≡ record self.entry { style = style } }
    {
        self.style = style;
        self
    }

    /// Sets the axis below, and aligns its labels as they stand there.
    pub fn x_axis(self, axis: Axis<'a>) -> Chart<'a>
        ensures { result ≡ record self.entry { x_axis = with_aligned true axis.entry } }
    {
        Chart {
            x_axis: axis.aligned(true),
            ..self
        }
    }

    /// Sets the axis at the left, and aligns its labels as they stand there.
    pub fn y_axis(self, axis: Axis<'a>) -> Chart<'a>
        ensures { result ≡ record self.entry { y_axis = with_aligned false axis.entry } }
    {
        Chart {
            y_axis: axis.aligned(false),
            ..self
        }
    }

    /// Sets the place of the legend, or takes the legend away. It names the data sets that have
    /// names, and is shown if there is room for it.
    pub fn legend_position(mut self, position: Option<LegendPosition>) -> Chart<'a>
        ensures { result ≡ record self.entry { legend_position = position } }
    {
        self.legend_position = position;
        self
    }

    /// Sets how many of the columns of the dots and how many of their rows the legend takes at most
    /// if it is shown; a quarter of each, if it isn't told otherwise.
    pub fn hidden_legend_constraints(mut self, constraints: (Constraint, Constraint)) -> Chart<'a>
        ensures { result ≡ record self.entry { hidden_legend_constraints = constraints } }
    {
        self.hidden_legend_constraints = constraints;
        self
    }

    /// Makes an equal chart.
    ///
    /// # Errors
    ///
    /// `AllocError` if memory is refused.
    pub fn clone(&self, alloc: Global) -> Result<Chart<'a>, AllocError>
        ensures { let same = ⟦<Chart<'a> as PartialEq>⟧.eq in
            IfOk result (λ chart. same self.now chart ≡ true) }
    {
        Ok(Chart {
            block: cloned_block(alloc, &self.block)?,
            x_axis: self.x_axis.clone(alloc)?,
            y_axis: self.y_axis.clone(alloc)?,
            datasets: cloned_datasets(alloc, self.datasets.as_slice())?,
            style: self.style,
            legend_position: self.legend_position,
            hidden_legend_constraints: self.hidden_legend_constraints,
        })
    }

    // The canvas of a data set of which this is drawn.
    fn canvas<'b>(&self, dataset: &Dataset<'a>, drawings: &'b [Drawing<'b>]) -> Canvas<'b>
        requires { drawings.now ≡ drawings_of dataset.now.graph_type dataset.now }
        ensures { IsCanvasOf self.now dataset.now result }
    {
        Canvas::new()
            .background_color(self.style.bg.unwrap_or(Color::Reset))
            .x_bounds([self.x_axis.low, self.x_axis.high])
            .y_bounds([self.y_axis.low, self.y_axis.high])
            .marker(dataset.marker)
            .paint(drawings)
    }

    // Puts the dots of what is drawn of a data set over their area.
    fn put_dots(
        &self,
        dataset: &Dataset<'a>,
        drawings: &[Drawing<'a>],
        graph: Rect,
        buf: &mut Buffer,
    ) -> Result<(), AllocError>
        requires drawings { drawings.now ≡ drawings_of dataset.now.graph_type dataset.now }
        requires some { IsBoxArea graph }
        requires part { IsPartOf buf.old.area graph }
        ensures { IsDone (dotted self.now graph dataset.now) graph result buf.old buf.new }
    {
        let canvas = self.canvas(dataset, drawings);
        (&canvas).render(graph, buf)
    }

    // Puts the dots of a data set over their area.
    fn put_dataset(
        &self,
        dataset: &Dataset<'a>,
        graph: Rect,
        buf: &mut Buffer,
    ) -> Result<(), AllocError>
        requires some { IsBoxArea graph }
        requires part { IsPartOf buf.old.area graph }
        ensures { IsDone (dotted self.now graph dataset.now) graph result buf.old buf.new }
    {
        let color = dataset.style.fg.unwrap_or(Color::Reset);
        let coords = dataset.points;
        let points = Drawing::Points(Points { coords, color });
        match dataset.graph_type {
            GraphType::Scatter => self.put_dots(dataset, &[points], graph, buf),
            GraphType::Line => {
                let path = Drawing::Path(Path { coords, color });
                self.put_dots(dataset, &[points, path], graph, buf)
            }
            GraphType::Bar => {
                let bars = Drawing::Bars(Bars { coords, color });
                self.put_dots(dataset, &[points, bars], graph, buf)
            }
        }
    }

    // Puts the dots of all data sets over their area, each over those before it.
    fn put_datasets(&self, graph: Rect, buf: &mut Buffer) -> Result<(), AllocError>
        requires some { IsBoxArea graph }
        requires part { IsPartOf buf.old.area graph }
        ensures { let d = all_dotted self.now graph self.now.datasets.items in
            IsDone d graph result buf.old buf.new }
    {
        for dataset in self.datasets.as_slice() {
            self.put_dataset(dataset, graph, buf)?;
        }
        Ok(())
    }

    // Draws the legend over the dots, if there is room for it.
    #[tactic(auto, using(crate::proofs::PlotLemmas::chart_steps))]
    fn draw_legend(&self, style: Style, graph: Rect, buf: &mut Buffer) -> Result<(), AllocError>
        ensures { let d = legend_of self.now style graph in
            IsDone d graph result buf.old buf.new }
    {
        let x = title_columns(&self.x_axis.title, 0, graph);
        let y = title_columns(&self.y_axis.title, 1, graph);
        let (place, most) = (self.legend_position, self.hidden_legend_constraints);
        let datasets = self.datasets.as_slice();
        let at = legend_box(place, most, datasets, (x, y), graph);
        draw_legend_at(datasets, style, at, graph, buf)
    }

    // Draws the titles of the axes over the dots, and over them the legend.
    #[tactic(auto, using(crate::proofs::PlotLemmas::chart_steps))]
    fn draw_names(&self, style: Style, graph: Rect, buf: &mut Buffer) -> Result<(), AllocError>
        ensures { let d = names_of self.now style graph in
            IsDone d graph result buf.old buf.new }
    {
        put_x_title(&self.x_axis.title, style, graph, buf)?;
        put_y_title(&self.y_axis.title, style, graph, buf)?;
        self.draw_legend(style, graph, buf)
    }

    // Draws the data sets, and the names over them.
    #[tactic(auto, using(crate::proofs::PlotLemmas::chart_steps))]
    fn draw_plot(&self, style: Style, graph: Rect, buf: &mut Buffer) -> Result<(), AllocError>
        requires some { IsBoxArea graph }
        requires part { IsPartOf buf.old.area graph }
        ensures { let d = plot_of self.now style graph in
            IsDone d graph result buf.old buf.new }
    {
        self.put_datasets(graph, buf)?;
        self.draw_names(style, graph, buf)
    }

    // Draws what is inside the box, the names over a style.
    #[tactic(auto, using(crate::proofs::PlotLemmas::chart_steps))]
    fn draw(&self, style: Style, inner: Rect, buf: &mut Buffer) -> Result<(), AllocError>
        requires some { IsBoxArea inner }
        requires inside { IsInside inner buf.old.area }
        ensures { let d = plot_drawing self.now style inner in
            IsDone d inner result buf.old buf.new }
    {
        let margins = margins_in(&self.x_axis, &self.y_axis, inner);
        draw_axes(&self.x_axis, &self.y_axis, margins, inner, buf)?;
        self.draw_plot(style, margins.graph(inner), buf)
    }
}

// The style of the first cell of an area.
fn style_at_first(area: Rect, buf: &Buffer) -> Style
    requires some { IsBoxArea area }
    requires inside { IsInside area buf.now.area }
    ensures { result ≡ style_at_first area buf.now }
{
    match buf.cell(Position::new(area.x, area.y)) {
        Some(cell) => cell.style(),
        None => Style::new(),
    }
}

// Lays the style of a data set over its name.
fn style_name(dataset: &mut Dataset<'_>)
    ensures { dataset.new ≡ with_styled_name dataset.old }
{
    if let Some(name) = &mut dataset.name {
        name.style = name.style.patch(dataset.style);
    }
}

// Lays the style of each data set over its name.
fn style_names(datasets: &mut [Dataset<'_>])
    ensures { datasets.new ≡ map with_styled_name datasets.old }
{
    for i in 0..datasets.len() {
        style_name(&mut datasets[i]);
    }
}

// Equal data sets.
fn cloned_datasets<'a>(
    alloc: Global,
    datasets: &[Dataset<'a>],
) -> Result<Vec<Dataset<'a>>, AllocError>
    ensures { IfOk result (λ cloned. cloned.items ≡ datasets.now) }
{
    let mut cloned = Vec::with_capacity(alloc, datasets.len())?;
    for dataset in datasets {
        cloned.push(dataset.clone(alloc)?)?;
    }
    Ok(cloned)
}

/// Over the area, as far as the buffer has it: the style, the box, and inside the labels, the axes,
/// the dots of each data set, the titles and the legend. It takes memory for a grid of the cells of
/// the dots for each data set, and none for texts that are short.
impl<'b, 'a> Widget for &'b Chart<'a> {
    ghost use Rattle.widget_chart.specs.Plots.{RendersChart, LeavesChart};
    ghost use Rattle.widget_chart.specs.ShortCharts.{IsShortChart};

    ghost renders = { λ chart. RendersChart chart.now };

    ghost leaves = { λ chart. LeavesChart chart.now };

    ghost is_short = { λ chart _. IsShortChart chart.now };

    fn render(self, area: Rect, buf: &mut Buffer) -> Result<(), AllocError> {
        let Some(inner) = render_frame(self.style, &self.block, area, buf)? else {
            return Ok(());
        };
        self.draw(style_at_first(inner, buf), inner, buf)
    }
}

impl<'a> Widget for Chart<'a> {
    ghost use Rattle.widget_chart.specs.Plots.{RendersChart, LeavesChart};
    ghost use Rattle.widget_chart.specs.ShortCharts.{IsShortChart};

    ghost renders = { RendersChart };

    ghost leaves = { LeavesChart };

    ghost is_short = { λ chart _. IsShortChart chart };

    fn render(self, area: Rect, buf: &mut Buffer) -> Result<(), AllocError> {
        (&self).render(area, buf)
    }
}
