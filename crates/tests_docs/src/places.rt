//! What the examples that render leave on an empty buffer, a row for each place that is looked at.

use crate::buffers::greet;
use crate::canvases::crossed;
use crate::macros::bars_and_tabs;
use crate::{charts, symbol_at, tables, widgets};
use ratatui_core::buffer::Buffer;
use ratatui_core::layout::Rect;
use std::alloc::{AllocError, Global};

// An example that renders.
#[derive(Clone, Copy)]
enum Example {
    Greeting,
    Canvas,
    Points,
    Labels,
    Table,
    Tabs,
    Sparkline,
    Bars,
    BarsAndTabs,
    List,
    Gauges,
}

// The columns and rows of a buffer, a column and a row of it, and the symbol that an example leaves
// there.
struct Place {
    example: Example,
    size: (u16, u16),
    at: (u16, u16),
    symbol: &'static str,
}

static PLACES: [Place; 18] = [
    Place {
        example: Example::Greeting,
        size: (15, 1),
        at: (1, 0),
        symbol: "H",
    },
    Place {
        example: Example::Canvas,
        size: (2, 1),
        at: (0, 0),
        symbol: "⡠",
    },
    Place {
        example: Example::Canvas,
        size: (2, 1),
        at: (1, 0),
        symbol: "⠊",
    },
    Place {
        example: Example::Points,
        size: (5, 5),
        at: (2, 1),
        symbol: "•",
    },
    Place {
        example: Example::Points,
        size: (5, 5),
        at: (2, 0),
        symbol: " ",
    },
    Place {
        example: Example::Labels,
        size: (12, 4),
        at: (1, 2),
        symbol: "─",
    },
    Place {
        example: Example::Labels,
        size: (12, 4),
        at: (0, 3),
        symbol: "0",
    },
    Place {
        example: Example::Labels,
        size: (12, 4),
        at: (11, 3),
        symbol: "0",
    },
    Place {
        example: Example::Table,
        size: (9, 3),
        at: (0, 0),
        symbol: "n",
    },
    Place {
        example: Example::Table,
        size: (9, 3),
        at: (5, 2),
        symbol: "2",
    },
    Place {
        example: Example::Tabs,
        size: (13, 1),
        at: (1, 0),
        symbol: "F",
    },
    Place {
        example: Example::Tabs,
        size: (13, 1),
        at: (7, 0),
        symbol: "│",
    },
    Place {
        example: Example::Tabs,
        size: (13, 1),
        at: (9, 0),
        symbol: "L",
    },
    Place {
        example: Example::Sparkline,
        size: (5, 1),
        at: (4, 0),
        symbol: "█",
    },
    Place {
        example: Example::Bars,
        size: (7, 4),
        at: (4, 0),
        symbol: "█",
    },
    Place {
        example: Example::BarsAndTabs,
        size: (12, 2),
        at: (1, 0),
        symbol: "F",
    },
    Place {
        example: Example::List,
        size: (6, 2),
        at: (0, 1),
        symbol: ">",
    },
    Place {
        example: Example::Gauges,
        size: (12, 4),
        at: (11, 0),
        symbol: "▲",
    },
];

// Renders an example.
fn render(example: Example, alloc: Global, area: Rect, buf: &mut Buffer) -> Result<(), AllocError> {
    match example {
        Example::Greeting => greet(alloc, buf),
        Example::Canvas => crossed(area, buf),
        Example::Points => charts::charted(alloc, area, buf),
        Example::Labels => charts::labelled(alloc, area, buf),
        Example::Table => tables::listed(alloc, area, buf),
        Example::Tabs => tables::tabbed(alloc, area, buf),
        Example::Sparkline => tables::sparkled(alloc, area, buf),
        Example::Bars => tables::charted(alloc, area, buf),
        Example::BarsAndTabs => bars_and_tabs(alloc, area, buf),
        Example::List => widgets::listed(alloc, area, buf),
        Example::Gauges => widgets::measured(area, buf),
    }
}

// Whether an example leaves its symbol at a place.
fn is_left(alloc: Global, place: &Place) -> Result<bool, AllocError> {
    let area = Rect::new(0, 0, place.size.0, place.size.1);
    let mut buffer = Buffer::empty(alloc, area)?;
    render(place.example, alloc, area, &mut buffer)?;
    Ok(symbol_at(&buffer, place.at.0, place.at.1) == place.symbol)
}

#[test]
fn examples_are_rendered(rt: HostRuntime) -> Result<(), AllocError> {
    for (row, place) in PLACES.iter().enumerate() {
        assert!(rt; is_left(rt.alloc(), place)?, "row {row}");
    }
    Ok(())
}
