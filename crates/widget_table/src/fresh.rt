//! A table without a state of its own.

use crate::state::TableState;
use crate::table::Table;
use ratatui_core::buffer::Buffer;
use ratatui_core::layout::Rect;
use ratatui_core::widgets::{StatefulWidget, Widget};
use std::alloc::AllocError;

impl<'b, 'a> Widget for &'b Table<'a> {
    ghost use Rattle.widget_table.specs.Tables.{RendersTableFresh};

    ghost renders = { λ table. RendersTableFresh table.now };

    fn render(self, area: Rect, buf: &mut Buffer) -> Result<(), AllocError> {
        let mut state = TableState {
            offset: 0,
            selected: None,
            selected_column: None,
        };
        StatefulWidget::render(self, area, buf, &mut state)
    }
}

impl<'a> Widget for Table<'a> {
    ghost use Rattle.widget_table.specs.Tables.{RendersTableFresh};

    ghost renders = { RendersTableFresh };

    fn render(self, area: Rect, buf: &mut Buffer) -> Result<(), AllocError> {
        Widget::render(&self, area, buf)
    }
}
