//! A list without a state of its own.

use crate::list::List;
use crate::state::ListState;
use ratatui_core::buffer::Buffer;
use ratatui_core::layout::Rect;
use ratatui_core::widgets::{StatefulWidget, Widget};
use std::alloc::AllocError;

impl<'b, 'a> Widget for &'b List<'a> {
    ghost use Rattle.widget_list.specs.Items.{RendersListFresh};

    ghost renders = { λ list. RendersListFresh list.now };

    fn render(self, area: Rect, buf: &mut Buffer) -> Result<(), AllocError> {
        let mut state = ListState {
            offset: 0,
            selected: None,
        };
        StatefulWidget::render(self, area, buf, &mut state)
    }
}

impl<'a> Widget for List<'a> {
    ghost use Rattle.widget_list.specs.Items.{RendersListFresh};

    ghost renders = { RendersListFresh };

    fn render(self, area: Rect, buf: &mut Buffer) -> Result<(), AllocError> {
        Widget::render(&self, area, buf)
    }
}
