//! Boxes that share their borders.
use ratatui_core::buffer::Buffer;
use ratatui_core::layout::{Position, Rect};
use ratatui_core::symbols::merge::MergeStrategy;
use std::alloc::{AllocError, Global};

/// How boxes stand in a buffer: their size, how far one is from the next, and how their borders are
/// joined.
#[derive(Clone, Copy)]
pub struct Border {
    width: u16,
    height: u16,
    right: u16,
    down: u16,
    strategy: MergeStrategy,
}

impl Border {
    /// Makes boxes of 20 columns and 6 rows, each of which shares a side with the next one.
    pub fn joined(strategy: MergeStrategy) -> Border {
        Border {
            width: 20,
            height: 6,
            right: 19,
            down: 5,
            strategy,
        }
    }

    /// Makes boxes of ten columns and six rows, side by side.
    pub fn apart() -> Border {
        Border {
            width: 10,
            height: 6,
            right: 10,
            down: 6,
            strategy: MergeStrategy::Replace,
        }
    }

    // Puts one symbol over what stands there, if the buffer has that place.
    fn put(
        self,
        alloc: Global,
        buffer: &mut Buffer,
        x: u16,
        y: u16,
        symbol: &str,
    ) -> Result<(), AllocError> {
        match buffer.cell_mut(Position { x, y }) {
            Some(cell) => cell.merge_symbol(alloc, symbol, self.strategy),
            None => Ok(()),
        }
    }

    // Draws the box whose first corner this is.
    fn draw(
        self,
        alloc: Global,
        buffer: &mut Buffer,
        left: u16,
        top: u16,
    ) -> Result<(), AllocError> {
        let right = left.saturating_add(self.width.saturating_sub(1));
        let bottom = top.saturating_add(self.height.saturating_sub(1));
        for x in left.saturating_add(1)..right {
            self.put(alloc, buffer, x, top, "─")?;
            self.put(alloc, buffer, x, bottom, "─")?;
        }
        for y in top.saturating_add(1)..bottom {
            self.put(alloc, buffer, left, y, "│")?;
            self.put(alloc, buffer, right, y, "│")?;
        }
        self.put(alloc, buffer, left, top, "┌")?;
        self.put(alloc, buffer, right, top, "┐")?;
        self.put(alloc, buffer, left, bottom, "└")?;
        self.put(alloc, buffer, right, bottom, "┘")
    }

    /// Draws the boxes that have room.
    pub fn grid(self, alloc: Global, buffer: &mut Buffer) -> Result<(), AllocError> {
        let Rect { width, height, .. } = *buffer.area();
        let shared = self.width.saturating_sub(self.right);
        let columns = width.saturating_sub(shared).checked_div(self.right);
        let shared = self.height.saturating_sub(self.down);
        let rows = height.saturating_sub(shared).checked_div(self.down);
        for row in 0..rows.unwrap_or(0) {
            for column in 0..columns.unwrap_or(0) {
                let left = column.saturating_mul(self.right);
                self.draw(alloc, buffer, left, row.saturating_mul(self.down))?;
            }
        }
        Ok(())
    }
}
