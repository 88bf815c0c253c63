//! Terminals over a screen in memory, and what frames are drawn with.
use rtui_backend::TestBackend;
use rtui_buffer::Buffer;
use rtui_geometry::Position;
use rtui_terminal::Terminal;
use std::alloc::{AllocError, Global};
use std::test::Fail;

/// Makes a terminal over a blank screen of this size.
pub fn terminal(alloc: Global, width: u16, height: u16) -> Result<Terminal<TestBackend>, Fail> {
    let backend = TestBackend::new(alloc, width, height)?;
    match Terminal::new(alloc, backend) {
        Ok(terminal) => Ok(terminal),
        Err(_) => Err(Fail::from(AllocError)),
    }
}

/// Sets the characters of a line in a row, from a column on.
pub fn write_line(
    alloc: Global,
    buffer: &mut Buffer,
    left: u16,
    y: u16,
    line: &str,
) -> Result<(), AllocError> {
    for (x, ch) in line.chars().enumerate() {
        let x = left.saturating_add(x.min(65535) as u16);
        if let Some(cell) = buffer.cell_mut(Position { x, y }) {
            cell.set_char(alloc, ch)?;
        }
    }
    Ok(())
}
