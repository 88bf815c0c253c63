//! The calls that divide areas, each once.
use ratatui_core::layout::{
    Constraint, CountError, Layout, Rect, Split, SplitArea, SplitAreaInto, SplitInto,
};
use std::alloc::{AllocError, Global};

const AREA: Rect = Rect {
    x: 2,
    y: 1,
    width: 20,
    height: 10,
};

// The row and the height of a part.
fn rows(part: Rect) -> (u16, u16) {
    (part.y, part.height)
}

// Two parts: a row, and what is left.
fn head_and_body(alloc: Global) -> Result<Layout, AllocError> {
    Layout::vertical(alloc, &[Constraint::Length(1), Constraint::Fill(1)])
}

#[test]
fn an_area_is_split(rt: HostRuntime) -> Result<(), AllocError> {
    let layout = head_and_body(rt.alloc())?;
    let parts = layout.split(rt.alloc(), AREA)?;
    assert!(rt; parts.len() == 2);
    assert!(rt; parts.first().map(|part| rows(*part)) == Some((1, 1)));
    assert!(rt; parts.last().map(|part| rows(*part)) == Some((2, 9)));
    Ok(())
}

#[test]
fn an_area_is_split_with_spacers(rt: HostRuntime) -> Result<(), AllocError> {
    let layout = head_and_body(rt.alloc())?;
    let cut = layout.split_with_spacers(rt.alloc(), AREA)?;
    assert!(rt; cut.segments.len() == 2);
    assert!(rt; cut.spacers.len() == 3);
    assert!(rt; cut.spacers.last().map(|space| rows(*space)) == Some((11, 0)));
    Ok(())
}

#[test]
fn areas_are_an_array(rt: HostRuntime) -> Result<(), AllocError> {
    let layout = Layout::vertical(rt.alloc(), &[Constraint::Length(1), Constraint::Fill(1)])?;
    let [head, body]: [Rect; 2] = layout.areas(AREA);
    assert!(rt; rows(head) == (1, 1));
    assert!(rt; rows(body) == (2, 9));
    Ok(())
}

#[test]
fn spacers_are_an_array(rt: HostRuntime) -> Result<(), AllocError> {
    let layout = Layout::vertical(rt.alloc(), &[Constraint::Length(1), Constraint::Length(2)])?;
    let [before, between, after]: [Rect; 3] = layout.spacers(AREA);
    assert!(rt; rows(before) == (1, 0));
    assert!(rt; rows(between) == (2, 0));
    assert!(rt; rows(after) == (4, 7));
    Ok(())
}

#[test]
fn areas_of_another_count_are_refused(rt: HostRuntime) -> Result<(), AllocError> {
    let layout = head_and_body(rt.alloc())?;
    let three: Result<[Rect; 3], CountError> = layout.try_areas(AREA);
    assert!(rt; three.is_err());
    let two: Result<[Rect; 2], CountError> = layout.try_areas(AREA);
    assert!(rt; two.is_ok());
    Ok(())
}

#[test]
fn an_area_is_divided_by_a_layout(rt: HostRuntime) -> Result<(), AllocError> {
    let layout = head_and_body(rt.alloc())?;
    let parts = AREA.layout_vec(rt.alloc(), &layout)?;
    assert!(rt; parts.first().map(|part| rows(*part)) == Some((1, 1)));
    Ok(())
}

#[test]
fn an_area_is_divided_into_an_array(rt: HostRuntime) -> Result<(), AllocError> {
    let layout = Layout::vertical(rt.alloc(), &[Constraint::Length(1), Constraint::Fill(1)])?;
    let [head, body]: [Rect; 2] = AREA.layout(&layout);
    assert!(rt; rows(head) == (1, 1));
    assert!(rt; rows(body) == (2, 9));
    let three: Result<[Rect; 3], CountError> = AREA.try_layout(&layout);
    assert!(rt; three.is_err());
    Ok(())
}

#[test]
fn boxes_stand_in_the_middle(rt: HostRuntime) -> Result<(), AllocError> {
    let middle = AREA.centered(Constraint::Length(6), Constraint::Length(4));
    assert!(rt; middle.x == 9 && middle.width == 6);
    assert!(rt; rows(middle) == (4, 4));
    let columns = AREA.centered_horizontally(Constraint::Length(6));
    assert!(rt; columns.x == 9 && rows(columns) == (1, 10));
    let lines = AREA.centered_vertically(Constraint::Percentage(50));
    assert!(rt; lines.x == 2 && rows(lines) == (4, 5));
    Ok(())
}

// The widths of the parts of so many columns, packed from the left.
fn widths(alloc: Global, constraints: &[Constraint], columns: u16) -> Result<Vec<u16>, AllocError> {
    let layout = Layout::horizontal(alloc, constraints)?;
    let parts = layout.split(
        alloc,
        Rect {
            x: 0,
            y: 0,
            width: columns,
            height: 1,
        },
    )?;
    let mut widths = Vec::new(alloc);
    for part in &parts {
        widths.push(part.width)?;
    }
    Ok(widths)
}

// One column more makes no part smaller, before it is cut to whole columns.
#[test]
fn a_column_more_may_take_one_from_a_part(rt: HostRuntime) -> Result<(), AllocError> {
    let thirds = [Constraint::Percentage(33), Constraint::Percentage(33)];
    assert!(rt; widths(rt.alloc(), &thirds, 1)?.as_slice() == [0, 1].as_slice());
    assert!(rt; widths(rt.alloc(), &thirds, 2)?.as_slice() == [1, 0].as_slice());
    Ok(())
}

// The crate has a second answer for each, so that one column more may take two from a part there.
#[test]
fn a_kind_that_comes_too_short_has_one_answer(rt: HostRuntime) -> Result<(), AllocError> {
    let most = [
        Constraint::Max(3),
        Constraint::Max(3),
        Constraint::Max(0),
        Constraint::Max(2),
        Constraint::Max(5),
    ];
    assert!(rt; widths(rt.alloc(), &most, 5)?.as_slice() == [1, 0, 0, 2, 2].as_slice());
    assert!(rt; widths(rt.alloc(), &most, 6)?.as_slice() == [1, 1, 0, 2, 2].as_slice());
    Ok(())
}
