//! Calls on what layouts are made of, and on layouts as data.
use ratatui_core::layout::{
    Constraint, Direction, Flex, HorizontalAlignment, Layout, Spacing, VerticalAlignment,
};
use row_words::answer::Answer;
use row_words::args::Args;
use row_words::error::RowError;
use row_words::names::named;
use row_words::tokens::Token;
use std::alloc::{AllocError, Global};
use std::convert::AsRef;
use std::mem;

/// Makes a call on a direction, a flex, an alignment, a constraint, a spacing, or lists of
/// constraints.
pub fn layout_part(args: &mut Args<'_>, answer: &mut Answer) -> Result<(), RowError> {
    match args.word()? {
        "Direction" => named::<Direction>(args, answer),
        "Flex" => named::<Flex>(args, answer),
        "HorizontalAlignment" => named::<HorizontalAlignment>(args, answer),
        "VerticalAlignment" => named::<VerticalAlignment>(args, answer),
        word => match word.strip_suffix("::default") {
            Some(name) => default_part(name, args.alloc, answer),
            None => asked_part(word, args, answer),
        },
    }
}

fn default_part(name: &str, alloc: Global, answer: &mut Answer) -> Result<(), RowError> {
    match name {
        "Direction" => answer.print(alloc, &Direction::default()),
        "Flex" => answer.print(alloc, &Flex::default()),
        "HorizontalAlignment" => answer.print(alloc, &HorizontalAlignment::default()),
        "VerticalAlignment" => answer.print(alloc, &VerticalAlignment::default()),
        "Constraint" => answer.add(Constraint::default()),
        "Spacing" => answer.add(Spacing::default()),
        _ => Err(RowError::Unread),
    }
}

fn asked_part(word: &str, args: &mut Args<'_>, answer: &mut Answer) -> Result<(), RowError> {
    if word == "perpendicular" {
        return answer.print(args.alloc, &args.value::<Direction>()?.perpendicular());
    }
    match word.split_once('_') {
        Some(("flex", question)) => flex(question, args.value::<Flex>()?, answer),
        Some(("from", kind)) => list(kind, args, answer),
        Some(("Spacing::from", kind)) => answer.add(spacing(kind, args)?),
        _ => made_constraint(word, args, answer),
    }
}

// A spacing made of a number of a type.
fn spacing(kind: &str, args: &mut Args<'_>) -> Result<Spacing, RowError> {
    match kind {
        "i32" => Ok(Spacing::from(args.value::<i32>()?)),
        "i16" => Ok(Spacing::from(args.value::<i16>()?)),
        "u16" => Ok(Spacing::from(args.u16()?)),
        _ => Err(RowError::Unread),
    }
}

fn made_constraint(word: &str, args: &mut Args<'_>, answer: &mut Answer) -> Result<(), RowError> {
    match word {
        "Constraint::from" => answer.add(Constraint::from(args.u16()?)),
        _ => constraint(word, args.constraint()?, args, answer),
    }
}

// Constraints of one kind, made of numbers.
fn list(kind: &str, args: &mut Args<'_>, answer: &mut Answer) -> Result<(), RowError> {
    let alloc = args.alloc;
    if kind == "ratios" {
        let ratios = args.ratios()?;
        return put_list(Constraint::from_ratios(alloc, ratios.as_slice()), answer);
    }
    let numbers = args.numbers()?;
    let numbers = numbers.as_slice();
    let constraints = match kind {
        "lengths" => Constraint::from_lengths(alloc, numbers),
        "maxes" => Constraint::from_maxes(alloc, numbers),
        "mins" => Constraint::from_mins(alloc, numbers),
        "fills" => Constraint::from_fills(alloc, numbers),
        "percentages" => Constraint::from_percentages(alloc, numbers),
        _ => return Err(RowError::Unread),
    };
    put_list(constraints, answer)
}

fn put_list(
    constraints: Result<Vec<Constraint>, AllocError>,
    answer: &mut Answer,
) -> Result<(), RowError> {
    put_constraints(constraints?.as_slice(), answer)
}

fn put_constraints(constraints: &[Constraint], answer: &mut Answer) -> Result<(), RowError> {
    for constraint in constraints {
        answer.add(*constraint)?;
    }
    Ok(())
}

fn flex(question: &str, flex: Flex, answer: &mut Answer) -> Result<(), RowError> {
    match question {
        "is_legacy" => answer.add(flex.is_legacy()),
        "is_start" => answer.add(flex.is_start()),
        "is_end" => answer.add(flex.is_end()),
        "is_center" => answer.add(flex.is_center()),
        "is_space_between" => answer.add(flex.is_space_between()),
        "is_space_evenly" => answer.add(flex.is_space_evenly()),
        "is_space_around" => answer.add(flex.is_space_around()),
        _ => Err(RowError::Unread),
    }
}

fn constraint(
    word: &str,
    constraint: Constraint,
    args: &mut Args<'_>,
    answer: &mut Answer,
) -> Result<(), RowError> {
    match word {
        "is_min" => answer.add(constraint.is_min()),
        "is_max" => answer.add(constraint.is_max()),
        "is_length" => answer.add(constraint.is_length()),
        "is_percentage" => answer.add(constraint.is_percentage()),
        "is_ratio" => answer.add(constraint.is_ratio()),
        "is_fill" => answer.add(constraint.is_fill()),
        "print" => answer.print(args.alloc, &constraint),
        "copy" => answer.add(Constraint::from(&constraint)),
        "as_ref" => {
            let lent: &Constraint = constraint.as_ref();
            answer.add(*lent)
        }
        "equal" => answer.add(constraint == args.constraint()?),
        _ => Err(RowError::Unread),
    }
}

// The layout, in whose place one of nothing then stands.
fn taken(layout: &mut Layout, alloc: Global) -> Layout {
    mem::replace(layout, Layout::default_in(alloc))
}

// A call that changes a layout.
fn change(layout: &mut Layout, args: &mut Args<'_>) -> Result<(), RowError> {
    let alloc = args.alloc;
    match args.word()? {
        "direction" => turn(layout, args.value::<Direction>()?, alloc),
        "flex" => set_flex(layout, args.value::<Flex>()?, alloc),
        "spacing" => set_spacing(layout, args.value::<i32>()?, alloc),
        "constraints" => set_constraints(layout, args.constraints()?.as_slice(), alloc),
        "clone" => copy(layout, alloc),
        word => set_margin(layout, word, args.u16()?, alloc),
    }
}

fn turn(layout: &mut Layout, direction: Direction, alloc: Global) -> Result<(), RowError> {
    *layout = taken(layout, alloc).direction(direction);
    Ok(())
}

fn set_flex(layout: &mut Layout, flex: Flex, alloc: Global) -> Result<(), RowError> {
    *layout = taken(layout, alloc).flex(flex);
    Ok(())
}

fn set_spacing(layout: &mut Layout, spacing: i32, alloc: Global) -> Result<(), RowError> {
    *layout = taken(layout, alloc).spacing(Spacing::from(spacing));
    Ok(())
}

fn set_constraints(
    layout: &mut Layout,
    constraints: &[Constraint],
    alloc: Global,
) -> Result<(), RowError> {
    *layout = taken(layout, alloc).constraints(constraints)?;
    Ok(())
}

fn copy(layout: &mut Layout, alloc: Global) -> Result<(), RowError> {
    *layout = layout.clone(alloc)?;
    Ok(())
}

fn set_margin(layout: &mut Layout, word: &str, margin: u16, alloc: Global) -> Result<(), RowError> {
    let former = taken(layout, alloc);
    *layout = match word {
        "margin" => former.margin(margin),
        "horizontal_margin" => former.horizontal_margin(margin),
        "vertical_margin" => former.vertical_margin(margin),
        _ => return Err(RowError::Unread),
    };
    Ok(())
}

fn made(args: &mut Args<'_>) -> Result<Layout, RowError> {
    match args.word()? {
        "default" => Ok(Layout::default_in(args.alloc)),
        "new" => made_in(args.value::<Direction>()?, args),
        word => made_along(word, args.alloc, args.constraints()?.as_slice()),
    }
}

fn made_in(direction: Direction, args: &mut Args<'_>) -> Result<Layout, RowError> {
    let constraints = args.constraints()?;
    Ok(Layout::new(args.alloc, direction, constraints.as_slice())?)
}

fn made_along(word: &str, alloc: Global, constraints: &[Constraint]) -> Result<Layout, RowError> {
    match word {
        "vertical" => Ok(Layout::vertical(alloc, constraints)?),
        "horizontal" => Ok(Layout::horizontal(alloc, constraints)?),
        _ => Err(RowError::Unread),
    }
}

// Adds what a layout is made of.
fn put_layout(layout: &Layout, alloc: Global, answer: &mut Answer) -> Result<(), RowError> {
    answer.print(alloc, &layout.direction_of())?;
    answer.add(layout.margin_of())?;
    answer.print(alloc, &layout.flex_of())?;
    answer.put(layout.spacing_of())?;
    put_constraints(layout.constraints_of(), answer)
}

/// Makes a layout, and calls on it; adds its direction, margin, flex, spacing and constraints.
pub fn layout(
    alloc: Global,
    args: &mut Args<'_>,
    later: &[Vec<Token>],
    answer: &mut Answer,
) -> Result<(), RowError> {
    let mut layout = made(args)?;
    for step in later {
        change(&mut layout, &mut Args::new(alloc, step.as_slice()))?;
    }
    put_layout(&layout, alloc, answer)
}
