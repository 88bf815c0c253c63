//! Calls on colours, modifiers and styles.
use bitflags::Flags;
use ratatui_core::style::{Color, Modifier, Style};
use row_words::answer::Answer;
use row_words::args::Args;
use row_words::error::RowError;
use row_words::tokens::Token;
use std::alloc::Global;

/// Makes a call on a colour.
pub fn color(args: &mut Args<'_>, answer: &mut Answer) -> Result<(), RowError> {
    match args.word()? {
        "default" => answer.add(Color::default()),
        "parse" => parse(args.text()?, args.alloc, answer),
        "from_u32" => answer.add(Color::from_u32(args.value::<u32>()?)),
        word @ ("print" | "equal") => color_itself(word, args.color()?, args, answer),
        word => answer.add(color_of_bytes(word, args)?),
    }
}

fn parse(text: &str, alloc: Global, answer: &mut Answer) -> Result<(), RowError> {
    match text.parse::<Color>() {
        Ok(color) => answer.add(color),
        Err(error) => answer.print(alloc, &error),
    }
}

fn color_itself(
    word: &str,
    color: Color,
    args: &mut Args<'_>,
    answer: &mut Answer,
) -> Result<(), RowError> {
    if word == "print" {
        answer.print(args.alloc, &color)
    } else {
        answer.add(color == args.color()?)
    }
}

// A colour made of three bytes, or of four, of which the last says nothing.
fn color_of_bytes(word: &str, args: &mut Args<'_>) -> Result<Color, RowError> {
    let (red, green) = byte_pair(args)?;
    let blue = args.value::<u8>()?;
    match word {
        "from_array" => Ok(Color::from([red, green, blue])),
        "from_triple" => Ok(Color::from((red, green, blue))),
        _ => color_of_four(word, (red, green, blue), args.value::<u8>()?),
    }
}

fn byte_pair(args: &mut Args<'_>) -> Result<(u8, u8), RowError> {
    Ok((args.value::<u8>()?, args.value::<u8>()?))
}

fn color_of_four(
    word: &str,
    (red, green, blue): (u8, u8, u8),
    alpha: u8,
) -> Result<Color, RowError> {
    match word {
        "from_array_of_4" => Ok(Color::from([red, green, blue, alpha])),
        "from_quadruple" => Ok(Color::from((red, green, blue, alpha))),
        _ => Err(RowError::Unread),
    }
}

/// Makes a call on modifiers.
pub fn modifier(args: &mut Args<'_>, answer: &mut Answer) -> Result<(), RowError> {
    match args.word()? {
        "bits" => answer.add(args.modifier().bits()),
        "empty" => answer.add(Modifier::empty()),
        "all" => answer.add(Modifier::all()),
        "default" => answer.add(Modifier::default()),
        "is_empty" => answer.add(args.modifier().is_empty()),
        "is_all" => answer.add(args.modifier().is_all()),
        "complement" => answer.add(args.modifier().complement()),
        "not" => answer.add(!args.modifier()),
        word => match word.strip_prefix("from_") {
            Some(kind) => made_modifier(kind, args, answer),
            None => modifiers(word, args.modifier(), args.modifier(), answer),
        },
    }
}

// A set of modifiers made of its number or of a name.
fn made_modifier(kind: &str, args: &mut Args<'_>, answer: &mut Answer) -> Result<(), RowError> {
    if kind == "name" {
        return answer.add(Modifier::from_name(args.text()?));
    }
    let bits = args.u16()?;
    match kind {
        "bits" => answer.add(Modifier::from_bits(bits)),
        "bits_truncate" => answer.add(Modifier::from_bits_truncate(bits)),
        "bits_retain" => answer.add(Modifier::from_bits_retain(bits)),
        _ => Err(RowError::Unread),
    }
}

// A call on two sets of modifiers.
fn modifiers(
    word: &str,
    one: Modifier,
    other: Modifier,
    answer: &mut Answer,
) -> Result<(), RowError> {
    match word {
        "contains" => answer.add(one.contains(other)),
        "intersects" => answer.add(one.intersects(other)),
        "equal" => answer.add(one == other),
        _ => answer.add(joined(word, one, other)?),
    }
}

// Two sets of modifiers joined by a call or an operator.
fn joined(word: &str, one: Modifier, other: Modifier) -> Result<Modifier, RowError> {
    match word {
        "union" => Ok(one.union(other)),
        "or" => Ok(one | other),
        "intersection" => Ok(one.intersection(other)),
        "and" => Ok(one & other),
        "difference" => Ok(one.difference(other)),
        "sub" => Ok(one - other),
        "symmetric_difference" => Ok(one.symmetric_difference(other)),
        "xor" => Ok(one ^ other),
        _ => changed_by(word, one, other),
    }
}

// A set of modifiers after a call that changes it.
fn changed_by(word: &str, mut one: Modifier, other: Modifier) -> Result<Modifier, RowError> {
    match word {
        "insert" => one.insert(other),
        "or_assign" => one |= other,
        "remove" => one.remove(other),
        "sub_assign" => one -= other,
        "toggle" => one.toggle(other),
        "xor_assign" => one ^= other,
        "and_assign" => one &= other,
        "set" => one.set(other, true),
        "unset" => one.set(other, false),
        _ => return Err(RowError::Unread),
    }
    Ok(one)
}

// A style made from its parts.
fn made(word: &str, args: &mut Args<'_>) -> Result<Style, RowError> {
    match word {
        "new" => Ok(Style::new()),
        "default" => Ok(Style::default()),
        "reset" => Ok(Style::reset()),
        "style" => Ok(args.style()),
        "from_color" => Ok(Style::from(args.color()?)),
        "from_modifier" => Ok(Style::from(args.modifier())),
        _ => made_of_several(word, args),
    }
}

fn made_of_several(word: &str, args: &mut Args<'_>) -> Result<Style, RowError> {
    if word == "from_modifiers" {
        return Ok(Style::from((args.modifier(), args.modifier())));
    }
    let fg = args.color()?;
    match word {
        "from_color_modifier" => Ok(Style::from((fg, args.modifier()))),
        _ => made_of_colors(word, fg, args.color()?, args),
    }
}

fn made_of_colors(
    word: &str,
    fg: Color,
    bg: Color,
    args: &mut Args<'_>,
) -> Result<Style, RowError> {
    match word {
        "from_colors" => Ok(Style::from((fg, bg))),
        "from_colors_modifier" => Ok(Style::from((fg, bg, args.modifier()))),
        "from_colors_modifiers" => { Ok(Style::from((fg, bg, args.modifier(), args.modifier()))) }
        _ => Err(RowError::Unread),
    }
}

// One call on a style.
fn step(style: &mut Style, args: &mut Args<'_>, answer: &mut Answer) -> Result<(), RowError> {
    match args.word()? {
        "has_modifier" => answer.add(style.has_modifier(args.modifier())),
        "equal" => answer.add(*style == args.style()),
        word => {
            *style = changed(*style, word, args)?;
            Ok(())
        }
    }
}

// A style after a call that sets a part of it.
fn changed(style: Style, word: &str, args: &mut Args<'_>) -> Result<Style, RowError> {
    match word {
        "fg" | "bg" | "underline_color" => Ok(colored(style, word, args.color()?)),
        "add_modifier" => Ok(style.add_modifier(args.modifier())),
        "remove_modifier" => Ok(style.remove_modifier(args.modifier())),
        "patch" => Ok(style.patch(args.style())),
        _ => named(style, word).ok_or(RowError::Unread),
    }
}

// A style after a call whose name says all.
fn named(style: Style, word: &str) -> Option<Style> {
    match word.strip_prefix("on_") {
        Some(name) => on_color(style, name),
        None => shortened(style, word),
    }
}

fn colored(style: Style, word: &str, color: Color) -> Style {
    match word {
        "fg" => style.fg(color),
        "bg" => style.bg(color),
        _ => style.underline_color(color),
    }
}

/// Makes a style, and calls on it; adds the style itself if nothing was asked.
pub fn style(
    alloc: Global,
    args: &mut Args<'_>,
    later: &[Vec<Token>],
    answer: &mut Answer,
) -> Result<(), RowError> {
    let mut style = made(args.word()?, args)?;
    for each in later {
        step(&mut style, &mut Args::new(alloc, each.as_slice()), answer)?;
    }
    if answer.is_empty() {
        answer.add(style)
    } else {
        Ok(())
    }
}

// The style on a background.
fn on_color(style: Style, name: &str) -> Option<Style> {
    Some(match name {
        "black" => style.on_black(),
        "red" => style.on_red(),
        "green" => style.on_green(),
        "yellow" => style.on_yellow(),
        "blue" => style.on_blue(),
        "magenta" => style.on_magenta(),
        "cyan" => style.on_cyan(),
        "gray" => style.on_gray(),
        "dark_gray" => style.on_dark_gray(),
        "white" => style.on_white(),
        _ => return on_light_color(style, name.strip_prefix("light_")?),
    })
}

fn on_light_color(style: Style, name: &str) -> Option<Style> {
    Some(match name {
        "red" => style.on_light_red(),
        "green" => style.on_light_green(),
        "yellow" => style.on_light_yellow(),
        "blue" => style.on_light_blue(),
        "magenta" => style.on_light_magenta(),
        "cyan" => style.on_light_cyan(),
        _ => return None,
    })
}

// The style in a foreground, or with a modifier or without it.
fn shortened(style: Style, name: &str) -> Option<Style> {
    Some(match name {
        "black" => style.black(),
        "red" => style.red(),
        "green" => style.green(),
        "yellow" => style.yellow(),
        "blue" => style.blue(),
        "magenta" => style.magenta(),
        "cyan" => style.cyan(),
        "gray" => style.gray(),
        "dark_gray" => style.dark_gray(),
        "white" => style.white(),
        _ => return changed_otherwise(style, name),
    })
}

fn changed_otherwise(style: Style, name: &str) -> Option<Style> {
    if let Some(name) = name.strip_prefix("light_") {
        return in_light_color(style, name);
    }
    match name.strip_prefix("not_") {
        Some(name) => without_modifier(style, name),
        None => with_modifier(style, name),
    }
}

fn in_light_color(style: Style, name: &str) -> Option<Style> {
    Some(match name {
        "red" => style.light_red(),
        "green" => style.light_green(),
        "yellow" => style.light_yellow(),
        "blue" => style.light_blue(),
        "magenta" => style.light_magenta(),
        "cyan" => style.light_cyan(),
        _ => return None,
    })
}

fn with_modifier(style: Style, name: &str) -> Option<Style> {
    Some(match name {
        "bold" => style.bold(),
        "dim" => style.dim(),
        "italic" => style.italic(),
        "underlined" => style.underlined(),
        "slow_blink" => style.slow_blink(),
        "rapid_blink" => style.rapid_blink(),
        "reversed" => style.reversed(),
        "hidden" => style.hidden(),
        "crossed_out" => style.crossed_out(),
        _ => return None,
    })
}

fn without_modifier(style: Style, name: &str) -> Option<Style> {
    Some(match name {
        "bold" => style.not_bold(),
        "dim" => style.not_dim(),
        "italic" => style.not_italic(),
        "underlined" => style.not_underlined(),
        "slow_blink" => style.not_slow_blink(),
        "rapid_blink" => style.not_rapid_blink(),
        "reversed" => style.not_reversed(),
        "hidden" => style.not_hidden(),
        "crossed_out" => style.not_crossed_out(),
        _ => return None,
    })
}
