//! Whatever has a style, styled by name.
use ratatui_core::style::{Color, Stylize};
use ratatui_core::text::StyledGrapheme;
use row_words::answer::{Answer, Show};
use row_words::args::Args;
use row_words::error::RowError;
use std::borrow::CowStr;

// It on a background.
fn on_color<T: Stylize + Drop>(item: T, name: &str) -> Option<T::Item> {
    Some(match name {
        "black" => item.on_black(),
        "red" => item.on_red(),
        "green" => item.on_green(),
        "yellow" => item.on_yellow(),
        "blue" => item.on_blue(),
        "magenta" => item.on_magenta(),
        "cyan" => item.on_cyan(),
        "gray" => item.on_gray(),
        "dark_gray" => item.on_dark_gray(),
        "white" => item.on_white(),
        _ => return on_light_color(item, name.strip_prefix("light_")?),
    })
}

fn on_light_color<T: Stylize + Drop>(item: T, name: &str) -> Option<T::Item> {
    Some(match name {
        "red" => item.on_light_red(),
        "green" => item.on_light_green(),
        "yellow" => item.on_light_yellow(),
        "blue" => item.on_light_blue(),
        "magenta" => item.on_light_magenta(),
        "cyan" => item.on_light_cyan(),
        _ => return None,
    })
}

// It in a foreground, or with a modifier or without it.
fn shortened<T: Stylize + Drop>(item: T, name: &str) -> Option<T::Item> {
    Some(match name {
        "black" => item.black(),
        "red" => item.red(),
        "green" => item.green(),
        "yellow" => item.yellow(),
        "blue" => item.blue(),
        "magenta" => item.magenta(),
        "cyan" => item.cyan(),
        "gray" => item.gray(),
        "dark_gray" => item.dark_gray(),
        "white" => item.white(),
        _ => return changed_otherwise(item, name),
    })
}

fn changed_otherwise<T: Stylize + Drop>(item: T, name: &str) -> Option<T::Item> {
    if let Some(name) = name.strip_prefix("light_") {
        return in_light_color(item, name);
    }
    match name.strip_prefix("not_") {
        Some(name) => without_modifier(item, name),
        None => with_modifier(item, name),
    }
}

fn in_light_color<T: Stylize + Drop>(item: T, name: &str) -> Option<T::Item> {
    Some(match name {
        "red" => item.light_red(),
        "green" => item.light_green(),
        "yellow" => item.light_yellow(),
        "blue" => item.light_blue(),
        "magenta" => item.light_magenta(),
        "cyan" => item.light_cyan(),
        _ => return None,
    })
}

fn with_modifier<T: Stylize + Drop>(item: T, name: &str) -> Option<T::Item> {
    Some(match name {
        "bold" => item.bold(),
        "dim" => item.dim(),
        "italic" => item.italic(),
        "underlined" => item.underlined(),
        "slow_blink" => item.slow_blink(),
        "rapid_blink" => item.rapid_blink(),
        "reversed" => item.reversed(),
        "hidden" => item.hidden(),
        "crossed_out" => item.crossed_out(),
        "reset" => item.reset(),
        _ => return None,
    })
}

fn without_modifier<T: Stylize + Drop>(item: T, name: &str) -> Option<T::Item> {
    Some(match name {
        "bold" => item.not_bold(),
        "dim" => item.not_dim(),
        "italic" => item.not_italic(),
        "underlined" => item.not_underlined(),
        "slow_blink" => item.not_slow_blink(),
        "rapid_blink" => item.not_rapid_blink(),
        "reversed" => item.not_reversed(),
        "hidden" => item.not_hidden(),
        "crossed_out" => item.not_crossed_out(),
        _ => return None,
    })
}

// It after a call.
fn styled<T: Stylize + Drop>(item: T, word: &str, args: &mut Args<'_>) -> Option<T::Item> {
    match word {
        "set_style" => Some(item.set_style(args.style())),
        "add_modifier" => Some(item.add_modifier(args.modifier())),
        "remove_modifier" => Some(item.remove_modifier(args.modifier())),
        _ => match word.strip_prefix("on_") {
            Some(name) => on_color(item, name),
            None => shortened(item, word),
        },
    }
}

// It in a colour.
fn colored<T: Stylize + Drop>(item: T, word: &str, color: Color) -> T::Item {
    if word == "fg" {
        item.fg(color)
    } else {
        item.bg(color)
    }
}

// A call on it.
fn called<T: Stylize + Drop>(
    item: T,
    args: &mut Args<'_>,
    answer: &mut Answer,
) -> Result<(), RowError>
where
    T::Item: Show + Drop,
{
    match args.word()? {
        "style" => answer.add(item.style()),
        word @ ("fg" | "bg") => answer.add(colored(item, word, args.color()?)),
        word => match styled(item, word, args) {
            Some(item) => answer.add(item),
            None => Err(RowError::Unread),
        },
    }
}

/// Makes a call on what has a style: what it is, and after a comma the call.
pub fn stylize(args: &mut Args<'_>, answer: &mut Answer) -> Result<(), RowError> {
    match args.word()? {
        "span" => called(args.span()?, args, answer),
        "line" => called(args.line()?, args, answer),
        "text" => called(args.lines()?, args, answer),
        word => stylize_text(word, args.text()?, args, answer),
    }
}

fn stylize_text(
    word: &str,
    text: &str,
    args: &mut Args<'_>,
    answer: &mut Answer,
) -> Result<(), RowError> {
    match word {
        "str" => called(text, args, answer),
        "String" => called(String::from_str(args.alloc, text)?, args, answer),
        "CowStr" => called(CowStr::Borrowed(text), args, answer),
        "grapheme" => called(StyledGrapheme::new(text, args.style()), args, answer),
        "is_whitespace" => answer.add(StyledGrapheme::new(text, args.style()).is_whitespace()),
        _ => Err(RowError::Unread),
    }
}
