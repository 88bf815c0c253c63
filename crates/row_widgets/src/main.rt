//! The program `row_widgets`: reads cases of widgets, each with the picture that it should leave,
//! prints how many leave theirs, and both pictures of each that leaves another one.
//!
//! `row_widgets FILE..` reads files. Those that end in `.pictures` are said here; the crate
//! `row_parts` says what the rows of other files are.
//!
//! Blank lines part the cases. The first line of a case has a widget, the size of a buffer, options,
//! and texts after bars: `list 8x3 selected=1 symbol=> | one | two`, with tabs in place of the blanks
//! before the first text. Its picture follows: of a list or a table the state that it leaves (the
//! first item that is shown, the selected one, the selected column); then each row of the buffer,
//! between bars, and under a row a line for each mark that a cell in it has: `f` the letters of
//! foregrounds, `b` those of backgrounds, and one for each modifier.
//!
//! What begins with `#` says whose pictures the cases after it have. After each such group stands how
//! many leave their picture, and how many don't.
//!
//! A style is written as signs: a small letter is a foreground and a capital a background (`k` black,
//! `r`, `g`, `y`, `b`, `m`, `c`, `w` white, `n` the terminal's own), `*` bold, `.` dim, `/` italic,
//! `_` underlined, `^` reversed, `~` crossed out. In a line each `{r}` begins a span of this style. An
//! item, a row, a cell, a bar, a label of a gauge and a divider may begin with a style, as in `<rG>`.
//! `\` parts the lines of an item or a cell, and `;` the cells of a row.
//!
//! Options of all are `in=X,Y,WIDTH,HEIGHT`, the area in place of the whole buffer, and `ground`, the
//! style of an `x` that stands in each cell before; of all that may have a box `box`, the style of its
//! lines, `inside`, its own, and, but for canvases, `title`; and of most `style`. The others by
//! widget:
//!
//! - `block`: `borders` (of `tlrb`), `type`, `lines` and `titles` (styles), `align`, `at` (`bottom`),
//!   `places` (of each title), `padding`; its texts are titles;
//! - `clear`;
//! - `paragraph`: `wrap` (`trim` or `keep`), `align`, `scroll` (rows and columns);
//! - `list`: `selected`, `offset`, `symbol`, `repeat`, `marks` (when the symbol has its columns),
//!   `from` (`bottom`), `padding` (of scrolling), `highlight`;
//! - `table`: `widths` (as `l5,p30,m3,M8,r1/3,f1`), `header`, `footer`, `spacing`, `flex`, `selected`,
//!   `column`, `offset`, `symbol`, `marks`, `height`, `top` and `margin` (of each row), `highlight`,
//!   `columns` and `cells` (styles);
//! - `gauge`: `percent` or `ratio`, `label`, `bar` (its style), `unicode`;
//! - `linegauge`: `percent` or `ratio`, `label`, `filled`, `unfilled`, `set`;
//! - `tabs`: `selected`, `divider`, `left` and `right` (paddings), `highlight`;
//! - `sparkline`: `data`, `max`, `set`, `from` (`right`), `absent`, `absents` (its style);
//! - `barchart`: `width`, `gap`, `groups` (the gap between groups), `max`, `direction`, `set`, `bars`,
//!   `values` and `labels` (styles); its texts are `label=value` or `label=value=text`, and one
//!   without `=` begins a group with this label;
//! - `scrollbar`: `side`, `content`, `position`, `seen`, `arrows` (`no`), `thumb`, `track`, and the
//!   styles `thumbs`, `tracks`, `begins`, `ends`;
//! - `canvas`: `marker`, `x` and `y` (bounds), `back` (a colour); its texts are `line r X Y X Y`,
//!   `rectangle r X Y WIDTH HEIGHT`, `circle r X Y RADIUS`, `points r X,Y X,Y`, `layer` and
//!   `print X Y TEXT`;
//! - `chart`: `marker`, `kind`, `x`, `xtitle`, `xlabels`, `xalign`, `xstyle`, the same of `y`,
//!   `names`, `legend` (how large it may be), `legendat`; its texts are a style and points.
#![tactic(auto)]

mod bars;
mod boxes;
mod canvases;
mod cases;
mod charts;
mod kinds;
mod looks;
mod shown;
mod tables;
mod widgets;

use std::alloc::Global;
use std::io::{self, BufWriter, Write};
use std::{env, fs};

// How many cases of a group leave their picture, and how many don't.
#[derive(Clone, Copy)]
struct Counts {
    alike: usize,
    apart: usize,
}

// Prints what a case leaves beside its picture.
fn print_apart<W: Write>(case: &str, shown: &str, writer: &mut W) -> io::Result<()> {
    writeln!(writer, "{case}\nhere:\n{shown}")
}

// Whether a case leaves its picture; if it doesn't, prints both.
fn is_alike<W: Write>(alloc: Global, text: &str, writer: &mut W) -> io::Result<bool> {
    let (line, picture) = text.split_once("\n").unwrap_or((text, ""));
    let Some(case) = cases::case_of(line) else {
        writeln!(writer, "{text}\nis no case")?;
        return Ok(false);
    };
    let shown = kinds::show(alloc, &case)?;
    if shown.as_str().trim_end_matches("\n") == picture {
        return Ok(true);
    }
    print_apart(text, shown.as_str(), writer)?;
    Ok(false)
}

// Prints how many cases of a group leave their picture.
fn print_counts<W: Write>(counts: Counts, writer: &mut W) -> io::Result<()> {
    let Counts { alike, apart } = counts;
    if alike == 0 && apart == 0 {
        return Ok(());
    }
    writeln!(writer, "{alike} alike, {apart} apart\n")
}

// Reads a text, and adds what it is to the counts of its group.
fn read<W: Write>(alloc: Global, text: &str, counts: Counts, writer: &mut W) -> io::Result<Counts> {
    if text.starts_with("#") {
        print_counts(counts, writer)?;
        writeln!(writer, "{text}")?;
        return Ok(Counts { alike: 0, apart: 0 });
    }
    let Counts { alike, apart } = counts;
    if is_alike(alloc, text, writer)? {
        Ok(Counts {
            alike: alike.saturating_add(1),
            apart,
        })
    } else {
        Ok(Counts {
            alike,
            apart: apart.saturating_add(1),
        })
    }
}

// Compares the pictures of a text with what is drawn.
fn compare(rt: &HostRuntime, text: &str) -> io::Result<()> {
    let mut writer = BufWriter::new(rt.alloc(), io::writer(rt))?;
    let mut counts = Counts { alike: 0, apart: 0 };
    for part in text.trim_end_matches("\n").split("\n\n") {
        counts = read(rt.alloc(), part, counts, &mut writer)?;
    }
    print_counts(counts, &mut writer)?;
    writer.flush()
}

// Compares the pictures of a file, or prints those of its rows.
fn print_file(rt: &HostRuntime, name: &str) -> io::Result<()> {
    let text = fs::read_to_string(rt, name)?;
    if name.ends_with(".pictures") {
        return compare(rt, text.as_str());
    }
    for line in text.lines() {
        row_parts::print_row(rt, line)?;
    }
    Ok(())
}

fn main(rt: HostRuntime) -> io::Result<()> {
    for word in env::args(&rt)?.skip(1) {
        print_file(&rt, word.as_str())?;
    }
    Ok(())
}
