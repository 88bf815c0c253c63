//! The program `pager_frames`: plays recorded keys on a pager, and prints each frame.
//!
//! `pager_frames FILE COLUMNS ROWS` shows a file on a screen in memory. Each line of standard input
//! is the bytes of a read: words, each all its characters or the name of a byte (`ESC`, `SP`, `CR`,
//! `TAB`, `DEL`), and `TICK` a read that finds nothing. After each it prints the screen, with a sign
//! below what is styled: `^` reversed, `b` bold, `u` underlined, `B` both, `g` a background, `c`
//! another colour.
//!
//! After a line `--` stand fewer reads, in which each kind of key is. It plays them on half as many
//! columns and rows, cut at random places, and compares the last screen; and with each read, and each
//! call of the screen in the first ones, failing in turn, and counts the faults that were told. With
//! wrong words, or if a screen is another one, the status is 1. With a number as a fourth word it
//! only shows these reads as bytes for a terminal while one request for memory is refused, and prints
//! what came of it: `tools/refusals` has each request refused.
#![tactic(auto)]

mod frames;
mod recording;
mod refused;
mod trials;

use crate::frames::{Stage, print_frames};
use crate::recording::Recording;
use crate::refused::print_refused;
use crate::trials::print_trials;
use pager::parted;
use ratatui_core::layout::Size;
use std::process::ExitCode;
use std::{env, fs, io};

// The size that words say.
fn size_of(words: &[String]) -> Option<Size> {
    let width: u16 = words.get(2)?.as_str().parse().ok()?;
    let height: u16 = words.get(3)?.as_str().parse().ok()?;
    Some(Size { width, height })
}

// Half of the columns and rows: a small screen is drawn sooner.
fn half_of(size: Size) -> Size {
    Size {
        width: size.width / 2,
        height: size.height / 2,
    }
}

// Plays what standard input records on the text of a file.
fn play(rt: &HostRuntime, words: &[String]) -> anyhow::Result<bool> {
    let (Some(file), Some(size)) = (words.get(1), size_of(words)) else {
        return Ok(false);
    };
    let raw = fs::read_to_string(rt, file.as_str())?;
    let said = parted(rt.alloc(), raw.as_str())?;
    let text = match &said {
        Some((text, _)) => text.as_str(),
        None => raw.as_str(),
    };
    let script = io::read_to_string(rt.alloc(), rt.reader())?;
    let Some((script, trials)) = script.as_str().split_once("\n--\n") else {
        return Ok(false);
    };
    let fewer = Recording::read(rt.alloc(), trials)?;
    let stage = Stage {
        alloc: rt.alloc(),
        raw: raw.as_str(),
        text,
        size,
    };
    let small = Stage {
        size: half_of(size),
        ..stage
    };
    if let Some(number) = words.get(4) {
        let Ok(number) = number.as_str().parse::<usize>() else {
            return Ok(false);
        };
        print_refused(rt, small, &fewer, number)?;
        return Ok(true);
    }
    let recording = Recording::read(rt.alloc(), script)?;
    let are_drawn = print_frames(rt, stage, script, &recording)?;
    let are_told = print_trials(rt, small, &fewer)?;
    Ok(are_drawn && are_told)
}

fn main(rt: HostRuntime) -> anyhow::Result<ExitCode> {
    let words: Vec<String> = env::args(&rt)?.collect(rt.alloc())?;
    if play(&rt, words.as_slice())? {
        Ok(ExitCode::SUCCESS)
    } else {
        eprintln!(&rt; "pager_frames: a screen is another one, or the words are wrong")?;
        Ok(ExitCode::FAILURE)
    }
}
