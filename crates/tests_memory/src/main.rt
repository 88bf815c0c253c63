//! The program `tests_memory`: makes calls that take memory, each in a case of its own, and says how
//! each went.
//!
//! It prints the name of each case and what came of it: `accepted`; `refused, and as it was` if
//! memory was refused to the call, what it must leave stands, and the same call was then accepted;
//! `not ready` if memory was refused before the call; and else `broken`. `tests_memory MODULE REQUEST`
//! makes the cases of one module, and first so many requests of its own that the one of number
//! `LAST` is that request of the cases, counted from the start of the program; it says if that was
//! refused before them or after them.
//! `tools/refusals` has each request refused in turn.
#![tactic(auto)]

mod backends;
mod borrowed;
mod buffers;
mod cells;
mod extends;
mod logs;
mod made;
mod outcome;
mod painting;
mod scripts;
mod terminals;
mod texts;
mod widgets;

use crate::backends::Backends;
use crate::borrowed::Borrowed;
use crate::buffers::Buffers;
use crate::cells::Cells;
use crate::extends::Extends;
use crate::logs::Logs;
use crate::made::Made;
use crate::outcome::Cases;
use crate::painting::Painting;
use crate::scripts::Scripts;
use crate::terminals::Terminals;
use crate::texts::Texts;
use crate::widgets::{Widgets, WithoutMemory};
use std::alloc::Global;
use std::process::ExitCode;
use std::{env, io};

// The request that is refused.
const LAST: usize = 1500;

// What is asked for: the cases of a module, and which request is refused.
#[derive(Drop)]
struct Asked {
    module: String,
    number: usize,
}

// Prints what came of each case of a module, if its cases are asked for.
fn report<C: Cases>(rt: &HostRuntime, module: &str, asked: Option<&str>) -> io::Result<()> {
    if asked.is_some_and(|it| it != module) {
        return Ok(());
    }
    for (number, name) in C::names().iter().enumerate() {
        match C::outcome_of(rt.alloc(), number) {
            Ok(outcome) => println!(rt; "{name}: {outcome}")?,
            Err(_) => println!(rt; "{name}: not ready")?,
        }
    }
    Ok(())
}

// Prints what came of each case, or of those of the module that is asked for.
fn report_all(rt: &HostRuntime, asked: Option<&str>) -> io::Result<()> {
    report::<Painting>(rt, "painting", asked)?;
    report::<Buffers>(rt, "buffers", asked)?;
    report::<Cells>(rt, "cells", asked)?;
    report::<Texts>(rt, "texts", asked)?;
    report::<Extends>(rt, "extends", asked)?;
    report::<Made>(rt, "made", asked)?;
    report::<Backends>(rt, "backends", asked)?;
    report::<Terminals>(rt, "terminals", asked)?;
    report::<Scripts>(rt, "scripts", asked)?;
    report::<Logs>(rt, "logs", asked)?;
    report::<Widgets>(rt, "widgets", asked)?;
    report::<Borrowed>(rt, "borrowed", asked)?;
    report::<WithoutMemory>(rt, "without_memory", asked)
}

// Makes so many requests; how many of them were refused.
fn request(alloc: Global, count: usize) -> usize {
    let mut refused = 0usize;
    for _ in 0..count {
        if String::from_str(alloc, "request").is_err() {
            refused = refused.saturating_add(1);
        }
    }
    refused
}

// The module and the request that are asked for, if they are.
fn read_words(rt: &HostRuntime) -> Option<Asked> {
    let mut words = env::args(rt).ok()?;
    let _program = words.next()?;
    let module = words.next()?;
    let number = words.next()?.as_str().parse::<usize>().ok()?;
    Some(Asked { module, number })
}

// Runs the cases between requests of its own.
fn run(rt: &HostRuntime) -> io::Result<()> {
    let Some(asked) = read_words(rt) else {
        return report_all(rt, None);
    };
    if request(rt.alloc(), LAST.saturating_sub(asked.number)) > 0 {
        return println!(rt; "before the cases");
    }
    report_all(rt, Some(asked.module.as_str()))?;
    if request(rt.alloc(), asked.number) > 0 {
        return println!(rt; "after the cases");
    }
    Ok(())
}

fn main(rt: HostRuntime) -> ExitCode {
    match run(&rt) {
        Ok(()) => ExitCode::SUCCESS,
        Err(_) => ExitCode::FAILURE,
    }
}
