//! Recordings played again: cut at random places, and with reads and calls that fail.

ghost use Rattle.ratatui_core.specs.Backend.{IsSameBackend};

use crate::frames::Stage;
use crate::recording::{Player, Recording};
use crate::refused::{Failed, failed_reads, writes_given_back};
use ratatui_acts::{Fault, Nothing, Seat, run};
use ratatui_app::OnScreen;
use ratatui_core::backend::TestBackend;
use ratatui_core::terminal::Viewport;
use std::io;

/// Each call of a screen or of a writer in so many reads is made to fail, one in each recording.
const READS: usize = 13;

/// How many times a recording is cut.
const CUTS: u32 = 10;

// Lets a call of a screen fail, the one after so many, if there is a number.
fn failing(mut screen: TestBackend, calls: Option<u64>) -> TestBackend
    ensures { IsSameBackend screen result }
{
    let Some(calls) = calls else {
        return screen;
    };
    screen.fail_after(calls);
    screen
}

// What came of a recording: its screen, if that could be begun; and whether it was played to its
// end, or the fault.
fn played(
    stage: Stage<'_>,
    player: &mut Player<'_>,
    calls: Option<u64>,
) -> Option<(Option<OnScreen<TestBackend>>, &'static str)> {
    let Ok(backend) = TestBackend::new(stage.alloc, stage.size.width, stage.size.height) else {
        return None;
    };
    let screen = failing(backend, calls);
    let mut seat = Seat::new(stage.pager()?);
    let Ok(mut glass) = OnScreen::begin(stage.alloc, Viewport::Fullscreen, screen) else {
        return Some((None, "draw"));
    };
    let told = match run(player, &mut Nothing, true, &mut glass, &mut seat) {
        Ok(()) => "over",
        Err(Fault::Read(_)) => "read",
        Err(Fault::Memory) => "memory",
        Err(Fault::Show(_)) => "draw",
        Err(Fault::Outside(_) | Fault::Endless) => "end",
    };
    Some((Some(glass), told))
}

// Whether there are two screens, and they show the same.
fn is_same(one: &Option<OnScreen<TestBackend>>, other: &Option<OnScreen<TestBackend>>) -> bool {
    match (one, other) {
        (Some(one), Some(other)) => {
            let buffer = other.terminal().backend().buffer();
            one.terminal().backend().buffer_is(buffer)
        }
        _ => false,
    }
}

// How often a recording that is cut leads to the same screen as the whole one.
fn same_screens(stage: Stage<'_>, recording: &Recording) -> Option<u32> {
    let mut whole = Player::new(recording, None, usize::MAX);
    let (first, first_told) = played(stage, &mut whole, None)?;
    let mut same = 0u32;
    for seed in 0..CUTS {
        let mut cut = Player::new(recording, Some(seed), usize::MAX);
        let (second, told) = played(stage, &mut cut, None)?;
        if told == first_told && is_same(&first, &second) {
            same = same.saturating_add(1);
        }
    }
    Some(same)
}

// How many calls of the screen that fail, one in each recording, are told as such, and how many do:
// each call that its first reads lead to.
fn told_calls(stage: Stage<'_>, recording: &Recording) -> Option<(u64, u64)> {
    let mut told = 0u64;
    for calls in 0..1000u64 {
        let mut player = Player::new(recording, None, READS);
        let (_, fault) = played(stage, &mut player, Some(calls))?;
        match fault {
            "draw" => told = told.saturating_add(1),
            _ => return Some((told, calls)),
        }
    }
    None
}

/// Prints what came of the trials; answers whether all went as they should.
pub fn print_trials(rt: &HostRuntime, stage: Stage<'_>, recording: &Recording) -> io::Result<bool> {
    let same = same_screens(stage, recording).unwrap_or(0);
    println!(rt; "cuts: {same} of {CUTS} lead to the same screen")?;
    let failed = failed_reads(stage, recording).unwrap_or(Failed::nothing());
    let (reads, told, given_back) = (failed.reads, failed.told, failed.given_back);
    println!(rt; "reads: {told} of {reads} that fail are told")?;
    let (calls_told, calls) = told_calls(stage, recording).unwrap_or((0, 1));
    println!(rt; "calls: {calls_told} of {calls} that fail are told")?;
    println!(rt; "reads: {given_back} of {reads} that fail give the terminal back")?;
    let (wrote, writes) = writes_given_back(stage, recording, READS);
    println!(rt; "writes: {wrote} of {writes} that fail give the terminal back, or were to")?;
    let are_told = reads > 0 && told == reads && calls_told == calls;
    Ok(same == CUTS && are_told && given_back == reads && wrote == writes)
}
