//! Plays of steps, and runs of scripts.
use crate::outcome::{Cases, Outcome, judged, judged_at};
use rtui_terminal::Viewport;
use rtui_text::Text;
use screenplay::{PlayCause, PlayFault, Puts, RunError, Scene, Stage, Step, play, run};
use std::alloc::{AllocError, Global};

fn steps(alloc: Global) -> Result<Vec<Step<'static>>, AllocError> {
    let mut steps = Vec::new(alloc);
    steps.push(Step::Draw {
        size: None,
        text: Text::raw(alloc, "ab")?,
        puts: Puts::new(alloc),
    })?;
    steps.push(Step::Insert(Text::raw(alloc, "cd")?))?;
    Ok(steps)
}

fn play_steps(alloc: Global, steps: &[Step<'_>]) -> Result<Vec<Scene>, PlayFault> {
    let stage = Stage {
        width: 3,
        height: 2,
        viewport: Viewport::Inline(1),
    };
    play(alloc, stage, steps)
}

fn is_same_scene(one: &Scene, other: &Scene) -> bool {
    one.viewport == other.viewport && one.screen == other.screen && one.history == other.history
}

// Whether some scenes are the first ones of others.
fn begins(scenes: &[Scene], all: &[Scene]) -> bool {
    scenes.len() <= all.len()
        && scenes
            .iter()
            .zip(all.iter())
            .all(|(one, other)| is_same_scene(one, other))
}

// A play that is refused memory says before which step, and its scenes are the first ones of the
// same play with memory: of the start and of each step that was done.
fn played(alloc: Global) -> Result<Outcome, AllocError> {
    let steps = steps(alloc)?;
    let fault = match play_steps(alloc, steps.as_slice()) {
        Ok(scenes) => return Ok(judged(false, scenes.len() == 3, true)),
        Err(fault) => fault,
    };
    let is_told = fault.cause == PlayCause::Memory && fault.scenes.len() == fault.step;
    let is_right = match play_steps(alloc, steps.as_slice()) {
        Ok(all) => all.len() == 3 && begins(fault.scenes.as_slice(), all.as_slice()),
        Err(_) => false,
    };
    Ok(judged_at(Some(fault.step), is_told, is_right))
}

static SCRIPT: &str = "inline 3 2 1\ntext ab\ndraw\ntext cd\nput 2 1 x\ninsert\nshow\ndraw\nshow\n";

static SHOWN: &str = "|cd \n|ab \n|cd \n|  x\n";

// What comes of a run.
#[derive(Debug, Clone, Copy, PartialEq, Eq)]
enum Ran {
    Whole,
    // Memory was refused: to the reading or the writing, or before this step.
    Refused,
    RefusedAt(usize),
    Otherwise,
}

fn run_script(alloc: Global, written: &mut Vec<u8>) -> Ran {
    let mut reader = SCRIPT.as_bytes();
    match run(alloc, &mut reader, written) {
        Ok(()) => Ran::Whole,
        Err(RunError::Memory) | Err(RunError::Write) => Ran::Refused,
        Err(RunError::Step(fault)) if fault.cause == PlayCause::Memory => Ran::RefusedAt(
            fault.step,
        ),
        Err(_) => Ran::Otherwise,
    }
}

// A run that is refused memory says so, or before which step, and has written nothing.
fn run_over_memory(alloc: Global) -> Result<Outcome, AllocError> {
    let mut written = Vec::new(alloc);
    let first = run_script(alloc, &mut written);
    if first == Ran::Whole {
        return Ok(judged(false, written.as_slice() == SHOWN.as_bytes(), true));
    }
    let is_left = written.is_empty() && first != Ran::Otherwise;
    let mut again = Vec::new(alloc);
    let second = run_script(alloc, &mut again);
    let is_right = second == Ran::Whole && again.as_slice() == SHOWN.as_bytes();
    Ok(match first {
        Ran::RefusedAt(step) => judged_at(Some(step), is_left, is_right),
        _ => judged(true, is_left, is_right),
    })
}

/// Scripts that are played and run.
pub struct Scripts;

static SCRIPTS: [&str; 2] = ["play", "run"];

impl Cases for Scripts {
    fn names() -> &'static [&'static str] {
        &SCRIPTS
    }

    fn outcome_of(alloc: Global, number: usize) -> Result<Outcome, AllocError> {
        match number {
            0 => played(alloc),
            _ => run_over_memory(alloc),
        }
    }
}
