//! The engine: from the bytes of a script to the scenes that it shows, and to their print.

ghost use Rattle.std.specs.Prelude.{◌≡◌, ◌++◌, IfOk, IfErr, IfSome, OnOk};
ghost use Rattle.std.specs.Str.{IsUtf8};
ghost use Rattle.std.specs.Io.KnownBytes.{Appends};
ghost use Rattle.rtui_backend.specs.Print.{printed_screen};
ghost use Rattle.rtui_backend.specs.TestBackend.{screen_of};
ghost use Rattle.screenplay.specs.Run.{IsGoodStage};
ghost use Rattle.screenplay.specs.Engine.{IsRunFault, IsScript, PrintsActs, PrintsRun, PrintsText};
ghost use Rattle.screenplay.specs.Inner.{StopsAtStep};
ghost use Rattle.screenplay.specs.declared.error.RunError.TheVariants.{Step as AtStep, Read, Memory, Write};

use crate::act::Act;
use crate::error::RunError;
use crate::playing::{open, play_plan};
use crate::scene::{PlayCause, Stage, StepError};
use crate::script::{Script, ScriptError, read_script};
use rtui_backend::TestBackend;
use rtui_terminal::Terminal;
use std::alloc::Global;
use std::io::{self, ErrorKind, Read, Write};
use std::str;

// All that a reader has left.
fn read_bytes<R: Read>(alloc: Global, reader: &mut R) -> Result<Vec<u8>, RunError>
    ensures ok { IfOk result (λ bytes. IfSome (R.remaining reader.old) (λ all. bytes.items ≡ all)) }
    ensures err { IfErr result (λ fault.
        IfSome (R.remaining reader.old) (λ bytes. IsRunFault bytes fault)) }
    ensures not_write { IfErr result (λ fault. fault ≡ Write → ⊥) }
{
    let mut bytes = Vec::new(alloc);
    match reader.read_to_end(&mut bytes) {
        Ok(_) => Ok(bytes),
        Err(error) if error.kind() == ErrorKind::OutOfMemory => Err(RunError::Memory),
        Err(_) => Err(RunError::Read),
    }
}

// Writes a text, and flushes it.
fn write_text<W: Write>(writer: &mut W, text: &[u8]) -> io::Result<()>
    ensures { OnOk result (Appends (W.contents writer.old) (W.contents writer.new) text.now) }
{
    writer.write_all(text)?;
    writer.flush()
}

// The script that these bytes are.
fn script_of(alloc: Global, bytes: &[u8]) -> Result<Script<'_>, RunError>
    ensures ok { IfOk result (IsScript bytes.now) }
    ensures stage { IfOk result (λ script. IfSome script.stage IsGoodStage) }
    ensures err { IfErr result (IsRunFault bytes.now) }
    ensures not_read { IfErr result (λ fault. fault ≡ Read → ⊥) }
    ensures not_write { IfErr result (λ fault. fault ≡ Write → ⊥) }
{
    let Ok(text) = str::from_utf8(bytes) else {
        return Err(RunError::NotText);
    };
    read_script(alloc, text).map_err(|error| match error {
        ScriptError::Line(number) => RunError::Line(number),
        ScriptError::Memory => RunError::Memory,
    })
}

// Adds the printed text of what the screen shows.
fn show(text: &mut Vec<u8>, terminal: &Terminal<TestBackend>) -> Result<(), RunError>
    ensures ok { OnOk result (text.new.items
        ≡ text.old.items ++ printed_screen (screen_of terminal.now.backend)) }
    ensures err { IfErr result (λ fault. fault ≡ Memory) }
{
    terminal
        .backend()
        .write_to(text)
        .map_err(|_| RunError::Memory)
}

fn step_fault(step: usize, cause: PlayCause) -> RunError
    ensures { result ≡ AtStep (record { step = step; cause = cause }) }
{
    RunError::Step(StepError { step, cause })
}

// Plays the acts of a script on its stage; it gives the text of what they show.
fn play_acts(alloc: Global, stage: Stage, acts: &[Act<'_>]) -> Result<Vec<u8>, RunError>
    requires { IsGoodStage stage }
    ensures ok { IfOk result (λ text. PrintsActs stage acts.now text.items) }
    ensures fault { IfErr result (StopsAtStep stage acts.now) }
{
    let mut text = Vec::new(alloc);
    let mut steps = 0usize;
    let Ok(mut terminal) = open(alloc, stage) else {
        return Err(step_fault(0, PlayCause::Memory));
    };
    for act in acts {
        match act {
            Act::Play(plan) => {
                steps += 1;
                if let Err(cause) = play_plan(alloc, &mut terminal, stage.viewport, plan) {
                    return Err(step_fault(steps, cause));
                }
            }
            Act::Show => show(&mut text, &terminal)?,
        }
    }
    Ok(text)
}

/// Plays the script that these bytes are, and gives the text that it prints: each scene that it
/// shows, in order.
///
/// The text is kept until the last step is played, and no scene is.
///
/// # Errors
///
/// - `Line`: this line is the first bad one.
/// - `Step`: this step can't be played.
/// - `NotText`: the bytes aren't UTF-8.
/// - `Memory`: memory was refused.
pub fn printed_text(alloc: Global, bytes: &[u8]) -> Result<Vec<u8>, RunError>
    ensures printed { IfOk result (λ text. PrintsText bytes.now text.items) }
    ensures fault { IfErr result (IsRunFault bytes.now) }
    ensures not_read { IfErr result (λ fault. fault ≡ Read → ⊥) }
    ensures not_write { IfErr result (λ fault. fault ≡ Write → ⊥) }
{
    let script = script_of(alloc, bytes)?;
    match script.stage {
        Some(stage) => play_acts(alloc, stage, script.acts.as_slice()),
        None => Ok(Vec::new(alloc)),
    }
}

/// Reads a script to its end, plays it, and writes the scenes that it shows.
///
/// # Errors
///
/// Those of [`printed_text`]; `Read` if the reader failed; and `Write` if the writer failed. With
/// any but `Write` nothing was written.
pub fn run<R: Read, W: Write>(alloc: Global, reader: &mut R, writer: &mut W) -> Result<(), RunError>
    ensures printed { OnOk result (IfSome (R.remaining reader.old) (λ bytes.
        PrintsRun bytes (W.contents writer.old) (W.contents writer.new))) }
    ensures fault { IfErr result (λ fault.
        IfSome (R.remaining reader.old) (λ bytes. IsRunFault bytes fault)) }
    ensures nothing_written { IfErr result (λ fault.
        (fault ≡ Write → ⊥) → writer.new ≡ writer.old) }
{
    let bytes = read_bytes(alloc, reader)?;
    let text = printed_text(alloc, bytes.as_slice())?;
    write_text(writer, text.as_slice()).map_err(|_| RunError::Write)
}
