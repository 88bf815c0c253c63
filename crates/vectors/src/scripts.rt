//! Scripts of the program `screenplay`, run over bytes in memory.
use row_words::answer::Answer;
use row_words::args::Args;
use row_words::error::RowError;
use screenplay::{PlayCause, RunError, StepError, run};

/// Runs a script, and adds what it prints, or why it fails if not for want of memory.
pub fn script(args: &mut Args<'_>, answer: &mut Answer) -> Result<(), RowError> {
    if args.word()? != "run" {
        return Err(RowError::Unread);
    }
    let mut reader = args.text()?.as_bytes();
    let mut written = Vec::new(args.alloc);
    match run(args.alloc, &mut reader, &mut written) {
        Ok(()) => match String::from_utf8(written) {
            Ok(text) => answer.add(text.as_str()),
            Err(_) => Err(RowError::Unread),
        },
        Err(RunError::Memory)
        | Err(
            RunError::Step(
                StepError {
                    cause: PlayCause::Memory,
                    ..
                },
            ),
        ) => Err(RowError::Memory),
        Err(fault) => answer.refused(&fault),
    }
}
