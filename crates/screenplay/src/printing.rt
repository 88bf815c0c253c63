//! A script printed, or its fault written.

ghost use Rattle.std.specs.Prelude.{IfOk, IfSome, OnOk};
ghost use Rattle.std.specs.Io.KnownBytes.{Appends};
ghost use Rattle.std.specs.Process.{exit_status};
ghost use Rattle.screenplay.specs.Ending.{EndsScript, run_fault_line};

use crate::engine::run;
use crate::error::RunError;
use std::alloc::Global;
use std::io::{self, Read, Write};
use std::process::ExitCode;

// Writes the line that tells a fault.
fn tell<E: Write>(errors: &mut E, fault: RunError) -> io::Result<()>
    ensures { OnOk result
        (Appends (E.contents errors.old) (E.contents errors.new) (run_fault_line fault)) }
{
    writeln!(errors, "{fault}")
}

/// Prints the script that a reader gives, as `run` does, or says why it can't, and answers the
/// status for that.
///
/// # Errors
///
/// The error of the writer `errors` if the fault couldn't be written there.
pub fn print_script<R: Read, W: Write, E: Write>(
    alloc: Global,
    reader: &mut R,
    writer: &mut W,
    errors: &mut E,
) -> io::Result<ExitCode>
    ensures { IfOk result (λ status. IfSome (R.remaining reader.old) (λ bytes.
        EndsScript W.contents E.contents (exit_status status) bytes
        writer.old writer.new errors.old errors.new)) }
{
    match run(alloc, reader, writer) {
        Ok(()) => Ok(ExitCode::SUCCESS),
        Err(fault) => {
            tell(errors, fault)?;
            Ok(ExitCode::FAILURE)
        }
    }
}
