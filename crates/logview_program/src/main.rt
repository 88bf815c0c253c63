//! The program `logview`: reads a log from standard input and prints the screen that shows it.
//!
//! Its first line is the screen's size, `W H`. A log that can't be read or shown gives one line on
//! standard error, status 1 and no output; so does output that can't be written. `--help` says
//! so, and `--version` which it is; other words, and words that can't be read, are an error, with
//! status 2.
#![tactic(auto)]

use logview::{LogFault, print_log, tell};
use programs::VERSION;
use std::env;
use std::io::{self, BufWriter};
use std::process::ExitCode;

static HELP: &str = "logview: reads a log from standard input and prints the screen that shows it.
The first line is the screen's size, `W H`, in columns and rows from 1 to 65535; each other line is a
line of the log. Printed are the rows that scrolled off and those of the screen, the last of them the
status line. A log that can't be read or shown gives one line on standard error, and status 1.
";

// The first word of the command line, if there is one.
fn first_word(rt: &HostRuntime) -> io::Result<Option<String>> {
    Ok(env::args(rt)?.nth(1))
}

// What a word gives: a page on the program, its version, or an error.
fn answer(rt: &HostRuntime, word: &str) -> ExitCode {
    let printed = match word {
        "--help" => print!(rt; "{HELP}"),
        "--version" => println!(rt; "logview {VERSION}"),
        _ => {
            let _ = eprintln!(rt; "logview: it takes no words; --help says what it reads");
            return ExitCode::from(2);
        }
    };
    match printed {
        Ok(()) => ExitCode::SUCCESS,
        Err(_) => {
            let _ = eprintln!(rt; "output: write failed");
            ExitCode::FAILURE
        }
    }
}

fn main(rt: HostRuntime) -> ExitCode {
    match first_word(&rt) {
        Ok(None) => {}
        Ok(Some(word)) => return answer(&rt, word.as_str()),
        Err(error) => {
            let _ = eprintln!(rt; "logview: a word of the command line can't be read: {error}");
            return ExitCode::from(2);
        }
    }
    let (mut reader, mut errors) = (rt.reader(), rt.stderr());
    let Ok(mut writer) = BufWriter::new(rt.alloc(), rt.stdout()) else {
        let _ = tell(&mut errors, LogFault::Memory);
        return ExitCode::FAILURE;
    };
    match print_log(rt.alloc(), &mut reader, &mut writer, &mut errors) {
        Ok(status) => status,
        Err(_) => ExitCode::FAILURE,
    }
}
