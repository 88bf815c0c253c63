//! The program `screenplay`: reads a script from standard input and prints the screens that it
//! shows.
//!
//! A script that can't be read or played gives one line on standard error, status 1 and no output;
//! so does output that can't be written. `--help` says so, and `--version` which it is; other words,
//! and words that can't be read, are an error, with status 2.
#![tactic(auto)]

use programs::VERSION;
use screenplay::print_script;
use std::process::ExitCode;
use std::{env, io};

static HELP: &str =
    "screenplay: reads a script from standard input and prints the screens that it shows.
The first line makes the screen: `screen W H`, `inline W H ROWS` or `fixed W H X Y COLUMNS ROWS`. The
others are its steps: `text`, `put`, `size`, `draw`, `insert`, `clear`, `show`; examples/README.md has
each. A script that can't be read or played gives one line on standard error, and status 1.
";

// The first word of the command line, if there is one.
fn first_word(rt: &HostRuntime) -> io::Result<Option<String>> {
    Ok(env::args(rt)?.nth(1))
}

// What a word gives: a page on the program, its version, or an error.
fn answer(rt: &HostRuntime, word: &str) -> ExitCode {
    let printed = match word {
        "--help" => print!(rt; "{HELP}"),
        "--version" => println!(rt; "screenplay {VERSION}"),
        _ => {
            let _ = eprintln!(rt; "screenplay: it takes no words; --help says what it reads");
            return ExitCode::from(2);
        }
    };
    match printed {
        Ok(()) => ExitCode::SUCCESS,
        Err(_) => {
            let _ = eprintln!(rt; "output: write failed");
            ExitCode::FAILURE
        }
    }
}

fn main(rt: HostRuntime) -> ExitCode {
    match first_word(&rt) {
        Ok(None) => {}
        Ok(Some(word)) => return answer(&rt, word.as_str()),
        Err(error) => {
            let _ = eprintln!(rt; "screenplay: a word of the command line can't be read: {error}");
            return ExitCode::from(2);
        }
    }
    let (mut reader, mut writer, mut errors) = (rt.reader(), rt.stdout(), rt.stderr());
    match print_script(rt.alloc(), &mut reader, &mut writer, &mut errors) {
        Ok(status) => status,
        Err(_) => ExitCode::FAILURE,
    }
}
