//! The program `remover`: the files of a folder, of which one is removed after a question.
//!
//! `remover FOLDER` shows the name of its first file. `j` and `k` show the next name and the one
//! before, `d` asks whether that file is to be removed, `y` says so, and `q` ends. A file is removed
//! only while each terminal that has read what was sent shows the question that names it: that is
//! the condition of the call that removes. `tools/play remover_program FOLDER` shows it.
#![tactic(auto)]

mod disk;

use crate::disk::Disk;
use programs::{Stream, VERSION, is_terminal};
use ratatui_acts::Seat;
use ratatui_ansi::{AnsiBackend, size_told};
use ratatui_app::run_and_leave;
use ratatui_files::{Answer, Command, Info, Kind, OnDisk, Path, Performs};
use ratatui_reads::Recorded;
use remover::{Name, Names, Remover};
use std::alloc::Global;
use std::env;
use std::io::BufWriter;
use std::process::ExitCode;

static HELP: &str =
    "remover FOLDER: shows the files of a folder, of which one is removed after a question.
j and k show the next name and the one before, d asks whether that file is to be removed, y says so,
any other key doesn't; q ends.
";

// The names of a folder's files, in order; folders and links aren't among them.
fn files_of<P: Performs>(alloc: Global, files: &mut P) -> anyhow::Result<Names> {
    let mut texts = Vec::new(alloc);
    match files.perform(&Command::List(Path::root(alloc))) {
        Answer::Listed(entries, _) => {
            for info in entries.into_vec() {
                let Info { name, kind, .. } = info;
                if kind == Kind::File {
                    texts.push(name.into_string())?;
                }
            }
        }
        Answer::Failed(failure) => return Err(failure.into()),
        _ => {}
    }
    texts.sort()?;
    let mut names = Vec::new(alloc);
    for text in texts {
        names.push(Name::new(text))?;
    }
    Ok(Names::new(names))
}

// Shows the names, until `q`.
fn show(rt: &HostRuntime, folder: &str) -> anyhow::Result<()> {
    let alloc = rt.alloc();
    let mut files = OnDisk::new(rt, folder);
    let names = files_of(alloc, &mut files)?;
    let writer = BufWriter::new(alloc, rt.stdout())?;
    let backend = AnsiBackend::new_on_alternate_screen(alloc, writer, size_told(rt))?;
    let mut seat = Seat::new(Remover::new(alloc, names));
    let mut disk = Disk::new(alloc, files);
    let has_ticks = is_terminal(rt, Stream::Input);
    run_and_leave(
        alloc,
        &mut Recorded::new(rt.reader()),
        &mut disk,
        has_ticks,
        backend,
        &mut seat,
    )?
    .ended?;
    Ok(())
}

fn start(rt: &HostRuntime) -> anyhow::Result<ExitCode> {
    let Some(word) = env::args(rt)?.nth(1) else {
        eprintln!(rt; "remover: a folder is to be named; --help says more")?;
        return Ok(ExitCode::from(2));
    };
    match word.as_str() {
        "--help" => print!(rt; "{HELP}")?,
        "--version" => println!(rt; "remover {VERSION}")?,
        folder => show(rt, folder)?,
    }
    Ok(ExitCode::SUCCESS)
}

fn main(rt: HostRuntime) -> ExitCode {
    match start(&rt) {
        Ok(status) => status,
        Err(error) => {
            let _ = eprintln!(rt; "remover: {error}");
            ExitCode::FAILURE
        }
    }
}
