//! The program `edit`: the smallest editor of a text.
//!
//! `edit FILE` shows the file, or nothing if there is none of that name. Ctrl+S saves, Ctrl+Q leaves,
//! after a question if something isn't saved; Ctrl+F finds a pattern, and `n` finds it again; Alt+R
//! replaces one from the cursor on, by `y` and `n` or all by `a`; Ctrl+G goes to a line; Alt+U undoes a
//! change, and Alt+E does it again. The other keys are those of a text area. The terminal has to be in
//! raw mode: `tools/raw edit FILE` sees to that.
//!
//! A save writes a new file beside the file, and renames it; if the file isn't what was read or saved
//! last, it asks. What can't be saved is told in the last row, and nothing is lost. Each line break is
//! saved as a line feed. What isn't a terminal ends with its last byte, and then nothing is saved.
#![tactic(auto)]

mod draw;
mod file;
mod window;

use crate::draw::Screen;
use crate::file::{EditedFile, FileError};
use crate::window::Window;
use editor::{Editor, Note, Request};
use programs::{Stream, VERSION, is_terminal};
use ratatui_ansi::{AnsiBackend, size_told};
use ratatui_core::terminal::Terminal;
use ratatui_files::{Failure, OnDisk, Path, Performs};
use ratatui_input::EventReader;
use std::env;
use std::io::BufWriter;
use std::process::ExitCode;

static HELP: &str = "edit FILE: edits a text.
Ctrl+S saves, Ctrl+Q leaves, Ctrl+F finds and n finds again, Alt+R replaces, Ctrl+G goes to a line,
Alt+U undoes, Alt+E does again; the other keys are those of a text area.
";

// Saves the text of an editor, and tells it what came of it.
fn save<P: Performs + Drop>(
    rt: &HostRuntime,
    editor: &mut Editor,
    file: &mut EditedFile<P>,
    is_asked: bool,
) {
    if !is_asked {
        match file.is_same() {
            Ok(is_same) => {
                if !is_same {
                    editor.ask_replace();
                    return;
                }
            }
            Err(error) => {
                tell(rt, editor, "not read", &error);
                return;
            }
        }
    }
    let Ok(text) = editor.copied_text() else {
        editor.tell(Note::NoMemory);
        return;
    };
    match file.save(editor) {
        Ok(()) => editor.take_saved(text),
        Err(error) => tell(rt, editor, "not saved", &error),
    }
}

// Tells an error in the last row.
fn tell(rt: &HostRuntime, editor: &mut Editor, what: &str, error: &FileError) {
    let note = match format!(in rt.alloc(); "{what}: {error}") {
        Ok(text) => Note::Told(text),
        Err(_) => Note::NoMemory,
    };
    editor.tell(note);
}

// The folder of a file's path, and its name.
fn folder_and_name(path: &str) -> (&str, &str) {
    match path.rsplit_once('/') {
        Some(("", name)) => ("/", name),
        Some(folder_and_name) => folder_and_name,
        None => (".", path),
    }
}

// Edits a file until the editor is over or its input ends.
fn edit(rt: &HostRuntime, path: &str) -> anyhow::Result<()> {
    let alloc = rt.alloc();
    let (folder, name) = folder_and_name(path);
    let Some(place) = Path::root(alloc).entry(alloc, name)? else {
        return Err(Failure::BadName.into());
    };
    let (mut file, text) = EditedFile::read(alloc, OnDisk::new(rt, folder), place)?;
    let mut editor = Editor::new(alloc, path, text)?;
    let writer = BufWriter::new(alloc, rt.stdout())?;
    let backend = AnsiBackend::new_on_alternate_screen(alloc, writer, size_told(rt))?;
    let mut terminal = Terminal::new(alloc, backend)?;
    let mut events = EventReader::new(rt.reader());
    let mut window = Window::new();
    let has_ticks = is_terminal(rt, Stream::Input);
    let mut screen = Screen::new();
    terminal.draw(|frame| screen.draw(&mut editor, frame))?;
    for _ in 0..u64::MAX {
        let event = events.read()?;
        window.follow(event, &mut terminal)?;
        if let Some(event) = event {
            match editor.take(&event) {
                Ok(Request::Nothing) => {}
                Ok(Request::Save) => save(rt, &mut editor, &mut file, false),
                Ok(Request::Replace) => save(rt, &mut editor, &mut file, true),
                Err(_) => editor.tell(Note::NoMemory),
            }
            screen.follow(&event, &editor);
            terminal.draw(|frame| screen.draw(&mut editor, frame))?;
        }
        let is_end = event.is_none() && !has_ticks;
        if is_end || editor.is_over() {
            break;
        }
    }
    terminal.into_backend().leave()?;
    Ok(())
}

fn start(rt: &HostRuntime) -> anyhow::Result<ExitCode> {
    let words: Vec<String> = env::args(rt)?.collect(rt.alloc())?;
    if words.len() != 2 {
        eprintln!(rt; "edit: a file is to be named; --help says more")?;
        return Ok(ExitCode::from(2));
    }
    match words[1].as_str() {
        "--help" => print!(rt; "{HELP}")?,
        "--version" => println!(rt; "edit {VERSION}")?,
        path => edit(rt, path)?,
    }
    Ok(ExitCode::SUCCESS)
}

fn main(rt: HostRuntime) -> ExitCode {
    match start(&rt) {
        Ok(status) => status,
        Err(error) => {
            let _ = eprintln!(rt; "edit: {error}");
            ExitCode::FAILURE
        }
    }
}
