//! The program `files`: a folder in rows, in which no file is touched but the one that the screen
//! names.
//!
//! `files FOLDER` shows a folder, and `files` the one that it is begun in; nothing above that
//! folder is reached. On 60 columns and more the folder above is seen beside it, and what is
//! selected: that is asked for once no key has come for a tenth of a second. What is put into the
//! trash is moved to the folder that `--trash` names, or to `Trash` in `$XDG_DATA_HOME`, or in
//! `.local/share` at home. `--help` tells the keys. What removes or renames a file can be called
//! only while each terminal that has read what was sent shows the question that names it, whole.
//! The terminal has to be in raw mode: `tools/play files_program FOLDER` sees to that.
//!
//! `Q` ends the program, and prints the folder that is shown. In a shell, `cd "$(files)"` goes there:
//! where standard output is no terminal, the program draws on `/dev/tty`.
#![tactic(auto)]

ghost use Rattle.std.specs.Prelude.{◌≡◌, IfOk};
ghost use Rattle.ratatui_core.specs.Backend.{IsBlankScreen};
ghost use Rattle.ratatui_core.specs.Terminal.{IsBlank};
ghost use Rattle.ratatui_ansi.specs.Backend.{shown_by};

use files::{Browser, Hands};
use programs::{Stream, VERSION, is_terminal};
use ratatui_acts::Seat;
use ratatui_ansi::{AnsiBackend, AnsiError, size_told};
use ratatui_app::run_and_leave;
use ratatui_core::layout::Size;
use ratatui_files::{Failure, OnDisk, Path, Text};
use std::alloc::{AllocError, Global};
use std::fs::OpenOptions;
use std::io::{BufWriter, Write};
use std::process::ExitCode;
use std::{env, fs};

static HELP: &str =
    "files [--trash TRASH] [FOLDER]: shows a folder, the one it is begun in if none is named. Nothing
above it is reached.
j k g G, Ctrl+D Ctrl+U, arrows, Home, End, PageUp and PageDown select an entry. l, Enter and Right
show the folder that is selected; h, Left and Backspace the one above, ~ the first one. After a
colon the path of a folder, or of an entry, is typed: from the folder that is shown, or after / or
~/ from the first one; Tab completes it, Enter goes there, Esc doesn't. A dot shows hidden entries.
The wheel moves by three, a click selects an entry, and enters the selected folder.
On 60 columns and more the folder above is seen on the left, and what is selected on the right: what
a folder holds, the first 65536 bytes of a text, or how many bytes another file has. The last row
tells of the selected entry who may read, write and run it, its size, and when it was changed (UTC);
a list of 48 columns and more has the date of each entry, too.
s and then n, s or d sorts by name, size or date, and N, S or D the other way round; folders stay
first. / finds a text in names, whatever letters are capitals unless one is typed; n and N go on.
r gives the entry another name. a makes a file, or a folder if the name is typed with a slash after
it. D puts the entry into the trash; X removes it for good, if it is no folder that holds something.
Of a folder both say how many entries it has. y notes a file to be copied, d an entry to be moved,
and p does so, to the folder that is shown; z moves back what was moved or renamed last. Each asks
first: y, or Enter after a name, says yes once the question has stood for a tenth of a second, any
other key or Esc says no. Space marks an entry, or no longer, and Esc unmarks all. y, d, D and X
take the marked entries if there are some, and it is asked about each in turn; a no ends that. ? and
F1 list the keys. q ends. Q ends and prints the folder that is shown: where standard output is no
terminal, as in cd \"$(files)\", the terminal itself is drawn on.
The trash is $XDG_DATA_HOME/Trash, or $HOME/.local/share/Trash, if no other one is named.
";

// What is asked of the program.
#[derive(Drop)]
struct Wanted {
    folder: String,
    trash: Option<String>,
}

// What a folder is called: without slashes at its end.
fn title(folder: &str) -> &str {
    folder.trim_end_matches('/')
}

// Fails where a folder can't be listed.
fn look(rt: &HostRuntime, folder: &str) -> anyhow::Result<()> {
    let _opened = fs::read_dir(rt, folder)?;
    Ok(())
}

// The path, from the root on, of a place that the system has.
fn path_of(alloc: Global, place: &str) -> anyhow::Result<Option<Path>> {
    let text = place.trim_start_matches('/').trim_end_matches('/');
    Ok(Path::new(String::from_str(alloc, text)?))
}

// The path, from the root on, of a folder that may not be there yet, in one that is.
fn new_path(rt: &HostRuntime, place: &str) -> anyhow::Result<Option<Path>> {
    let place = place.trim_end_matches('/');
    if let Ok(found) = fs::canonicalize(rt, place) {
        return path_of(rt.alloc(), found.as_path().as_str());
    }
    let (folder, name) = match place.rsplit_once('/') {
        Some(("", name)) => ("/", name),
        Some(parts) => parts,
        None => (".", place),
    };
    let folder = fs::canonicalize(rt, folder)?;
    match path_of(rt.alloc(), folder.as_path().as_str())? {
        Some(folder) => Ok(folder.entry(rt.alloc(), name)?),
        None => Ok(None),
    }
}

// The folder at home for what a program keeps.
fn data_home(rt: &HostRuntime) -> anyhow::Result<Option<String>> {
    if let Ok(folder) = env::var(rt, "XDG_DATA_HOME") {
        if folder.starts_with('/') {
            return Ok(Some(folder));
        }
    }
    match env::var(rt, "HOME") {
        Ok(home) if home.starts_with('/') => {
            Ok(Some(format!(in rt.alloc(); "{home}/.local/share")?))
        }
        _ => Ok(None),
    }
}

// Where the trash is. None if nobody says so, or its folder isn't there.
fn trash(rt: &HostRuntime, named: &Option<String>) -> anyhow::Result<Option<Path>> {
    if let Some(place) = named {
        return new_path(rt, place.as_str());
    }
    let Some(home) = data_home(rt)? else {
        return Ok(None);
    };
    let place = format!(in rt.alloc(); "{home}/Trash")?;
    Ok(new_path(rt, place.as_str()).unwrap_or(None))
}

// A browser of a folder, and of its trash.
fn browser(rt: &HostRuntime, wanted: &Wanted, size: Size) -> anyhow::Result<Browser> {
    let alloc = rt.alloc();
    let found = fs::canonicalize(rt, wanted.folder.as_str())?;
    let Some(folder) = path_of(alloc, found.as_path().as_str())? else {
        return Err(Failure::BadName.into());
    };
    let title = Text::copy(alloc, title(wanted.folder.as_str()))?;
    let browser = Browser::new(alloc, title, size).within(folder)?;
    match trash(rt, &wanted.trash)? {
        Some(trash) => Ok(browser.with_trash(trash)),
        None => Ok(browser),
    }
}

// Opens the alternate screen of a terminal, which tells of the mouse from then on.
fn open<W: Write + Drop>(alloc: Global, writer: W, size: Size) -> Result<AnsiBackend<W>, AnsiError>
    ensures blank { IfOk result (λ b. IsBlankScreen size.width size.height (shown_by b)) }
    ensures failures { IfOk result (λ b. b.failures ≡ 0) }
{
    let mut backend = AnsiBackend::new_on_alternate_screen(alloc, writer, size)?;
    backend.set_mouse_capture(true)?;
    Ok(backend)
}

// Runs a browser until `q` or `Q`, and gives the terminal back.
fn run_on<W: Write + Drop>(
    rt: &HostRuntime,
    backend: AnsiBackend<W>,
    seat: &mut Seat<Browser>,
) -> anyhow::Result<()>
    requires blank { IsBlank (shown_by backend) }
    requires unfailed { backend.failures ≡ 0 }
{
    let alloc = rt.alloc();
    let mut hands = Hands::new(alloc, OnDisk::new(rt, "/"));
    let has_ticks = is_terminal(rt, Stream::Input);
    run_and_leave(
        alloc,
        &mut rt.reader(),
        &mut hands,
        has_ticks,
        backend,
        seat,
    )?
    .ended?;
    Ok(())
}

// The folder that is to be told, if one is.
fn told(alloc: Global, browser: &Browser) -> Result<Option<String>, AllocError> {
    match browser.chosen() {
        Some(folder) => Ok(Some(String::from_str(alloc, folder.as_str())?)),
        None => Ok(None),
    }
}

// Shows a folder on a terminal, until `q` or `Q`, and returns the folder that is to be told.
fn show_on<W: Write + Drop>(
    rt: &HostRuntime,
    wanted: &Wanted,
    terminal: W,
) -> anyhow::Result<Option<String>> {
    let alloc = rt.alloc();
    let size = size_told(rt);
    let mut seat = Seat::new(browser(rt, wanted, size)?);
    let writer = BufWriter::new(alloc, terminal)?;
    let backend = open(alloc, writer, size)?;
    run_on(rt, backend, &mut seat)?;
    Ok(told(alloc, seat.state())?)
}

// Shows a folder. Where keys are typed on a terminal and what is written goes elsewhere, that
// terminal is drawn on.
fn show(rt: &HostRuntime, wanted: &Wanted) -> anyhow::Result<()> {
    look(rt, wanted.folder.as_str())?;
    let told = if is_terminal(rt, Stream::Input) && !is_terminal(rt, Stream::Output) {
        show_on(
            rt,
            wanted,
            OpenOptions::new().write(true).open(rt, "/dev/tty")?,
        )?
    } else {
        show_on(rt, wanted, rt.stdout())?
    };
    if let Some(folder) = told {
        // A terminal in raw mode goes down by a line feed, and not to the left.
        let end = if is_terminal(rt, Stream::Output) {
            "\r\n"
        } else {
            "\n"
        };
        print!(rt; "/{folder}{end}")?;
    }
    Ok(())
}

// Shows what is wanted, or says why it can't be shown.
fn try_show(rt: &HostRuntime, wanted: &Wanted) -> anyhow::Result<ExitCode> {
    if let Err(error) = show(rt, wanted) {
        eprintln!(rt; "files: {}: {error}", wanted.folder)?;
        return Ok(ExitCode::FAILURE);
    }
    Ok(ExitCode::SUCCESS)
}

fn start(rt: &HostRuntime) -> anyhow::Result<ExitCode> {
    let alloc = rt.alloc();
    let mut words = env::args(rt)?;
    let _program = words.next();
    let mut wanted = Wanted {
        folder: String::from_str(alloc, ".")?,
        trash: None,
    };
    let mut is_trash = false;
    for word in words {
        match word.as_str() {
            _ if is_trash => {
                wanted.trash = Some(word);
                is_trash = false;
            }
            "--help" => {
                print!(rt; "{HELP}")?;
                return Ok(ExitCode::SUCCESS);
            }
            "--version" => {
                println!(rt; "files {VERSION}")?;
                return Ok(ExitCode::SUCCESS);
            }
            "--trash" => is_trash = true,
            _ => wanted.folder = word,
        }
    }
    if is_trash {
        eprintln!(rt; "files: --trash wants a folder")?;
        return Ok(ExitCode::FAILURE);
    }
    try_show(rt, &wanted)
}

fn main(rt: HostRuntime) -> ExitCode {
    match start(&rt) {
        Ok(status) => status,
        Err(error) => {
            let _ = eprintln!(rt; "files: {error}");
            ExitCode::FAILURE
        }
    }
}
