//! What is outside of a browser: it lists folders, and changes what the screen names.

ghost use Rattle.std.specs.Prelude.{◌≡◌, ◌≤◌, IfOk, IfSome};
ghost use Rattle.ratatui_core.specs.Buffer.{text_columns};
ghost use Rattle.ratatui_app.specs.Glass.{StandsOnGlass};
ghost use Rattle.files.specs.Texts.{status_told};
ghost use Rattle.files.specs.Pages.{PaintsBrowser, browser_cursor};
ghost use Rattle.files.specs.Questions.{change_in, IsNamedIn};
ghost use Rattle.files.specs.Doing.{Lists, TellsListing, Listed, Changed};
ghost use Rattle.files.specs.Above.{IsAbove};
ghost use Rattle.files.specs.Answers.{told_of};

use crate::browser::{Browser, Mode};
use crate::list::{Listing, Outcome};
use crate::order::Order;
use crate::sorting::{place_of, sorted};
use ratatui_acts::Outside;
use ratatui_app::OnGlass;
use ratatui_files::{Answer, Command, Failure, Path, Performs, Text};
use std::alloc::{AllocError, Global};
use std::io::{self, Write};

/// What does to files what a browser asks for.
#[derive(Drop)]
pub struct Hands<P> {
    pub(crate) alloc: Global,
    pub(crate) files: P,
}

/// A folder that is to be listed, the name of the entry that is to be selected, and the row that is
/// if there is none of that name.
#[derive(Drop)]
pub(crate) struct Wanted {
    pub(crate) folder: Path,
    pub(crate) name: Text,
    other: usize,
}

// A path's folder and its name there.
fn parted(path: &str) -> (&str, &str) {
    match path.rsplit_once('/') {
        Some(parts) => parts,
        None => ("", path),
    }
}

/// Returns the folder above a folder, whose name is to be selected there.
pub(crate) fn above(alloc: Global, folder: &Path) -> Result<Option<Wanted>, AllocError>
    ensures { IfOk result (λ wanted. IfSome wanted (IsAbove folder.now)) }
{
    let (text, name) = parted(folder.as_str());
    let Some(path) = Path::new(String::from_str(alloc, text)?) else {
        return Ok(None);
    };
    let Some(same) = path.entry(alloc, name)? else {
        return Ok(None);
    };
    if same.as_str() != folder.as_str() {
        return Ok(None);
    }
    Ok(Some(Wanted {
        folder: path,
        name: Text::copy(alloc, name)?,
        other: 0,
    }))
}

// The folder that is selected.
fn selected(alloc: Global, browser: &Browser) -> Result<Option<Wanted>, AllocError>
    ensures { IfOk result (λ wanted. IfSome wanted (Lists Mode.Entering browser.now)) }
{
    match browser.folder.entry(alloc, browser.selected_text())? {
        Some(folder) => Ok(Some(Wanted {
            folder,
            name: Text::copy(alloc, "")?,
            other: 0,
        })),
        None => Ok(None),
    }
}

// The folder that is shown.
fn shown(alloc: Global, browser: &Browser) -> Result<Wanted, AllocError>
    ensures { IfOk result (Lists Mode.Listing browser.now) }
{
    Ok(Wanted {
        folder: browser.folder.copy(alloc)?,
        name: Text::copy(alloc, browser.sought_text())?,
        other: browser.selected,
    })
}

// The folder above which nothing is reached.
fn base(alloc: Global, browser: &Browser) -> Result<Wanted, AllocError>
    ensures { IfOk result (Lists Mode.Returning browser.now) }
{
    Ok(Wanted {
        folder: browser.base.copy(alloc)?,
        name: Text::copy(alloc, "")?,
        other: 0,
    })
}

// The folder to which the typed path leads.
fn typed(alloc: Global, browser: &Browser) -> Result<Option<Wanted>, AllocError>
    ensures { IfOk result (λ wanted. IfSome wanted (Lists Mode.Visiting browser.now)) }
{
    match browser.way_of(browser.typed.text())? {
        Some(folder) => Ok(Some(Wanted {
            folder,
            name: Text::copy(alloc, "")?,
            other: 0,
        })),
        None => Ok(None),
    }
}

// The folder that has what the typed path leads to.
fn located(alloc: Global, browser: &Browser) -> Result<Option<Wanted>, AllocError>
    ensures { IfOk result (λ wanted. IfSome wanted (Lists Mode.Locating browser.now)) }
{
    match browser.way_of(browser.typed.text())? {
        Some(path) if path.is_inside(&browser.base) => above(alloc, &path),
        _ => Ok(None),
    }
}

// The folder that a browser asks for.
fn folder_for(alloc: Global, browser: &Browser) -> Result<Option<Wanted>, AllocError>
    ensures { IfOk result (λ wanted. IfSome wanted (Lists browser.now.mode browser.now)) }
{
    match browser.mode {
        Mode::Listing => Ok(Some(shown(alloc, browser)?)),
        Mode::Entering => selected(alloc, browser),
        Mode::Leaving => above(alloc, &browser.folder),
        Mode::Returning => Ok(Some(base(alloc, browser)?)),
        Mode::Visiting => typed(alloc, browser),
        Mode::Locating => located(alloc, browser),
        _ => Ok(None),
    }
}

// What was answered of a folder that was to be listed.
fn listing_shown(
    alloc: Global,
    has_hidden: bool,
    order: Order,
    wanted: Wanted,
    answer: Answer,
) -> Result<Outcome, AllocError>
    ensures { IfOk result (TellsListing order has_hidden wanted answer) }
{
    match answer {
        Answer::Listed(entries, unnamed) => {
            let rows = sorted(alloc, entries, has_hidden, order)?;
            let place = place_of(rows.as_slice(), wanted.name.as_str(), wanted.other);
            Ok(Outcome::Listed(Listing {
                folder: wanted.folder,
                rows,
                unnamed,
                place,
            }))
        }
        Answer::Failed(failure) => Ok(Outcome::Failed(failure)),
        _ => Ok(Outcome::Failed(Failure::Other)),
    }
}

/// Returns what was answered of a change.
pub(crate) fn changed(answer: Answer) -> Outcome
    ensures { result ≡ told_of answer }
{
    match answer {
        Answer::Done => Outcome::Done,
        Answer::Failed(failure) => Outcome::Failed(failure),
        _ => Outcome::Failed(Failure::Other),
    }
}

impl<P: Performs + Drop> Hands<P> {
    /// Takes what does commands to files.
    pub fn new(alloc: Global, files: P) -> Hands<P>
        ensures { result.files ≡ files }
    {
        Hands { alloc, files }
    }

    /// Lends what does commands to files.
    pub fn files(&self) -> &P
        ensures { result.now ≡ self.now.files }
    {
        &self.files
    }

    /// Changes files. Nobody can ask for that but where each terminal that has read what was sent
    /// shows a browser whose question names what is changed, and has columns for all of it.
    pub(crate) fn touch<W: Write + Drop>(
        &mut self,
        _glass: &OnGlass<W>,
        _browser: &Browser,
        command: &Command,
    ) -> Answer
        requires shown { StandsOnGlass (PaintsBrowser _browser.now) (browser_cursor _browser.now)
            _glass.now.terminal }
        requires named { IsNamedIn _browser.now.mode _browser.now command.now }
        requires whole { text_columns (status_told _browser.now)
            ≤ _glass.now.terminal.viewport_area.width }
        ensures { P.does self.old.files command.now result self.new.files }
    {
        self.files.perform(command)
    }

    // Changes what the question names, if the glass has columns for all of it.
    fn change<W: Write + Drop>(&mut self, glass: &OnGlass<W>, browser: &Browser) -> Outcome
        requires shown { StandsOnGlass (PaintsBrowser browser.now) (browser_cursor browser.now)
            glass.now.terminal }
        ensures { Changed P.does (change_in browser.now.mode browser.now)
            self.old.files result self.new.files }
    {
        let Ok(wanted) = browser.change() else {
            return Outcome::Failed(Failure::Memory);
        };
        let Some(command) = wanted else {
            return Outcome::Failed(Failure::BadName);
        };
        let width = glass.terminal().viewport_area().width;
        match browser.fits(width) {
            Ok(true) => changed(self.touch(glass, browser, &command)),
            Ok(false) => Outcome::Failed(Failure::NotAllowed),
            Err(_) => Outcome::Failed(Failure::Memory),
        }
    }

    // Lists the folder that a browser asks for.
    fn list(&mut self, browser: &Browser) -> Outcome
        ensures { Listed P.does browser.now self.old.files result self.new.files }
    {
        let Ok(found) = folder_for(self.alloc, browser) else {
            return Outcome::Failed(Failure::Memory);
        };
        let Some(wanted) = found else {
            return Outcome::Failed(Failure::BadName);
        };
        let Ok(folder) = wanted.folder.copy(self.alloc) else {
            return Outcome::Failed(Failure::Memory);
        };
        let answer = self.files.perform(&Command::List(folder));
        let has_hidden = browser.has_hidden;
        match listing_shown(self.alloc, has_hidden, browser.order, wanted, answer) {
            Ok(outcome) => outcome,
            Err(_) => Outcome::Failed(Failure::Memory),
        }
    }
}

impl<P: Performs + Drop, W: Write + Drop> Outside<Browser, OnGlass<W>> for Hands<P> {
    ghost use Rattle.files.specs.Doing.{DoesAsked};

    ghost answers = { λ before b outcome after. DoesAsked P.does b before.files outcome after.files };

    fn perform(
        &mut self,
        glass: &OnGlass<W>,
        state: &Browser,
        _command: &Browser,
    ) -> io::Result<Outcome> {
        match state.mode {
            Mode::Listing
            | Mode::Entering
            | Mode::Leaving
            | Mode::Returning
            | Mode::Visiting
            | Mode::Locating => Ok(self.list(state)),
            Mode::Completing => Ok(self.complete(state)),
            Mode::CountingToTrash | Mode::CountingToRemove => Ok(self.count(state)),
            Mode::Trashing => Ok(self.discard(glass, state)),
            Mode::Looking => Ok(self.look(state)),
            _ => Ok(self.change(glass, state)),
        }
    }
}
