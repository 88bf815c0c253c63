//! Looks at what stands beside a folder.

ghost use Rattle.std.specs.Prelude.{◌≡◌, IfOk, IfSome};
ghost use Rattle.files.specs.declared.glance.Side.TheVariants.{Above as above_side, Ahead as ahead_side};
ghost use Rattle.files.specs.Looks.{look_command, IsAim, TellsGlance, Looked};

use crate::browser::Browser;
use crate::glance::{Glance, Side};
use crate::hands::{Hands, above};
use crate::list::{Outcome, Row};
use crate::sights::{place_in, sight_of};
use ratatui_files::{Answer, Command, Failure, Path, Performs, Text};
use std::alloc::{AllocError, Global};

/// Something that is to be looked at.
#[derive(Drop)]
pub(crate) struct Aim {
    side: Side,
    // The folder beside which it stands, and its name there, if it is in it.
    folder: Path,
    name: Text,
    // What is asked for, and how many bytes a file has.
    command: Command,
    size: u64,
    // The name of the folder in the one above.
    inner: Text,
}

// What is asked for to see an entry: what a folder holds, or how a file begins.
fn look_command(row: &Row, path: Path) -> Command
    ensures { result ≡ look_command row.now path }
{
    if row.is_leaf {
        Command::Read(path, 0, 65536)
    } else {
        Command::List(path)
    }
}

// The entry that is selected.
fn aim_ahead(alloc: Global, browser: &Browser) -> Result<Option<Aim>, AllocError>
    ensures { IfOk result (λ aim. IfSome aim (IsAim ahead_side browser.now)) }
{
    let Some(row) = browser.list.get(browser.selected) else {
        return Ok(None);
    };
    let Some(path) = browser.folder.entry(alloc, row.name.as_str())? else {
        return Ok(None);
    };
    Ok(Some(Aim {
        side: Side::Ahead,
        folder: browser.folder.copy(alloc)?,
        name: Text::copy(alloc, row.name.as_str())?,
        command: look_command(row, path),
        size: row.size.unwrap_or(0),
        inner: Text::copy(alloc, "")?,
    }))
}

// The folder above.
fn aim_above(alloc: Global, browser: &Browser) -> Result<Option<Aim>, AllocError>
    ensures { IfOk result (λ aim. IfSome aim (IsAim above_side browser.now)) }
{
    let Some(wanted) = above(alloc, &browser.folder)? else {
        return Ok(None);
    };
    Ok(Some(Aim {
        side: Side::Above,
        folder: browser.folder.copy(alloc)?,
        name: Text::copy(alloc, "")?,
        command: Command::List(wanted.folder),
        size: 0,
        inner: wanted.name,
    }))
}

// What is to be looked at on a side.
fn aim_on(alloc: Global, side: Side, browser: &Browser) -> Result<Option<Aim>, AllocError>
    ensures { IfOk result (λ aim. IfSome aim (IsAim side browser.now)) }
{
    match side {
        Side::Above => aim_above(alloc, browser),
        Side::Ahead => aim_ahead(alloc, browser),
    }
}

// What is told of an answer.
fn glance_of(
    alloc: Global,
    browser: &Browser,
    aim: Aim,
    answer: Answer,
) -> Result<Outcome, AllocError>
    ensures { IfOk result (TellsGlance browser.now aim answer) }
{
    let sight = sight_of(alloc, browser.has_hidden, browser.order, aim.size, answer)?;
    let place = place_in(&sight, aim.inner.as_str());
    Ok(Outcome::Glanced(Glance {
        side: aim.side,
        folder: aim.folder,
        name: aim.name,
        sight,
        place,
    }))
}

impl<P: Performs + Drop> Hands<P> {
    /// Looks at what a browser wants to see beside its folder. That changes no file.
    pub(crate) fn look(&mut self, browser: &Browser) -> Outcome
        ensures { Looked P.does browser.now self.old.files result self.new.files }
    {
        let Some(side) = browser.side_wanted() else {
            return Outcome::Failed(Failure::Other);
        };
        let Ok(found) = aim_on(self.alloc, side, browser) else {
            return Outcome::Failed(Failure::Memory);
        };
        let Some(aim) = found else {
            return Outcome::Failed(Failure::BadName);
        };
        let answer = self.files.perform(&aim.command);
        match glance_of(self.alloc, browser, aim, answer) {
            Ok(outcome) => outcome,
            Err(_) => Outcome::Failed(Failure::Memory),
        }
    }
}
