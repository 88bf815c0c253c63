//! How something is put into the trash.

ghost use Rattle.std.specs.Prelude.{◌≡◌, ◌≤◌, Some, IfOk, IsOk};
ghost use Rattle.ratatui_core.specs.Buffer.{text_columns};
ghost use Rattle.files.specs.declared.browser.Mode.TheVariants.{Trashing};
ghost use Rattle.files.specs.Texts.{status_told};
ghost use Rattle.files.specs.Pages.{PaintsBrowser, browser_cursor, ShowsWhole};
ghost use Rattle.ratatui_app.specs.Glass.{StandsOnGlass};
ghost use Rattle.files.specs.Trash.{discard_in, IsTrashFolder, IsPlanOf, IsPlanFor};
ghost use Rattle.files.specs.Questions.{AsksToDiscard};
ghost use Rattle.files.specs.Discards.{Prepares, GivesEntries, GivesTime, Saw, IsPrepared, Ends, Discarded};

use crate::browser::Browser;
use crate::dates::date_after;
use crate::hands::{Hands, changed};
use crate::list::Outcome;
use crate::trash::{Discard, Plan, Seen, discard_plan, free_number};
use ratatui_app::OnGlass;
use ratatui_files::{Answer, Command, Entries, Failure, Path, Performs};
use std::alloc::AllocError;
use std::io::Write;
use std::time::Duration;

// What the question is about, if the glass has columns for all of it.
fn asked<W: Write + Drop>(glass: &OnGlass<W>, browser: &Browser) -> Result<Discard, Failure>
    ensures is { IfOk result (λ discard. discard_in browser.now ≡ Some discard) }
    ensures whole { IsOk result → text_columns (status_told browser.now)
        ≤ glass.now.terminal.viewport_area.width }
{
    let Some(discard) = browser.discard()? else {
        return Err(Failure::BadName);
    };
    if browser.fits(glass.terminal().viewport_area().width)? {
        Ok(discard)
    } else {
        Err(Failure::NotAllowed)
    }
}

impl<P: Performs + Drop> Hands<P> {
    // Makes a folder of the trash, if it isn't there.
    fn make<W: Write + Drop>(
        &mut self,
        glass: &OnGlass<W>,
        browser: &Browser,
        discard: &Discard,
        folder: &Path,
    ) -> Result<(), AllocError>
        requires shown { ShowsWhole browser.now glass.now.terminal }
        requires asked { AsksToDiscard browser.now discard.now }
        requires of_trash { IsTrashFolder discard.now folder.now }
        ensures { Prepares P.does discard.now self.old.files self.new.files }
    {
        let command = Command::MakeFolder(folder.copy(self.alloc)?);
        let _answer = self.touch(glass, browser, &command);
        Ok(())
    }

    // Makes the trash and its folders, if they aren't there.
    fn make_trash<W: Write + Drop>(
        &mut self,
        glass: &OnGlass<W>,
        browser: &Browser,
        discard: &Discard,
    ) -> Result<(), AllocError>
        requires shown { ShowsWhole browser.now glass.now.terminal }
        requires asked { AsksToDiscard browser.now discard.now }
        ensures { Prepares P.does discard.now self.old.files self.new.files }
    {
        self.make(glass, browser, discard, &discard.trash)?;
        self.make(glass, browser, discard, &discard.files)?;
        self.make(glass, browser, discard, &discard.info)
    }

    // Tells what stands in a folder.
    fn entries(&mut self, folder: &Path) -> Result<Entries, Failure>
        ensures { GivesEntries P.does folder.now self.old.files result self.new.files }
    {
        let command = Command::List(folder.copy(self.alloc)?);
        match self.files.perform(&command) {
            Answer::Listed(entries, _) => Ok(entries),
            Answer::Failed(failure) => Err(failure),
            _ => Err(Failure::Other),
        }
    }

    // Tells the time.
    fn time(&mut self) -> Result<Duration, Failure>
        ensures { GivesTime P.does self.old.files result self.new.files }
    {
        match self.files.perform(&Command::Now) {
            Answer::Time(time) => Ok(time),
            Answer::Failed(failure) => Err(failure),
            _ => Err(Failure::Other),
        }
    }

    // Tells what the trash holds, and the time.
    fn see(&mut self, discard: &Discard) -> Result<Seen, Failure>
        ensures prepares { Prepares P.does discard.now self.old.files self.new.files }
        ensures ok { IfOk result (λ seen. Saw P.does discard.now self.old.files seen self.new.files) }
    {
        let files = self.entries(&discard.files)?;
        let info = self.entries(&discard.info)?;
        let time = self.time()?;
        Ok(Seen { files, info, time })
    }

    // Tells how something is to be put into the trash.
    fn plan(&self, discard: &Discard, seen: &Seen) -> Result<Plan, Failure>
        ensures { IfOk result (IsPlanFor discard.now seen.now) }
    {
        let Some(number) = free_number(self.alloc, discard.name.as_str(), seen)? else {
            return Err(Failure::Exists);
        };
        let Some(date) = date_after(seen.time) else {
            return Err(Failure::Other);
        };
        match discard_plan(self.alloc, discard, number, date)? {
            Some(plan) => Ok(plan),
            None => Err(Failure::BadName),
        }
    }

    // Writes where something was, and puts it into the trash. If it can't be put there, what was
    // written is removed.
    fn carry_out<W: Write + Drop>(
        &mut self,
        glass: &OnGlass<W>,
        browser: &Browser,
        discard: &Discard,
        plan: &Plan,
    ) -> Outcome
        requires shown { ShowsWhole browser.now glass.now.terminal }
        requires asked { AsksToDiscard browser.now discard.now }
        requires planned { IsPlanOf discard.now plan.now }
        ensures { Ends P.does plan.now self.old.files result self.new.files }
    {
        match self.touch(glass, browser, &plan.write) {
            Answer::Done => {}
            answer => return changed(answer),
        }
        match self.touch(glass, browser, &plan.put) {
            Answer::Done => Outcome::Done,
            answer => {
                let _undone = self.touch(glass, browser, &plan.undo);
                changed(answer)
            }
        }
    }

    // Makes the trash, if it isn't there, and tells how something is to be put into it.
    fn prepare<W: Write + Drop>(
        &mut self,
        glass: &OnGlass<W>,
        browser: &Browser,
        discard: &Discard,
    ) -> Result<Plan, Failure>
        requires shown { ShowsWhole browser.now glass.now.terminal }
        requires asked { AsksToDiscard browser.now discard.now }
        ensures prepares { Prepares P.does discard.now self.old.files self.new.files }
        ensures ok { IfOk result
            (λ plan. IsPrepared P.does discard.now self.old.files plan self.new.files) }
    {
        self.make_trash(glass, browser, discard)?;
        let seen = self.see(discard)?;
        self.plan(discard, &seen)
    }

    /// Puts the entry that is selected into the trash, if the glass has columns for all of the
    /// question.
    pub(crate) fn discard<W: Write + Drop>(
        &mut self,
        glass: &OnGlass<W>,
        browser: &Browser,
    ) -> Outcome
        requires shown { StandsOnGlass (PaintsBrowser browser.now) (browser_cursor browser.now)
            glass.now.terminal }
        requires mode { browser.now.mode ≡ Trashing }
        ensures { Discarded P.does (discard_in browser.now) self.old.files result self.new.files }
    {
        let discard = match asked(glass, browser) {
            Ok(discard) => discard,
            Err(failure) => return Outcome::Failed(failure),
        };
        match self.prepare(glass, browser, &discard) {
            Ok(plan) => self.carry_out(glass, browser, &discard, &plan),
            Err(failure) => Outcome::Failed(failure),
        }
    }
}
