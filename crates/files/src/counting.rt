//! Folders are counted before it is asked whether they are to be removed.

ghost use Rattle.std.specs.Prelude.{◌≡◌, ◌++◌, OnOk, string_bytes};
ghost use Rattle.files.specs.Counting.{selects_folder, counting_for, asked_mode, asking_about, entry_count};
ghost use Rattle.files.specs.Counting.{entries_told, row_count_told, count_told};
ghost use Rattle.files.specs.Moves.{counted_in};
ghost use Rattle.files.specs.Doing.{TellsCount, Counted};

use crate::browser::{Browser, Mode};
use crate::hands::Hands;
use crate::list::{Outcome, Row};
use itoa::Buffer as Digits;
use ratatui_files::{Answer, Command, Entries, Failure, Performs};
use std::alloc::AllocError;

// The mode in which a folder is counted before that is asked about it.
fn counting_for(question: Mode) -> Mode
    ensures { result ≡ counting_for question }
{
    match question {
        Mode::Trashing => Mode::CountingToTrash,
        Mode::Removing => Mode::CountingToRemove,
        other => other,
    }
}

// How many entries a folder has.
fn entry_count(entries: &Entries, unnamed: u64) -> u64
    ensures { result ≡ entry_count entries.now unnamed }
{
    (entries.as_slice().len() as u64).saturating_add(unnamed)
}

// Appends how many entries a folder has.
fn push_entries(text: &mut String, count: u64) -> Result<(), AllocError>
    ensures { OnOk result (string_bytes text.new ≡ string_bytes text.old ++ entries_told count) }
{
    text.push_str(" with ")?;
    let mut digits = Digits::new();
    text.push_str(digits.format(count))?;
    text.push_str(if count == 1 { " entry" } else { " entries" })
}

// Appends how many entries the folder of a row has.
fn push_row_count(text: &mut String, row: &Row, count: u64) -> Result<(), AllocError>
    ensures { OnOk result (string_bytes text.new
        ≡ string_bytes text.old ++ row_count_told row.now count) }
{
    if row.is_leaf {
        Ok(())
    } else {
        push_entries(text, count)
    }
}

// What is told of an answer.
fn counted(answer: Answer) -> Outcome
    ensures { TellsCount answer result }
{
    match answer {
        Answer::Listed(entries, unnamed) => Outcome::Counted(entry_count(&entries, unnamed)),
        Answer::Failed(failure) => Outcome::Failed(failure),
        _ => Outcome::Failed(Failure::Other),
    }
}

impl Browser {
    // Whether a folder is selected.
    fn selects_folder(&self) -> bool
        ensures { result ≡ selects_folder self.now }
    {
        match self.list.get(self.selected) {
            Some(row) => !row.is_leaf,
            None => false,
        }
    }

    /// Returns what keys are taken for so that this is asked about the entry that is selected: a
    /// folder is counted first.
    pub(crate) fn asked_mode(&self, question: Mode) -> Mode
        ensures { result ≡ asked_mode question self.now }
    {
        if self.selects_folder() {
            counting_for(question)
        } else {
            question
        }
    }

    /// Asks this about the entry that is selected.
    pub(crate) fn ask_about(&mut self, question: Mode)
        ensures { self.new ≡ asking_about question self.old }
    {
        self.mode = self.asked_mode(question);
    }

    /// Takes how many entries the folder has that is to be asked about.
    pub(crate) fn take_count(&mut self, count: u64)
        ensures { self.new ≡ counted_in self.old.mode count self.old }
    {
        match self.mode {
            Mode::CountingToTrash => {
                self.mode = Mode::Trashing;
                self.count = count;
            }
            Mode::CountingToRemove if count > 0 => self.fail(Failure::NotEmpty),
            Mode::CountingToRemove => {
                self.mode = Mode::Removing;
                self.count = 0;
            }
            _ => {}
        }
    }

    /// Appends how many entries the folder has that is selected.
    pub(crate) fn push_count(&self, text: &mut String) -> Result<(), AllocError>
        ensures { OnOk result (string_bytes text.new
            ≡ string_bytes text.old ++ count_told self.now) }
    {
        match self.list.get(self.selected) {
            Some(row) => push_row_count(text, row, self.count),
            None => Ok(()),
        }
    }
}

impl<P: Performs + Drop> Hands<P> {
    /// Counts the entries of the folder that is selected. That changes no file.
    pub(crate) fn count(&mut self, browser: &Browser) -> Outcome
        ensures { Counted P.does browser.now self.old.files result self.new.files }
    {
        let Ok(found) = browser.folder.entry(self.alloc, browser.selected_text()) else {
            return Outcome::Failed(Failure::Memory);
        };
        let Some(folder) = found else {
            return Outcome::Failed(Failure::BadName);
        };
        counted(self.files.perform(&Command::List(folder)))
    }
}
