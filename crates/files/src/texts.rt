//! The texts that stand in the rows.

ghost use Rattle.std.specs.Prelude.{◌≡◌, ◌++◌, ◌<◌, OnOk, IfOk, string_bytes};
ghost use Rattle.text_field.specs.Field.{field_text};
ghost use Rattle.std.specs.Option.{option_copied};
ghost use Rattle.ratatui_files.specs.Paths.{after_start};
ghost use Rattle.ratatui_core.specs.Buffer.{text_columns};
ghost use Rattle.files.specs.Texts.{failure_text, shown_row, file_size_text, text_beside, row_told};
ghost use Rattle.files.specs.Texts.{title_text, selected_text, sought_text};
ghost use Rattle.files.specs.Texts.{has_dates, size_end, row_date, sized_row, folder_typed, name_typed};
ghost use Rattle.files.specs.Texts.{make_prompt, selected_details, place_notes};
ghost use Rattle.files.specs.Texts.{without_start, inner_text, trash_shown, trash_question, removal_question};
ghost use Rattle.files.specs.Texts.{selected_shown, place_told, subject, note_told, prompt, status_told, column_in};
ghost use Rattle.files.specs.Texts.{fits, text_in, entry_at, row_place, place_in_row, body_in};
ghost use Rattle.files.specs.Texts.{place_shown, now_shown, was_shown, undo_question};
ghost use Rattle.files.specs.Texts.{noted_shown, paste_verb, paste_note_told, missing_told, paste_prompt, order_told, unnamed_text};
ghost use Rattle.files.specs.Texts.{marked_text, more_text, outside_told};
ghost use Rattle.files.specs.Marks.{mark_lead};

use crate::browser::{Browser, Mode, Note};
use crate::details::{push_date_shown, push_details};
use crate::help::keys_row;
use crate::list::Row;
use crate::names::push_name;
use crate::order::{Order, SortBy};
use crate::ways::cut_at_slash;
use itoa::Buffer as Digits;
use ratatui_core::text::Span;
use ratatui_files::{Failure, Path};
use std::alloc::{AllocError, Global};
use text_field::TextField;

/// Returns why something wasn't done.
pub(crate) fn failure_text(failure: Failure) -> &'static str
    ensures { result.now ≡ failure_text failure }
{
    match failure {
        Failure::NotFound => "not found",
        Failure::NotAllowed => "not allowed",
        Failure::Exists => "it exists already",
        Failure::Full => "no room is left",
        Failure::NotEmpty => "the folder isn't empty",
        Failure::NotAFolder => "not a folder",
        Failure::IsAFolder => "a folder",
        Failure::NotAFile => "not a file",
        Failure::IntoItself => "it would lie in itself",
        Failure::OtherDevice => "on another device",
        Failure::BadName => "not a name",
        Failure::Memory => "no memory",
        Failure::Other => "the system refused",
    }
}

/// Appends a name, and what it is: a slash for a folder, and an at sign for a link.
pub(crate) fn push_row(text: &mut String, row: &Row) -> Result<(), AllocError>
    ensures { OnOk result (string_bytes text.new ≡ string_bytes text.old ++ shown_row row.now) }
{
    push_name(text, row.name.as_str())?;
    if !row.is_leaf {
        text.push_str("/")
    } else if row.is_link {
        text.push_str("@")
    } else {
        Ok(())
    }
}

// Appends a text after so many blanks that it ends in the last column, if there is room.
fn push_beside(alloc: Global, text: &mut String, beside: &str, width: u16) -> Result<(), AllocError>
    ensures { OnOk result (string_bytes text.new
        ≡ string_bytes text.old ++ text_beside width (string_bytes text.old) beside.now) }
{
    let used = Span::raw(text.as_str())
        .width()
        .saturating_add(beside.len());
    let gap = usize::from(width).saturating_sub(used);
    if gap == 0 {
        return Ok(());
    }
    let blanks = " ".repeat(alloc, gap)?;
    text.push_str(blanks.as_str())?;
    text.push_str(beside)
}

// Appends how many more entries there are, whose names are no texts.
fn push_unnamed(text: &mut String, count: u64) -> Result<(), AllocError>
    ensures { OnOk result (string_bytes text.new ≡ string_bytes text.old ++ unnamed_text count) }
{
    if count == 0 {
        return Ok(());
    }
    text.push_str(", and ")?;
    let mut digits = Digits::new();
    text.push_str(digits.format(count))?;
    text.push_str(" whose names are no texts")
}

// Appends how many entries are marked.
fn push_marked(text: &mut String, count: usize) -> Result<(), AllocError>
    ensures { OnOk result (string_bytes text.new ≡ string_bytes text.old ++ marked_text count) }
{
    if count == 0 {
        return Ok(());
    }
    text.push_str(", ")?;
    let mut digits = Digits::new();
    text.push_str(digits.format(count))?;
    text.push_str(" marked")
}

// Appends how many more are noted.
fn push_more(text: &mut String, count: usize) -> Result<(), AllocError>
    ensures { OnOk result (string_bytes text.new ≡ string_bytes text.old ++ more_text count) }
{
    if count == 0 {
        return Ok(());
    }
    text.push_str(" and ")?;
    let mut digits = Digits::new();
    text.push_str(digits.format(count))?;
    text.push_str(" more")
}

// Appends what entries are sorted by, if not by their names.
fn push_order(text: &mut String, order: Order) -> Result<(), AllocError>
    ensures { OnOk result (string_bytes text.new ≡ string_bytes text.old ++ order_told order) }
{
    match (order.by, order.is_reversed) {
        (SortBy::Name, false) => Ok(()),
        (SortBy::Name, true) => text.push_str(", the last name first"),
        (SortBy::Size, false) => text.push_str(", the least size first"),
        (SortBy::Size, true) => text.push_str(", the largest size first"),
        (SortBy::Date, false) => text.push_str(", the first date first"),
        (SortBy::Date, true) => text.push_str(", the last date first"),
    }
}

/// Returns the place of what stands in a row of the list, whose first row has this one.
pub(crate) fn row_place(first: usize, k: u16) -> usize
    ensures { result ≡ row_place first k }
{
    first.saturating_add(usize::from(k)).saturating_sub(1)
}

// Appends where something is, from the folder on that all is in.
fn push_place_of(text: &mut String, path: &Path) -> Result<(), AllocError>
    ensures { OnOk result (string_bytes text.new ≡ string_bytes text.old ++ place_shown path.now) }
{
    text.push_str("/")?;
    push_name(text, path.as_str())
}

/// Returns what follows a beginning of a text, if it begins so.
pub(crate) fn after_start<'a>(start: &str, text: &'a str) -> Option<&'a str>
    ensures { option_copied result ≡ after_start start.now text.now }
{
    match text.strip_prefix(start) {
        Some(rest) => Some(rest),
        None => None,
    }
}

// What follows a beginning of a text, or the text if it begins otherwise.
fn without_start<'a>(start: &str, text: &'a str) -> &'a str
    ensures { result.now ≡ without_start start.now text.now }
{
    match after_start(start, text) {
        Some(rest) => rest,
        None => text,
    }
}

// Whether rows of so many columns have dates.
fn has_dates(width: u16) -> bool
    ensures { result ≡ has_dates width }
{
    width >= 48
}

// Where a size ends in a row of so many columns.
fn size_end(width: u16) -> u16
    ensures { result ≡ size_end width }
{
    if has_dates(width) { width - 18 } else { width }
}

// The date in a row of so many columns.
fn row_date(alloc: Global, row: &Row, width: u16) -> Result<String, AllocError>
    ensures { IfOk result (λ text. string_bytes text ≡ row_date width row.now) }
{
    let mut text = String::new(alloc);
    if has_dates(width) {
        push_date_shown(&mut text, row.date)?;
    }
    Ok(text)
}

// An entry and its size in a row of so many columns, after what leads to it.
fn sized_row(alloc: Global, lead: &str, row: &Row, width: u16) -> Result<String, AllocError>
    ensures { IfOk result (λ text. string_bytes text ≡ sized_row width lead.now row.now) }
{
    let mut text = String::from_str(alloc, lead)?;
    push_row(&mut text, row)?;
    let mut digits = Digits::new();
    let size = match row.size {
        Some(size) => digits.format(size),
        None => "",
    };
    push_beside(alloc, &mut text, size, size_end(width))?;
    Ok(text)
}

// An entry in a row of so many columns, after what leads to it.
fn row_told(alloc: Global, lead: &str, row: &Row, width: u16) -> Result<String, AllocError>
    ensures { IfOk result (λ text. string_bytes text ≡ row_told width lead.now row.now) }
{
    let mut text = sized_row(alloc, lead, row, width)?;
    let date = row_date(alloc, row, width)?;
    push_beside(alloc, &mut text, date.as_str(), width)?;
    Ok(text)
}

/// Returns the name of the folder that is typed: what stands before a slash at the end.
pub(crate) fn folder_typed(text: &str) -> Option<&str>
    ensures { option_copied result ≡ folder_typed text.now }
{
    match cut_at_slash(text) {
        Some((front, last)) if last.is_empty() => Some(front),
        _ => None,
    }
}

// The name that is typed.
fn name_typed(text: &str) -> &str
    ensures { result.now ≡ name_typed text.now }
{
    match folder_typed(text) {
        Some(name) => name,
        None => text,
    }
}

// What stands before the name of what is to be made.
fn make_prompt(typed: &TextField) -> &'static str
    ensures { result.now ≡ make_prompt typed.now }
{
    if folder_typed(typed.text()).is_some() {
        "make the folder \""
    } else {
        "make the file \""
    }
}

impl Browser {
    // The name of the entry that is selected.
    pub(crate) fn selected_text(&self) -> &str
        ensures { result.now ≡ selected_text self.now }
    {
        match self.list.get(self.selected) {
            Some(row) => row.name.as_str(),
            None => "",
        }
    }

    /// Returns the name that is to be selected once the folder is listed anew.
    pub(crate) fn sought_text(&self) -> &str
        ensures { result.now ≡ sought_text self.now }
    {
        if self.seeks_typed {
            name_typed(self.typed.text())
        } else {
            self.selected_text()
        }
    }

    // Appends the entry that is selected.
    fn push_selected(&self, text: &mut String) -> Result<(), AllocError>
        ensures { OnOk result (string_bytes text.new
            ≡ string_bytes text.old ++ selected_shown self.now) }
    {
        match self.list.get(self.selected) {
            Some(row) => push_row(text, row),
            None => Ok(()),
        }
    }

    /// Returns the folder that is shown, as it is called in the one above which nothing is reached.
    pub(crate) fn inner_text(&self) -> &str
        ensures { result.now ≡ inner_text self.now }
    {
        without_start("/", without_start(self.base.as_str(), self.folder.as_str()))
    }

    // Where the folder is.
    fn title_text(&self) -> Result<String, AllocError>
        ensures { IfOk result (λ text. string_bytes text ≡ title_text self.now) }
    {
        let mut text = String::new(self.alloc);
        push_name(&mut text, self.title.as_str())?;
        text.push_str("/")?;
        push_name(&mut text, self.inner_text())?;
        Ok(text)
    }

    // Appends which entry is selected, of how many, and what is told of that.
    fn push_place(&self, text: &mut String) -> Result<(), AllocError>
        ensures { OnOk result (string_bytes text.new
            ≡ string_bytes text.old ++ place_told self.now) }
    {
        let mut digits = Digits::new();
        let count = self.list.len();
        text.push_str(digits.format(self.selected.saturating_add(1).min(count)))?;
        text.push_str("/")?;
        text.push_str(digits.format(count))?;
        self.push_place_notes(text)
    }

    // Appends how many entries can't be named, the order, how many are marked, and what is told of
    // the one that is selected.
    fn push_place_notes(&self, text: &mut String) -> Result<(), AllocError>
        ensures { OnOk result (string_bytes text.new
            ≡ string_bytes text.old ++ place_notes self.now) }
    {
        push_unnamed(text, self.unnamed)?;
        push_order(text, self.order)?;
        push_marked(text, self.marks.len())?;
        self.push_selected_details(text)
    }

    // Appends what is told of the entry that is selected.
    fn push_selected_details(&self, text: &mut String) -> Result<(), AllocError>
        ensures { OnOk result (string_bytes text.new
            ≡ string_bytes text.old ++ selected_details self.now) }
    {
        match self.list.get(self.selected) {
            Some(row) => push_details(text, row),
            None => Ok(()),
        }
    }

    // Appends where it is that is noted, from the folder on that all is in.
    fn push_noted(&self, text: &mut String) -> Result<(), AllocError>
        ensures { OnOk result (string_bytes text.new
            ≡ string_bytes text.old ++ noted_shown self.now.noted) }
    {
        match &self.noted {
            Some(noted) => {
                text.push_str("/")?;
                push_name(text, noted.path.as_str())
            }
            None => Ok(()),
        }
    }

    // Appends what is done to what is noted.
    fn push_verb(&self, text: &mut String) -> Result<(), AllocError>
        ensures { OnOk result (string_bytes text.new
            ≡ string_bytes text.old ++ paste_verb self.now.noted) }
    {
        match &self.noted {
            Some(noted) if noted.is_moved => text.push_str("move"),
            _ => text.push_str("copy"),
        }
    }

    // Appends what is noted, and how it comes to another folder.
    fn push_paste_note(&self, text: &mut String) -> Result<(), AllocError>
        ensures { OnOk result (string_bytes text.new
            ≡ string_bytes text.old ++ paste_note_told self.now) }
    {
        text.push_str("p will ")?;
        self.push_verb(text)?;
        text.push_str(" \"")?;
        self.push_noted(text)?;
        text.push_str("\"")?;
        push_more(text, self.more.len())?;
        text.push_str(" here")
    }

    // Appends that no name has what is sought.
    fn push_missing(&self, text: &mut String) -> Result<(), AllocError>
        ensures { OnOk result (string_bytes text.new
            ≡ string_bytes text.old ++ missing_told self.now) }
    {
        text.push_str("\"")?;
        push_name(text, self.sought.as_str())?;
        text.push_str("\" is in no name")
    }

    // Appends that nothing is reached where a typed path leads.
    fn push_outside(&self, text: &mut String) -> Result<(), AllocError>
        ensures { OnOk result (string_bytes text.new
            ≡ string_bytes text.old ++ outside_told self.now) }
    {
        text.push_str("\"")?;
        push_name(text, self.typed.text())?;
        text.push_str("\" isn't in the folder that all is in")
    }

    // Appends what stands before the name under which what is noted comes here.
    fn push_paste_prompt(&self, text: &mut String) -> Result<(), AllocError>
        ensures { OnOk result (string_bytes text.new
            ≡ string_bytes text.old ++ paste_prompt self.now) }
    {
        self.push_verb(text)?;
        text.push_str(" \"")?;
        self.push_noted(text)?;
        text.push_str("\" to \"")
    }

    // Appends what it was that wasn't done.
    fn push_subject(&self, mode: Mode, text: &mut String) -> Result<(), AllocError>
        ensures { OnOk result (string_bytes text.new
            ≡ string_bytes text.old ++ subject mode self.now) }
    {
        match mode {
            Mode::Entering
            | Mode::Trashing
            | Mode::Removing
            | Mode::CountingToTrash
            | Mode::CountingToRemove
            | Mode::Renaming => self.push_selected(text),
            Mode::Making => push_name(text, self.typed.text()),
            Mode::Pasting => self.push_noted(text),
            Mode::Undoing => self.push_now(text),
            Mode::Leaving => text.push_str("the folder above"),
            Mode::Returning => text.push_str("the folder that all is in"),
            Mode::Visiting | Mode::Locating => push_name(text, self.typed.text()),
            _ => text.push_str("this folder"),
        }
    }

    // Appends what is told while an entry is selected.
    fn push_note(&self, text: &mut String) -> Result<(), AllocError>
        ensures { OnOk result (string_bytes text.new
            ≡ string_bytes text.old ++ note_told self.now.note self.now) }
    {
        match self.note {
            Note::Place => self.push_place(text),
            Note::Narrow => text.push_str("the screen is too narrow for the question"),
            Note::NoTrash => text.push_str("there is no trash: X removes for good"),
            Note::Missing => self.push_missing(text),
            Note::Noted => self.push_paste_note(text),
            Note::NothingNoted => {
                text.push_str("nothing is noted: y takes a file, d a file or a folder")
            }
            Note::NothingMoved => text.push_str("nothing was renamed or moved"),
            Note::Outside => self.push_outside(text),
            Note::NothingAbove => text.push_str("can't go above the folder that was opened"),
            Note::Failed(mode, failure) => {
                self.push_subject(mode, text)?;
                text.push_str(": ")?;
                text.push_str(failure_text(failure))
            }
        }
    }

    // Appends what stands before a name or a path, with that in the field.
    fn push_prompt(
        &self,
        mode: Mode,
        typed: &TextField,
        text: &mut String,
    ) -> Result<(), AllocError>
        ensures { OnOk result (string_bytes text.new
            ≡ string_bytes text.old ++ prompt mode typed.now self.now) }
    {
        match mode {
            Mode::Renaming => {
                text.push_str("rename \"")?;
                self.push_selected(text)?;
                text.push_str("\" to \"")
            }
            Mode::Pasting => self.push_paste_prompt(text),
            Mode::Seeking => text.push_str("/"),
            Mode::Going => text.push_str(":"),
            _ => text.push_str(make_prompt(typed)),
        }
    }

    // Appends where something is, from the folder on that all is in.
    fn push_trash(&self, text: &mut String) -> Result<(), AllocError>
        ensures { OnOk result (string_bytes text.new
            ≡ string_bytes text.old ++ trash_shown self.now.trash) }
    {
        match &self.trash {
            Some(trash) => {
                text.push_str("/")?;
                push_name(text, trash.as_str())
            }
            None => Ok(()),
        }
    }

    // Appends the question whether the entry that is selected is to be put into the trash.
    fn push_trash_question(&self, text: &mut String) -> Result<(), AllocError>
        ensures { OnOk result (string_bytes text.new
            ≡ string_bytes text.old ++ trash_question self.now) }
    {
        text.push_str("move \"")?;
        self.push_selected(text)?;
        text.push_str("\"")?;
        self.push_count(text)?;
        text.push_str(" to \"")?;
        self.push_trash(text)?;
        text.push_str("\"? y/n")
    }

    // Appends where it is that was renamed or moved last.
    fn push_now(&self, text: &mut String) -> Result<(), AllocError>
        ensures { OnOk result (string_bytes text.new
            ≡ string_bytes text.old ++ now_shown self.now.last_move) }
    {
        match &self.last_move {
            Some(moved) => push_place_of(text, &moved.to),
            None => Ok(()),
        }
    }

    // Appends where it was.
    fn push_was(&self, text: &mut String) -> Result<(), AllocError>
        ensures { OnOk result (string_bytes text.new
            ≡ string_bytes text.old ++ was_shown self.now.last_move) }
    {
        match &self.last_move {
            Some(moved) => push_place_of(text, &moved.from),
            None => Ok(()),
        }
    }

    // Appends the question whether it is to get its old place back.
    fn push_undo_question(&self, text: &mut String) -> Result<(), AllocError>
        ensures { OnOk result (string_bytes text.new
            ≡ string_bytes text.old ++ undo_question self.now) }
    {
        let beginning = "move \"";
        text.push_str(beginning)?;
        self.push_now(text)?;
        text.push_str("\" back to \"")?;
        self.push_was(text)?;
        text.push_str("\"? y/n")
    }

    // Appends the question whether the entry that is selected is to be removed for good.
    fn push_removal_question(&self, text: &mut String) -> Result<(), AllocError>
        ensures { OnOk result (string_bytes text.new
            ≡ string_bytes text.old ++ removal_question self.now) }
    {
        text.push_str("remove \"")?;
        self.push_selected(text)?;
        text.push_str("\"")?;
        self.push_count(text)?;
        text.push_str(" for good? y/n")
    }

    /// Returns what the last row tells.
    pub(crate) fn status_told(&self) -> Result<String, AllocError>
        ensures { IfOk result (λ text. string_bytes text ≡ status_told self.now) }
    {
        let mut text = String::new(self.alloc);
        match self.mode {
            Mode::Trashing => self.push_trash_question(&mut text)?,
            Mode::Undoing => self.push_undo_question(&mut text)?,
            Mode::Helping => text.push_str("any key goes on, or back")?,
            Mode::Removing => self.push_removal_question(&mut text)?,
            Mode::Renaming | Mode::Making | Mode::Pasting => {
                self.push_prompt(self.mode, &self.typed, &mut text)?;
                push_name(&mut text, self.typed.text())?;
                text.push_str("\"")?;
            }
            Mode::Seeking => {
                self.push_prompt(Mode::Seeking, &self.typed, &mut text)?;
                push_name(&mut text, self.typed.text())?;
            }
            Mode::Going | Mode::Visiting | Mode::Locating | Mode::Completing => {
                self.push_prompt(Mode::Going, &self.typed, &mut text)?;
                push_name(&mut text, self.typed.text())?;
            }
            Mode::Sorting => {
                text.push_str("sort by n name, s size, d date; N S D the other way round")?;
            }
            _ => self.push_note(&mut text)?,
        }
        Ok(text)
    }

    /// Returns how many columns of the status stand before the cursor, with a name in the field.
    pub(crate) fn column_in(&self, mode: Mode, typed: &TextField) -> Result<usize, AllocError>
        ensures { IfOk result (λ column. column ≡ column_in mode typed.now self.now) }
    {
        let mut text = String::new(self.alloc);
        self.push_prompt(mode, typed, &mut text)?;
        push_name(&mut text, typed.before())?;
        Ok(Span::raw(text.as_str()).width())
    }

    /// Returns whether so many columns show all that the last row tells.
    pub(crate) fn fits(&self, width: u16) -> Result<bool, AllocError>
        ensures { IfOk result (λ fits_it. fits_it ≡ fits width self.now) }
    {
        let text = self.status_told()?;
        Ok(Span::raw(text.as_str()).width() <= usize::from(width))
    }

    // What stands before an entry if some are marked.
    fn mark_lead(&self, row: &Row) -> &'static str
        ensures { result.now ≡ mark_lead self.now row.now }
    {
        if self.marks.is_empty() {
            ""
        } else if self.is_row_marked(row) {
            "* "
        } else {
            "  "
        }
    }

    /// Returns the entry in a row of the list, if it shows one.
    pub(crate) fn entry_text(&self, place: usize, width: u16) -> Result<String, AllocError>
        ensures { IfOk result (λ text. string_bytes text ≡ entry_at width place self.now) }
    {
        match self.list.get(place) {
            Some(row) => row_told(self.alloc, self.mark_lead(row), row, width),
            None => Ok(String::new(self.alloc)),
        }
    }

    /// Returns what stands in a row, of as many as there are.
    pub(crate) fn text_in(&self, k: u16, width: u16, height: u16) -> Result<String, AllocError>
        requires { k < height }
        ensures { IfOk result (λ text. string_bytes text ≡ text_in k width height self.now) }
    {
        if k == height - 1 {
            self.status_told()
        } else if k == 0 {
            self.title_text()
        } else {
            self.body_text(k, width)
        }
    }

    // What stands in a row between the title and the status: an entry, or a row of the list of the
    // keys.
    fn body_text(&self, k: u16, width: u16) -> Result<String, AllocError>
        ensures { IfOk result (λ text. string_bytes text ≡ body_in self.now.mode width k self.now) }
    {
        match self.mode {
            Mode::Helping => String::from_str(self.alloc, keys_row(row_place(self.helped, k))),
            _ => self.entry_text(self.place_in_row(k), width),
        }
    }

    // The place of the entry in a row of the list.
    pub(crate) fn place_in_row(&self, k: u16) -> usize
        ensures { result ≡ place_in_row k self.now }
    {
        row_place(self.top, k)
    }
}
