//! How a typed path is completed.

ghost use Rattle.std.specs.Prelude.{◌≡◌, Some, IfOk, option_map, string_bytes, encode_utf8_all};
ghost use Rattle.text_field.specs.Field.{field_text};
ghost use Rattle.files.specs.Ways.{way_of};
ghost use Rattle.files.specs.Doing.{TellsCompletion, Completed};
ghost use Rattle.files.specs.Completions.{folder_part, last_part, is_offered, typed_chars, entry_rest};
ghost use Rattle.files.specs.Completions.{common_count, common_with, completion};

use crate::browser::Browser;
use crate::hands::Hands;
use crate::list::Outcome;
use crate::sorting::is_listed;
use crate::texts::after_start;
use crate::ways::cut_at_slash;
use ratatui_files::{Answer, Command, Failure, Info, Kind, Path, Performs, Text};
use std::alloc::{AllocError, Global};

// The folder part of a typed path, up to its last slash.
fn folder_part(alloc: Global, text: &str) -> Result<String, AllocError>
    ensures { IfOk result (λ part. string_bytes part ≡ folder_part text.now) }
{
    let mut part = String::new(alloc);
    if let Some((front, _)) = cut_at_slash(text) {
        part.push_str(front)?;
        part.push_str("/")?;
    }
    Ok(part)
}

// The last part of a typed path, after its last slash.
fn last_part(text: &str) -> &str
    ensures { result.now ≡ last_part text.now }
{
    match cut_at_slash(text) {
        Some((_, last)) => last,
        None => text,
    }
}

// The characters of a text up to one that can't be typed.
fn typed_chars(alloc: Global, text: &str) -> Result<Vec<char>, AllocError>
    ensures { IfOk result (λ all. all.items ≡ typed_chars text.now) }
{
    text.chars().take_while(|c| !c.is_control()).collect(alloc)
}

// Whether an entry is listed, or something of it is typed.
fn is_offered(has_hidden: bool, start: &str, info: &Info) -> bool
    ensures { result ≡ is_offered has_hidden start.now info.now }
{
    is_listed(has_hidden || !start.is_empty(), info.name.as_str())
}

// How an entry goes on whose name has a beginning.
fn entry_rest(
    alloc: Global,
    has_hidden: bool,
    start: &str,
    info: &Info,
) -> Result<Option<Vec<char>>, AllocError>
    ensures { IfOk result (λ rest.
        option_map (λ all. all.items) rest ≡ entry_rest has_hidden start.now info.now) }
{
    if !is_offered(has_hidden, start, info) {
        return Ok(None);
    }
    let Some(rest) = after_start(start, info.name.as_str()) else {
        return Ok(None);
    };
    let mut rest = String::from_str(alloc, rest)?;
    if info.kind == Kind::Folder {
        rest.push_str("/")?;
    }
    Ok(Some(typed_chars(alloc, rest.as_str())?))
}

// How many characters two texts have in common at their start.
fn common_count(one: &[char], other: &[char]) -> usize
    ensures { result ≡ common_count one.now other.now }
{
    let most = one.len().min(other.len());
    for count in 0..most {
        if one[count] != other[count] {
            return count;
        }
    }
    most
}

// What texts have in common at their start, with one text more, if there is one.
fn common_with(common: Option<Vec<char>>, text: Option<Vec<char>>) -> Option<Vec<char>>
    ensures { option_map (λ all. all.items) result
        ≡ common_with (option_map (λ all. all.items) common) (option_map (λ all. all.items) text) }
{
    match (common, text) {
        (Some(mut common), Some(text)) => {
            let count = common_count(common.as_slice(), text.as_slice());
            common.truncate(count);
            Some(common)
        }
        (Some(common), None) => Some(common),
        (None, text) => text,
    }
}

// A text of these characters.
fn text_of(alloc: Global, all: &[char]) -> Result<Text, AllocError>
    ensures { IfOk result (λ text. text ≡ encode_utf8_all all.now) }
{
    let text: String = all.iter().copied().collect(alloc)?;
    Ok(Text::new(text))
}

// How a beginning of a name goes on: as all entries do that have it.
fn completion(
    alloc: Global,
    has_hidden: bool,
    start: &str,
    entries: &[Info],
) -> Result<Text, AllocError>
    ensures { IfOk result (λ rest. rest ≡ completion has_hidden start.now entries.now) }
{
    let mut common = None;
    for info in entries {
        let rest = entry_rest(alloc, has_hidden, start, info)?;
        common = common_with(common, rest);
    }
    match common {
        Some(common) => text_of(alloc, common.as_slice()),
        None => Text::copy(alloc, ""),
    }
}

impl Browser {
    // The folder whose entries the typed path may go on with.
    fn folder_typed(&self) -> Result<Option<Path>, AllocError>
        ensures { IfOk result (λ path.
            path ≡ way_of self.now (folder_part (field_text self.now.typed))) }
    {
        let part = folder_part(self.alloc, self.typed.text())?;
        self.way_of(part.as_str())
    }
}

// What is told of an answer.
fn completed(alloc: Global, browser: &Browser, answer: Answer) -> Result<Outcome, AllocError>
    ensures { IfOk result (TellsCompletion browser.now answer) }
{
    match answer {
        Answer::Listed(entries, _) => {
            let start = last_part(browser.typed.text());
            let rest = completion(alloc, browser.has_hidden, start, entries.as_slice())?;
            Ok(Outcome::Completed(rest))
        }
        Answer::Failed(failure) => Ok(Outcome::Failed(failure)),
        _ => Ok(Outcome::Failed(Failure::Other)),
    }
}

impl<P: Performs + Drop> Hands<P> {
    /// Looks how a typed path goes on. That changes no file.
    pub(crate) fn complete(&mut self, browser: &Browser) -> Outcome
        ensures { Completed P.does browser.now self.old.files result self.new.files }
    {
        let Ok(found) = browser.folder_typed() else {
            return Outcome::Failed(Failure::Memory);
        };
        let Some(folder) = found else {
            return Outcome::Failed(Failure::BadName);
        };
        let answer = self.files.perform(&Command::List(folder));
        match completed(self.alloc, browser, answer) {
            Ok(outcome) => outcome,
            Err(_) => Outcome::Failed(Failure::Memory),
        }
    }
}
