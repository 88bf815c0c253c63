//! What is made of a path that is typed.

ghost use Rattle.std.specs.Prelude.{◌≡◌, OnOk, OnErr};
ghost use Rattle.files.specs.Moves.{going_to, path_into, gone_by, is_completing, path_completed, leads_to_leaf};

use crate::browser::{Browser, Mode, Note};
use crate::keys::is_tab_key;
use crate::typing::{Typing, typing_of};
use ratatui_events::Event;
use ratatui_files::{Failure, Path, Text};
use std::alloc::AllocError;
use text_field::Reach;

/// Returns whether it is asked how a typed path goes on.
pub(crate) fn is_completing(mode: Mode) -> bool
    ensures { result ≡ is_completing mode }
{
    match mode {
        Mode::Completing => true,
        _ => false,
    }
}

/// Returns whether the typed path leads to no folder, but to something, if what was asked for
/// failed so.
pub(crate) fn leads_to_leaf(mode: Mode, failure: Failure) -> bool
    ensures { result ≡ leads_to_leaf mode failure }
{
    match mode {
        Mode::Visiting => failure == Failure::NotAFolder,
        _ => false,
    }
}

impl Browser {
    // Asks for what a typed path leads to, if it leads to something.
    fn go_to(&mut self, path: Option<Path>)
        ensures { self.new ≡ going_to path self.old }
    {
        match path {
            Some(_) => self.mode = Mode::Visiting,
            None => {
                self.mode = Mode::Looking;
                self.note = Note::Outside;
            }
        }
    }

    // Does what is asked for while a path is typed, but for Tab.
    fn type_path(&mut self, typing: Typing) -> Result<(), AllocError>
        ensures ok { OnOk result (self.new ≡ path_into typing self.old) }
        ensures err { OnErr result (self.new ≡ self.old) }
    {
        match typing {
            Typing::Change(edit) => self.edit(edit)?,
            Typing::Accept => {
                let path = self.way_of(self.typed.text())?;
                self.go_to(path);
            }
            Typing::Cancel => self.mode = Mode::Looking,
            Typing::Ignore => {}
        }
        Ok(())
    }

    /// Takes an event while a path is typed.
    pub(crate) fn take_path(&mut self, event: Event) -> Result<(), AllocError>
        ensures ok { OnOk result (self.new ≡ gone_by event self.old) }
        ensures err { OnErr result (self.new ≡ self.old) }
    {
        if is_tab_key(event) {
            self.mode = Mode::Completing;
            return Ok(());
        }
        self.type_path(typing_of(event))
    }

    /// Goes on with a typed path, if it is asked how.
    pub(crate) fn complete(&mut self, rest: Text) -> Result<(), AllocError>
        ensures ok { OnOk result (self.new ≡ path_completed rest self.old) }
        ensures err { OnErr result (self.new ≡ self.old) }
    {
        if !is_completing(self.mode) {
            return Ok(());
        }
        let mut typed = self.typed.clone(self.alloc)?;
        typed.move_right(Reach::All);
        typed.insert_str(rest.as_str())?;
        self.begin(Mode::Going, typed)
    }
}
