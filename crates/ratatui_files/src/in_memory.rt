//! A tree of files in memory.

ghost use Rattle.std.specs.Prelude.{◌≡◌, [], MatchResult, IfOk, OnOk, OnErr};
ghost use Rattle.ratatui_files.specs.Trees.{with_node};
ghost use Rattle.ratatui_files.specs.declared.command.Command.TheVariants as command;
ghost use Rattle.ratatui_files.specs.Changes.{done, done_answer};
ghost use Rattle.ratatui_files.specs.Performing.{DoesExactly};

use crate::answer::{Answer, Failure};
use crate::change::{entries_in, part, put, remove, rename};
use crate::command::Command;
use crate::node::{Entry, Node};
use crate::path::Path;
use crate::performs::Performs;
use crate::text::Bytes;
use crate::tree::{bytes_at, refusal};
use std::alloc::{AllocError, Global};
use std::marker::Model;
use std::time::Duration;

/// A tree of files in memory, in which only commands change anything. Its clock stands still.
#[derive(Drop)]
pub struct InMemory {
    alloc: Global,
    entries: Vec<Entry>,
    time: Duration,
}

impl Model for InMemory {
    ghost use Rattle.ratatui_files.specs.Trees.{Tree};

    ghost Value = { Tree };

    ghost view = { λ tree. record { entries = tree.entries.items; time = tree.time } };
}

impl InMemory {
    /// Makes an empty tree, where the time since 1970 is this.
    pub fn new(alloc: Global, time: Duration) -> InMemory
        ensures { result ≡ record { entries = []; time = time } }
    {
        InMemory {
            alloc,
            entries: Vec::new(alloc),
            time,
        }
    }

    /// Sets the time.
    pub fn set_time(&mut self, time: Duration)
        ensures { self.new ≡ record self.old { time = time } }
    {
        self.time = time;
    }

    /// Returns what stands in it.
    pub fn entries(&self) -> &[Entry]
        ensures { result.now ≡ self.now.entries }
    {
        self.entries.as_slice()
    }

    // What a command that isn't refused is answered.
    fn answer(&self, command: &Command) -> Result<Answer, AllocError>
        ensures { IfOk result (λ answer. answer ≡ done_answer command.now self.now) }
    {
        let entries = self.entries.as_slice();
        match command {
            Command::List(folder) => {
                let entries = entries_in(self.alloc, folder.as_str(), entries)?;
                Ok(Answer::Listed(entries, 0))
            }
            Command::Read(path, start, most) => {
                let bytes = bytes_at(path.as_str(), entries);
                Ok(Answer::Read(part(self.alloc, bytes, *start, *most)?))
            }
            Command::Now => Ok(Answer::Time(self.time)),
            _ => Ok(Answer::Done),
        }
    }

    // Puts a file or a folder at a path.
    fn put(&mut self, path: &Path, node: Node) -> Result<(), AllocError>
        ensures ok { OnOk result (self.new ≡ record self.old {
          entries = with_node path.now node self.old.time self.old.entries;
        }) }
        ensures refused { OnErr result (self.new ≡ self.old) }
    {
        put(
            self.alloc,
            path.as_str(),
            node,
            self.time,
            &mut self.entries,
        )
    }

    // Puts a copy of what the file at a path holds at another one.
    fn copy(&mut self, from: &Path, to: &Path) -> Result<(), AllocError>
        ensures ok { OnOk result (self.new
            ≡ record self.old { entries = done (command.Copy from.now to.now) self.old }) }
        ensures refused { OnErr result (self.new ≡ self.old) }
    {
        let bytes = Bytes::copy(self.alloc, bytes_at(from.as_str(), self.entries.as_slice()))?;
        self.put(to, Node::File(bytes))
    }

    // Does a command that isn't refused.
    fn change(&mut self, command: &Command) -> Result<(), AllocError>
        ensures ok { OnOk result (self.new
            ≡ record self.old { entries = done command.now self.old }) }
        ensures refused { OnErr result (self.new ≡ self.old) }
    {
        match command {
            Command::Write(path, bytes) => {
                let bytes = Bytes::copy(self.alloc, bytes.as_slice())?;
                self.put(path, Node::File(bytes))
            }
            Command::Rename(from, to) => {
                rename(self.alloc, from.as_str(), to.as_str(), &mut self.entries)
            }
            Command::Copy(from, to) => self.copy(from, to),
            Command::Remove(path) | Command::RemoveFolder(path) => {
                remove(path.as_str(), &mut self.entries);
                Ok(())
            }
            Command::MakeFolder(path) => self.put(path, Node::Folder),
            Command::MakeFile(path) => self.put(path, Node::File(Bytes::new(Vec::new(self.alloc)))),
            Command::List(_) | Command::Read(_, _, _) | Command::Now => Ok(()),
        }
    }

    // Does a command that isn't refused, and answers it.
    fn carry_out(&mut self, command: &Command) -> Result<Answer, AllocError>
        ensures answer { IfOk result (λ answer. answer ≡ done_answer command.now self.old) }
        ensures ok { OnOk result (self.new
            ≡ record self.old { entries = done command.now self.old }) }
        ensures refused { OnErr result (self.new ≡ self.old) }
    {
        let answer = self.answer(command)?;
        self.change(command)?;
        Ok(answer)
    }
}

impl Performs for InMemory {
    ghost does = { DoesExactly };

    fn perform(&mut self, command: &Command) -> Answer {
        if let Some(failure) = refusal(command, self.entries.as_slice()) {
            return Answer::Failed(failure);
        }
        match self.carry_out(command) {
            Ok(answer) => answer,
            Err(_) => Answer::Failed(Failure::Memory),
        }
    }
}
