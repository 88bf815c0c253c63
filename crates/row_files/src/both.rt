//! The system's files and a tree in memory, to which the same is done.

use crate::commands::command_of;
use crate::told::told;
use ratatui_files::{Answer, Command, Failing, Failure, InMemory, OnDisk, Performs};
use std::alloc::{AllocError, Global};
use std::time::Duration;
use std::{fs, io};

/// Files of both kinds, the group of rows, and what is to be told.
#[derive(Drop)]
pub struct Both<'a> {
    rt: &'a HostRuntime,
    folder: &'a str,
    memory: Failing<InMemory>,
    groups: u64,
    group: String,
    group_held: usize,
    /// What is to be told.
    pub report: String,
    /// How many rows hold.
    pub held: usize,
    /// How many rows don't.
    pub differ: usize,
}

// An empty tree, of which so many commands are done before one fails.
fn empty(alloc: Global, before: u64) -> Failing<InMemory> {
    Failing::new(InMemory::new(alloc, Duration::ZERO), before, Failure::Full)
}

// What does a command answers to it, as text; it is given again if there was no room or no memory.
fn answer_of<P: Performs>(
    alloc: Global,
    files: &mut P,
    command: &Command,
) -> Result<String, AllocError> {
    let answer = match files.perform(command) {
        Answer::Failed(Failure::Memory | Failure::Full) => files.perform(command),
        answer => answer,
    };
    told(alloc, &answer)
}

impl<'a> Both<'a> {
    /// Makes files of both kinds, with which nothing has been done yet.
    pub fn new(rt: &'a HostRuntime, folder: &'a str) -> io::Result<Both<'a>> {
        let alloc = rt.alloc();
        Ok(Both {
            rt,
            folder,
            memory: empty(alloc, 0),
            groups: 0,
            group: String::new(alloc),
            group_held: 0,
            report: String::new(alloc),
            held: 0,
            differ: 0,
        })
    }

    /// Ends a group, and tells how many of its rows hold.
    pub fn end_group(&mut self) -> io::Result<()> {
        if self.group.is_empty() {
            return Ok(());
        }
        let (group, held) = (self.group.as_str(), self.group_held);
        let line = format!(in self.rt.alloc(); "{group}: {held} rows\n")?;
        self.report.push_str(line.as_str())?;
        self.group_held = 0;
        Ok(())
    }

    // Begins a group: the folder is made anew, and the tree is empty.
    fn begin_group(&mut self, name: &str) -> io::Result<()> {
        self.end_group()?;
        self.group = String::from_str(self.rt.alloc(), name)?;
        self.groups = self.groups.saturating_add(1);
        self.memory = empty(self.rt.alloc(), self.groups);
        let _ = fs::remove_dir_all(self.rt, self.folder);
        fs::create_dir(self.rt, self.folder)
    }

    // Tells that a row doesn't hold.
    fn fail(&mut self, row: &str, what: &str, told: &str) -> io::Result<()> {
        self.differ = self.differ.saturating_add(1);
        let line = format!(in self.rt.alloc(); "{row}\n  {what}: {told}\n")?;
        self.report.push_str(line.as_str())?;
        Ok(())
    }

    // Does a command to both, and compares the answers with that of the row.
    fn compare(&mut self, row: &str, command: &Command, wanted: &str) -> io::Result<()> {
        let alloc = self.rt.alloc();
        let in_memory = answer_of(alloc, &mut self.memory, command)?;
        if in_memory.as_str() != wanted {
            return self.fail(row, "in memory", in_memory.as_str());
        }
        let mut disk = OnDisk::new(self.rt, self.folder);
        let on_disk = answer_of(alloc, &mut disk, command)?;
        if on_disk.as_str() != wanted {
            return self.fail(row, "on disk", on_disk.as_str());
        }
        self.held = self.held.saturating_add(1);
        self.group_held = self.group_held.saturating_add(1);
        Ok(())
    }

    // Takes a row.
    fn take_row(&mut self, row: &str) -> io::Result<()> {
        let Some((text, wanted)) = row.split_once(" = ") else {
            return self.fail(row, "no row", "= is missing");
        };
        let told = match command_of(self.rt.alloc(), text)? {
            Some(command) => return self.compare(row, &command, wanted),
            None => "no command",
        };
        if wanted != told {
            return self.fail(row, "no row", told);
        }
        self.held = self.held.saturating_add(1);
        self.group_held = self.group_held.saturating_add(1);
        Ok(())
    }

    /// Takes a line: a row, or the name of a group.
    pub fn take(&mut self, line: &str) -> io::Result<()> {
        match line.strip_prefix("# ") {
            Some(name) => self.begin_group(name),
            None => self.take_row(line),
        }
    }
}
