//! Answers as text.

use ratatui_files::{Answer, Entries, Info, Kind};
use std::alloc::{AllocError, Global};

// What is told of an entry.
fn told_entry(alloc: Global, info: &Info) -> Result<String, AllocError> {
    let name = info.name.as_str();
    let size = info.size;
    match info.kind {
        Kind::Folder => format!(in alloc; "{name}/"),
        Kind::File => format!(in alloc; "{name} {size}"),
        Kind::Link => format!(in alloc; "{name}@"),
        Kind::Other => format!(in alloc; "{name}?"),
    }
}

// What is told of entries, in order.
fn told_entries(alloc: Global, entries: &Entries) -> Result<String, AllocError> {
    let mut texts = Vec::new(alloc);
    for info in entries.as_slice() {
        texts.push(told_entry(alloc, info)?)?;
    }
    texts.sort()?;
    let mut all = String::new(alloc);
    for text in &texts {
        if !all.is_empty() {
            all.push_str(", ")?;
        }
        all.push_str(text.as_str())?;
    }
    Ok(all)
}

/// Returns an answer as text.
pub fn told(alloc: Global, answer: &Answer) -> Result<String, AllocError> {
    match answer {
        Answer::Listed(entries, _) => told_entries(alloc, entries),
        Answer::Read(bytes) => {
            let bytes = bytes.as_slice();
            String::from_utf8_lossy(alloc, bytes)
        }
        Answer::Done => String::from_str(alloc, "done"),
        Answer::Time(_) => String::from_str(alloc, "time"),
        Answer::Failed(failure) => format!(in alloc; "{failure}"),
    }
}
