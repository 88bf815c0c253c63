//! Logs, run over bytes in memory, and lines on a screen in memory.

use logview::{LogFault, LogView, push_lines, run};
use ratatui_core::backend::{TestBackend, TestError};
use ratatui_core::layout::Rect;
use ratatui_core::terminal::TerminalError;
use std::alloc::{AllocError, Global};
use std::io::{self, Read};
use std::test::Fail;

// Whether a log runs, and prints this.
fn prints(alloc: Global, log: &str, printed: &str) -> bool {
    let mut written = Vec::new(alloc);
    let mut reader = log.as_bytes();
    run(alloc, &mut reader, &mut written).is_ok() && written.as_slice() == printed.as_bytes()
}

// Logs and what they print.
static PRINTED: [(&str, &str); 17] = [
    (
        "8 3\none\ntwo\nthree",
        "^one     \n|two     \n|three   \n|lines: 3\n",
    ),
    ("2 1\nコx\n\n", "^コ\n^  \n|li\n"),
    ("9 2", "|lines: 0 \n|         \n"),
    ("9 2\n", "|lines: 0 \n|         \n"),
    ("9 3\r\na\r\n", "|a        \n|lines: 1 \n|         \n"),
    ("1 1\na\nbc", "^a\n^b\n|l\n"),
    ("3 2\nabコ", "|ab \n|lin\n"),
    ("3 2\naコb", "|aコ\n|lin\n"),
    ("3 2\nabe\u{301}x", "|abe\u{301}\n|lin\n"),
    ("3 2\n\u{200B}a\u{200B}b", "|ab \n|lin\n"),
    ("3 2\nabc\u{200B}d", "|abc\n|lin\n"),
    ("3 2\nabcd\u{301}", "|abc\n|lin\n"),
    ("1 2\nコ", "| \n|l\n"),
    ("3 2\n\ta\u{1b}[b", "|a[b\n|lin\n"),
    ("3 2\na longer line", "|a l\n|lin\n"),
    ("3 2\na\n\n\nb", "^a  \n^   \n^   \n|b  \n|lin\n"),
    (
        "10 2\n1\n2\n3\n4\n5\n6\n7\n8\n9\n",
        "^1         \n^2         \n^3         \n^4         \n^5         \n\
         ^6         \n^7         \n^8         \n|9         \n|lines: 9  \n",
    ),
];

#[test]
fn prints_what_it_shows(rt: HostRuntime) {
    for (log, printed) in &PRINTED {
        assert!(rt; prints(rt.alloc(), log, printed), "{log}");
    }
}

// A text, and then another one so many times.
fn repeated(alloc: Global, first: &str, text: &str, count: usize) -> Result<String, AllocError> {
    let mut all = String::from_str(alloc, first)?;
    for _ in 0..count {
        all.push_str(text)?;
    }
    Ok(all)
}

// Whether a log of more lines than there are rows of a screen at most prints them all.
fn prints_many(alloc: Global) -> Result<bool, AllocError> {
    let log = repeated(alloc, "1 1\n", "a\n", 65536)?;
    let mut printed = repeated(alloc, "", "^a\n", 65536)?;
    printed.push_str("|l\n")?;
    Ok(prints(alloc, log.as_str(), printed.as_str()))
}

#[test]
fn prints_more_lines_than_a_screen_has_rows(rt: HostRuntime) -> Result<(), Fail> {
    assert!(rt; prints_many(rt.alloc())?);
    Ok(())
}

// Whether a log of one line of more than 65535 bytes prints as much of it as fits.
fn prints_a_long_line(alloc: Global) -> Result<bool, AllocError> {
    let log = repeated(alloc, "3 2\n", "a", 70000)?;
    Ok(prints(alloc, log.as_str(), "|aaa\n|lin\n"))
}

#[test]
fn prints_what_fits_of_a_long_line(rt: HostRuntime) -> Result<(), Fail> {
    assert!(rt; prints_a_long_line(rt.alloc())?);
    Ok(())
}

fn reads_as(alloc: Global, fault: LogFault, text: &str) -> Result<bool, AllocError> {
    Ok(fault.to_string(alloc)?.as_str() == text)
}

// Whether the run of a log fails with this text, and prints nothing.
fn fails(alloc: Global, log: &[u8], text: &str) -> Result<bool, AllocError> {
    let mut written = Vec::new(alloc);
    let mut reader = log;
    match run(alloc, &mut reader, &mut written) {
        Ok(()) => Ok(false),
        Err(fault) => Ok(reads_as(alloc, fault, text)? && written.is_empty()),
    }
}

// First lines that are no size.
static NO_SIZES: [&str; 12] = [
    "", "\n8 3", "8", "8 ", "8  3", "8 3 1", "8 3 ", "+8 3", "8 -3", "2 0", "0 3", "8 65536",
];

#[test]
fn refuses_what_is_no_size(rt: HostRuntime) -> Result<(), Fail> {
    for log in &NO_SIZES {
        assert!(rt;
            fails(rt.alloc(), log.as_bytes(), "line 1: bad size")?,
            "{log}"
        );
    }
    Ok(())
}

#[test]
fn refuses_bytes_that_are_no_text(rt: HostRuntime) -> Result<(), Fail> {
    assert!(rt; fails(rt.alloc(), b"8 3\n\xff", "input: not text")?);
    assert!(rt; fails(rt.alloc(), b"0 3\n\xff", "input: not text")?);
    Ok(())
}

#[test]
fn names_refused_memory(rt: HostRuntime) -> Result<(), Fail> {
    assert!(rt; reads_as(rt.alloc(), LogFault::Refused(12), "line 12: memory")?);
    assert!(rt; reads_as(rt.alloc(), LogFault::Memory, "input: no memory")?);
    Ok(())
}

// A reader that gives one line, and then fails.
#[derive(Drop)]
struct Broken {
    is_started: bool,
}

impl Read for Broken {
    fn read(&mut self, buf: &mut [u8]) -> io::Result<usize> {
        if self.is_started || buf.len() < 4 {
            return Err(io::Error::from(io::ErrorKind::NotFound));
        }
        self.is_started = true;
        buf[..4].copy_from_slice(b"8 3\n");
        Ok(4)
    }
}

// Whether a run fails at such a reader, names the read and prints nothing.
fn fails_to_read(alloc: Global, is_started: bool) -> Result<bool, AllocError> {
    let mut written = Vec::new(alloc);
    match run(alloc, &mut Broken { is_started }, &mut written) {
        Ok(()) => Ok(false),
        Err(fault) => Ok(reads_as(alloc, fault, "input: read failed")? && written.is_empty()),
    }
}

#[test]
fn names_a_failed_read(rt: HostRuntime) -> Result<(), Fail> {
    assert!(rt; fails_to_read(rt.alloc(), false)?);
    assert!(rt; fails_to_read(rt.alloc(), true)?);
    Ok(())
}

/// A writer that takes some bytes and then fails, or fails to flush them.
#[derive(Drop)]
pub struct Full {
    pub left: usize,
}

impl io::Write for Full {
    fn write(&mut self, buf: &[u8]) -> io::Result<usize> {
        if self.left < buf.len() {
            return Err(io::Error::from(io::ErrorKind::NotFound));
        }
        self.left -= buf.len();
        Ok(buf.len())
    }

    fn flush(&mut self) -> io::Result<()> {
        Err(io::Error::from(io::ErrorKind::NotFound))
    }
}

// Whether a run fails at a writer that takes so many bytes, and tells that.
fn fails_to_write(alloc: Global, left: usize) -> Result<bool, AllocError> {
    let mut reader = "3 1\na".as_bytes();
    match run(alloc, &mut reader, &mut Full { left }) {
        Ok(()) => Ok(false),
        Err(fault) => Ok(
            fault == LogFault::Write && reads_as(alloc, fault, "output: write failed")?,
        ),
    }
}

#[test]
fn a_failed_write_is_told(rt: HostRuntime) -> Result<(), Fail> {
    assert!(rt; fails_to_write(rt.alloc(), 0)?);
    assert!(rt; fails_to_write(rt.alloc(), 7)?);
    assert!(rt; fails_to_write(rt.alloc(), 99)?);
    Ok(())
}

fn error_of(
    alloc: Global,
    backend: TestBackend,
    lines: &[&str],
) -> Option<TerminalError<TestError>> {
    let mut view = match LogView::new(alloc, backend) {
        Ok(view) => view,
        Err(error) => return Some(error),
    };
    for line in lines {
        if let Err(error) = view.push(line) {
            return Some(error);
        }
    }
    None
}

// What a view over a backend answers at its start and a push after it, if the call of this number
// fails.
fn error_at(
    alloc: Global,
    height: u16,
    calls: u64,
) -> Result<Option<TerminalError<TestError>>, AllocError> {
    let mut backend = TestBackend::new(alloc, 3, height)?;
    backend.fail_after(calls);
    Ok(error_of(alloc, backend, &["a"]))
}

// How many calls such a view makes, if each of them that fails is answered as it is asked to.
fn calls_made(alloc: Global, height: u16) -> Result<Option<u64>, AllocError> {
    for calls in 0..99 {
        match error_at(alloc, height, calls)? {
            Some(TerminalError::Backend(TestError::Told)) => {}
            Some(_) => return Ok(None),
            None => return Ok(Some(calls)),
        }
    }
    Ok(None)
}

#[test]
fn answers_each_failed_call(rt: HostRuntime) -> Result<(), Fail> {
    assert!(rt; calls_made(rt.alloc(), 3)?.is_some_and(|calls| calls > 8));
    assert!(rt; calls_made(rt.alloc(), 1)?.is_some_and(|calls| calls > 8));
    Ok(())
}

// A view over a backend whose call of this number fails, if the view can be opened.
fn failing_view(alloc: Global, calls: u64) -> Result<Option<LogView<TestBackend>>, AllocError> {
    let mut backend = TestBackend::new(alloc, 8, 3)?;
    backend.fail_after(calls);
    Ok(LogView::new(alloc, backend).ok())
}

// The line of a log at which its pushes end, one by one, if they do.
fn first_refused(view: &mut LogView<TestBackend>, lines: &[&str]) -> Option<LogFault> {
    for (index, line) in lines.iter().enumerate() {
        if view.push(line).is_err() {
            return Some(LogFault::Refused(index.saturating_add(2)));
        }
    }
    None
}

// Whether the pushes of a log end at the line at which they end one by one.
fn names_its_line(alloc: Global, calls: u64) -> Result<bool, AllocError> {
    let Some(mut view) = failing_view(alloc, calls)? else {
        return Ok(true);
    };
    let Some(mut twin) = failing_view(alloc, calls)? else {
        return Ok(false);
    };
    let refused = first_refused(&mut twin, &["a", "b", "c", "d"]);
    Ok(push_lines(&mut view, "8 3\na\nb\nc\nd").err() == refused)
}

#[test]
fn names_the_line_that_was_refused(rt: HostRuntime) -> Result<(), Fail> {
    for calls in 0..60 {
        assert!(rt; names_its_line(rt.alloc(), calls)?, "{calls}");
    }
    Ok(())
}

// A view over a screen of eight columns and three rows.
fn view(alloc: Global) -> Result<LogView<TestBackend>, Fail> {
    match LogView::new(alloc, TestBackend::new(alloc, 8, 3)?) {
        Ok(view) => Ok(view),
        Err(_) => Err(Fail::from(AllocError)),
    }
}

// Whether the screen of a view shows these rows, of which the last one is the viewport's.
fn shows(view: &LogView<TestBackend>, rows: &[&str], y: u16) -> bool {
    view.terminal().backend().lines_are(rows)
        && view.terminal().viewport_area() == Rect::new(0, y, 8, 1)
}

// Whether a push either leaves a view as it was, and is refused memory, or has these rows shown.
fn pushes_or_keeps(view: &mut LogView<TestBackend>, line: &str, rows: &[&str]) -> bool {
    match view.push(line) {
        Ok(()) => view.count() == 1 && shows(view, rows, 1),
        Err(TerminalError::Memory) => view.count() == 0
            && shows(view, &["lines: 0", "        ", "        "], 0),
        Err(_) => true,
    }
}

#[test]
fn keeps_all_where_a_push_is_refused_memory(rt: HostRuntime) -> Result<(), Fail> {
    let mut view = view(rt.alloc())?;
    assert!(rt; pushes_or_keeps(&mut view, "one", &["one     ", "lines: 1", "        "]));
    Ok(())
}

#[test]
fn counts_its_lines(rt: HostRuntime) -> Result<(), Fail> {
    let mut view = view(rt.alloc())?;
    assert!(rt; view.count() == 0);
    assert!(rt; shows(&view, &["lines: 0", "        ", "        "], 0));
    assert!(rt; view.push("one").is_ok() && view.push("two").is_ok());
    assert!(rt; view.push("three").is_ok() && view.count() == 3);
    assert!(rt; shows(&view, &["two     ", "three   ", "lines: 3"], 2));
    assert!(rt; view.terminal().backend().scrollback().len() == 1);
    Ok(())
}
