//! Views of a log, and runs over one.
//!
//! A view is compared with a twin, to which the same lines were pushed but for the refused one.
//! Both backends count their calls down, so that the two are equal only if the refused push made
//! none.
use crate::outcome::{Cases, Outcome, judged};
use logview::{LogFault, LogView, run};
use rtui_backend::{TestBackend, TestError};
use rtui_terminal::TerminalError;
use std::alloc::{AllocError, Global};

// A line of four columns, one of whose symbols takes memory.
const LINE: &str = "a\u{1F468}\u{200D}\u{1F469}\u{200D}\u{1F467}\u{200D}\u{1F466}b";

// A blank screen of eight columns and two rows.
fn screen(alloc: Global) -> Result<TestBackend, AllocError> {
    let mut backend = TestBackend::new(alloc, 8, 2)?;
    backend.fail_after(10000);
    Ok(backend)
}

// Whether a view shows these rows below those that scrolled off.
fn shows(view: &LogView<TestBackend>, above: &[&str], rows: &[&str], count: u64) -> bool {
    let backend = view.terminal().backend();
    backend.scrollback_is(above) && backend.lines_are(rows) && view.count() == count
}

// Whether a view has no lines, and shows that.
fn is_new(view: &LogView<TestBackend>) -> bool {
    shows(view, &[], &["lines: 0", "        "], 0)
}

// A start that is refused memory answers so.
fn started(alloc: Global) -> Result<Outcome, AllocError> {
    let backend = screen(alloc)?;
    let other = screen(alloc)?;
    match LogView::new(alloc, backend) {
        Ok(view) => Ok(judged(false, true, is_new(&view))),
        Err(error) => {
            let is_right = LogView::new(alloc, other).is_ok_and(|view| is_new(&view));
            Ok(judged(true, error == TerminalError::Memory, is_right))
        }
    }
}

// A view of so many empty lines.
fn view_of(alloc: Global, lines: u64) -> Result<LogView<TestBackend>, AllocError> {
    let Ok(mut view) = LogView::new(alloc, screen(alloc)?) else {
        return Err(AllocError);
    };
    for _ in 0..lines {
        if view.push("").is_err() {
            return Err(AllocError);
        }
    }
    Ok(view)
}

// Whether a view has a line after so many empty ones, and shows that.
fn has_line(view: &LogView<TestBackend>, lines: u64) -> bool {
    if lines == 0 {
        shows(view, &[], &[LINE, "lines: 1"], 1)
    } else {
        shows(view, &["        "], &[LINE, "lines: 2"], 2)
    }
}

// A push after so many lines. What is refused to the terminal made no call of the backend and
// changed nothing, so that the same push is then as if it were the first; what is refused to the
// backend is told as the backend's.
fn pushed_on(view: &mut LogView<TestBackend>, twin: &LogView<TestBackend>, lines: u64) -> Outcome {
    let answer = view.push(LINE);
    let (is_left, is_right) = match answer {
        Ok(()) => (true, has_line(view, lines)),
        Err(TerminalError::Memory) => {
            let is_left = view.terminal() == twin.terminal() && view.count() == lines;
            (is_left, view.push(LINE).is_ok() && has_line(view, lines))
        }
        Err(error) => {
            let is_told = error == TerminalError::Backend(TestError::Memory);
            let count = view.count();
            (
                is_told && (count == lines || count == lines.saturating_add(1)),
                view.push(LINE).is_ok() && view.count() == count.saturating_add(1),
            )
        }
    };
    judged(answer.is_err(), is_left, is_right)
}

fn pushed(alloc: Global, lines: u64) -> Result<Outcome, AllocError> {
    let mut view = view_of(alloc, lines)?;
    let twin = view_of(alloc, lines)?;
    Ok(pushed_on(&mut view, &twin, lines))
}

static LOG: &str = "4 2\na\u{1F468}\u{200D}\u{1F469}\u{200D}\u{1F467}\u{200D}\u{1F466}b\n\ncut off";

static PRINTED: &str =
    "^a\u{1F468}\u{200D}\u{1F469}\u{200D}\u{1F467}\u{200D}\u{1F466}b\n^    \n|cut \n|line\n";

// Whether a run that failed says that memory was refused, and wrote nothing; a writer that grows
// may be refused it in the midst of what is printed.
fn is_told(fault: LogFault, written: &[u8], grows: bool) -> bool {
    match fault {
        LogFault::Memory => written.is_empty(),
        LogFault::Refused(line) => 1 <= line && line <= 4 && written.is_empty(),
        LogFault::Write => grows && PRINTED.as_bytes().starts_with(written),
        _ => false,
    }
}

// A writer that grows, or has room for all that is printed.
fn writer(alloc: Global, grows: bool) -> Result<Vec<u8>, AllocError> {
    if grows {
        Ok(Vec::new(alloc))
    } else {
        Vec::with_capacity(alloc, PRINTED.len())
    }
}

// Whether a run over the log printed all, or why it failed.
fn print(alloc: Global, written: &mut Vec<u8>) -> Result<bool, LogFault> {
    let mut reader = LOG.as_bytes();
    run(alloc, &mut reader, written)?;
    Ok(written.as_slice() == PRINTED.as_bytes())
}

// A run over a log, to a writer that has room for all that is printed or grows.
fn run_over_memory(alloc: Global, grows: bool) -> Result<Outcome, AllocError> {
    let mut again = writer(alloc, false)?;
    let mut written = writer(alloc, grows)?;
    Ok(match print(alloc, &mut written) {
        Ok(is_right) => judged(false, true, is_right),
        Err(fault) => {
            let is_right = print(alloc, &mut again).is_ok_and(|is_right| is_right);
            judged(true, is_told(fault, written.as_slice(), grows), is_right)
        }
    })
}

/// Log views, and runs of a log.
pub struct Logs;

static LOGS: [&str; 5] = [
    "start of a log view",
    "push to a log view",
    "push to a log view that scrolls",
    "run of a log",
    "run of a log to a writer that grows",
];

impl Cases for Logs {
    fn names() -> &'static [&'static str] {
        &LOGS
    }

    fn outcome_of(alloc: Global, number: usize) -> Result<Outcome, AllocError> {
        match number {
            0 => started(alloc),
            1 => pushed(alloc, 0),
            2 => pushed(alloc, 1),
            3 => run_over_memory(alloc, false),
            _ => run_over_memory(alloc, true),
        }
    }
}
