//! Scripts, run over bytes in memory.
use screenplay::{RunError, run};
use std::alloc::{AllocError, Global};
use std::io::{self, Read};
use std::process::Abort;
use std::test::Fail;

// Whether a script runs, and prints this.
fn prints(alloc: Global, script: &str, printed: &str) -> bool {
    let mut written = Vec::new(alloc);
    let mut reader = script.as_bytes();
    run(alloc, &mut reader, &mut written).is_ok() && written.as_slice() == printed.as_bytes()
}

fn reads_as(alloc: Global, fault: RunError, text: &str) -> Result<bool, AllocError> {
    Ok(fault.to_string(alloc)?.as_str() == text)
}

// Whether the run of a script fails with this text, and prints nothing.
fn fails(alloc: Global, script: &str, text: &str) -> Result<bool, AllocError> {
    let mut written = Vec::new(alloc);
    let mut reader = script.as_bytes();
    match run(alloc, &mut reader, &mut written) {
        Ok(()) => Ok(false),
        Err(fault) => Ok(reads_as(alloc, fault, text)? && written.is_empty()),
    }
}

// A script that inserts so many empty texts.
fn inserting(alloc: Global, count: usize) -> Result<String, AllocError> {
    let mut script = String::new(alloc);
    script.push_str("screen 1 1\n")?;
    for _ in 0..count {
        script.push_str("text\n")?;
    }
    script.push_str("insert\ninsert")?;
    Ok(script)
}

// Whether a script takes 65535 texts, and one more is a bad line.
fn takes_only_so_many(alloc: Global) -> Result<bool, AllocError> {
    let most = inserting(alloc, 65535)?;
    let more = inserting(alloc, 65536)?;
    let is_refused = fails(alloc, more.as_str(), "line 65538: bad command")?;
    Ok(is_refused && prints(alloc, most.as_str(), ""))
}

#[test]
fn takes_only_so_many_texts(rt: HostRuntime) -> Result<(), Fail> {
    assert!(rt; takes_only_so_many(rt.alloc())?);
    Ok(())
}

// A script that inserts so many rows, one by one, and then shows the screen.
fn inserting_one_by_one(alloc: Global, count: usize) -> Result<String, AllocError> {
    let mut script = String::new(alloc);
    script.push_str("inline 80 24 4\n")?;
    for _ in 0..count {
        script.push_str("text row\ninsert\n")?;
    }
    script.push_str("show")?;
    Ok(script)
}

// How many rows have left the screen in what a script prints.
fn rows_off(alloc: Global, script: &str) -> Option<usize> {
    let mut written = Vec::new(alloc);
    let mut reader = script.as_bytes();
    match run(alloc, &mut reader, &mut written) {
        Ok(()) => Some(written.iter().filter(|byte| **byte == b'^').count()),
        Err(_) => None,
    }
}

// A scene kept for each step would take gigabytes here.
#[test]
fn keeps_no_scene_of_two_thousand_insertions(rt: HostRuntime) -> Result<(), Fail> {
    let script = inserting_one_by_one(rt.alloc(), 2000)?;
    assert!(rt; rows_off(rt.alloc(), script.as_str()) == Some(1980));
    Ok(())
}

// Whether these bytes are refused as no text, and nothing is printed.
fn is_no_text(alloc: Global, bytes: &[u8]) -> bool {
    let mut written = Vec::new(alloc);
    let mut reader = bytes;
    match run(alloc, &mut reader, &mut written) {
        Err(RunError::NotText) => written.is_empty(),
        _ => false,
    }
}

#[test]
fn refuses_bytes_that_are_no_text(rt: HostRuntime) {
    assert!(rt; is_no_text(rt.alloc(), b"screen 3 1\n\xff"));
    assert!(rt; is_no_text(rt.alloc(), b"\xff"));
}

// A reader that fails.
#[derive(Drop)]
struct Broken;

impl Read for Broken {
    fn read(&mut self, _buf: &mut [u8]) -> io::Result<usize> {
        Err(io::Error::from(io::ErrorKind::NotFound))
    }
}

// A reader that gives a stage at its first read, and then fails.
#[derive(Drop)]
struct Breaking {
    is_broken: bool,
}

impl Read for Breaking {
    fn read(&mut self, buf: &mut [u8]) -> io::Result<usize> {
        if self.is_broken || buf.is_empty() {
            return Err(io::Error::from(io::ErrorKind::NotFound));
        }
        self.is_broken = true;
        buf[0] = b'\n';
        Ok(1)
    }
}

// A writer that takes a byte at a time, so many of them, and then fails.
#[derive(Drop)]
struct Narrow {
    left: usize,
}

impl io::Write for Narrow {
    fn write(&mut self, buf: &[u8]) -> io::Result<usize> {
        if self.left == 0 {
            return Err(io::Error::from(io::ErrorKind::NotFound));
        }
        self.left -= 1;
        Ok(buf.len().min(1))
    }

    fn flush(&mut self) -> io::Result<()> {
        Ok(())
    }
}

// Whether the run of a script fails at the write after so many.
fn fails_behind(alloc: Global, script: &str, writes: usize) -> bool {
    let mut reader = script.as_bytes();
    let mut writer = Narrow { left: writes };
    match run(alloc, &mut reader, &mut writer) {
        Err(RunError::Write) => true,
        _ => false,
    }
}

#[test]
fn answers_each_failing_write(rt: HostRuntime) {
    for writes in 0..5 {
        assert!(rt;
            fails_behind(rt.alloc(), "screen 3 1\nshow", writes),
            "{writes}"
        );
    }
    assert!(rt; !fails_behind(rt.alloc(), "screen 3 1\nshow", 5));
}

// A writer that takes all, and knows whether something that it took awaits a flush.
#[derive(Drop)]
struct Holding {
    holds: bool,
}

impl io::Write for Holding {
    fn write(&mut self, buf: &[u8]) -> io::Result<usize> {
        self.holds = true;
        Ok(buf.len())
    }

    fn flush(&mut self) -> io::Result<()> {
        self.holds = false;
        Ok(())
    }
}

// A writer that takes all, and fails to flush it.
#[derive(Drop)]
struct Unflushed;

impl io::Write for Unflushed {
    fn write(&mut self, buf: &[u8]) -> io::Result<usize> {
        Ok(buf.len())
    }

    fn flush(&mut self) -> io::Result<()> {
        Err(io::Error::from(io::ErrorKind::NotFound))
    }
}

// Whether the run of a script fails at its flush.
fn fails_to_flush(alloc: Global, script: &str) -> bool {
    let mut reader = script.as_bytes();
    match run(alloc, &mut reader, &mut Unflushed) {
        Err(RunError::Write) => true,
        _ => false,
    }
}

// Whether the run of a script leaves nothing that awaits a flush.
fn flushes(alloc: Global, script: &str) -> bool {
    let mut reader = script.as_bytes();
    let mut writer = Holding { holds: true };
    run(alloc, &mut reader, &mut writer).is_ok() && !writer.holds
}

#[test]
fn flushes_what_it_prints(rt: HostRuntime) {
    assert!(rt; flushes(rt.alloc(), "screen 3 1\nshow"));
}

#[test]
fn says_nothing_of_a_failed_flush(rt: HostRuntime) {
    assert!(rt; fails_to_flush(rt.alloc(), "screen 3 1\nshow"));
}

#[test]
fn names_a_failed_read(rt: HostRuntime) -> Result<(), Fail> {
    let mut written = Vec::new(rt.alloc());
    match run(rt.alloc(), &mut Broken, &mut written) {
        Ok(()) => assert!(rt; false),
        Err(fault) => assert!(rt; reads_as(rt.alloc(), fault, "input: read failed")?),
    }
    Ok(())
}

// Whether a run over a reader that fails at its second read answers so, and writes nothing.
fn fails_to_read_on(alloc: Global) -> Result<bool, AllocError> {
    let mut written = Vec::new(alloc);
    match run(alloc, &mut Breaking { is_broken: false }, &mut written) {
        Err(RunError::Read) => Ok(written.is_empty()),
        _ => Ok(false),
    }
}

#[test]
fn names_a_read_that_fails_later(rt: HostRuntime) -> Result<(), Fail> {
    assert!(rt; fails_to_read_on(rt.alloc())?);
    Ok(())
}

// Whether the run of a script fails at its first write, and tells that.
fn fails_to_write(alloc: Global, script: &str) -> Result<bool, AllocError> {
    let mut reader = script.as_bytes();
    match run(alloc, &mut reader, &mut Narrow { left: 0 }) {
        Err(RunError::Write) => reads_as(alloc, RunError::Write, "output: write failed"),
        _ => Ok(false),
    }
}

#[test]
fn a_failed_write_is_told(rt: HostRuntime) -> Result<(), Fail> {
    assert!(rt; fails_to_write(rt.alloc(), "screen 3 1\nshow")?);
    Ok(())
}
