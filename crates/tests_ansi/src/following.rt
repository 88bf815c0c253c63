//! What `follow` sends, and how it ends if a read, a write or a flush fails.

use crate::tearing::Tearing;
use follow::{FollowError, follow};
use rtui_geometry::Size;
use std::alloc::{AllocError, Global};
use std::io::{self, BufReader, ErrorKind, Read};
use std::test::Fail;

const SIZE: Size = Size {
    width: 8,
    height: 3,
};

// What leaves the terminal with its cursor shown below the screen.
const LEAVING: &str = "\u{1b}[0m\u{1b}[r\u{1b}[?25h\u{1b}[3;1H\r\n";

// A reader that gives a text, and fails after it.
#[derive(Drop)]
struct Failing<'a> {
    rest: &'a [u8],
}

impl Read for Failing<'_> {
    fn read(&mut self, buf: &mut [u8]) -> io::Result<usize> {
        if self.rest.is_empty() {
            return Err(ErrorKind::BrokenPipe.into());
        }
        self.rest.read(buf)
    }
}

// How a run ends.
#[derive(Debug, Clone, Copy, PartialEq, Eq)]
enum End {
    Whole,
    Terminal,
    Read,
    Write,
    Lines,
}

fn end_of<T: Drop>(ended: Result<T, FollowError>) -> End {
    match ended {
        Ok(_) => End::Whole,
        Err(FollowError::Terminal(_)) => End::Terminal,
        Err(FollowError::Read(_)) => End::Read,
        Err(FollowError::Write(_)) => End::Write,
        Err(FollowError::Lines) => End::Lines,
    }
}

// How a run over a text ends.
fn runs(alloc: Global, text: &str, writer: &mut Tearing) -> End {
    let mut reader = text.as_bytes();
    end_of(follow(alloc, &mut reader, writer, SIZE))
}

// What a run over a text sends.
fn sent(alloc: Global, text: &str) -> Vec<u8> {
    let mut writer = Tearing::new(alloc, u64::MAX);
    let _end = runs(alloc, text, &mut writer);
    writer.sent
}

#[test]
fn leaves_the_terminal_after_each_failed_call(rt: HostRuntime) -> Result<(), Fail> {
    let (mut stopped, mut unwritten) = (0_u64, 0_u64);
    for calls in 0..40 {
        let mut writer = Tearing::new(rt.alloc(), calls);
        let end = runs(rt.alloc(), "one\ntwo\nthree\n", &mut writer);
        let is_left = writer.sent.as_slice().ends_with(LEAVING.as_bytes());
        match end {
            End::Write => unwritten = unwritten.saturating_add(1),
            End::Terminal => {
                assert!(rt; writer.is_torn && is_left);
                stopped = stopped.saturating_add(1);
            }
            End::Whole => assert!(rt; is_left),
            End::Read | End::Lines => assert!(rt; false),
        }
    }
    // What leaves the terminal is one write and one flush; that the cursor is shown again before it
    // isn't told when it fails.
    assert!(rt; unwritten == 2 && 10 < stopped && stopped < 30);
    Ok(())
}

#[test]
fn shows_what_cannot_be_sent_as_replaced(rt: HostRuntime) {
    let replaced = sent(rt.alloc(), "a\u{605}x\n");
    assert!(rt; replaced.as_slice() == sent(rt.alloc(), "a\u{fffd}\n").as_slice());
    assert!(rt; replaced.as_slice() != sent(rt.alloc(), "a\n").as_slice());
}

// A text, and then another one so many times.
fn repeated(alloc: Global, first: &str, text: &str, count: usize) -> Result<String, AllocError> {
    let mut all = String::from_str(alloc, first)?;
    for _ in 0..count {
        all.push_str(text)?;
    }
    Ok(all)
}

// Whether a long line, a text and then another one many times, is shown as a short line is.
fn is_shown_as(alloc: Global, first: &str, text: &str, short: &str) -> Result<bool, AllocError> {
    let long = repeated(alloc, first, text, 200_000)?;
    Ok(sent(alloc, long.as_str()).as_slice() == sent(alloc, short).as_slice())
}

#[test]
fn a_long_line_is_shown_as_far_as_it_fits(rt: HostRuntime) -> Result<(), Fail> {
    let alloc = rt.alloc();
    assert!(rt; is_shown_as(alloc, "", "x", "xxxxxxxx")?);
    assert!(rt; is_shown_as(alloc, "a", "コ", "aコココ")?);
    assert!(rt; is_shown_as(alloc, "\u{605}x", "é", "\u{fffd}ééééééé")?);
    assert!(rt; is_shown_as(alloc, "one", "\0", "one")?);
    Ok(())
}

#[test]
fn a_failed_read_is_not_the_end(rt: HostRuntime) -> Result<(), Fail> {
    let alloc = rt.alloc();
    let failing = Failing {
        rest: "one\ntw".as_bytes(),
    };
    let mut reader = BufReader::new(alloc, failing)?;
    let mut writer = Tearing::new(alloc, u64::MAX);
    assert!(rt; end_of(follow(alloc, &mut reader, &mut writer, SIZE)) == End::Read);
    assert!(rt; writer.sent.as_slice() == sent(alloc, "one\n").as_slice());
    assert!(rt; runs(alloc, "one\ntw", &mut writer) == End::Whole);
    Ok(())
}
