//! Reads and the time that has gone.

use ratatui_acts::{Clocked, Glass, Heard, Hears, Told};
use ratatui_app::{Counter, OnScreen};
use ratatui_core::backend::TestBackend;
use ratatui_core::terminal::Viewport;
use ratatui_reads::Pieces;
use std::io::{self, ErrorKind};
use std::rt::Clock;
use std::sync::atomic::{AtomicU64, Ordering};
use std::test::Fail;
use std::time::Duration;

// A clock that says these milliseconds, one after the other, and then can't be read.
#[derive(Drop)]
struct Known<'a> {
    says: &'a [u64],
    looks: AtomicU64,
}

impl Clock for Known<'_> {
    fn monotonic(&self) -> io::Result<Duration> {
        let look = self.looks.fetch_add(1, Ordering::Relaxed);
        match self.says.get(look as usize) {
            Some(millis) => Ok(Duration::from_millis(*millis)),
            None => Err(ErrorKind::Other.into()),
        }
    }

    fn since_1970(&self) -> io::Result<Duration> {
        self.monotonic()
    }
}

#[test]
fn ticks_tell_the_time_since_the_last_tick(rt: HostRuntime) -> Result<(), Fail> {
    let alloc = rt.alloc();
    let clock = Known {
        says: &[1000, 1100, 1350, 1200, 1500],
        looks: AtomicU64::new(0),
    };
    let pieces: [&[u8]; 8] = [b"", b"+", b"+", b"", b"", b"", b"", b"+"];
    let mut ears = Clocked::new(Pieces::new(&pieces), &clock)?;
    let counter = Counter {
        count: 0,
        is_over: false,
    };
    let backend = TestBackend::new(alloc, 4, 2)?;
    let mut glass = OnScreen::begin(alloc, Viewport::Fullscreen, backend)?;
    glass.show(&counter, Told::first())?;
    let mut buf = [0u8; 8];
    // a tick; two events, which look at no clock; a tick that has their time, too; a clock that
    // went back; one that went on from where it had been; and one that can't be read any more
    for (count, millis) in [
        (0, 100),
        (1, 0),
        (1, 0),
        (0, 250),
        (0, 0),
        (0, 150),
        (0, 0),
        (1, 0),
    ] {
        let passed = Duration::from_millis(millis);
        assert!(rt; ears.hear(&glass, &counter, &mut buf)? == Heard { count, passed });
    }
    Ok(())
}
