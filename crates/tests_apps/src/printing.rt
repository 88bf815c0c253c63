//! What the programs `logview` and `screenplay` answer, and what they tell.

use crate::logs::Full;
use logview::print_log;
use screenplay::print_script;
use std::alloc::Global;
use std::process::ExitCode;

// Whether a log ends with this status, has this printed, and this told.
fn log_ends(alloc: Global, log: &str, status: ExitCode, printed: &str, told: &str) -> bool {
    let (mut written, mut errors) = (Vec::new(alloc), Vec::new(alloc));
    let mut reader = log.as_bytes();
    match print_log(alloc, &mut reader, &mut written, &mut errors) {
        Ok(code) => code == status
            && written.as_slice() == printed.as_bytes()
            && errors.as_slice() == told.as_bytes(),
        Err(_) => false,
    }
}

// Whether a script ends with this status, has this printed, and this told.
fn script_ends(alloc: Global, script: &str, status: ExitCode, printed: &str, told: &str) -> bool {
    let (mut written, mut errors) = (Vec::new(alloc), Vec::new(alloc));
    let mut reader = script.as_bytes();
    match print_script(alloc, &mut reader, &mut written, &mut errors) {
        Ok(code) => code == status
            && written.as_slice() == printed.as_bytes()
            && errors.as_slice() == told.as_bytes(),
        Err(_) => false,
    }
}

// Logs that can't be printed, and what is told of them.
static REFUSED_LOGS: [(&str, &str); 2] = [
    ("2 0", "line 1: bad size\n"),
    ("", "line 1: bad size\n"),
];

// Scripts that can't be printed, and what is told of them.
static REFUSED_SCRIPTS: [(&str, &str); 4] = [
    ("draw", "line 1: bad command\n"),
    ("screen 3 1\nput 0 0 あ", "line 2: bad command\n"),
    ("screen 3 0\ndraw", "line 1: bad command\n"),
    ("screen 4 1\ntext コ\nput 1 0 x\ndraw", "step 1: unsettled\n"),
];

#[test]
fn programs_tell_why_they_print_nothing(rt: HostRuntime) {
    for (log, told) in &REFUSED_LOGS {
        assert!(rt;
            log_ends(rt.alloc(), log, ExitCode::FAILURE, "", told),
            "{log}"
        );
    }
    for (script, told) in &REFUSED_SCRIPTS {
        assert!(rt;
            script_ends(rt.alloc(), script, ExitCode::FAILURE, "", told),
            "{script}"
        );
    }
}

#[test]
fn programs_print(rt: HostRuntime) {
    assert!(rt; log_ends(rt.alloc(), "2 1\nab", ExitCode::SUCCESS, "^ab\n|li\n", ""));
    assert!(rt;
        script_ends(
            rt.alloc(),
            "screen 2 1\nshow",
            ExitCode::SUCCESS,
            "|  \n",
            ""
        )
    );
    assert!(rt; script_ends(rt.alloc(), "", ExitCode::SUCCESS, "", ""));
}

// A writer that takes nothing.
fn full() -> Full {
    Full { left: 0 }
}

#[test]
fn a_failed_write_is_told_in_a_line(rt: HostRuntime) {
    let mut errors = Vec::new(rt.alloc());
    let mut log = "2 1".as_bytes();
    assert!(rt;
        print_log(rt.alloc(), &mut log, &mut full(), &mut errors).is_ok_and(|code| code
            == ExitCode::FAILURE)
    );
    let mut script = "screen 2 1\nshow".as_bytes();
    assert!(rt;
        print_script(rt.alloc(), &mut script, &mut full(), &mut errors).is_ok_and(|code| code
            == ExitCode::FAILURE)
    );
    let told = "output: write failed\noutput: write failed\n";
    assert!(rt; errors.as_slice() == told.as_bytes());
}

#[test]
fn a_fault_that_can_not_be_told_is_an_error(rt: HostRuntime) {
    let mut written = Vec::new(rt.alloc());
    let mut log = "2 0".as_bytes();
    assert!(rt; print_log(rt.alloc(), &mut log, &mut written, &mut full()).is_err());
    let mut script = "draw".as_bytes();
    assert!(rt; print_script(rt.alloc(), &mut script, &mut written, &mut full()).is_err());
}
