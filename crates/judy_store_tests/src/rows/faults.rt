//! Rows of readers and writers that fail.

use super::check::{check_len, check_run, check_value, same_bytes, same_end};
use super::scripts::{FIRST_ANSWERS, FIRST_SCRIPT};
use judy_pipe::{MemSink, MemSource, SinkTrouble, SourceTrouble};
use judy_script::{RunFault, run_bytes};
use judy_shelf::Shelf;
use std::alloc::Global;
use std::process::Abort;

// Runs the first script, as a source gives it, up to a number of bytes, and compares how the run ends and what it
// writes. The array is made in any case; the key 5 gets its value only by a line that is executed.
fn check_source(
    rt: &impl Abort,
    alloc: Global,
    trouble: SourceTrouble,
    max_bytes: u64,
    end: Result<(), RunFault>,
) {
    let mut source = MemSource::new(FIRST_SCRIPT, 1000, trouble);
    let mut shelf = Shelf::new(alloc);
    let (answers, value) = match end {
        Ok(()) => (FIRST_ANSWERS.as_slice(), Some(9)),
        Err(_) => (b"ok\n".as_slice(), None),
    };
    check_run(rt, &mut source, &mut shelf, max_bytes, end, answers);
    check_len(rt, &shelf, 1);
    check_value(rt, &shelf, 5, value);
}

#[test]
fn script_limits(rt: HostRuntime) {
    // 13 bytes are the first line with its LF, and as many bytes as the script has are enough.
    let too_long = Err(RunFault::TooLong);
    check_source(&rt, rt.alloc(), SourceTrouble::Never, 13, too_long);
    check_source(&rt, rt.alloc(), SourceTrouble::Never, 59, Ok(()));
    // The second line is cut off before its LF: it isn't executed.
    let fails = SourceTrouble::Fails { at: 22 };
    check_source(&rt, rt.alloc(), fails, 1000, Err(RunFault::Read));
}

#[test]
fn interrupted_reads(rt: HostRuntime) {
    for (times, end) in [(999, Ok(())), (1000, Err(RunFault::Read))] {
        let trouble = SourceTrouble::Interrupts { at: 20, times };
        check_source(&rt, rt.alloc(), trouble, 1000, end);
    }
}

// What the row's writer leaves of the key 5 after so many bytes.
fn value_after(taken: usize) -> Option<u64> {
    match taken {
        0..=2 => None,
        3..=8 => Some(7),
        _ => Some(9),
    }
}

// Runs the first script with a writer, and compares how the run ends, how many bytes it writes, and the value of the
// key 5: `a` holds it as soon as the line was executed, whatever was written of its answer.
fn check_writer(
    rt: &impl Abort,
    alloc: Global,
    trouble: SinkTrouble,
    end: Result<(), RunFault>,
    taken: usize,
) {
    assert!(rt; taken <= FIRST_ANSWERS.len());
    let mut shelf = Shelf::new(alloc);
    let mut sink = MemSink::<64>::new(64, trouble);
    let ended = run_bytes(FIRST_SCRIPT, &mut shelf, &mut sink);
    same_end(rt, ended, end);
    same_bytes(rt, sink.bytes(), &FIRST_ANSWERS[..taken]);
    check_len(rt, &shelf, 1);
    check_value(rt, &shelf, 5, value_after(taken));
}

#[test]
fn writer_fails(rt: HostRuntime) {
    let trouble = SinkTrouble::Fails { at: 11 };
    check_writer(&rt, rt.alloc(), trouble, Err(RunFault::Write), 11);
}

// A writer that fails after each number of bytes, and one that takes 0 bytes there instead.
#[test]
fn failing_at_each_byte(rt: HostRuntime) {
    for at in 0..27 {
        for trouble in [SinkTrouble::Fails { at }, SinkTrouble::TakesNothing { at }] {
            check_writer(&rt, rt.alloc(), trouble, Err(RunFault::Write), at);
        }
    }
}

#[test]
fn interrupted_writes(rt: HostRuntime) {
    for (times, end, taken) in [(999, Ok(()), 27), (1000, Err(RunFault::Write), 11)] {
        let trouble = SinkTrouble::Interrupts { at: 11, times };
        check_writer(&rt, rt.alloc(), trouble, end, taken);
    }
}
