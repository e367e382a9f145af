//! Each kind of trouble at each place of a text of six bytes, moved in pieces of every size.

use arrayvec::ArrayVec;
use judy_pipe::{
    BufferedSink, BufferedSource, MemSink, MemSource, Sink, SinkTrouble, Source, SourceTrouble,
    read_some, write_all,
};
use std::fmt::Debug;
use std::process::Abort;

const TEXT: [u8; 6] = *b"abcdef";

// The calls with a condition, which is tested first; whether they succeeded.
fn write(rt: &impl Abort, sink: &mut impl Sink, bytes: &[u8]) -> bool {
    assert!(rt; sink.failures() < u64::MAX);
    write_all(sink, bytes).is_ok()
}

fn flush(rt: &impl Abort, sink: &mut impl Sink) -> bool {
    assert!(rt; sink.failures() < u64::MAX);
    sink.flush().is_ok()
}

// Reads up to `size` bytes, and keeps those that came.
fn read(rt: &impl Abort, source: &mut impl Source, size: usize, got: &mut ArrayVec<u8, 6>) -> bool {
    assert!(rt; size <= 8 && source.failures() < u64::MAX);
    let mut room = [0; 8];
    let Ok(count) = read_some(source, &mut room[..size]) else {
        return false;
    };
    let _ = got.try_extend_from_slice(&room[..count]);
    true
}

// Compares an answer with the one wanted.
fn same_answer(rt: &impl Abort, found: bool, wanted: bool) {
    assert_eq!(rt; found, wanted);
}

// The same of a number of bytes.
fn same_size(rt: &impl Abort, found: usize, wanted: usize) {
    assert_eq!(rt; found, wanted);
}

// The same of bytes.
fn same_bytes(rt: &impl Abort, found: &[u8], wanted: &[u8]) {
    assert_eq!(rt; found, wanted);
}

// The same of a number of failures.
fn same_failures(rt: &impl Abort, found: u64, wanted: u64) {
    assert_eq!(rt; found, wanted);
}

// The text's first bytes were moved, so many, and with no failure it came to its end.
fn expect_moved(
    rt: &impl Abort,
    moved: &[u8],
    failed: u64,
    has_ended: bool,
    count: usize,
    failures: u64,
    case: &impl Debug,
) {
    expect_first(rt, moved, count, case);
    let ending = (failed, has_ended);
    assert_eq!(rt; ending, (failures, failures == 0), "{case:?}");
}

// The text's first bytes were moved, so many.
fn expect_first(rt: &impl Abort, moved: &[u8], count: usize, case: &impl Debug) {
    assert!(rt; count <= 6);
    assert_eq!(rt; moved, &TEXT[..count], "{case:?}");
}

// Writes the text by pieces of at most `most` bytes, and says what the sink holds and counts then.
fn expect_written(rt: &impl Abort, most: usize, trouble: SinkTrouble, taken: usize, failures: u64) {
    assert!(rt; 0 < most);
    let mut sink = MemSink::<6>::new(most, trouble);
    let is_ok = write(rt, &mut sink, &TEXT);
    expect_moved(
        rt,
        sink.bytes(),
        sink.failures(),
        is_ok,
        taken,
        failures,
        &(trouble, most),
    );
}

// Writes the text through a buffer of four bytes and flushes it, and says what the sink behind it holds and
// counts then.
fn expect_handed_on(rt: &impl Abort, trouble: SinkTrouble, taken: usize, failures: u64) {
    let mut sink = BufferedSink::<_, 4>::new(MemSink::<6>::new(3, trouble));
    let is_ok = write(rt, &mut sink, &TEXT) && flush(rt, &mut sink);
    let failed = sink.failures();
    expect_moved(
        rt,
        sink.into_inner().bytes(),
        failed,
        is_ok,
        taken,
        failures,
        &trouble,
    );
}

fn read_on(rt: &impl Abort, source: &mut MemSource, size: usize, got: &mut ArrayVec<u8, 6>) {
    for _read in 0..8 {
        if !read(rt, source, size, got) {
            break;
        }
    }
}

// Reads into buffers of `size` bytes until the end or a failure, and says what the source gave and counts.
fn expect_read(
    rt: &impl Abort,
    most: usize,
    size: usize,
    trouble: SourceTrouble,
    given: usize,
    failures: u64,
) {
    assert!(rt; 0 < most);
    let mut source = MemSource::new(&TEXT, most, trouble);
    let mut got = ArrayVec::new();
    read_on(rt, &mut source, size, &mut got);
    expect_moved(
        rt,
        got.as_slice(),
        source.failures(),
        source.has_ended(),
        given,
        failures,
        &(trouble, most, size),
    );
}

fn expect_written_at(rt: &impl Abort, most: usize, at: usize) {
    expect_written(rt, most, SinkTrouble::Fails { at }, at, 1);
    expect_written(rt, most, SinkTrouble::TakesNothing { at }, at, 1);
    expect_written(rt, most, SinkTrouble::Interrupts { at, times: 1 }, 6, 0);
    expect_written(rt, most, SinkTrouble::Interrupts { at, times: 999 }, 6, 0);
    expect_written(rt, most, SinkTrouble::Interrupts { at, times: 1000 }, at, 1);
}

fn expect_written_by(rt: &impl Abort, most: usize) {
    expect_written(rt, most, SinkTrouble::Never, 6, 0);
    for at in 0..6 {
        expect_written_at(rt, most, at);
    }
}

fn expect_read_at(rt: &impl Abort, most: usize, size: usize, at: usize) {
    expect_read(rt, most, size, SourceTrouble::Fails { at }, at, 1);
    for (times, given, failures) in [(1, 6, 0), (999, 6, 0), (1000, at, 1)] {
        let trouble = SourceTrouble::Interrupts { at, times };
        expect_read(rt, most, size, trouble, given, failures);
    }
}

fn expect_read_into(rt: &impl Abort, most: usize, size: usize) {
    expect_read(rt, most, size, SourceTrouble::Never, 6, 0);
    for at in 0..7 {
        expect_read_at(rt, most, size, at);
    }
}

fn expect_read_by(rt: &impl Abort, most: usize) {
    for size in 1..9 {
        expect_read_into(rt, most, size);
    }
}

#[test]
fn pipes_meet_trouble_at_each_place(rt: HostRuntime) {
    for most in 1..8 {
        expect_written_by(&rt, most);
        expect_read_by(&rt, most);
    }
}

#[test]
fn a_buffer_meets_trouble_behind_it(rt: HostRuntime) {
    expect_handed_on(&rt, SinkTrouble::Never, 6, 0);
    for at in 0..6 {
        expect_handed_on(&rt, SinkTrouble::Fails { at }, at, 1);
        expect_handed_on(&rt, SinkTrouble::TakesNothing { at }, at, 1);
        expect_handed_on(&rt, SinkTrouble::Interrupts { at, times: 999 }, 6, 0);
        expect_handed_on(&rt, SinkTrouble::Interrupts { at, times: 1000 }, at, 1);
    }
}

// What a failed write left in the buffer is handed on by the next flush that succeeds, once and in order.
#[test]
fn a_buffer_tries_again(rt: HostRuntime) {
    let mut sink = BufferedSink::<_, 8>::new(MemSink::<6>::new(
        6,
        SinkTrouble::Interrupts { at: 2, times: 1000 },
    ));
    same_answer(&rt, write(&rt, &mut sink, &TEXT), true);
    same_answer(&rt, flush(&rt, &mut sink), false);
    same_answer(&rt, flush(&rt, &mut sink), true);
    same_failures(&rt, sink.failures(), 1);
    same_bytes(&rt, sink.into_inner().bytes(), &TEXT);
}

// A flush hands on through each buffer.
#[test]
fn a_flush_empties_both_buffers(rt: HostRuntime) {
    let below = BufferedSink::<_, 8>::new(MemSink::<6>::new(6, SinkTrouble::Never));
    let mut sink = BufferedSink::<_, 8>::new(below);
    same_answer(&rt, write(&rt, &mut sink, &TEXT), true);
    same_answer(&rt, flush(&rt, &mut sink), true);
    same_bytes(&rt, sink.into_inner().into_inner().bytes(), &TEXT);
}

fn read_by_sizes(rt: &impl Abort, source: &mut impl Source, got: &mut ArrayVec<u8, 6>) {
    for &size in &[3, 1, 2, 3, 3, 3] {
        if !read(rt, source, size, got) {
            break;
        }
    }
}

// Reads three bytes, one, two, and then the end or a failure, ahead by four, and says what came and counts.
fn expect_ahead(rt: &impl Abort, trouble: SourceTrouble, given: usize, failures: u64) {
    let mut source = BufferedSource::<_, 4>::new(MemSource::new(&TEXT, 3, trouble));
    let mut got = ArrayVec::new();
    read_by_sizes(rt, &mut source, &mut got);
    let failed = source.failures();
    expect_moved(
        rt,
        got.as_slice(),
        failed,
        source.into_inner().has_ended(),
        given,
        failures,
        &trouble,
    );
}

#[test]
fn a_buffer_meets_trouble_before_it(rt: HostRuntime) {
    expect_ahead(&rt, SourceTrouble::Never, 6, 0);
    for at in 0..7 {
        expect_ahead(&rt, SourceTrouble::Fails { at }, at, 1);
        expect_ahead(&rt, SourceTrouble::Interrupts { at, times: 999 }, 6, 0);
        expect_ahead(&rt, SourceTrouble::Interrupts { at, times: 1000 }, at, 1);
    }
}

#[test]
fn full_sink_fails(rt: HostRuntime) {
    let mut sink = MemSink::<4>::new(3, SinkTrouble::Never);
    same_answer(&rt, write(&rt, &mut sink, &TEXT), false);
    same_bytes(&rt, sink.bytes(), b"abcd");
    same_failures(&rt, sink.failures(), 1);
}

// How many bytes a write of one piece took; another number where it stopped.
fn write_once(rt: &impl Abort, sink: &mut impl Sink, piece: &[u8]) -> usize {
    assert!(rt; sink.failures() < u64::MAX);
    sink.write(piece).unwrap_or(usize::MAX)
}

#[test]
fn nothing_of_an_empty_piece_is_no_failure(rt: HostRuntime) {
    let mut sink = MemSink::<4>::new(3, SinkTrouble::TakesNothing { at: 0 });
    same_size(&rt, write_once(&rt, &mut sink, b""), 0);
    same_failures(&rt, sink.failures(), 0);
    same_size(&rt, write_once(&rt, &mut sink, b"a"), 0);
    same_failures(&rt, sink.failures(), 1);
}

#[test]
fn interruptions_are_counted_anew_after_a_failure(rt: HostRuntime) {
    let mut sink = MemSink::<6>::new(6, SinkTrouble::Interrupts { at: 2, times: 1999 });
    same_answer(&rt, write(&rt, &mut sink, &TEXT), false);
    same_bytes(&rt, sink.bytes(), b"ab");
    same_answer(&rt, write(&rt, &mut sink, b"cd"), true);
    same_bytes(&rt, sink.bytes(), b"abcd");
    same_failures(&rt, sink.failures(), 1);
}

fn expect_end(rt: &impl Abort, source: &mut MemSource) {
    assert!(rt; source.failures() < u64::MAX);
    let mut room = [0; 4];
    same_size(rt, source.read(&mut room).unwrap_or(usize::MAX), 0);
    same_answer(rt, source.has_ended(), true);
}

#[test]
fn end_goes_on(rt: HostRuntime) {
    let mut source = MemSource::new(b"", 1, SourceTrouble::Never);
    for _read in 0..3 {
        expect_end(&rt, &mut source);
    }
}
