//! How dumps of either format are checked.

use super::check::same_bytes;
use judy_pipe::{MemSink, MemSource, SinkTrouble, SourceTrouble};
use judy_shelf::{DumpFault, LoadFault, Shelf, dump, dump2, load};
use std::alloc::Global;
use std::process::Abort;

/// The two formats of a dump.
#[derive(Clone, Copy)]
pub enum Format {
    First,
    Second,
}

// The most bytes that a dump has here.
const MOST: usize = 139;

// Compares how a dump ends with what is wanted.
fn same_end(rt: &impl Abort, found: Result<(), DumpFault>, wanted: Result<(), DumpFault>) {
    assert_eq!(rt; found, wanted);
}

// Compares the fault of a load, if there is one, with the one wanted.
fn same_fault(rt: &impl Abort, found: Option<LoadFault>, wanted: Option<LoadFault>) {
    assert_eq!(rt; found, wanted);
}

/// Dumps the shelf, whole or up to where the sink fails, and compares the bytes.
pub fn check_dump(
    rt: &impl Abort,
    shelf: &Shelf,
    format: Format,
    trouble: SinkTrouble,
    end: Result<(), DumpFault>,
    bytes: &[u8],
) {
    let mut sink = MemSink::<MOST>::new(MOST, trouble);
    let ended = match format {
        Format::First => dump(shelf, &mut sink),
        Format::Second => dump2(shelf, &mut sink),
    };
    same_end(rt, ended, end);
    same_bytes(rt, sink.bytes(), bytes);
}

/// Dumps the whole shelf, and compares the bytes.
pub fn check_bytes(rt: &impl Abort, shelf: &Shelf, format: Format, bytes: &[u8]) {
    check_dump(rt, shelf, format, SinkTrouble::Never, Ok(()), bytes);
}

/// Loads bytes one by one, and compares the fault, if there is one.
pub fn check_load(
    rt: &impl Abort,
    alloc: Global,
    bytes: &[u8],
    trouble: SourceTrouble,
    fault: Option<LoadFault>,
) {
    let mut source = MemSource::new(bytes, 1, trouble);
    same_fault(rt, load(alloc, &mut source).err(), fault);
}

/// Loads bytes that are no dump, and compares the fault.
pub fn check_fault(rt: &impl Abort, alloc: Global, bytes: &[u8], fault: LoadFault) {
    check_load(rt, alloc, bytes, SourceTrouble::Never, Some(fault));
}

/// Loads a dump with other bytes in the place of those from one place up to another, and compares the fault.
pub fn check_change(
    rt: &impl Abort,
    alloc: Global,
    dump: &[u8],
    from: usize,
    to: usize,
    bytes: &[u8],
    fault: LoadFault,
) {
    assert!(rt; from <= to && to <= dump.len() && dump.len() <= MOST && bytes.len() <= MOST);
    let behind = from + bytes.len();
    let len = behind + (dump.len() - to);
    assert!(rt; len <= MOST);
    let mut changed = [0; MOST];
    changed[..from].copy_from_slice(&dump[..from]);
    changed[from..behind].copy_from_slice(bytes);
    changed[behind..len].copy_from_slice(&dump[to..]);
    check_fault(rt, alloc, &changed[..len], fault);
}

/// Loads a dump, so many bytes at a time.
pub fn loaded(rt: &impl Abort, alloc: Global, bytes: &[u8], most: usize) -> Option<Shelf> {
    assert!(rt; 0 < most);
    load(
        alloc,
        &mut MemSource::new(bytes, most, SourceTrouble::Never),
    )
    .ok()
}

/// What is loaded, so many bytes at a time, is dumped as the same bytes.
pub fn check_reload(rt: &impl Abort, alloc: Global, format: Format, bytes: &[u8], most: usize) {
    match loaded(rt, alloc, bytes, most) {
        Some(shelf) => check_bytes(rt, &shelf, format, bytes),
        None => assert!(rt; false),
    }
}

/// A dump that ends too early, wherever that is.
pub fn check_cut_off(rt: &impl Abort, alloc: Global, bytes: &[u8]) {
    for len in 0..bytes.len() {
        check_fault(rt, alloc, &bytes[..len], LoadFault::Truncated);
    }
}

/// A shelf's dump to a sink that fails at each place, or takes nothing there, and its load from a source that fails.
pub fn check_failing(rt: &impl Abort, alloc: Global, shelf: &Shelf, format: Format, bytes: &[u8]) {
    for at in 0..bytes.len() {
        for trouble in [SinkTrouble::Fails { at }, SinkTrouble::TakesNothing { at }] {
            let fault = Err(DumpFault::Write);
            check_dump(rt, shelf, format, trouble, fault, &bytes[..at]);
        }
    }
    for at in 0..=bytes.len() {
        let trouble = SourceTrouble::Fails { at };
        check_load(rt, alloc, bytes, trouble, Some(LoadFault::Read));
    }
}

// A dump with a byte changed is loaded, and what it gives is dumped as the same bytes; or it has a fault.
fn check_changed(rt: &impl Abort, alloc: Global, format: Format, bytes: &[u8]) {
    if let Some(shelf) = loaded(rt, alloc, bytes, 64) {
        check_bytes(rt, &shelf, format, bytes);
    }
}

// Changes the byte at a place to every other one.
fn check_changed_at(rt: &impl Abort, alloc: Global, format: Format, bytes: &[u8], at: usize) {
    let mut changed = [0; MOST];
    assert!(rt; bytes.len() <= MOST && at < bytes.len());
    changed[..bytes.len()].copy_from_slice(bytes);
    for byte in 0..=255 {
        changed[at] = byte;
        check_changed(rt, alloc, format, &changed[..bytes.len()]);
    }
}

/// Changes each byte to every other one.
pub fn check_all_changed(rt: &impl Abort, alloc: Global, format: Format, bytes: &[u8]) {
    for at in 0..bytes.len() {
        check_changed_at(rt, alloc, format, bytes, at);
    }
}
