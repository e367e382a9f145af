//! Readers and writers that tell what they did.
//!
//! A [`Source`] gives bytes and a [`Sink`] takes them, piece by piece. Both are pipes (source.rt, sink.rt): a call
//! moves some bytes, or stops and moves none ([`Stop`], stop.rt). What a contract sees of a pipe is its model:
//!
//! - the bytes that it gave or took so far, where it tells them;
//! - of a source also whether its last read gave the end, all bytes that it gives before the end, and
//!   whether it is known never to fail;
//! - its [`Tally`], the failures and the interruptions in a row.
//!
//! The counting rule is this project's own, and stands in `Tally` (tally.rt) alone: a `Failed` is one failure, so is
//! every 1,000th interruption in a row, and so is a write that takes 0 bytes of a piece that is not empty.
//! [`write_all`] and [`read_some`] try an interrupted call again until that number rises.
//!
//! [`BufferedSource`] (buffered_source.rt) reads ahead from another source in large pieces, and [`BufferedSink`]
//! (buffered_sink.rt) hands on to another sink in large pieces. [`MemSource`] and [`MemSink`] (mem_source.rt,
//! mem_sink.rt) are the pipes over memory, which can be made to fail or to be interrupted at a stated place, and
//! [`MemSink`] to take 0 bytes there. The crate stands lowest among those that move bytes: it knows neither files nor
//! what the bytes mean, and it takes no memory.
#![tactic(auto)]

mod buffered_sink;
mod buffered_source;
mod mem_sink;
mod mem_source;
mod sink;
mod source;
mod stop;
mod tally;

pub use buffered_sink::BufferedSink;
pub use buffered_source::BufferedSource;
pub use mem_sink::{MemSink, SinkTrouble};
pub use mem_source::{MemSource, SourceTrouble};
pub use sink::{SHORT_LEN, Sink, write_all, write_short};
pub use source::{Source, read_some};
pub use stop::{PipeFailed, Stop};
pub use tally::Tally;
