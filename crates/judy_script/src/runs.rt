//! The runs of a script: over a reader, and over bytes in hand.

ghost use Rattle.std.specs.Prelude.{◌≡◌, ℕ, ◌+◌, ◌-◌, ◌<◌, ◌^◌, List, [], length, true, Err, is_ok, if◌then◌else◌, OnOk, OnErr, IfErr};
ghost use Rattle.judy_model.specs.Runs.{Run, CutOff};
ghost use Rattle.judy_model.specs.RunEnds.{RanToEnd, LeftBy};
ghost use Rattle.judy_pipe.specs.Pipe.{told};
ghost use Rattle.judy_shelf.specs.Shelves.{store_of};
ghost use Rattle.judy_script.specs.declared.fault.RunFault.TheVariants.{Read, TooLong, Write};
ghost use Rattle.judy_script.specs.RunEnds.{Since, fault_of, read_failures, write_failures};

use crate::engine::{Buffers, feed, feed_and_flush, finish};
use crate::fault::RunFault;
use judy_pipe::{MemSource, Sink, Source, SourceTrouble, read_some};
use judy_shelf::Shelf;

// How many bytes are read at once.
const PIECE_LEN: usize = 65536;

/// Runs the script that a source gives, in whatever pieces it comes: each line is executed, then its answer
/// is written whole, then the next line begins. No more than a piece and a line are kept of the script.
/// Before it asks the source for more, it flushes the sink where a line was answered, so that whoever waits
/// for an answer before giving the next line gets it: a sink that kept nothing back at first keeps nothing back where a
/// read fails. The last answers are for the caller to flush.
///
/// At Ok the source gave at most `max_bytes` bytes and then the end, and the shelf and what was written are
/// those of a run of these bytes by the definitions. Else the fault is
/// - `Read`, where the source failed: the lines whose LF was read before are executed and answered, and
///   nothing else is done;
/// - `TooLong`, where it gave a byte more than `max_bytes`, and was asked for none behind it: the same for the first
///   `max_bytes` bytes;
/// - `Write`, where the sink failed, a flush included: the shelf is as after the line whose answer was being
///   written, and written are the answers before it and a front of its own.
///
/// Neither must have failed `u64::MAX` times before; a fault adds one failure to the one that failed.
pub fn run<R: Source, W: Sink>(
    source: &mut R,
    shelf: &mut Shelf,
    sink: &mut W,
    max_bytes: u64,
) -> Result<(), RunFault>
    requires source { (R.tally source.old).failures < 2 ^ 64 - 1 }
    requires sink { (W.tally sink.old).failures < 2 ^ 64 - 1 }
    ensures run { OnOk result
        (Since (R.given source.old) (R.given source.new)
        (λ script. Since (W.taken sink.old) (W.taken sink.new) (λ output.
        RanToEnd (store_of shelf.old) max_bytes script
        (R.ended source.new ≡ told (R.ended source.old) true) output (store_of shelf.new)))) }
    ensures left { IfErr result
        (λ fault. Since (R.given source.old) (R.given source.new)
        (λ bytes. Since (W.taken sink.old) (W.taken sink.new) (λ output.
        LeftBy (store_of shelf.old) max_bytes bytes
        (R.ended source.new ≡ told (R.ended source.old) true) output (store_of shelf.new)
        (fault_of fault)))) }
    // No byte is taken behind the one that is too many.
    ensures one_more { result ≡ Err TooLong
        → Since (R.given source.old) (R.given source.new) (λ bytes. length bytes ≡ max_bytes + 1) }
    // A read may fail, so answers that were kept back until then couldn't be handed on without a fault more.
    ensures handed_on { result ≡ Err Read → W.kept sink.old ≡ [] → W.kept sink.new ≡ [] }
    ensures read_failures { (R.tally source.new).failures
        ≡ (R.tally source.old).failures + read_failures result }
    ensures write_failures { (W.tally sink.new).failures
        ≡ (W.tally sink.old).failures + write_failures result }
    ensures content { R.content source.new ≡ R.content source.old }
    ensures unfailing { R.is_unfailing source.new ≡ R.is_unfailing source.old }
{
    let mut buffers = Buffers::new();
    let mut room = [0; PIECE_LEN];
    let mut left = max_bytes;
    'pieces: loop {
        // One byte more than may come tells that the script is too long.
        let most = left.min(PIECE_LEN as u64 - 1) as usize + 1;
        let Ok(count) = read_some(source, &mut room[..most]) else {
            return Err(RunFault::Read);
        };
        let piece = &room[..most];
        if count == 0 {
            return match finish(&mut buffers, shelf, sink) {
                Ok(()) => Ok(()),
                Err(_) => Err(RunFault::Write),
            };
        }
        if count as u64 > left {
            return match feed(&piece[..left as usize], &mut buffers, shelf, sink) {
                Ok(_) => Err(RunFault::TooLong),
                Err(_) => Err(RunFault::Write),
            };
        }
        match feed_and_flush(&piece[..count], &mut buffers, shelf, sink) {
            Ok(()) => left -= count as u64,
            Err(_) => return Err(RunFault::Write),
        }
    }
}

/// Runs a script: each line is executed, then its answer is written whole, then the next line begins.
/// (The script and its answers are this project's own.)
///
/// At Ok the shelf and what was written are those of a run of the whole script by the definitions. The one
/// fault is `Write`, where the sink failed: the shelf is then as after the line whose answer was being
/// written, and written are the answers before it and a front of its own. The sink must not have failed
/// `u64::MAX` times before; a fault adds one failure, and Ok none.
pub fn run_bytes<W: Sink>(script: &[u8], shelf: &mut Shelf, sink: &mut W) -> Result<(), RunFault>
    requires { (W.tally sink.old).failures < 2 ^ 64 - 1 }
    ensures run { OnOk result
        (Since (W.taken sink.old) (W.taken sink.new)
        (λ output. Run (store_of shelf.old) script.now output (store_of shelf.new))) }
    ensures write { OnErr result
        (Since (W.taken sink.old) (W.taken sink.new)
        (λ output. CutOff (store_of shelf.old) script.now output (store_of shelf.new))) }
    ensures fault { IfErr result (λ fault. fault ≡ Write) }
    ensures failures { let before = (W.tally sink.old).failures in
        (W.tally sink.new).failures ≡ (if is_ok result then before else before + 1) }
{
    let mut source = MemSource::new(script, usize::MAX, SourceTrouble::Never);
    match run(&mut source, shelf, sink, script.len() as u64) {
        Ok(()) => Ok(()),
        Err(RunFault::Write) => Err(RunFault::Write),
        // A slice never fails, and has no more bytes than its own.
        Err(RunFault::Read) => unreachable!(),
        Err(RunFault::TooLong) => unreachable!(),
    }
}
