//! What the program does with its pipes: a shelf is loaded, a script is run and its answers are handed on, and the
//! shelf is dumped.

ghost use Rattle.std.specs.Prelude.{◌≡◌, ◌+◌, ◌-◌, ◌<◌, ◌^◌, [], true, OnOk};
ghost use Rattle.judy_model.specs.RunEnds.{RanToEnd, LeftBy};
ghost use Rattle.judy_pipe.specs.Pipe.{told};
ghost use Rattle.judy_shelf.specs.Shelves.{store_of};
ghost use Rattle.judy_shelf.specs.Writes.{sunk, Dumped};
ghost use Rattle.judy_store.specs.Formats.{version_of};
ghost use Rattle.judy_script.specs.RunEnds.{Since, fault_of, read_failures};
ghost use Rattle.judy_store.specs.Ends.{EndsRun, HandsOn};

use judy_pipe::{Sink, Source};
use judy_script::{RunFault, run};
use judy_shelf::{DumpFault, Shelf, dump, dump2};

/// Runs the script that a source gives, of at most `max_bytes` bytes, and hands its answers on.
///
/// At Ok the whole script was run and the sink keeps no answer back. The fault is the run's where that has one;
/// at `Read` and `TooLong` the answers given by then are handed on too, and where this fails the fault stays that and
/// the sink has one failure more; where the sink failed in the run, nothing more is tried. It is `Write` too where the
/// whole script was run and its last answers couldn't be handed on.
///
/// Neither must have failed `u64::MAX` times before.
pub fn run_store<R: Source, W: Sink>(
    source: &mut R,
    shelf: &mut Shelf,
    sink: &mut W,
    max_bytes: u64,
) -> Result<(), RunFault>
    requires source { (R.tally source.old).failures < 2 ^ 64 - 1 }
    requires sink { (W.tally sink.old).failures < 2 ^ 64 - 1 }
    ensures run { EndsRun
        (Since (R.given source.old) (R.given source.new)
        (λ script. Since (W.taken sink.old) (W.taken sink.new) (λ output.
        RanToEnd (store_of shelf.old) max_bytes script
        (R.ended source.new ≡ told (R.ended source.old) true) output (store_of shelf.new))))
        (λ fault. Since (R.given source.old) (R.given source.new)
        (λ bytes. Since (W.taken sink.old) (W.taken sink.new) (λ output.
        LeftBy (store_of shelf.old) max_bytes bytes
        (R.ended source.new ≡ told (R.ended source.old) true) output (store_of shelf.new)
        (fault_of fault))))
        result }
    ensures handed_on { HandsOn (W.tally sink.old).failures result (W.kept sink.new)
        (W.tally sink.new).failures }
    ensures read_failures { (R.tally source.new).failures
        ≡ (R.tally source.old).failures + read_failures result }
{
    match run(source, shelf, sink, max_bytes) {
        Ok(()) => sink.flush().map_err(|_| RunFault::Write),
        Err(RunFault::Write) => Err(RunFault::Write),
        Err(fault) => {
            let _ = sink.flush();
            Err(fault)
        }
    }
}

/// Writes the dump of a shelf in the format of a number, 2 for JDY2 and else JDY1, and hands it on.
///
/// At Ok the sink took the dump of the store that the shelf is, and keeps nothing of it back. The faults are those
/// of `dump` and `dump2`; it is `Write` too where the dump was given and its last bytes couldn't be handed on.
pub fn dump_store<W: Sink>(format: u64, shelf: &Shelf, sink: &mut W) -> Result<(), DumpFault>
    requires { (W.tally sink.old).failures < 2 ^ 64 - 1 }
    ensures dumped { Dumped (version_of format) shelf.now
        (sunk (W.taken sink.old) (W.tally sink.old).failures) result
        (sunk (W.taken sink.new) (W.tally sink.new).failures) }
    ensures handed_on { OnOk result (W.kept sink.new ≡ []) }
{
    dump_format(format, shelf, sink)?;
    match sink.flush() {
        Ok(()) => Ok(()),
        Err(_) => Err(DumpFault::Write),
    }
}

// Writes the dump of a shelf in the format of a number.
fn dump_format<W: Sink>(format: u64, shelf: &Shelf, sink: &mut W) -> Result<(), DumpFault>
    requires { (W.tally sink.old).failures < 2 ^ 64 - 1 }
    ensures { Dumped (version_of format) shelf.now
        (sunk (W.taken sink.old) (W.tally sink.old).failures) result
        (sunk (W.taken sink.new) (W.tally sink.new).failures) }
{
    if format == 2 {
        dump2(shelf, sink)
    } else {
        dump(shelf, sink)
    }
}
