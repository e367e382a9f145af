//! How the program ends.

ghost use Rattle.std.specs.Prelude.{◌≡◌, ◌+◌, ◌-◌, ◌<◌, ◌^◌, ◌++◌, is_ok, if◌then◌else◌, IfErr, OnOk, OnErr};
ghost use Rattle.judy_pipe.specs.Pipe.{grown, GrewByFront};
ghost use Rattle.judy_script.specs.declared.fault.RunFault.TheVariants.{Write};
ghost use Rattle.judy_store.specs.Ends.{status_of, line_of};

use judy_options::{NotTaken, VERSION};
use judy_pipe::{PipeFailed, Sink, write_all};
use judy_script::RunFault;
use judy_shelf::{DumpFault, LoadFault};

/// How the program ends. (This project's own.)
#[derive(Debug, Drop)]
pub enum End {
    /// All that was asked is done, and the answers are out.
    Done,
    /// The command line asked for help, which is the text.
    Help(String),
    /// The command line asked for the version.
    Version,
    /// The command line was refused; the text says why.
    BadWords(String),
    /// There is no memory to read the command line, or for the name of a file that couldn't be opened.
    NoMemory,
    /// The file of that name couldn't be opened or created.
    Open(String),
    /// The load ended with a fault.
    Load(LoadFault),
    /// The run ended with a fault, or standard output couldn't be flushed, which is `Write`.
    Run(RunFault),
    /// The dump ended with a fault.
    Dump(DumpFault),
}

impl From<NotTaken> for End {
    ghost use Rattle.std.specs.Prelude.{◌≡◌};
    ghost use Rattle.judy_store.specs.Ends.{end_of};

    ghost from_gives = { λ refusal end. end ≡ end_of refusal };

    fn from(refusal: NotTaken) -> End {
        match refusal {
            NotTaken::Help(text) => End::Help(text),
            NotTaken::Version => End::Version,
            NotTaken::BadWords(text) => End::BadWords(text),
            NotTaken::NoMemory => End::NoMemory,
        }
    }
}

/// The exit status of an end: 0 where the program did what it was asked, 2 where the command line was refused,
/// else 1.
pub fn status(end: &End) -> u8
    ensures { result ≡ status_of end.now }
{
    match end {
        End::Done | End::Help(_) | End::Version => 0,
        End::BadWords(_) => 2,
        _ => 1,
    }
}

/// Writes what the program says of its end: for `Help` and `BadWords` their text, for `Version` and every fault one
/// line, and nothing where the program is done.
///
/// The one fault is `Write`, where the sink failed: a front of it was written then.
pub fn write_line<W: Sink>(end: &End, sink: &mut W) -> Result<(), RunFault>
    requires { (W.tally sink.old).failures < 2 ^ 64 - 1 }
    ensures ok { OnOk result (W.taken sink.new ≡ grown (W.taken sink.old) (line_of end.now)) }
    ensures err { OnErr result
        (GrewByFront (W.taken sink.old) (line_of end.now) (W.taken sink.new)) }
    ensures fault { IfErr result (λ fault. fault ≡ Write) }
    ensures failures { let before = (W.tally sink.old).failures in
        (W.tally sink.new).failures ≡ (if is_ok result then before else before + 1) }
{
    let (head, subject, tail) = line(end);
    write_three(sink, head, subject, tail).map_err(|_| RunFault::Write)
}

// What stands before the subject of a line, the subject, and what stands after it.
fn line(end: &End) -> (&[u8], &[u8], &[u8])
    ensures { result.0.now ++ result.1.now ++ result.2.now ≡ line_of end.now }
{
    match end {
        End::Done => (b"", b"", b""),
        End::Help(text) => (b"", text.as_bytes(), b""),
        End::Version => (b"judystore ", VERSION.as_bytes(), b"\n"),
        End::BadWords(text) => (b"", text.as_bytes(), b""),
        End::NoMemory => (b"judystore: no-memory", b"", b"\n"),
        End::Open(name) => (b"judystore: open: ", name.as_bytes(), b"\n"),
        End::Load(fault) => (b"judystore: load: ", fault.word(), b"\n"),
        End::Run(fault) => (b"judystore: run: ", fault.word(), b"\n"),
        End::Dump(fault) => (b"judystore: dump: ", fault.word(), b"\n"),
    }
}

// Writes three pieces, one behind the other.
fn write_three<W: Sink>(
    sink: &mut W,
    head: &[u8],
    subject: &[u8],
    tail: &[u8],
) -> Result<(), PipeFailed>
    requires { (W.tally sink.old).failures < 2 ^ 64 - 1 }
    ensures ok { OnOk result
        (W.taken sink.new ≡ grown (W.taken sink.old) (head.now ++ subject.now ++ tail.now)) }
    ensures err { OnErr result
        (GrewByFront (W.taken sink.old) (head.now ++ subject.now ++ tail.now) (W.taken sink.new)) }
    ensures failures { let before = (W.tally sink.old).failures in
        (W.tally sink.new).failures ≡ (if is_ok result then before else before + 1) }
{
    write_all(sink, head)?;
    write_all(sink, subject)?;
    write_all(sink, tail)
}
