//! The program `pdesmas`: `pm_top::top` over the standard streams.
#![tactic(auto)]

ghost use Rattle.std.specs.Prelude.{◌≡◌, ◌≢◌, []};
ghost use Rattle.std.specs.Io.Buffered.{writer_buffer, writer_contents};
ghost use Rattle.std.specs.Io.KnownBytes.{Keeps};

use pm_io::{FreeGate, Sink, StdSink, StdSource};
use pm_top::{Ending, offer, status_of, top};
use std::io::{BufWriter, IsTerminal, Write};
use std::process::ExitCode;
use std::rt::Env;
use std::{env, io};

/// How many bytes of output are held back at most where a file or a pipe takes them.
const HELD_BACK: usize = 8192;

/// The words after the program's name.
fn words(rt: &(impl Env + AllocGlobal)) -> io::Result<Vec<String>> {
    let mut words = Vec::new(rt.alloc());
    for word in env::args(rt)?.skip(1) {
        words.push(word)?;
    }
    Ok(words)
}

/// How the program ends where the words can't be had: one that isn't UTF-8 is refused like any other.
fn ending_of(error: &io::Error) -> Ending {
    if error.kind() == io::ErrorKind::InvalidData {
        Ending::Words
    } else {
        Ending::Memory
    }
}

/// Writes what is held back, and gives the ending: that of the call where nothing is held back then, else that the
/// output failed. An output that failed in the call is offered nothing more.
fn flushed<W: Write + Drop>(output: &mut BufWriter<W>, ending: Ending) -> Ending
    ensures bytes { Keeps (writer_contents W.contents output.old) (writer_contents W.contents output.new) }
    ensures whole { result ≢ Ending.WriteFault → (result ≡ ending) × (writer_buffer output.new ≡ []) }
{
    match ending {
        Ending::WriteFault => Ending::WriteFault,
        ending => match output.flush() {
            Ok(()) => ending,
            Err(_) => Ending::WriteFault,
        },
    }
}

/// Says the line of the ending, and gives the status.
fn told<E: Sink>(err: &mut E, ending: &Ending) -> ExitCode {
    offer(err, ending);
    ExitCode::from(status_of(ending))
}

fn main(rt: HostRuntime) -> ExitCode {
    let mut err = StdSink::new(rt.stderr());
    let words = match words(&rt) {
        Ok(words) => words,
        Err(error) => return told(&mut err, &ending_of(&error)),
    };
    let stdout = rt.stdout();
    let held_back = if stdout.is_terminal() { 0 } else { HELD_BACK };
    let mut output = match BufWriter::with_capacity(rt.alloc(), held_back, stdout) {
        Ok(output) => output,
        Err(_) => return told(&mut err, &Ending::Memory),
    };
    // The line of the ending is said behind the flush, so that where both streams are one file it stands behind the
    // output.
    let report = top(
        &rt,
        rt.alloc(),
        &words,
        &mut StdSource::new(rt.stdin()),
        &mut StdSink::new(&mut output),
        &mut StdSink::new(io::sink()),
        &FreeGate,
    );
    let ending = flushed(&mut output, report.ending);
    // What an output that failed has not taken is let go: a writer that is dropped would offer it once more.
    let _ = output.into_parts();
    told(&mut err, &ending)
}
