//! The standard input, output and error stream.
ghost use Rattle.std.specs.Prelude.{◌≡◌, ◌<◌, ◌≤◌, ℕ, length, None, IfOk};

use crate::schedule::raised;
use crate::sink::{Sink, SinkFault};
use crate::source::{Failed, Source};
use std::io::{self, ErrorKind, Read, Write};

/// Input from a reader of std. What it gives is not told.
#[derive(Drop)]
pub struct StdSource<R> {
    from: R,
    faults: u64,
}

impl<R: Read> StdSource<R> {
    /// Reads from `from`, which it owns.
    pub fn new(from: R) -> StdSource<R>
        ensures { (⟦<StdSource<R> as Source>⟧.state result).faults ≡ 0 }
    {
        StdSource { from, faults: 0 }
    }
}

impl<R: Read> Source for StdSource<R> {
    ghost state = { λ source. record { left = None; faults = source.faults } };

    fn read_some(&mut self, buf: &mut [u8]) -> Result<usize, Failed> {
        match read_once(&mut self.from, buf) {
            Ok(count) => Ok(count),
            Err(_) => {
                self.faults = raised(self.faults);
                Err(Failed)
            }
        }
    }
}

/// Output to a writer of std, which is flushed after each write. What it holds is not told.
#[derive(Drop)]
pub struct StdSink<W> {
    to: W,
    faults: u64,
}

impl<W: Write> StdSink<W> {
    /// Writes to `to`, which it owns.
    pub fn new(to: W) -> StdSink<W>
        ensures { (⟦<StdSink<W> as Sink>⟧.state result).faults ≡ 0 }
    {
        StdSink { to, faults: 0 }
    }
}

impl<W: Write> Sink for StdSink<W> {
    ghost state = { λ sink. record { written = None; faults = sink.faults } };

    fn write_some(&mut self, piece: &[u8]) -> Result<usize, SinkFault> {
        match write_once(&mut self.to, piece) {
            Ok(count) => Ok(count),
            Err(error) if error.kind() == ErrorKind::OutOfMemory => Err(SinkFault::Memory),
            Err(_) => {
                self.faults = raised(self.faults);
                Err(SinkFault::Failed)
            }
        }
    }
}

/// Reads once, and again where a signal came in between.
pub fn read_once<R: Read>(from: &mut R, buf: &mut [u8]) -> io::Result<usize>
    ensures { IfOk result (λ n. n ≤ length buf.old) }
{
    for _ in 0..u64::MAX {
        match from.read(buf) {
            Ok(count) => return Ok(count),
            Err(error) if error.kind() == ErrorKind::Interrupted => {}
            Err(error) => return Err(error),
        }
    }
    Err(io::Error::from(ErrorKind::Interrupted))
}

/// Writes some of `piece`, at least one byte, and flushes.
fn write_once<W: Write>(to: &mut W, piece: &[u8]) -> io::Result<usize>
    ensures { IfOk result (λ n. (0 < n) × (n ≤ length piece.now)) }
{
    for _ in 0..u64::MAX {
        match to.write(piece) {
            Ok(0) => return Err(io::Error::from(ErrorKind::WriteZero)),
            Ok(count) => {
                flush(to)?;
                return Ok(count);
            }
            Err(error) if error.kind() == ErrorKind::Interrupted => {}
            Err(error) => return Err(error),
        }
    }
    Err(io::Error::from(ErrorKind::Interrupted))
}

/// Flushes, and again where a signal came in between.
fn flush<W: Write>(to: &mut W) -> io::Result<()> {
    for _ in 0..u64::MAX {
        match to.flush() {
            Ok(()) => return Ok(()),
            Err(error) if error.kind() == ErrorKind::Interrupted => {}
            Err(error) => return Err(error),
        }
    }
    Err(io::Error::from(ErrorKind::Interrupted))
}
