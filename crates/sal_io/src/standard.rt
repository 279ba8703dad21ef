//! Sources and sinks over the readers and writers of std, as standard input and output are.
//!
//! The bytes of a source are known if those of its reader are, so those of standard input are not: no contract can say what
//! the system gives. Those of a sink are not known, since a flush may fail after bytes were taken.
ghost use Rattle.std.specs.Prelude.{◌≡◌, None};

use crate::fault::Failed;
use crate::sink::Sink;
use crate::source::Source;
use std::io::{Read, Write};
use std::marker::Model;

/// A reader of std as a source, as `StdSource::new(rt.stdin())`. A contract sees the reader, and how often it failed.
#[derive(Drop)]
pub struct StdSource<R> {
    input: R,
    faults: u64,
}

impl<R> Model for StdSource<R> {
    ghost use Rattle.std.specs.Prelude.{ℕ};

    ghost Value = { R × ℕ };

    ghost view = { λ a. (a.input, a.faults) };
}

impl<R> StdSource<R> {
    /// A source that has not failed yet.
    pub fn new(input: R) -> Self
        ensures { result ≡ (input, 0) }
    {
        StdSource { input, faults: 0 }
    }
}

impl<R: Read> Source for StdSource<R> {
    ghost left = { λ s. R.remaining s.0 };

    ghost faults = { λ s. s.1 };

    fn read(&mut self, buf: &mut [u8]) -> Result<usize, Failed> {
        match self.input.read(buf) {
            Ok(count) => Ok(count),
            Err(_) => {
                self.faults = self.faults.saturating_add(1);
                Err(Failed)
            }
        }
    }
}

/// A writer of std as a sink, as `StdSink::new(rt.stdout())`, flushed in each write. A contract sees how often it
/// failed.
#[derive(Drop)]
pub struct StdSink<W> {
    output: W,
    faults: u64,
}

impl<W> Model for StdSink<W> {
    ghost use Rattle.std.specs.Prelude.{ℕ};

    ghost Value = { ℕ };

    ghost view = { λ a. a.faults };
}

impl<W> StdSink<W> {
    /// A sink that has not failed yet.
    pub fn new(output: W) -> Self
        ensures { result ≡ 0 }
    {
        StdSink { output, faults: 0 }
    }
}

impl<W: Write> Sink for StdSink<W> {
    ghost taken = { λ _. None };

    ghost faults = { λ s. s };

    /// A write that takes no byte of a piece with bytes, and a failed flush, are faults too.
    fn write(&mut self, piece: &[u8]) -> Result<usize, Failed> {
        match self.output.write(piece) {
            Ok(count) if (count > 0 || piece.is_empty()) && self.output.flush().is_ok() => {
                Ok(count)
            }
            _ => {
                self.faults = self.faults.saturating_add(1);
                Err(Failed)
            }
        }
    }
}
