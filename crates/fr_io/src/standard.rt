//! Readers and writers of the standard library as sources and sinks: the trusted edge.
ghost use Rattle.std.specs.Prelude.{◌≡◌, ◌<◌, ◌≤◌, None, length, IfOk, is_ok, if◌then◌else◌};
ghost use Rattle.std.specs.Io.{ReadsAtMost};
ghost use Rattle.std.specs.Io.KnownBytes.{ReadConsumes, WriteAppends};
ghost use Rattle.fr_io.specs.Causes.{HasCause, raised};

use crate::{Failed, Sink, Source};
use std::io::{Read, Write};
use std::marker::Model;

/// A reader of the standard library as a source, with a count of its errors.
///
/// As a source it tells nothing of contents.
#[derive(Debug, Drop)]
pub struct StdSource<R> {
    reader: R,
    faults: u64,
}

impl<R> Model for StdSource<R> {
    ghost use Rattle.fr_io.specs.Standard.{Counted};

    ghost Value = { Counted R };

    ghost view = { λ s. record { inner = s.reader; faults = s.faults } };
}

impl<R: Read> StdSource<R> {
    /// A source over `reader`. Its count of faults begins at 0.
    pub fn new(reader: R) -> StdSource<R>
        ensures { result ≡ record { inner = reader; faults = 0 } }
    {
        StdSource { reader, faults: 0 }
    }
}

impl<R: Read> Source for StdSource<R> {
    ghost left = { λ _. None };

    ghost faults = { λ s. s.faults };

    /// Reads once from the reader and passes on what it gives.
    ///
    /// # Errors
    ///
    /// `Failed` exactly where the count rose: at each error of the reader, an interruption too.
    fn read(&mut self, buf: &mut [u8]) -> Result<usize, Failed>
        ensures bound { ReadsAtMost result buf.new }
        ensures cause { HasCause self.old.faults self.new.faults result }
        ensures passes { ReadConsumes (R.remaining self.old.inner) (R.remaining self.new.inner) result buf.new }
        ensures count { self.new.faults ≡ (if is_ok result then self.old.faults else raised self.old.faults) }
    {
        match self.reader.read(buf) {
            Ok(count) => Ok(count),
            Err(_) => Err(Failed::counted(&mut self.faults)),
        }
    }
}

/// A writer of the standard library as a sink, with a count of its errors.
///
/// As a sink it tells nothing of contents. It never flushes: give it a writer that keeps nothing
/// back, such as the runtime's standard output, or lend it one with a buffer as `&mut` and flush
/// that afterwards.
#[derive(Debug, Drop)]
pub struct StdSink<W> {
    writer: W,
    faults: u64,
}

impl<W> Model for StdSink<W> {
    ghost use Rattle.fr_io.specs.Standard.{Counted};

    ghost Value = { Counted W };

    ghost view = { λ s. record { inner = s.writer; faults = s.faults } };
}

impl<W: Write> StdSink<W> {
    /// A sink over `writer`. Its count of faults begins at 0.
    pub fn new(writer: W) -> StdSink<W>
        ensures { result ≡ record { inner = writer; faults = 0 } }
    {
        StdSink { writer, faults: 0 }
    }
}

impl<W: Write> Sink for StdSink<W> {
    ghost written = { λ _. None };

    ghost faults = { λ s. s.faults };

    /// Writes once to the writer and passes on what it takes.
    ///
    /// # Errors
    ///
    /// `Failed` exactly where the count rose: at each error of the writer, an interruption too, and
    /// where it takes no byte of a piece that is not empty.
    fn write(&mut self, bytes: &[u8]) -> Result<usize, Failed>
        ensures bound { IfOk result (λ n. n ≤ length bytes.now) }
        ensures some { 0 < length bytes.now → IfOk result (λ n. 0 < n) }
        ensures cause { HasCause self.old.faults self.new.faults result }
        ensures passes { WriteAppends (W.contents self.old.inner) (W.contents self.new.inner) result bytes.now }
        ensures count { self.new.faults ≡ (if is_ok result then self.old.faults else raised self.old.faults) }
    {
        match self.writer.write(bytes) {
            Ok(count) if count > 0 || bytes.is_empty() => Ok(count),
            _ => Err(Failed::counted(&mut self.faults)),
        }
    }
}
