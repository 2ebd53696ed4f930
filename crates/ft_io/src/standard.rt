//! Sources and sinks over the readers and writers of std, for the program: the standard streams, of
//! which nothing outside the program is known.
ghost use Rattle.std.specs.Prelude.{◌≡◌, ◌<◌, ◌≤◌, length, take, None, IfOk, MatchResult};
ghost use Rattle.std.specs.Io.KnownBytes.{Appends, ReadConsumes, WriteAppends};
ghost use Rattle.ft_io.specs.Streams.{raised};
ghost use Rattle.ft_io.specs.Standard.{AppendsSome};

use crate::{Failed, Sink, Source};
use std::io::{ErrorKind, Read, Write};
use std::marker::Model;

/// A source over a reader of std, as a runtime's `stdin()`. What a stream outside the program gives
/// can't be known, so the source doesn't tell what is left.
#[derive(Debug, Drop)]
pub struct StdSource<R: Read> {
    inner: R,
    faults: u64,
}

impl<R: Read> Model for StdSource<R> {
    ghost use Rattle.ft_io.specs.Standard.{ReaderState};

    ghost Value = { ReaderState };

    ghost view = { λ s. record { known = R.remaining s.inner; faults = s.faults } };
}

impl<R: Read> StdSource<R> {
    /// A source that reads from `inner`.
    pub fn new(inner: R) -> StdSource<R>
        ensures { result ≡ record { known = R.remaining inner; faults = 0 } }
    {
        StdSource { inner, faults: 0 }
    }

    /// How many calls have failed, at most 2^64 - 1.
    pub fn faults(&self) -> u64
        ensures { result ≡ self.now.faults }
    {
        self.faults
    }
}

impl<R: Read> Source for StdSource<R> {
    ghost stream = { λ s. record { content = None; faults = s.faults } };

    /// Reads once. A read that a signal interrupts is tried again. Any other error is a fault.
    fn take(&mut self, buf: &mut [u8]) -> Result<usize, Failed>
        ensures count { IfOk result (λ n. n ≤ length buf.old) }
        ensures faults { MatchResult result (λ _. self.new.faults ≡ self.old.faults)
            (λ _. self.new.faults ≡ raised self.old.faults) }

        // What the reader has left, where that is known.
        ensures known { ReadConsumes self.old.known self.new.known result buf.new }
    {
        let answer = read_retrying(&mut self.inner, buf);
        if answer.is_err() {
            self.faults = self.faults.saturating_add(1);
        }
        answer
    }
}

// One read, tried again where a signal interrupts it.
fn read_retrying<R: Read>(reader: &mut R, buf: &mut [u8]) -> Result<usize, Failed>
    ensures count { IfOk result (λ n. n ≤ length buf.new) }
    ensures known { ReadConsumes (R.remaining reader.old) (R.remaining reader.new) result buf.new }
{
    for _ in 0..u64::MAX {
        match reader.read(buf) {
            Ok(count) => return Ok(count),
            Err(e) => {
                if e.kind() != ErrorKind::Interrupted {
                    return Err(Failed);
                }
            }
        }
    }
    Err(Failed)
}

/// A sink over a writer of std, as a runtime's `stdout()` or `stderr()`. What a stream outside the
/// program makes of the bytes can't be known, so the sink doesn't tell what it has taken in.
#[derive(Debug, Drop)]
pub struct StdSink<W: Write> {
    inner: W,
    faults: u64,
}

impl<W: Write> Model for StdSink<W> {
    ghost use Rattle.ft_io.specs.Standard.{WriterState};

    ghost Value = { WriterState };

    ghost view = { λ s. record { known = W.contents s.inner; faults = s.faults } };
}

impl<W: Write> StdSink<W> {
    /// A sink that writes to `inner`. Each put flushes `inner`, so a buffer there gains nothing.
    pub fn new(inner: W) -> StdSink<W>
        ensures { result ≡ record { known = W.contents inner; faults = 0 } }
    {
        StdSink { inner, faults: 0 }
    }

    /// How many calls have failed, at most 2^64 - 1.
    pub fn faults(&self) -> u64
        ensures { result ≡ self.now.faults }
    {
        self.faults
    }
}

impl<W: Write> Sink for StdSink<W> {
    ghost stream = { λ s. record { content = None; faults = s.faults } };

    /// Writes once, and flushes. A write that a signal interrupts is tried again. Any other error
    /// is a fault, and so is a write of no byte of a piece that isn't empty. Where the flush fails,
    /// some of the front of `piece` may have been written.
    fn put(&mut self, piece: &[u8]) -> Result<usize, Failed>
        ensures count { IfOk result (λ n. n ≤ length piece.now) }
        ensures progress { IfOk result (λ n. 0 < length piece.now → 0 < n) }
        ensures faults { MatchResult result (λ _. self.new.faults ≡ self.old.faults)
            (λ _. self.new.faults ≡ raised self.old.faults) }

        // What the writer holds, where that is known.
        ensures known { MatchResult result
            (λ n. Appends self.old.known self.new.known (take n piece.now))
            (λ _. AppendsSome self.old.known self.new.known piece.now) }
    {
        let answer = write_through(&mut self.inner, piece);
        if answer.is_err() {
            self.faults = self.faults.saturating_add(1);
        }
        answer
    }
}

// One write that has left every buffer. None of a piece that isn't empty is a failure.
fn write_through<W: Write>(writer: &mut W, piece: &[u8]) -> Result<usize, Failed>
    ensures count { IfOk result (λ n. n ≤ length piece.now) }
    ensures progress { IfOk result (λ n. 0 < length piece.now → 0 < n) }
    ensures known { MatchResult result
        (λ n. Appends (W.contents writer.old) (W.contents writer.new) (take n piece.now))
        (λ _. AppendsSome (W.contents writer.old) (W.contents writer.new) piece.now) }
{
    let count = write_retrying(writer, piece)?;
    if count == 0 && !piece.is_empty() || writer.flush().is_err() {
        return Err(Failed);
    }
    Ok(count)
}

// One write, tried again where a signal interrupts it.
fn write_retrying<W: Write>(writer: &mut W, piece: &[u8]) -> Result<usize, Failed>
    ensures count { IfOk result (λ n. n ≤ length piece.now) }
    ensures known { WriteAppends (W.contents writer.old) (W.contents writer.new) result piece.now }
{
    for _ in 0..u64::MAX {
        match writer.write(piece) {
            Ok(count) => return Ok(count),
            Err(e) => {
                if e.kind() != ErrorKind::Interrupted {
                    return Err(Failed);
                }
            }
        }
    }
    Err(Failed)
}
