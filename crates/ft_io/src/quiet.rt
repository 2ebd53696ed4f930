//! A source and a sink that never fail, for benchmarks and tests of what lies above.
ghost use Rattle.std.specs.Prelude.{◌≡◌, ◌++◌, min, length, take, drop, Some, None, IsOk, IfOk};

use crate::{Failed, Sink, Source};
use std::marker::Model;

/// A source over bytes in memory. No call fails.
#[derive(Debug, Drop)]
pub struct QuietSource {
    bytes: Vec<u8>,
    start: usize,
}

impl Model for QuietSource {
    ghost use Rattle.std.specs.Prelude.{◌≤◌, ℕ, List, length, drop};

    ghost Value = { List ℕ };

    ghost view = { λ s. drop s.start s.bytes.items };

    ghost invariant = { λ s. s.start ≤ length s.bytes.items };
}

impl QuietSource {
    /// A source that gives `bytes`.
    pub fn new(bytes: Vec<u8>) -> QuietSource
        ensures { result ≡ bytes.items }
    {
        QuietSource { bytes, start: 0 }
    }
}

impl Source for QuietSource {
    ghost stream = { λ s. record { content = Some s; faults = 0 } };

    /// Takes as many bytes as `buf` and what is left allow. No call fails.
    fn take(&mut self, buf: &mut [u8]) -> Result<usize, Failed>
        ensures ok { IsOk result }
        ensures size { IfOk result (λ n. n ≡ min (length buf.old) (length self.old)) }
        ensures copied { IfOk result (λ n. buf.new ≡ take n self.old ++ drop n buf.old) }
        ensures rest { IfOk result (λ n. self.new ≡ drop n self.old) }
    {
        let rest = &self.bytes[self.start..];
        let count = buf.len().min(rest.len());
        buf[..count].copy_from_slice(&rest[..count]);
        self.start += count;
        Ok(count)
    }
}

/// A sink that drops what is put, and so tells no content. No call fails.
#[derive(Clone, Copy, Debug, PartialEq, Eq, Hash)]
pub struct QuietSink;

impl QuietSink {
    ghost use Rattle.ft_io.specs.declared.quiet.QuietSink.{QuietSink};

    /// A sink that drops what is put. There is only one.
    pub fn new() -> QuietSink
        ensures { (other : QuietSink) → result ≡ other }
    {
        QuietSink
    }
}

impl Sink for QuietSink {
    ghost stream = { λ _. record { content = None; faults = 0 } };

    /// Puts the whole piece. No call fails.
    fn put(&mut self, piece: &[u8]) -> Result<usize, Failed>
        ensures ok { IsOk result }
        ensures whole { IfOk result (λ n. n ≡ length piece.now) }
    {
        Ok(piece.len())
    }
}
