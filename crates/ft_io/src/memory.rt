//! Sources and sinks over memory, for tests: they give and take what they are made for, to the
//! byte, and fail at the calls that they are made to fail at.
ghost use Rattle.std.specs.Prelude.{◌≡◌, ◌<◌, ◌↔◌, ◌⊎◌, min, [], ◌++◌, length, take, drop, Some, Contains, IsErr, IfOk, OnErr};
ghost use Rattle.ft_io.specs.Memory.{free_room};
ghost use Rattle.ft_io.specs.Streams.{raised};

use crate::{Failed, Sink, Source};
use std::alloc::{AllocError, Global};
use std::marker::Model;

/// A source over bytes in memory, which can be reported to give short pieces and to fail.
#[derive(Debug, Drop)]
pub struct MemSource {
    bytes: Vec<u8>,
    start: usize,
    most: usize,
    fails: Vec<u64>,
    calls: u64,
    faults: u64,
}

impl Model for MemSource {
    ghost use Rattle.std.specs.Prelude.{◌<◌, ◌≤◌, length, drop};
    ghost use Rattle.ft_io.specs.Memory.{SourceState};

    ghost Value = { SourceState };

    ghost view = { λ s. record {
      left = drop s.start s.bytes.items;
      most = s.most;
      fails = s.fails.items;
      calls = s.calls;
      faults = s.faults;
    } };

    ghost invariant = { λ s. (s.start ≤ length s.bytes.items) × (0 < s.most) };
}

impl MemSource {
    /// A source that gives `bytes`, at most `most` of them in a call. The calls whose numbers,
    /// from 1, are in `fails` fail.
    pub fn new(bytes: Vec<u8>, most: usize, fails: Vec<u64>) -> MemSource
        requires { 0 < most }
        ensures { result ≡ record {
          left = bytes.items;
          most = most;
          fails = fails.items;
          calls = 0;
          faults = 0;
        } }
    {
        MemSource {
            bytes,
            start: 0,
            most,
            fails,
            calls: 0,
            faults: 0,
        }
    }

    /// How many calls have failed, at most 2^64 - 1.
    pub fn faults(&self) -> u64
        ensures { result ≡ self.now.faults }
    {
        self.faults
    }
}

impl Source for MemSource {
    ghost stream = { λ s. record { content = Some s.left; faults = s.faults } };

    /// Takes as many bytes as the greatest size, `buf` and what is left allow. A call that fails
    /// leaves all but the counts as it was. Past 2^64 - 1 calls each has that number.
    fn take(&mut self, buf: &mut [u8]) -> Result<usize, Failed>
        ensures end { IfOk result (λ n. n ≡ 0 → 0 < length buf.old → self.new.left ≡ []) }
        ensures fails { IsErr result ↔ Contains self.old.fails (raised self.old.calls) }
        ensures size { IfOk result (λ n.
            n ≡ min self.old.most (min (length buf.old) (length self.old.left))) }
        ensures copied { IfOk result (λ n. buf.new ≡ take n self.old.left ++ drop n buf.old) }
        ensures ok { IfOk result (λ n. self.new ≡ record self.old {
          left = drop n self.old.left;
          calls = raised self.old.calls;
        }) }
        ensures untouched { OnErr result (buf.new ≡ buf.old) }
        ensures err { OnErr result (self.new ≡ record self.old {
          calls = raised self.old.calls;
          faults = raised self.old.faults;
        }) }
    {
        self.calls = self.calls.saturating_add(1);
        if self.fails.contains(&self.calls) {
            self.faults = self.faults.saturating_add(1);
            return Err(Failed);
        }
        let rest = &self.bytes[self.start..];
        let count = self.most.min(buf.len()).min(rest.len());
        buf[..count].copy_from_slice(&rest[..count]);
        self.start += count;
        Ok(count)
    }
}

/// A sink that keeps in memory what is put, and that can be reported to take short pieces and to fail.
/// It allocates only when it is made.
#[derive(Debug, Drop)]
pub struct MemSink {
    bytes: Vec<u8>,
    room: usize,
    most: usize,
    fails: Vec<u64>,
    calls: u64,
    faults: u64,
}

impl Model for MemSink {
    ghost use Rattle.std.specs.Prelude.{◌<◌, ◌≤◌, length, vec_capacity};
    ghost use Rattle.ft_io.specs.Memory.{SinkState};

    ghost Value = { SinkState };

    ghost view = { λ s. record {
      taken = s.bytes.items;
      room = s.room;
      most = s.most;
      fails = s.fails.items;
      calls = s.calls;
      faults = s.faults;
    } };

    ghost invariant = { λ s.
        (length s.bytes.items ≤ s.room) × (s.room ≤ vec_capacity s.bytes) × (0 < s.most) };
}

impl MemSink {
    /// A sink with room for `room` bytes in all, which takes at most `most` of them in a call.
    /// The calls whose numbers, from 1, are in `fails` fail. Fails where there is no memory for
    /// the room.
    pub fn new(
        alloc: Global,
        room: usize,
        most: usize,
        fails: Vec<u64>,
    ) -> Result<MemSink, AllocError>
        requires { 0 < most }
        ensures { IfOk result (λ sink. sink ≡ record {
          taken = [];
          room = room;
          most = most;
          fails = fails.items;
          calls = 0;
          faults = 0;
        }) }
    {
        Ok(MemSink {
            bytes: Vec::with_capacity(alloc, room)?,
            room,
            most,
            fails,
            calls: 0,
            faults: 0,
        })
    }

    /// What was put, in order.
    pub fn bytes(&self) -> &[u8]
        ensures { result.now ≡ self.now.taken }
    {
        self.bytes.as_slice()
    }

    /// How many calls have failed, at most 2^64 - 1.
    pub fn faults(&self) -> u64
        ensures { result ≡ self.now.faults }
    {
        self.faults
    }
}

impl Sink for MemSink {
    ghost stream = { λ s. record { content = Some s.taken; faults = s.faults } };

    /// Puts as many bytes as the greatest size, `piece` and the room that is left allow. A call
    /// fails where it is reported to, and where `piece` has bytes and there is no room. It then leaves
    /// all but the counts as it was. Past 2^64 - 1 calls each has that number.
    fn put(&mut self, piece: &[u8]) -> Result<usize, Failed>
        ensures progress { IfOk result (λ n. 0 < length piece.now → 0 < n) }
        ensures fails { IsErr result ↔ (Contains self.old.fails (raised self.old.calls)
            ⊎ ((0 < length piece.now) × (free_room self.old ≡ 0))) }
        ensures size { IfOk result (λ n.
            n ≡ min self.old.most (min (length piece.now) (free_room self.old))) }
        ensures ok { IfOk result (λ n. self.new ≡ record self.old {
          taken = self.old.taken ++ take n piece.now;
          calls = raised self.old.calls;
        }) }
        ensures err { OnErr result (self.new ≡ record self.old {
          calls = raised self.old.calls;
          faults = raised self.old.faults;
        }) }
    {
        self.calls = self.calls.saturating_add(1);
        let left = self.room - self.bytes.len();
        if self.fails.contains(&self.calls) || left == 0 && !piece.is_empty() {
            self.faults = self.faults.saturating_add(1);
            return Err(Failed);
        }
        let count = self.most.min(piece.len()).min(left);
        self.bytes.extend_from_slice(&piece[..count]).unwrap();
        Ok(count)
    }
}
