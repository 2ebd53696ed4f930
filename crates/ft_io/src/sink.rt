//! What the tool asks of a place to which bytes go.
ghost use Rattle.std.specs.Prelude.{◌≡◌, ◌<◌, ◌≤◌, length, take, IfOk, OnErr, MatchResult};
ghost use Rattle.ft_io.specs.Streams.{raised, added, Stream};

use crate::Failed;

/// Where bytes go.
pub trait Sink {
    /// The bytes that it has taken in, where the sink tells them, and how often a call has failed. The
    /// count never falls, and stands still at 2^64 - 1.
    ghost stream: { Self → Stream };

    /// Puts a prefix of `piece`, and answers how many bytes were put: at least one, where
    /// `piece` isn't empty.
    fn put(&mut self, piece: &[u8]) -> Result<usize, Failed>
        ensures count { IfOk result (λ n. n ≤ length piece.now) }
        ensures progress { IfOk result (λ n. 0 < length piece.now → 0 < n) }
        ensures bytes { IfOk result (λ n. (stream self.new).content ≡ added (stream self.old).content (take n piece.now)) }
        ensures failed { OnErr result ((stream self.new).content ≡ (stream self.old).content) }
        ensures faults { MatchResult result (λ _. (stream self.new).faults ≡ (stream self.old).faults) (λ _. (stream self.new).faults ≡ raised (stream self.old).faults) };
}
