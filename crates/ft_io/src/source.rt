//! What the tool asks of a place from which bytes come.
ghost use Rattle.std.specs.Prelude.{◌≡◌, ◌<◌, ◌≤◌, [], length, take, IfOk, IfSome, OnErr, MatchResult};
ghost use Rattle.ft_io.specs.Streams.{raised, prepended, Stream};

/// A call of a source or a sink failed. Its count of faults tells how often.
#[derive(Clone, Copy, Debug, PartialEq, Eq, Hash)]
pub struct Failed;

/// Where bytes come from.
pub trait Source {
    /// The bytes that are left, where the source tells them, and how often a call has failed. The
    /// count never falls, and stands still at 2^64 - 1.
    ghost stream: { Self → Stream };

    /// Takes the next bytes into the front of `buf`, and answers how many came. 0 into a buffer
    /// that isn't empty is the end of the input.
    fn take(&mut self, buf: &mut [u8]) -> Result<usize, Failed>
        ensures count { IfOk result (λ n. n ≤ length buf.old) }
        ensures bytes { IfOk result (λ n. (stream self.old).content ≡ prepended (take n buf.new) (stream self.new).content) }
        ensures end { IfOk result (λ n. n ≡ 0 → 0 < length buf.old → IfSome (stream self.new).content (λ rest. rest ≡ [])) }
        ensures failed { OnErr result ((stream self.new).content ≡ (stream self.old).content) }
        ensures faults { MatchResult result (λ _. (stream self.new).faults ≡ (stream self.old).faults) (λ _. (stream self.new).faults ≡ raised (stream self.old).faults) };
}
