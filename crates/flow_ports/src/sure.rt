// Streams that never fail.
ghost use Rattle.std.specs.Prelude.{◌≡◌, ◌<◌, ◌≤◌, ◌↔◌, ◌^◌, Some, None, [], length, take, drop, min, IsOk, IfOk, OnErr, MatchResult, vec_len};

use crate::ports::{Failed, Sink, Source};
use crate::whole::copy_front;

/// A source of known bytes, none of whose calls fails: each gives as many bytes as fit.
#[derive(Drop)]
pub struct SureSource {
    bytes: Vec<u8>,
    at: usize,
    ghost within: { at ≤ vec_len bytes },
}

impl SureSource {
    /// A source that has given nothing yet.
    pub fn new(bytes: Vec<u8>) -> SureSource
        ensures left { ⟦<SureSource as Source>⟧.left result ≡ Some bytes.items }
        ensures faults { ⟦<SureSource as Source>⟧.faults result ≡ 0 }
    {
        SureSource { bytes, at: 0 }
    }
}

impl Source for SureSource {
    ghost use Rattle.std.specs.Io.{ReadsAtMost};
    ghost use Rattle.flow_ports.specs.Flow.{CountsFaults, Takes};
    ghost use Rattle.flow_ports.specs.Sure.{bytes_of};

    ghost left = { λ s. Some (bytes_of s) };

    ghost faults = { λ s. 0 };

    fn read(&mut self, buf: &mut [u8]) -> Result<usize, Failed>
        ensures bound { ReadsAtMost result buf.new }
        ensures bytes { MatchResult result
            (λ n. Takes (Some (bytes_of self.old)) (Some (bytes_of self.new)) (take n buf.new))
            (λ _. Some (bytes_of self.new) ≡ Some (bytes_of self.old)) }
        ensures rest { IfOk result (λ n. drop n buf.new ≡ drop n buf.old) }
        ensures end { IfOk result (λ n. n ≡ 0 → 0 < length buf.new → bytes_of self.new ≡ []) }
        ensures none { IfOk result (λ n. 0 < length buf.new → ((n ≡ 0) ↔ (bytes_of self.old ≡ []))) }
        ensures count { CountsFaults 0 0 result }
        ensures range { OnErr result (0 < 2 ^ 64) }

        // How much the call gives; none fails.
        ensures sure { IsOk result }
        ensures amount { IfOk result (λ n. n ≡ min (length (bytes_of self.old)) (length buf.new)) }
    {
        let n = (self.bytes.len() - self.at).min(buf.len());
        copy_front(buf, &self.bytes[self.at..self.at + n]);
        self.at += n;
        Ok(n)
    }
}

/// A sink that takes each piece whole, and drops it. It tells nothing of what it got.
#[derive(Drop)]
pub struct SureSink;

impl SureSink {
    /// A sink.
    pub fn new() -> SureSink
        ensures got { ⟦<SureSink as Sink>⟧.got result ≡ None }
        ensures faults { ⟦<SureSink as Sink>⟧.faults result ≡ 0 }
    {
        SureSink
    }
}

impl Sink for SureSink {
    ghost use Rattle.std.specs.Io.{WritesAtMost};
    ghost use Rattle.flow_ports.specs.Flow.{CountsFaults, Gives};
    ghost use Rattle.flow_ports.specs.Sure.{not_told};

    ghost got = { λ s. not_told };

    ghost faults = { λ s. 0 };

    fn write(&mut self, bytes: &[u8]) -> Result<usize, Failed>
        ensures bound { WritesAtMost result bytes.now }
        ensures some { IfOk result (λ n. 0 < length bytes.now → 0 < n) }
        ensures bytes { MatchResult result (λ n. Gives not_told not_told (take n bytes.now)) (λ _. not_told ≡ not_told) }
        ensures count { CountsFaults 0 0 result }
        ensures range { OnErr result (0 < 2 ^ 64) }

        // Each piece is taken whole.
        ensures whole { IfOk result (λ n. n ≡ length bytes.now) }
        ensures sure { IsOk result }
    {
        Ok(bytes.len())
    }
}
