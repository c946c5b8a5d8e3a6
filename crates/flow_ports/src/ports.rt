// The three traits.
ghost use Rattle.std.specs.Prelude.{◌≡◌, ◌<◌, ◌^◌, ◌≤◌, ◌↔◌, ℕ, List, [], Bool, Option, length, take, drop, IsTrue, IfOk, IfSome, OnErr, MatchResult};
ghost use Rattle.std.specs.Io.{ReadsAtMost, WritesAtMost};
ghost use Rattle.flow_ports.specs.Flow.{CountsFaults, Takes, Gives, IsAtEnd};

use thiserror::Error;

/// The last value of a count of calls or faults, at which it stays.
pub const LAST_COUNT: u64 = u64::MAX;

/// The one fault of a stream or a file.
#[derive(Clone, Copy, Debug, PartialEq, Eq, Error)]
#[error("the device failed")]
pub struct Failed;

/// A stream of bytes to read. Whether it tells its bytes never changes.
pub trait Source {
    /// The bytes still to come, where told.
    ghost left: { Self → Option (List ℕ) };

    /// How often a call has failed.
    ghost faults: { Self → ℕ };

    /// Reads the next bytes into the front of the buffer, and leaves the rest of it.
    fn read(&mut self, buf: &mut [u8]) -> Result<usize, Failed>
        ensures bound { ReadsAtMost result buf.new }
        ensures bytes { MatchResult result
            (λ n. Takes (left self.old) (left self.new) (take n buf.new))
            (λ _. left self.new ≡ left self.old) }
        ensures rest { IfOk result (λ n. drop n buf.new ≡ drop n buf.old) }
        ensures end { IfOk result (λ n. n ≡ 0 → 0 < length buf.new → IsAtEnd (left self.new)) }
        ensures none { IfOk result (λ n.
            IfSome (left self.old) (λ bytes. 0 < length buf.new → ((n ≡ 0) ↔ (bytes ≡ [])))) }
        ensures count { CountsFaults (faults self.old) (faults self.new) result }
        ensures range { OnErr result (faults self.new < 2 ^ 64) };
}

/// A stream to which bytes are written. Whether it tells its bytes never changes.
pub trait Sink {
    /// The bytes taken so far, where told.
    ghost got: { Self → Option (List ℕ) };

    /// How often a call has failed.
    ghost faults: { Self → ℕ };

    /// Takes a first part of the bytes.
    fn write(&mut self, bytes: &[u8]) -> Result<usize, Failed>
        ensures bound { WritesAtMost result bytes.now }
        ensures some { IfOk result (λ n. 0 < length bytes.now → 0 < n) }
        ensures bytes { MatchResult result
            (λ n. Gives (got self.old) (got self.new) (take n bytes.now))
            (λ _. got self.new ≡ got self.old) }
        ensures count { CountsFaults (faults self.old) (faults self.new) result }
        ensures range { OnErr result (faults self.new < 2 ^ 64) };
}

/// Files by their names, whose contents never change.
pub trait Shelf {
    /// Whether a name may be asked for.
    ghost serves: { Self → List ℕ → Bool };

    /// The bytes kept under a name, where told.
    ghost holds: { Self → List ℕ → Option (List ℕ) };

    /// How often a call has failed.
    ghost faults: { Self → ℕ };

    /// Reads the bytes of a name from a place on into the front of the buffer.
    fn read_at(&mut self, name: &str, at: u64, buf: &mut [u8]) -> Result<usize, Failed>
        requires { IsTrue (serves self.old name.now) }
        ensures bound { ReadsAtMost result buf.new }
        ensures bytes { IfOk result (λ n.
            IfSome (holds self.old name.now) (λ bytes. take n buf.new ≡ take n (drop at bytes))) }
        ensures end { IfOk result (λ n.
            IfSome (holds self.old name.now) (λ bytes.
            0 < length buf.new → ((n ≡ 0) ↔ (length bytes ≤ at)))) }
        ensures serves { serves self.new ≡ serves self.old }
        ensures holds { holds self.new ≡ holds self.old }
        ensures count { CountsFaults (faults self.old) (faults self.new) result }
        ensures range { OnErr result (faults self.new < 2 ^ 64) };
}
