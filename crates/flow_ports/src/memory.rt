// Streams and files in memory, which tell their bytes and fail when they are told to.
ghost use Rattle.std.specs.Prelude.{◌≡◌, ◌<◌, ◌≤◌, ◌↔◌, ◌+◌, ◌-◌, ◌^◌, ◌⊎◌, ℕ, List, Bool, true, Option, Some, None, [], length, take, drop, min, IsTrue, IsErr, IfOk, IfSome, OnErr, MatchOption, MatchResult, Contains, slice_get, string_bytes, vec_len, vec_capacity};
ghost use Rattle.flow_ports.specs.Held.{held_at, names_differ};

use crate::ports::{Failed, Shelf, Sink, Source};
use crate::whole::copy_front;
use std::alloc::{AllocError, Global};

/// A source of known bytes. Its k-th call gives at most the k-th of its pieces, but at least one
/// byte where one is left and the buffer has room; after the last piece it gives as many bytes as
/// fit. The calls named by their numbers fail.
#[derive(Drop)]
pub struct MemSource {
    bytes: Vec<u8>,
    at: usize,
    pieces: Vec<usize>,
    fails: Vec<u64>,
    calls: u64,
    faults: u64,
    ghost within: { at ≤ vec_len bytes },
}

impl MemSource {
    ghost use Rattle.flow_ports.specs.MemSource.{pieces_of, fails_of, calls_of};

    /// A source that has given nothing yet. Calls are counted from 1.
    pub fn new(bytes: Vec<u8>, pieces: Vec<usize>, fails: Vec<u64>) -> MemSource
        ensures left { ⟦<MemSource as Source>⟧.left result ≡ Some bytes.items }
        ensures pieces { pieces_of result ≡ pieces.items }
        ensures fails { fails_of result ≡ fails.items }
        ensures calls { calls_of result ≡ 0 }
        ensures faults { ⟦<MemSource as Source>⟧.faults result ≡ 0 }
    {
        MemSource {
            bytes,
            at: 0,
            pieces,
            fails,
            calls: 0,
            faults: 0,
        }
    }
}

impl Source for MemSource {
    ghost use Rattle.std.specs.Io.{ReadsAtMost};
    ghost use Rattle.flow_ports.specs.Flow.{CountsFaults, Takes};
    ghost use Rattle.flow_ports.specs.Calls.{next_call, next_fault, piece_len};
    ghost use Rattle.flow_ports.specs.MemSource.{bytes_of, pieces_of, fails_of, calls_of, faults_of};

    ghost left = { λ s. Some (bytes_of s) };

    ghost faults = { λ s. faults_of s };

    fn read(&mut self, buf: &mut [u8]) -> Result<usize, Failed>
        ensures bound { ReadsAtMost result buf.new }
        ensures bytes { MatchResult result
            (λ n. Takes (Some (bytes_of self.old)) (Some (bytes_of self.new)) (take n buf.new))
            (λ _. Some (bytes_of self.new) ≡ Some (bytes_of self.old)) }
        ensures rest { IfOk result (λ n. drop n buf.new ≡ drop n buf.old) }
        ensures end { IfOk result (λ n. n ≡ 0 → 0 < length buf.new → bytes_of self.new ≡ []) }
        ensures none { IfOk result (λ n. 0 < length buf.new → ((n ≡ 0) ↔ (bytes_of self.old ≡ []))) }
        ensures count { CountsFaults (faults_of self.old) (faults_of self.new) result }
        ensures range { OnErr result (faults_of self.new < 2 ^ 64) }

        // How much the call gives, and whether it fails; a call that fails leaves the buffer.
        ensures amount { IfOk result (λ n.
            n ≡ piece_len (slice_get (pieces_of self.old) (calls_of self.old))
            (min (length (bytes_of self.old)) (length buf.new))) }
        ensures fails { IsErr result ↔ Contains (fails_of self.old) (next_call (calls_of self.old)) }
        ensures fault { OnErr result (faults_of self.new ≡ next_fault (faults_of self.old)) }
        ensures kept { OnErr result (buf.new ≡ buf.old) }
        ensures calls { calls_of self.new ≡ next_call (calls_of self.old) }
        ensures pieces_stay { pieces_of self.new ≡ pieces_of self.old }
        ensures fails_stay { fails_of self.new ≡ fails_of self.old }
    {
        let piece = self.pieces.get(self.calls as usize).copied();
        self.calls = self.calls.saturating_add(1);
        if self.fails.contains(&self.calls) {
            self.faults = self.faults.saturating_add(1);
            return Err(Failed);
        }
        let most = (self.bytes.len() - self.at).min(buf.len());
        let n = match piece {
            Some(piece) => most.min(piece.max(1)),
            None => most,
        };
        copy_front(buf, &self.bytes[self.at..self.at + n]);
        self.at += n;
        Ok(n)
    }
}

/// A sink that keeps what it takes, in memory that it was given at its start. The calls named by
/// their numbers fail.
#[derive(Drop)]
pub struct MemSink {
    bytes: Vec<u8>,
    room: usize,
    fails: Vec<u64>,
    calls: u64,
    faults: u64,
    ghost roomy: { vec_len bytes + room ≤ vec_capacity bytes },
}

impl MemSink {
    ghost use Rattle.flow_ports.specs.MemSink.{room_of, fails_of, calls_of};

    /// A sink that has room for so many bytes. The calls with these numbers, counted from 1, fail.
    pub fn new(alloc: Global, room: usize, fails: Vec<u64>) -> Result<MemSink, AllocError>
        ensures got { IfOk result (λ sink. ⟦<MemSink as Sink>⟧.got sink ≡ Some []) }
        ensures room { IfOk result (λ sink. room_of sink ≡ room) }
        ensures fails { IfOk result (λ sink. fails_of sink ≡ fails.items) }
        ensures calls { IfOk result (λ sink. calls_of sink ≡ 0) }
        ensures faults { IfOk result (λ sink. ⟦<MemSink as Sink>⟧.faults sink ≡ 0) }
    {
        Ok(MemSink {
            bytes: Vec::with_capacity(alloc, room)?,
            room,
            fails,
            calls: 0,
            faults: 0,
        })
    }

    /// What it has got.
    pub fn bytes(&self) -> &[u8]
        ensures { ⟦<MemSink as Sink>⟧.got self.now ≡ Some result.now }
    {
        &self.bytes
    }
}

impl Sink for MemSink {
    ghost use Rattle.std.specs.Io.{WritesAtMost};
    ghost use Rattle.flow_ports.specs.Flow.{CountsFaults, Gives};
    ghost use Rattle.flow_ports.specs.Calls.{next_call, next_fault};
    ghost use Rattle.flow_ports.specs.MemSink.{bytes_of, room_of, fails_of, calls_of, faults_of};

    ghost got = { λ s. Some (bytes_of s) };

    ghost faults = { λ s. faults_of s };

    fn write(&mut self, bytes: &[u8]) -> Result<usize, Failed>
        ensures bound { WritesAtMost result bytes.now }
        ensures some { IfOk result (λ n. 0 < length bytes.now → 0 < n) }
        ensures bytes { MatchResult result
            (λ n. Gives (Some (bytes_of self.old)) (Some (bytes_of self.new)) (take n bytes.now))
            (λ _. Some (bytes_of self.new) ≡ Some (bytes_of self.old)) }
        ensures count { CountsFaults (faults_of self.old) (faults_of self.new) result }
        ensures range { OnErr result (faults_of self.new < 2 ^ 64) }

        // How much the call takes, and whether it fails.
        ensures amount { IfOk result (λ n. n ≡ min (length bytes.now) (room_of self.old)) }
        ensures room { MatchResult result
            (λ n. room_of self.new + n ≡ room_of self.old)
            (λ _. room_of self.new ≡ room_of self.old) }
        ensures fails { IsErr result
            ↔ (Contains (fails_of self.old) (next_call (calls_of self.old))
            ⊎ ((room_of self.old ≡ 0) × (0 < length bytes.now))) }
        ensures fault { OnErr result (faults_of self.new ≡ next_fault (faults_of self.old)) }
        ensures calls { calls_of self.new ≡ next_call (calls_of self.old) }
        ensures fails_stay { fails_of self.new ≡ fails_of self.old }
    {
        self.calls = self.calls.saturating_add(1);
        let n = bytes.len().min(self.room);
        if n == 0 && !bytes.is_empty() {
            self.faults = self.faults.saturating_add(1);
            return Err(Failed);
        }
        if self.fails.contains(&self.calls) {
            self.faults = self.faults.saturating_add(1);
            return Err(Failed);
        }
        match self.bytes.extend_from_slice(&bytes[..n]) {
            Ok(()) => {}
            Err(_) => unreachable!(),
        }
        self.room -= n;
        Ok(n)
    }
}

/// Files in memory. The calls named by their numbers fail, and so do those for a name that it
/// doesn't hold.
#[derive(Drop)]
pub struct MemShelf {
    files: Vec<(String, Vec<u8>)>,
    fails: Vec<u64>,
    calls: u64,
    faults: u64,
}

impl MemShelf {
    ghost use Rattle.flow_ports.specs.MemShelf.{fails_of, calls_of};

    /// A shelf of files with their names. Calls are counted from 1.
    pub fn new(files: Vec<(String, Vec<u8>)>, fails: Vec<u64>) -> MemShelf
        requires { IsTrue (names_differ files.items) }
        ensures holds { (name : List ℕ) → ⟦<MemShelf as Shelf>⟧.holds result name ≡ held_at files.items name }
        // Each file is found by its own name.
        ensures each { (k : ℕ) → IfSome (slice_get files.items k) (λ file.
            ⟦<MemShelf as Shelf>⟧.holds result (string_bytes file.0) ≡ Some file.1.items) }
        ensures serves { (name : List ℕ) → IsTrue (⟦<MemShelf as Shelf>⟧.serves result name) }
        ensures fails { fails_of result ≡ fails.items }
        ensures calls { calls_of result ≡ 0 }
        ensures faults { ⟦<MemShelf as Shelf>⟧.faults result ≡ 0 }
    {
        MemShelf {
            files,
            fails,
            calls: 0,
            faults: 0,
        }
    }
}

// The bytes of the first file of that name.
fn file_at<'a>(files: &'a Vec<(String, Vec<u8>)>, name: &str) -> Option<&'a Vec<u8>>
    ensures { MatchOption result (held_at files.now.items name.now ≡ None) (λ bytes.
        held_at files.now.items name.now ≡ Some bytes.now.items) }
{
    for file in files.iter() {
        if file.0.as_str() == name {
            return Some(&file.1);
        }
    }
    None
}

impl Shelf for MemShelf {
    ghost use Rattle.std.specs.Io.{ReadsAtMost};
    ghost use Rattle.flow_ports.specs.Flow.{CountsFaults};
    ghost use Rattle.flow_ports.specs.Calls.{next_call, next_fault};
    ghost use Rattle.flow_ports.specs.MemShelf.{files_of, fails_of, calls_of, faults_of};

    ghost serves = { λ s name. true };

    ghost holds = { λ s name. held_at (files_of s) name };

    ghost faults = { λ s. faults_of s };

    fn read_at(&mut self, name: &str, at: u64, buf: &mut [u8]) -> Result<usize, Failed>
        ensures bound { ReadsAtMost result buf.new }
        ensures bytes { IfOk result (λ n.
            IfSome (held_at (files_of self.old) name.now) (λ bytes.
            take n buf.new ≡ take n (drop at bytes))) }
        ensures end { IfOk result (λ n.
            IfSome (held_at (files_of self.old) name.now) (λ bytes.
            0 < length buf.new → ((n ≡ 0) ↔ (length bytes ≤ at)))) }
        ensures files { files_of self.new ≡ files_of self.old }
        ensures count { CountsFaults (faults_of self.old) (faults_of self.new) result }
        ensures range { OnErr result (faults_of self.new < 2 ^ 64) }

        // How much the call gives, and whether it fails; what it doesn't give of the buffer is as before.
        ensures amount { IfOk result (λ n.
            IfSome (held_at (files_of self.old) name.now) (λ bytes.
            n ≡ min (length bytes - at) (length buf.new))) }
        ensures fails { IsErr result
            ↔ (Contains (fails_of self.old) (next_call (calls_of self.old))
            ⊎ (held_at (files_of self.old) name.now ≡ None)) }
        ensures fault { OnErr result (faults_of self.new ≡ next_fault (faults_of self.old)) }
        ensures rest { IfOk result (λ n. drop n buf.new ≡ drop n buf.old) }
        ensures kept { OnErr result (buf.new ≡ buf.old) }
        ensures calls { calls_of self.new ≡ next_call (calls_of self.old) }
        ensures fails_stay { fails_of self.new ≡ fails_of self.old }
    {
        self.calls = self.calls.saturating_add(1);
        if self.fails.contains(&self.calls) {
            self.faults = self.faults.saturating_add(1);
            return Err(Failed);
        }
        let bytes = match file_at(&self.files, name) {
            Some(bytes) => bytes,
            None => {
                self.faults = self.faults.saturating_add(1);
                return Err(Failed);
            }
        };
        let at = (at as usize).min(bytes.len());
        let n = (bytes.len() - at).min(buf.len());
        copy_front(buf, &bytes[at..at + n]);
        Ok(n)
    }
}
