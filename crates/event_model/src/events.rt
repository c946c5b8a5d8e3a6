// Events, spans and detections.
ghost use Rattle.std.specs.Prelude.{◌≡◌, ◌<◌, ◌≤◌, ◌^◌, IfOk};
ghost use Rattle.event_model.specs.Spans.{PlainSpan, instant};

use crate::atoms::Atom;
use std::alloc::AllocError;
use std::marker::Model;

/// Times are below this many ticks, 2^62.
pub const TIME_LIMIT: u64 = 1 << 62;

/// A stretch of time from a start to an end, both of which belong to it, in ticks below 2^62.
#[derive(Clone, Copy)]
pub struct Span {
    start: u64,
    end: u64,
}

impl Model for Span {
    ghost use Rattle.std.specs.Prelude.{◌<◌, ◌≤◌};
    ghost use Rattle.event_model.specs.Spans.{PlainSpan};
    ghost use Rattle.event_model.specs.declared.events.TheConstants.{TIME_LIMIT};

    ghost Value = { PlainSpan };

    ghost view = { λ s. record { start = s.start; end = s.end } };

    ghost invariant = { λ s. (s.start ≤ s.end) × (s.end < TIME_LIMIT) };

    ghost inverse = { λ s. record { start = s.start; end = s.end } };
}

impl Span {
    pub fn new(start: u64, end: u64) -> Span
        requires order { start ≤ end }
        requires range { end < TIME_LIMIT }
        ensures start { result.start ≡ start }
        ensures end { result.end ≡ end }
    {
        Span { start, end }
    }

    /// From a time to the same time.
    pub fn instant(time: u64) -> Span
        requires { time < TIME_LIMIT }
        ensures { result ≡ instant time }
    {
        Span {
            start: time,
            end: time,
        }
    }

    pub fn start(self) -> u64
        ensures start { result ≡ self.start }
        ensures order { result ≤ self.end }
        ensures range { self.end < TIME_LIMIT }
    {
        self.start
    }

    pub fn end(self) -> u64
        ensures end { result ≡ self.end }
        ensures order { self.start ≤ result }
        ensures range { result < TIME_LIMIT }
    {
        self.end
    }
}

/// An atom that happened on a span: from its start to its end, or at one time. Its time, by which it is early or late, is the end.
#[derive(Drop)]
pub struct Event {
    pub span: Span,
    pub atom: Atom,
}

impl Event {
    ghost use Rattle.event_model.specs.Events.{time_of};

    /// The end of its span.
    pub fn time(&self) -> u64
        ensures time { result ≡ time_of self.now }
        ensures range { result < TIME_LIMIT }
    {
        self.span.end()
    }

    /// An equal event that shares its atom.
    pub fn share(&self) -> Result<Event, AllocError>
        ensures { IfOk result (λ e. e ≡ self.now) }
    {
        Ok(Event {
            span: self.span,
            atom: self.atom.share()?,
        })
    }
}

/// An atom that was found on a span.
#[derive(Drop)]
pub struct Detection {
    pub atom: Atom,
    pub span: Span,
}
