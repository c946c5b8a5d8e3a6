// Which rows of a step may still count at a bound.
ghost use Rattle.std.specs.Prelude.{◌≡◌};
ghost use Rattle.row_changes.specs.Kept.{under, within, kept};

use event_model::Span;

/// Up to which length in ticks the rows of a step are needed by the steps that look for partners in it.
#[derive(Clone, Copy, Debug, Drop, PartialEq, Eq)]
pub enum Reach {
    /// No step looks for partners in it.
    NoUser,
    Limit(u64),
    /// There is no limit.
    Free,
}

/// For each step of a plan the greatest length in ticks of a row that counts, none where there is no limit, and its reach.
#[derive(Drop)]
pub struct CapList {
    pub cap: Vec<Option<u64>>,
    pub reach: Vec<Reach>,
}

fn is_under(cap: Option<u64>, length: u64) -> bool
    ensures { result ≡ under cap length }
{
    match cap {
        None => true,
        Some(most) => length <= most,
    }
}

fn is_within(reach: Reach, length: u64) -> bool
    ensures { result ≡ within reach length }
{
    match reach {
        Reach::NoUser => false,
        Reach::Limit(most) => length <= most,
        Reach::Free => true,
    }
}

/// Whether a row on this span is kept at a bound, at a step with this cap and reach.
pub fn is_kept(cap: Option<u64>, reach: Reach, bound: u64, span: Span) -> bool
    ensures { result ≡ kept cap reach bound span }
{
    is_under(cap, span.end() - span.start())
        && (bound <= span.end() || is_within(reach, bound.saturating_sub(span.start())))
}
