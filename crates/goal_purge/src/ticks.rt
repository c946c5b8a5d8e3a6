// Lengths in ticks, where None is no limit, and reaches: how they combine.
ghost use Rattle.std.specs.Prelude.{◌≡◌};
ghost use Rattle.horizon_meaning.specs.Lengths.{least, greatest, sum_of, further, needed};

use row_changes::Reach;
use rule_ast::MOST_TICKS;

// The lesser of two lengths.
pub fn least(a: Option<u64>, b: Option<u64>) -> Option<u64>
    ensures { result ≡ least a b }
{
    match (a, b) {
        (None, _) => b,
        (Some(_), None) => a,
        (Some(x), Some(y)) => Some(x.min(y)),
    }
}

// The greater of two lengths.
pub fn greatest(a: Option<u64>, b: Option<u64>) -> Option<u64>
    ensures { result ≡ greatest a b }
{
    match (a, b) {
        (Some(x), Some(y)) => Some(x.max(y)),
        (_, _) => None,
    }
}

// The sum of two lengths. It is at most MOST_TICKS, which no row is longer than.
pub fn sum_of(a: Option<u64>, b: Option<u64>) -> Option<u64>
    ensures { result ≡ sum_of a b }
{
    match (a, b) {
        (Some(x), Some(y)) => Some(x.saturating_add(y).min(MOST_TICKS)),
        (_, _) => None,
    }
}

// The reach with one user more, which has this cap.
pub fn further(cap: Option<u64>, reach: Reach) -> Reach
    ensures { result ≡ further cap reach }
{
    match cap {
        None => Reach::Free,
        Some(c) => match reach {
            Reach::NoUser => Reach::Limit(c),
            Reach::Limit(d) => Reach::Limit(c.max(d)),
            Reach::Free => Reach::Free,
        },
    }
}

// How long a row is needed that the users of a step look for.
pub fn needed(reach: Reach) -> Option<u64>
    ensures { result ≡ needed reach }
{
    match reach {
        Reach::NoUser => Some(0),
        Reach::Limit(most) => Some(most),
        Reach::Free => None,
    }
}
