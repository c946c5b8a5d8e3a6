// Numbers.
ghost use Rattle.std.specs.Prelude.{◌≡◌, ◌≤◌, ◌<◌, true, length, drop};
ghost use Rattle.term_reader.specs.Grammar.{fits, signed};
ghost use Rattle.term_reader.specs.Readings.{DigitsAt, most_of};

use crate::faults::TermFault;
use crate::peeking::sign_at;
use crate::signs::Sign;

/// The size of the least number, 2^63; each number that isn't negative is below it.
pub const NUMBER_LIMIT: u64 = 1 << 63;

// The greatest size of a number.
fn most_of(negative: bool) -> u64
    ensures { result ≡ most_of negative }
{
    if negative {
        NUMBER_LIMIT
    } else {
        NUMBER_LIMIT - 1
    }
}

/// The rest of a number, whose digits so far have this size.
pub(crate) fn digits_at(
    bytes: &[u8],
    at: usize,
    negative: bool,
    so_far: u64,
) -> Result<(u64, usize), TermFault>
    requires inside { at ≤ length bytes.now }
    requires fits { fits negative so_far ≡ true }
    ensures { DigitsAt bytes.now negative so_far at result }
{
    let most = most_of(negative);
    let mut size = so_far;
    let mut end = at;
    while let Some(Sign::Digit(digit)) = sign_at(bytes, end) {
        if size > (most - u64::from(digit)) / 10 {
            return Err(TermFault::NumberRange(end));
        }
        size = size * 10 + u64::from(digit);
        end += 1;
    }
    Ok((size, end))
}

/// The number of a sign and a size.
pub(crate) fn signed(negative: bool, size: u64) -> i64
    requires { fits negative size ≡ true }
    ensures { result ≡ signed negative size }
{
    if !negative {
        return size as i64;
    }
    if size == NUMBER_LIMIT {
        return i64::MIN;
    }
    -(size as i64)
}
