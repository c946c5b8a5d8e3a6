// The words of the command line.
ghost use Rattle.std.specs.Prelude.{◌≡◌, ◌<◌, ◌≤◌, IfSome};

use crate::made::{MOST_ROWS, Order};

/// What the words ask for.
#[derive(Clone, Copy)]
pub(crate) struct Job {
    pub(crate) rows: u64,
    // How many rows are held at most.
    pub(crate) held: usize,
    pub(crate) order: Order,
    ghost few: { rows ≤ 100000000 },
    ghost some: { 0 < held },
}

fn order_of(word: &str) -> Option<Order> {
    match word {
        "order" => Some(Order::InOrder),
        "late" => Some(Order::Late),
        "key" => Some(Order::OneKey),
        _ => None,
    }
}

// A number from 1 to the most.
fn number_of(word: &str) -> Option<u64>
    ensures { IfSome result (λ n. (0 < n) × (n ≤ MOST_ROWS)) }
{
    match word.parse::<u64>() {
        Ok(number) if number > 0 && number <= MOST_ROWS => Some(number),
        _ => None,
    }
}

/// The job that the words say, or none.
pub(crate) fn job_of(words: &[String]) -> Option<Job> {
    match words {
        [rows, held, order] => Some(Job {
            rows: number_of(rows.as_str())?,
            held: number_of(held.as_str())? as usize,
            order: order_of(order.as_str())?,
        }),
        _ => None,
    }
}
