// The rows that come, and the plan of the stores.
ghost use Rattle.std.specs.Prelude.{◌≡◌, ◌+◌, ◌<◌, ◌≤◌, ◌∷◌, [], length, IfOk};
ghost use Rattle.event_model.specs.Spans.{instant};
ghost use Rattle.event_model.specs.declared.terms.Term as term;

use ev_bind::{Row, number_values};
use event_model::{Edge, Name, NameArity, Slot, Slots, Span, TIME_LIMIT, Term};
use rule_ast::{Index, Plan, Step};
use std::alloc::{AllocError, Global};

/// The most rows that come.
pub(crate) const MOST_ROWS: u64 = 100_000_000;

/// The keys of the rows that come in order or late.
const KEYS: u64 = 1000;

/// How many rows come in a tick.
const PER_TICK: u64 = 20;

/// In which order rows come, and under which keys.
#[derive(Clone, Copy)]
pub(crate) enum Order {
    /// By time, twenty in a tick, each under the next of a thousand keys.
    InOrder,
    /// The same, but each seventh up to a hundred ticks late.
    Late,
    /// By time, one in a tick, all under one key.
    OneKey,
}

/// The key of a row.
fn key_of(order: Order, n: u64) -> i64 {
    match order {
        Order::InOrder | Order::Late => (n % KEYS) as i64,
        Order::OneKey => 0,
    }
}

/// The time of a row.
fn time_of(order: Order, n: u64) -> u64
    requires { n < MOST_ROWS }
    ensures { result < TIME_LIMIT }
{
    let time = 1000 + n / PER_TICK;
    match order {
        Order::InOrder => time,
        Order::Late if n % 7 == 0 => time - n * 7919 % 101,
        Order::Late => time,
        Order::OneKey => n,
    }
}

/// The row that comes as the n-th, from 0.
pub(crate) fn row_of(alloc: Global, order: Order, n: u64) -> Result<Row, AllocError>
    requires { n < MOST_ROWS }
{
    Ok(Row {
        binding: number_values(alloc, &[Term::Num(key_of(order, n))])?,
        span: Span::instant(time_of(order, n)),
    })
}

/// A plan of one step, with an index of its rows by the value of the first slot and by their ends.
pub(crate) fn plan(alloc: Global) -> Result<Plan, AllocError>
    ensures { IfOk result (λ p. length p.steps.items ≡ 1) }
{
    let name = NameArity {
        name: Name::new(alloc, "row")?,
        arity: 1,
    };
    let heads = Vec::new(alloc);
    let key = Slots::empty().add(Slot::new(0));
    Ok(Plan {
        steps: vec![in alloc; Step::Named { name, heads }]?,
        indexes: vec![in alloc;
            Index {
                of: 0,
                key,
                edge: Edge::End
            },
        ]?,
        shown: Vec::new(alloc),
    })
}
