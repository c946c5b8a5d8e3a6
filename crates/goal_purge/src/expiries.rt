// The bounds at which rows go.
ghost use Rattle.std.specs.Prelude.{◌≡◌, ◌≤◌, ◌<◌, ◌&&◌, ◌||◌, ◌==◌, ℕ, true, false, not, OnOk, OnErr, IfSome, IfNone};
ghost use Rattle.std.specs.Ordering.{is_eq};
ghost use Rattle.ev_bind.specs.Rows.{row_cmp};
ghost use Rattle.ev_bind.specs.declared.rows.Row.{Row};
ghost use Rattle.row_changes.specs.Kept.{under};
ghost use Rattle.goal_purge.specs.Expiring.{after, due, entry_count, expires_at, expiry};

use ev_bind::Row;
use event_model::Span;
use row_changes::Reach;
use rule_ast::StepId;
use std::alloc::{AllocError, Global};
use std::collections::BTreeSet;

/// A row of a step, under the first bound at which it isn't kept. Those of one row and bound stand one after the other.
#[derive(Drop, PartialEq, Eq, PartialOrd, Ord)]
pub(crate) struct Expiry {
    pub(crate) bound: u64,
    pub(crate) row: Row,
    pub(crate) step: StepId,
}

/// The rows of the steps in the order in which they go. A row that no bound of 64 bits drops isn't among them.
#[derive(Drop)]
pub struct Expiries {
    entries: BTreeSet<Expiry>,
}

// Whether a row of this length is no longer than the cap.
fn fits(cap: Option<u64>, length: u64) -> bool
    ensures { result ≡ under cap length }
{
    match cap {
        None => true,
        Some(most) => length <= most,
    }
}

// The bound after the last at which a row on this span is kept that is no longer than the cap.
fn bound_after(reach: Reach, span: Span) -> Option<u64>
    ensures { result ≡ after reach span }
{
    match reach {
        Reach::NoUser => span.end().checked_add(1),
        Reach::Limit(most) => {
            let last = span.start().checked_add(most)?;
            last.max(span.end()).checked_add(1)
        }
        Reach::Free => None,
    }
}

// The first bound at which a row on this span isn't kept.
fn expiry_of(cap: Option<u64>, reach: Reach, span: Span) -> Option<u64>
    ensures { result ≡ expiry cap reach span }
{
    if !fits(cap, span.end() - span.start()) {
        return Some(0);
    }
    bound_after(reach, span)
}

impl Expiries {
    /// No row.
    pub fn new(alloc: Global) -> Expiries
        ensures { (d s : ℕ) (r : Row) → due result d s r ≡ false }
    {
        Expiries {
            entries: BTreeSet::new(alloc),
        }
    }

    /// A row of a step with this cap and reach comes.
    pub fn insert(
        &mut self,
        step: StepId,
        row: &Row,
        cap: Option<u64>,
        reach: Reach,
    ) -> Result<(), AllocError>
        ensures ok { (d s : ℕ) (r : Row) → OnOk result (due self.new d s r
            ≡ ((s == step && (is_eq (row_cmp r row.now) && expires_at cap reach row.now.span d)) || due self.old d s r)) }
        ensures err { (d s : ℕ) (r : Row) → OnErr result (due self.new d s r ≡ due self.old d s r) }
    {
        let Some(bound) = expiry_of(cap, reach, row.span) else {
            return Ok(());
        };
        let row = row.share()?;
        self.entries.insert(Expiry { bound, row, step })?;
        Ok(())
    }

    /// A row of a step with this cap and reach goes. An `Err` says that the row couldn't be shared.
    pub fn remove(
        &mut self,
        step: StepId,
        row: &Row,
        cap: Option<u64>,
        reach: Reach,
    ) -> Result<(), AllocError>
        ensures ok { (d s : ℕ) (r : Row) → OnOk result (due self.new d s r
            ≡ (not (s == step && (is_eq (row_cmp r row.now) && expires_at cap reach row.now.span d)) && due self.old d s r)) }
        ensures err { (d s : ℕ) (r : Row) → OnErr result (due self.new d s r ≡ due self.old d s r) }
    {
        let Some(bound) = expiry_of(cap, reach, row.span) else {
            return Ok(());
        };
        let row = row.share()?;
        self.entries.remove(&Expiry { bound, row, step });
        Ok(())
    }

    /// Takes out the first row, where it isn't kept at the bound. It takes no memory.
    pub(crate) fn pop(&mut self, bound: u64) -> Option<Expiry>
        ensures none { IfNone result ((d s : ℕ) (r : Row) → d ≤ bound → due self.old d s r ≡ false) }
        ensures same { IfNone result ((d s : ℕ) (r : Row) → due self.new d s r ≡ due self.old d s r) }
        ensures within { IfSome result (λ x. x.bound ≤ bound) }
        ensures was { IfSome result (λ x. due self.old x.bound x.step x.row ≡ true) }
        ensures less { IfSome result (λ x. (d s : ℕ) (r : Row) → due self.new d s r
            ≡ (not (d == x.bound && (s == x.step && is_eq (row_cmp r x.row))) && due self.old d s r)) }
        ensures fewer { IfSome result (λ x. entry_count self.new < entry_count self.old) }
    {
        let first = self.entries.first()?;
        if first.bound > bound {
            return None;
        }
        self.entries.pop_first()
    }
}
