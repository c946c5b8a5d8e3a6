// The difference of two sets of rows.
ghost use Rattle.std.specs.Prelude.{◌≡◌, OnOk, OnErr, IfOk, false, if◌then◌else◌};
ghost use Rattle.std.specs.Ordering.{is_eq};
ghost use Rattle.ordered_lists.specs.Canon.{has};
ghost use Rattle.ev_bind.specs.Rows.{row_cmp};
ghost use Rattle.ev_bind.specs.declared.rows.Row.{Row};
ghost use Rattle.negation_witness.specs.Sets.{becomes, change_between, MayBecome};

use ev_bind::Row;
use std::alloc::{AllocError, Global};
use std::collections::BTreeSet;
use support_table::Change;

/// The rows of a first set and of a second one, whose difference is the rows that are in the first alone.
#[derive(Drop)]
pub struct Witnesses {
    positives: BTreeSet<Row>,
    negatives: BTreeSet<Row>,
}

// What becomes of a row that was there or not, and is now or not.
fn change_between(before: bool, after: bool) -> Change
    ensures { result ≡ change_between before after }
{
    match (before, after) {
        (false, true) => Change::Appeared,
        (true, false) => Change::Vanished,
        _ => Change::Same,
    }
}

// A row appears in a set or vanishes from it.
fn set_row(rows: &mut BTreeSet<Row>, row: &Row, change: Change) -> Result<(), AllocError>
    ensures ok { (r : Row) → OnOk result (has row_cmp r rows.new.keys
        ≡ (if is_eq (row_cmp row.now r) then becomes change (has row_cmp r rows.old.keys) else has row_cmp r rows.old.keys)) }
    ensures err { OnErr result (rows.new.keys ≡ rows.old.keys) }
{
    match change {
        Change::Appeared => {
            rows.insert(row.share()?)?;
        }
        Change::Vanished => {
            rows.remove(row);
        }
        Change::Same => {}
    }
    Ok(())
}

impl Witnesses {
    ghost use Rattle.negation_witness.specs.Sets.{has_positive, has_negative, has_difference, Becomes};

    /// No rows.
    #[tactic(auto, unfolding(crate::specs::Sets::has_positive, crate::specs::Sets::has_negative))]
    pub fn new(alloc: Global) -> Witnesses
        ensures positive { (r : Row) → has_positive result r ≡ false }
        ensures negative { (r : Row) → has_negative result r ≡ false }
    {
        Witnesses {
            positives: BTreeSet::new(alloc),
            negatives: BTreeSet::new(alloc),
        }
    }

    // Whether a row is in the first set alone.
    #[tactic(auto, unfolding(crate::specs::Sets::has_positive, crate::specs::Sets::has_negative))]
    fn has(&self, row: &Row) -> bool
        ensures { result ≡ has_difference self.now row.now }
    {
        self.positives.contains(row) && !self.negatives.contains(row)
    }

    /// A row appears in the first set or vanishes from it. Answers what becomes of it in the difference.
    #[tactic(auto, unfolding(crate::specs::Sets::has_positive, crate::specs::Sets::has_negative))]
    pub fn positive(&mut self, row: &Row, change: Change) -> Result<Change, AllocError>
        requires { MayBecome change (has_positive self.old row.now) }
        ensures positive { OnOk result (Becomes change row.now (has_positive self.old) (has_positive self.new)) }
        ensures negative { (r : Row) → has_negative self.new r ≡ has_negative self.old r }
        ensures change { IfOk result (λ c. c ≡ change_between (has_difference self.old row.now) (has_difference self.new row.now)) }
        ensures err { (r : Row) → OnErr result (has_positive self.new r ≡ has_positive self.old r) }
    {
        let before = self.has(row);
        set_row(&mut self.positives, row, change)?;
        Ok(change_between(before, self.has(row)))
    }

    /// A row appears in the second set or vanishes from it. Answers what becomes of it in the difference.
    #[tactic(auto, unfolding(crate::specs::Sets::has_positive, crate::specs::Sets::has_negative))]
    pub fn negative(&mut self, row: &Row, change: Change) -> Result<Change, AllocError>
        requires { MayBecome change (has_negative self.old row.now) }
        ensures negative { OnOk result (Becomes change row.now (has_negative self.old) (has_negative self.new)) }
        ensures positive { (r : Row) → has_positive self.new r ≡ has_positive self.old r }
        ensures change { IfOk result (λ c. c ≡ change_between (has_difference self.old row.now) (has_difference self.new row.now)) }
        ensures err { (r : Row) → OnErr result (has_negative self.new r ≡ has_negative self.old r) }
    {
        let before = self.has(row);
        set_row(&mut self.negatives, row, change)?;
        Ok(change_between(before, self.has(row)))
    }
}
