// What the step under way adds and takes away, once for each row.
ghost use Rattle.std.specs.Prelude.{◌≡◌, ◌+◌, ◌<◌, ◌∷◌, [], OnOk, OnErr, IfSome, IfNone, Some, true, false, if◌then◌else◌};
ghost use Rattle.std.specs.Ordering.{is_eq};
ghost use Rattle.std.specs.declared.cmp.Ordering.TheVariants.{Less};
ghost use Rattle.event_changes.specs.declared.changes.Sign.{Sign};
ghost use Rattle.ev_bind.specs.Rows.{row_cmp};
ghost use Rattle.ev_bind.specs.declared.rows.Row.{Row};
ghost use Rattle.row_changes.specs.Visits.{tally, same_sign};
ghost use Rattle.step_changes.specs.Notes.{noted, has_note, notes, part};

use crate::deltas::Hint;
use ev_bind::Row;
use event_changes::Sign;
use std::alloc::{AllocError, Global};
use std::collections::BTreeMap;

/// How often a row comes and how often it goes.
#[derive(Clone, Copy, Drop)]
pub struct Tally {
    pub added: u128,
    pub taken: u128,
    /// Where stores may have the row.
    pub hint: Hint,
}

/// How often each row comes and goes, for the rows of one step.
#[derive(Drop)]
pub struct Pending {
    map: BTreeMap<Row, Tally>,
}

impl Tally {
    // Neither comes nor goes.
    fn none(hint: Hint) -> Tally
        ensures { (s : Sign) → part s (Some result) ≡ 0 }
    {
        Tally {
            added: 0,
            taken: 0,
            hint,
        }
    }

    // One more of a sign, or `None` where the number is too large.
    fn raised(self, sign: Sign) -> Option<Tally>
        ensures { (s : Sign) → IfSome result (λ t. part s (Some t) ≡ part s (Some self) + (if same_sign s sign then 1 else 0)) }
    {
        match sign {
            Sign::Plus => Some(Tally {
                added: self.added.checked_add(1)?,
                taken: self.taken,
                hint: self.hint,
            }),
            Sign::Minus => Some(Tally {
                added: self.added,
                taken: self.taken.checked_add(1)?,
                hint: self.hint,
            }),
        }
    }
}

impl Pending {
    /// No row comes or goes.
    #[tactic(auto, unfolding(crate::specs::Notes::noted))]
    pub fn new(alloc: Global) -> Pending
        ensures { (s : Sign) (r : Row) → noted result s r ≡ 0 }
    {
        Pending {
            map: BTreeMap::new(alloc),
        }
    }

    /// No row comes or goes from now on. Where none does, the memory is kept for the next ones.
    #[tactic(auto, unfolding(crate::specs::Notes::noted))]
    pub fn clear(&mut self)
        ensures { (s : Sign) (r : Row) → noted self.new s r ≡ 0 }
    {
        if !self.map.is_empty() {
            self.map.clear();
        }
    }

    // What is noted of a row; the hint where nothing is.
    #[tactic(auto, unfolding(crate::specs::Notes::noted))]
    fn at(&self, row: &Row, hint: Hint) -> Tally
        ensures { (s : Sign) → part s (Some result) ≡ noted self.now s row.now }
    {
        match self.map.get(row) {
            Some(tally) => *tally,
            None => Tally::none(hint),
        }
    }

    // Writes over what is noted of a row.
    #[tactic(auto, unfolding(crate::specs::Notes::noted))]
    fn put(&mut self, row: Row, tally: Tally) -> Result<(), AllocError>
        ensures ok { (s : Sign) (r : Row)
            → OnOk result (noted self.new s r ≡ (if is_eq (row_cmp r row) then part s (Some tally) else noted self.old s r)) }
        ensures err { (s : Sign) (r : Row) → OnErr result (noted self.new s r ≡ noted self.old s r) }
    {
        self.map.insert(row, tally)?;
        Ok(())
    }

    /// A row comes or goes once more. A number past u128 is refused as memory is.
    pub fn note(&mut self, sign: Sign, row: Row, hint: Hint) -> Result<(), AllocError>
        ensures ok { (s : Sign) (r : Row) → OnOk result (noted self.new s r ≡ noted self.old s r + tally s r (Some (sign, row) ∷ [])) }
        ensures err { (s : Sign) (r : Row) → OnErr result (noted self.new s r ≡ noted self.old s r) }
    {
        let Some(tally) = self.at(&row, hint).raised(sign) else {
            return Err(AllocError);
        };
        self.put(row, tally)
    }

    /// Takes out the least row that is noted.
    #[tactic(auto, unfolding(crate::specs::Notes::noted, crate::specs::Notes::has_note, crate::specs::Notes::notes))]
    pub fn pop(&mut self) -> Option<(Row, Tally)>
        ensures fewer { IfSome result (λ p. notes self.new < notes self.old) }
        ensures here { IfSome result (λ p. (s : Sign) → noted self.old s p.0 ≡ part s (Some p.1)) }
        ensures none { IfSome result (λ p. (s : Sign) → noted self.new s p.0 ≡ 0) }
        ensures own { IfSome result (λ p. has_note self.old p.0 ≡ true) }
        ensures gone { IfSome result (λ p. has_note self.new p.0 ≡ false) }
        ensures others { IfSome result (λ p. (r : Row) → (r ≡ p.0 → ⊥) → has_note self.new r ≡ has_note self.old r) }
        ensures first { IfSome result (λ p. (r : Row) → row_cmp r p.0 ≡ Less → has_note self.old r ≡ false) }
        ensures apart { IfSome result (λ p. (s : Sign) (r : Row) → (r ≡ p.0 → ⊥) → noted self.new s r ≡ noted self.old s r) }
        ensures over { IfNone result ((s : Sign) (r : Row) → noted self.old s r ≡ 0) }
        ensures empty { IfNone result ((s : Sign) (r : Row) → noted self.new s r ≡ 0) }
    {
        self.map.pop_first()
    }
}
