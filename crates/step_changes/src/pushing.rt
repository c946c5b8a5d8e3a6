// The changed rows of a step, one after the other.
ghost use Rattle.std.specs.Prelude.{◌≡◌, OnOk, OnErr};
ghost use Rattle.std.specs.declared.cmp.Ordering.TheVariants.{Less};
ghost use Rattle.ordered_lists.specs.Canon.{Rising};
ghost use Rattle.ev_bind.specs.Rows.{row_cmp};
ghost use Rattle.ev_bind.specs.declared.rows.Row.{Row};
ghost use Rattle.row_changes.specs.Changes.{change, sign_in, delta_rows};
ghost use Rattle.step_changes.specs.Deltas.{plain_deltas};
ghost use Rattle.step_changes.specs.Pushes.{or_sign, AllUnder};

use crate::deltas::{Delta, Hint};
use ev_bind::Row;
use event_changes::Sign;
use std::alloc::AllocError;

// What happens to a row whose count goes from one number to another.
pub(crate) fn change_of(before: u128, after: u128) -> Option<Sign>
    ensures { result ≡ change before after }
{
    if before == 0 {
        if after == 0 { None } else { Some(Sign::Plus) }
    } else {
        if after == 0 { Some(Sign::Minus) } else { None }
    }
}

// Puts a row behind the others where something happens to it.
pub(crate) fn push_change(
    rows: &mut Vec<Delta>,
    row: Row,
    hint: Hint,
    change: Option<Sign>,
) -> Result<(), AllocError>
    ensures here { OnOk result (sign_in row (plain_deltas rows.new.items) ≡ or_sign (sign_in row (plain_deltas rows.old.items)) change) }
    ensures apart { (r : Row) → (r ≡ row → ⊥)
        → OnOk result (sign_in r (plain_deltas rows.new.items) ≡ sign_in r (plain_deltas rows.old.items)) }
    ensures rise { Rising row_cmp (delta_rows (plain_deltas rows.old.items)) → AllUnder row (plain_deltas rows.old.items)
        → OnOk result (Rising row_cmp (delta_rows (plain_deltas rows.new.items))) }
    ensures under { (r : Row) → row_cmp row r ≡ Less → AllUnder r (plain_deltas rows.old.items)
        → OnOk result (AllUnder r (plain_deltas rows.new.items)) }
    ensures err { OnErr result (rows.new.items ≡ rows.old.items) }
{
    if let Some(sign) = change {
        rows.push(Delta { sign, row, hint })?;
    }
    Ok(())
}
