// The tests of a Minus, as what comes and goes.
ghost use Rattle.std.specs.Prelude.{◌≡◌, ◌+◌, OnOk};
ghost use Rattle.event_changes.specs.declared.changes.Sign.{Sign};
ghost use Rattle.event_changes.specs.declared.changes.Sign.TheVariants.{Plus, Minus};
ghost use Rattle.ev_bind.specs.declared.rows.Row.{Row};
ghost use Rattle.change_meaning.specs.MinusVisits.{turned};
ghost use Rattle.step_changes.specs.Notes.{noted};
ghost use Rattle.support_table.specs.Supports.{count_of};
ghost use Rattle.negation_witness.specs.Working.{times_of};

use ev_bind::Row;
use event_changes::Sign;
use rule_ast::StepId;
use std::alloc::AllocError;
use step_changes::{Hint, Pending, Tally};
use support_table::Supports;

// How often a step has a row, the hint tried first.
#[tactic(auto, using(support_table::specs::Supports::count_nowhere))]
fn count_near(supports: &Supports, step: StepId, row: &Row, hint: usize) -> u128
    ensures { result ≡ count_of supports.now step row.now }
{
    match supports.near(hint, row) {
        Some(number) => supports.count_at(number, step),
        None => 0,
    }
}

// What becomes of a tested row with this count.
fn sign_of(tally: Tally, count: u128) -> Option<Sign>
    ensures { (s : Sign) → times_of s result ≡ turned s tally.added tally.taken count }
{
    if tally.added > 0 && count == 0 {
        return Some(Sign::Plus);
    }
    if tally.taken > 0 && count > 0 {
        return Some(Sign::Minus);
    }
    None
}

// Notes of a row that it comes or goes, or nothing.
fn note_sign(
    settled: &mut Pending,
    row: Row,
    sign: Option<Sign>,
    hint: Hint,
) -> Result<(), AllocError>
    ensures here { (s : Sign) → OnOk result (noted settled.new s row ≡ noted settled.old s row + times_of s sign) }
    ensures apart { (s : Sign) (r : Row) → (r ≡ row → ⊥) → OnOk result (noted settled.new s r ≡ noted settled.old s r) }
{
    match sign {
        Some(sign) => settled.note(sign, row, hint),
        None => Ok(()),
    }
}

/// What tests told of joined rows becomes what comes and goes: a row that the Minus has comes where it had no count, and one that
/// it hasn't goes where it had one. No test is noted any more after that.
pub fn settle_tests(
    tests: &mut Pending,
    settled: &mut Pending,
    supports: &Supports,
    step: StepId,
) -> Result<(), AllocError>
    requires none { (s : Sign) (r : Row) → noted settled.old s r ≡ 0 }
    ensures settled { (s : Sign) (r : Row) → OnOk result (noted settled.new s r
        ≡ turned s (noted tests.old Plus r) (noted tests.old Minus r) (count_of supports.now step r)) }
    ensures empty { (s : Sign) (r : Row) → OnOk result (noted tests.new s r ≡ 0) }
{
    while let Some((row, tally)) = tests.pop() {
        let count = count_near(supports, step, &row, tally.hint.support);
        note_sign(settled, row, sign_of(tally, count), tally.hint)?;
    }
    Ok(())
}
