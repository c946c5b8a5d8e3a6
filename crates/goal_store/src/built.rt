// The parts of a store without goals.
ghost use Rattle.std.specs.Prelude.{◌≡◌, ◌++◌, ◌∷◌, ℕ, [], None, length, map, IfOk, OnOk, slice_get, nat_lt};
ghost use Rattle.event_model.specs.SlotSets.{slot_in};
ghost use Rattle.event_model.specs.declared.terms.TheConstants.{MOST_SLOTS};
ghost use Rattle.rule_ast.specs.PlainPlans.{plain_index};
ghost use Rattle.row_table.specs.Steps.{row_under};
ghost use Rattle.goal_store.specs.Built.{IsOwn, IsBare, IsAdded};
ghost use Rattle.goal_store.specs.Fits.{AllFit, IsPlaced};
ghost use Rattle.goal_store.specs.Good.{IsGood};
ghost use Rattle.goal_store.specs.Steps.{SameSteps, index_in};

use crate::goals::Goals;
use crate::held::Held;
use crate::indexes::RowIndex;
use crate::steps::StepPlaces;
use event_model::{MOST_SLOTS, Slot, Slots};
use row_table::RowTable;
use rule_ast::Index;
use std::alloc::{AllocError, Global};

// All slots that there are.
fn all_slots() -> Slots
    ensures { (t : ℕ) → slot_in result t ≡ nat_lt t MOST_SLOTS }
{
    let mut all = Slots::empty();
    for number in 0..MOST_SLOTS as u8 {
        all = all.add(Slot::new(number));
    }
    all
}

/// The indexes of a plan, whose keys have no slots but those that there are.
pub(crate) fn own_indexes(alloc: Global, indexes: &[Index]) -> Result<Vec<Index>, AllocError>
    ensures { IfOk result (λ v. IsOwn indexes.now v.items) }
{
    let all = all_slots();
    let mut own = Vec::with_capacity(alloc, indexes.len())?;
    for at in 0..indexes.len() {
        let index = indexes[at];
        own.push(Index {
            of: index.of,
            key: index.key.meet(&all),
            edge: index.edge,
        })?;
    }
    Ok(own)
}

/// So many steps without indexes.
pub(crate) fn bare_steps(alloc: Global, number: usize) -> Result<Vec<StepPlaces>, AllocError>
    ensures number { IfOk result (λ v. length v.items ≡ number) }
    ensures bare { IfOk result (λ v. IsBare v.items) }
{
    let mut steps = Vec::with_capacity(alloc, number)?;
    for _ in 0..number {
        steps.push(StepPlaces {
            indexes: Vec::new(alloc),
        })?;
    }
    Ok(steps)
}

// Gives an index its place among those of its step.
fn place_index(
    alloc: Global,
    index: Index,
    steps: &mut Vec<StepPlaces>,
) -> Result<usize, AllocError>
    ensures { IfOk result (λ k. IsAdded steps.old.items steps.new.items index k) }
{
    let step = index.of as usize;
    if step < steps.len() {
        steps[step].add(RowIndex::new(alloc, index.key, index.edge))
    } else {
        Ok(0)
    }
}

/// Gives each index its place among those of its step.
pub(crate) fn place_indexes(
    alloc: Global,
    indexes: &[Index],
    steps: &mut Vec<StepPlaces>,
) -> Result<Vec<usize>, AllocError>
    requires bare { IsBare steps.old.items }
    requires fits { AllFit indexes.now }
    ensures placed { IfOk result (λ v. IsPlaced indexes.now v.items steps.new.items) }
    ensures bare { OnOk result (IsBare steps.new.items) }
    ensures number { OnOk result (length steps.new.items ≡ length steps.old.items) }
{
    let mut spots = Vec::with_capacity(alloc, indexes.len())?;
    for at in 0..indexes.len() {
        spots.push(place_index(alloc, indexes[at], steps)?)?;
    }
    Ok(spots)
}

/// No goals, over steps whose indexes list nothing.
pub(crate) fn no_goals(alloc: Global, steps: Vec<StepPlaces>) -> Goals
    requires bare { IsBare steps.items }
    ensures good { IsGood result }
    ensures rows { (n : ℕ) → row_under result.held.rows n ≡ None }
    ensures steps { result.held.steps ≡ steps }
{
    Goals {
        held: Held {
            rows: RowTable::new(alloc),
            steps,
            number: 0,
        },
        changed: Vec::new(alloc),
    }
}
