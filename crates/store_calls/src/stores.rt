// Goals by step, and the partners of a row at a join.
ghost use Rattle.std.specs.Prelude.{◌≡◌, ◌<◌, ℕ, length, map, IfOk};
ghost use Rattle.rule_ast.specs.PlainPlans.{plain_index};
ghost use Rattle.goal_store.specs.Goals.{SamePlan, indexes_of, steps_of};
ghost use Rattle.goal_store.specs.declared.kept.GoalStore.{GoalStore};
ghost use Rattle.match_step.specs.Joining.{IsWay};

use crate::fixtures::{checked, row};
use binariser::binarise;
use ev_bind::Row;
use event_model::{Edge, Op};
use goal_purge::lengths;
use goal_store::{GoalStore, When};
use interval_ops::{Range, Side};
use match_step::{JoinWay, Matches};
use rule_ast::{Index, IndexId, Plan, StepId};
use std::alloc::Global;
use std::test::Fail;

// The step that an index of a plan is over.
fn step_of(plan: &Plan, index: usize) -> Result<StepId, Fail>
    ensures { IfOk result (λ s. s < length plan.now.steps.items) }
{
    match plan.indexes.get(index) {
        Some(found) if (found.of as usize) < plan.steps.len() => Ok(found.of),
        _ => Err(Fail::new("no index")),
    }
}

// How the join of a plan of two indexes finds partners, with no limit.
#[tactic(auto, using(crate::proofs::Partners::is_way))]
fn way_of(plan: &Plan) -> Result<JoinWay, Fail>
    ensures { (goals : GoalStore) → indexes_of goals ≡ map plain_index plan.now.indexes.items → IfOk result (λ w. IsWay goals w) }
{
    match plan.indexes.as_slice() {
        [
            Index {
                key: lefts,
                edge: Edge::End,
                ..
            },
            Index {
                key: rights,
                edge: Edge::Start,
                ..
            },
        ] if lefts == rights => Ok(JoinWay {
            op: Op::Seq,
            cap: None,
            lefts: 0,
            rights: 1,
        }),
        _ => Err(Fail::new("other indexes")),
    }
}

// A step gets a row that it doesn't have.
#[tactic(auto, using(crate::proofs::Partners::unseen))]
fn put(store: &mut GoalStore, step: StepId, row: Row) -> Result<(), Fail>
    requires { step < steps_of store.old }
    ensures { SamePlan store.old store.new }
{
    if store.has(step, &row, When::Before) || store.has(step, &row, When::After) {
        return Err(Fail::new("a row that is there"));
    }
    store.add(step, row)?;
    Ok(())
}

// The times of the rows that are found, which are instants and bind X to 7.
fn times(
    alloc: Global,
    store: &GoalStore,
    index: IndexId,
    range: Range,
    when: When,
) -> Result<Vec<u64>, Fail> {
    let mut times = Vec::new(alloc);
    let key = row(alloc, 0, 0)?;
    let mut cursor = store.find(index, &key.binding, range, when);
    for _ in 0..9 {
        let Some((found, behind)) = store.next(&cursor) else {
            return Ok(times);
        };
        let time = found.span.end();
        if *found != row(alloc, time, time)? {
            return Err(Fail::new("another row"));
        }
        times.push(time)?;
        cursor = behind;
    }
    Err(Fail::new("too many rows"))
}

// The second row goes and a fourth one comes. Before sees the one, and After the other.
#[test]
fn goals_are_found_from_before_and_after(rt: HostRuntime) -> Result<(), Fail> {
    let alloc = rt.alloc();
    let plan = binarise(alloc, &checked(alloc, "ab(X) <- a(X) SEQ b(X).")?)?;
    let mut store = GoalStore::new(alloc, &plan)?;
    let step = step_of(&plan, 0)?;
    put(&mut store, step, row(alloc, 1, 1)?)?;
    put(&mut store, step, row(alloc, 2, 2)?)?;
    put(&mut store, step, row(alloc, 3, 3)?)?;
    store.settle();
    let second = row(alloc, 2, 2)?;
    assert!(rt; store.drop_goal(step, &second));
    assert!(rt; !store.drop_goal(step, &second));
    put(&mut store, step, row(alloc, 4, 4)?)?;
    let range = Range {
        edge: Edge::End,
        low: 0,
        high: 4,
    };
    let before = times(alloc, &store, 0, range, When::Before)?;
    assert_eq!(rt; before.as_slice(), [1, 2, 3].as_slice());
    let after = times(alloc, &store, 0, range, When::After)?;
    assert_eq!(rt; after.as_slice(), [1, 3, 4].as_slice());
    assert!(rt; store.has(step, &second, When::Before) && !store.has(step, &second, When::After));
    assert_eq!(rt; store.held(), 4);
    store.settle();
    assert_eq!(rt; store.held(), 3);
    Ok(())
}

// A row counts up to the bound that lies as far behind its start as the window is long.
#[test]
fn a_sweep_leaves_the_rows_that_count(rt: HostRuntime) -> Result<(), Fail> {
    let alloc = rt.alloc();
    let rules = checked(alloc, "ab(X) <- (a(X) SEQ b(X)) WITHIN 4.")?;
    let plan = binarise(alloc, &rules)?;
    let caps = lengths(alloc, &rules, &plan)?;
    let mut store = GoalStore::new(alloc, &plan)?;
    let step = step_of(&plan, 0)?;
    put(&mut store, step, row(alloc, 6, 6)?)?;
    put(&mut store, step, row(alloc, 7, 7)?)?;
    store.settle();
    store.sweep(&caps, 10);
    assert_eq!(rt; store.held(), 2);
    store.sweep(&caps, 11);
    assert_eq!(rt; store.held(), 1);
    assert!(rt; store.has(step, &row(alloc, 7, 7)?, When::Before));
    Ok(())
}

#[test]
fn partners_come_one_by_one(rt: HostRuntime) -> Result<(), Fail> {
    let alloc = rt.alloc();
    let plan = binarise(alloc, &checked(alloc, "ab(X) <- a(X) SEQ b(X).")?)?;
    let mut store = GoalStore::new(alloc, &plan)?;
    put(&mut store, step_of(&plan, 1)?, row(alloc, 2, 2)?)?;
    let range = Range {
        edge: Edge::Start,
        low: 2,
        high: 9,
    };
    let found = times(alloc, &store, 1, range, When::After)?;
    assert_eq!(rt; found.as_slice(), [2].as_slice());
    let first = row(alloc, 1, 1)?;
    let started = Matches::start(alloc, &store, way_of(&plan)?, Side::Left, &first)?;
    let mut matches = Matches::resume(alloc, &store, started.pause());
    let joined = matches.next().ok_or("a partner")??.ok_or("a joined row")?;
    assert!(rt; joined == row(alloc, 1, 2)?);
    let mut behind = Matches::resume(alloc, &store, matches.pause());
    assert!(rt; behind.next().is_none());
    Ok(())
}
