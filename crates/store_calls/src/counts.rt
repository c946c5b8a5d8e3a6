// Counts of rows and of copies, and the difference of two sets of rows.
use crate::fixtures::row;
use ev_bind::Row;
use negation_witness::Witnesses;
use rule_ast::StepId;
use std::test::Fail;
use support_table::{Change, Supports};

#[test]
fn counts_rise_and_fall(rt: HostRuntime) -> Result<(), Fail> {
    let row = row(rt.alloc(), 1, 2)?;
    let mut supports = Supports::new(rt.alloc());
    assert_eq!(rt; supports.add(3, &row, 2)?, Change::Appeared);
    assert_eq!(rt; supports.take(3, &row, 1), Change::Same);
    assert_eq!(rt; supports.count(3, &row), 1);
    assert_eq!(rt; supports.take(3, &row, 1), Change::Vanished);
    assert_eq!(rt; supports.add(3, &row, 5)?, Change::Appeared);
    supports.forget(3, &row);
    assert_eq!(rt; supports.count(3, &row), 0);
    Ok(())
}

#[test]
fn counts_stay_where_the_closure_says(rt: HostRuntime) -> Result<(), Fail> {
    let row = row(rt.alloc(), 1, 2)?;
    let mut supports = Supports::new(rt.alloc());
    supports.add(3, &row, 2)?;
    supports.add(4, &row, 1)?;
    supports.keep_only(|step: StepId, _row: &Row| step == 3);
    assert_eq!(rt; supports.count(3, &row), 2);
    assert_eq!(rt; supports.count(4, &row), 0);
    Ok(())
}

#[test]
fn a_difference_changes_from_both_sides(rt: HostRuntime) -> Result<(), Fail> {
    let row = row(rt.alloc(), 1, 2)?;
    let mut witnesses = Witnesses::new(rt.alloc());
    assert_eq!(rt;
        witnesses.positive(&row, Change::Appeared)?,
        Change::Appeared
    );
    assert_eq!(rt;
        witnesses.negative(&row, Change::Appeared)?,
        Change::Vanished
    );
    assert_eq!(rt;
        witnesses.negative(&row, Change::Vanished)?,
        Change::Appeared
    );
    Ok(())
}
