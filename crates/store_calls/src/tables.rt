// A table of rows that all have one hash.
ghost use Rattle.std.specs.Prelude.{[], OnOk};
ghost use Rattle.std.specs.Ordering.{nat_cmp, on};
ghost use Rattle.row_table.specs.Steps.{IsRowTable};
ghost use Rattle.row_table.specs.Tables.{hashed};

use row_table::RowTable;
use std::hash::{Hash, Hasher};
use std::test::Fail;

// A row that gives a hasher nothing.
#[derive(Clone, Copy, PartialEq, Eq, PartialOrd, Ord)]
struct Alike {
    number: u32,
}

impl Hash for Alike {
    ghost use Rattle.std.specs.Prelude.{[], refl};

    ghost hash_input = { λ _. [] };

    ghost respects_eq = { λ _ _ _. refl };

    fn hash<H: Hasher>(&self, _state: &mut H) {}
}

// Gives a step its value at a row, and answers the row's number.
fn put(table: &mut RowTable<Alike, u8>, row: u32, step: u32, value: u8) -> Result<usize, Fail>
    requires { IsRowTable (hashed (λ _. [])) (on (λ (a : Alike). a.number) nat_cmp) table.old }
    ensures { OnOk result (IsRowTable (hashed (λ _. [])) (on (λ (a : Alike). a.number) nat_cmp) table.new) }
{
    let number = table.number(Alike { number: row })?;
    table.put(number, step, value)?;
    Ok(number)
}

// The value of a step at a row.
fn value(table: &RowTable<Alike, u8>, row: u32, step: u32) -> Option<u8>
    requires { IsRowTable (hashed (λ _. [])) (on (λ (a : Alike). a.number) nat_cmp) table.now }
{
    table.get(step, &Alike { number: row })
}

// Takes a step's value away, and the row where that was its last.
fn remove(table: &mut RowTable<Alike, u8>, number: usize, step: u32)
    requires { IsRowTable (hashed (λ _. [])) (on (λ (a : Alike). a.number) nat_cmp) table.old }
    ensures { IsRowTable (hashed (λ _. [])) (on (λ (a : Alike). a.number) nat_cmp) table.new }
{
    table.remove(number, step);
    table.tidy(number);
}

#[test]
fn rows_with_one_hash_keep_apart(rt: HostRuntime) -> Result<(), Fail> {
    let mut table = RowTable::new(rt.alloc());
    let first = put(&mut table, 1, 7, 10)?;
    let second = put(&mut table, 2, 7, 20)?;
    let third = put(&mut table, 3, 7, 30)?;
    assert!(rt; first != second && second != third && third != first);
    assert_eq!(rt; put(&mut table, 2, 8, 21)?, second);
    assert_eq!(rt; value(&table, 1, 7), Some(10));
    assert_eq!(rt; value(&table, 2, 7), Some(20));
    assert_eq!(rt; value(&table, 2, 8), Some(21));
    assert_eq!(rt; value(&table, 3, 8), None);
    remove(&mut table, first, 7);
    remove(&mut table, second, 8);
    assert_eq!(rt; value(&table, 1, 7), None);
    assert_eq!(rt; value(&table, 2, 7), Some(20));
    assert_eq!(rt; value(&table, 2, 8), None);
    assert_eq!(rt; value(&table, 3, 7), Some(30));
    remove(&mut table, third, 7);
    put(&mut table, 1, 7, 11)?;
    assert_eq!(rt; value(&table, 1, 7), Some(11));
    assert_eq!(rt; value(&table, 2, 7), Some(20));
    assert_eq!(rt; value(&table, 3, 7), None);
    Ok(())
}
