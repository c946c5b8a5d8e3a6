// The table of the rows that steps have.
ghost use Rattle.ev_bind.specs.Rows.{row_cmp, row_writes};
ghost use Rattle.ev_bind.specs.contracts.rows.Row as row;
ghost use Rattle.row_table.specs.Tables.{hashed};
ghost use Rattle.row_table.specs.Steps.{IsRowTable};
ghost use Rattle.row_table.specs.Apart.{IsRowTable-prop};

use ev_bind::Row;
use row_table::RowTable;

/// How often each step has each row. A row has a number for as long as it is kept.
#[derive(Drop)]
pub struct Supports {
    pub(crate) rows: RowTable<Row, u128>,
    ghost table: { IsRowTable (hashed row_writes) row_cmp rows } by { IsRowTable-prop row.the_row.coded (hashed row_writes) row_cmp rows },
}
