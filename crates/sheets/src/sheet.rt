ghost use Rattle.std.specs.Prelude.{◌≡◌, ◌≤◌, true, length};
ghost use Rattle.sheets.specs.Rows.{samples, distinct, row_totals};

use crate::row_table::Table;
use readers::reader::Reader;

pub mod calls;
pub mod runs;

// Rows over a reader: at most 256, and no sample twice.
#[derive(Drop)]
pub struct Sheet<R> {
    reader: R,
    table: Table,
    ghost within: { length table.rows ≤ 256 },
    ghost differ: { distinct (samples table.rows) ≡ true },
    ghost kept: { table.totals ≡ row_totals table.rows },
}
