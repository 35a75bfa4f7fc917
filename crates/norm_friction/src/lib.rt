// Table 7.3, read as the pile norm says: friction by soil and mid-depth, the column by the soil, the rows by the depth. A function that
// names a constant array makes all of it anew: whoever reads often asks for the rows once, and lends them.
#![tactic(auto)]

ghost use Rattle.std.specs.Prelude.{◌≡◌, ◌+◌, ◌*◌, ◌-◌, ◌<◌, ◌≤◌, get_or};
ghost use Rattle.rules.specs.Bounds.{cell_bound, friction_bound};
ghost use Rattle.rules.specs.Numbers as numbers;
ghost use Rattle.rules.specs.Tables.{friction_rows};
ghost use Rattle.norm_columns.specs.Across.{Across};
ghost use Rattle.norm_friction.specs.Columns.{FrictionColumn, column_friction};

use norm_columns::{Column, mean};
use rules::Soil;

// A row for each depth: kPa in columns 0.2 to 1.0.
const ROWS: [[u8; 9]; 13] = [
    [35, 23, 15, 12, 8, 4, 4, 3, 2],
    [42, 30, 21, 17, 12, 7, 5, 4, 4],
    [48, 35, 25, 20, 14, 8, 7, 6, 5],
    [53, 38, 27, 22, 16, 9, 8, 7, 5],
    [56, 40, 29, 24, 17, 10, 8, 7, 6],
    [58, 42, 31, 25, 18, 10, 8, 7, 6],
    [62, 44, 33, 26, 19, 10, 8, 7, 6],
    [65, 46, 34, 27, 19, 10, 8, 7, 6],
    [72, 51, 38, 28, 20, 11, 8, 7, 6],
    [79, 56, 41, 30, 20, 12, 8, 7, 6],
    [86, 61, 44, 32, 20, 12, 8, 7, 6],
    [93, 66, 47, 34, 21, 12, 9, 8, 7],
    [100, 70, 50, 36, 22, 13, 9, 8, 7],
];

// The rows as they are printed.
#[derive(Clone, Copy)]
pub struct FrictionRows {
    pub cells: [[u8; 9]; 13],
    pub ghost printed: { cells ≡ friction_rows },
}

pub fn rows() -> FrictionRows
    ensures { result.cells ≡ friction_rows }
{
    FrictionRows { cells: ROWS }
}

// Hundredths right of column 0.2.
fn hundredths(soil: Soil) -> u64
    ensures { result ≡ numbers.hundredths soil }
{
    match soil.kind {
        0 | 1 => 0,
        2 => 10,
        3 => 20,
        _ => norm_columns::past(120, soil.index),
    }
}

// A row's cells in a column and the next, weighed by tenths across.
fn along(row: &[u8; 9], column: Column) -> u64
    requires { FrictionColumn column }
    ensures { (result ≡ (10 - column.across) * get_or row.now column.number 0 + column.across * get_or row.now (column.number + 1) 0) × (result ≤ cell_bound * 10) }
{
    let j = column.number;
    mean(10, column.across, u64::from(row[j]), u64::from(row[j + 1]))
}

// The column that friction is read from in a soil. No depth changes it.
pub fn column_of(soil: Soil) -> Column
    ensures { Across 7 (numbers.hundredths soil) result }
{
    norm_columns::column_for(hundredths(soil), 7)
}

impl FrictionRows {
    // In 1/200 Pa, in a column and at a mid-depth in half millimetres: two rows weighed, above 1 m by as much of a reading as counts.
    pub fn friction(&self, column: Column, mid: u64) -> u64
        requires { FrictionColumn column }
        ensures { (result ≡ column_friction column mid) × (result ≤ friction_bound) }
    {
        let stands = norm_friction_rows::friction_row(mid);
        let upper = along(&self.cells[stands.row], column);
        let lower = along(&self.cells[stands.row + 1], column);
        mean(stands.whole, stands.part, upper, lower)
    }
}
