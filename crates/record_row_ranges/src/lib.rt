// The ranges of a row's fields: check 3, and what an unused place holds.
#![tactic(auto)]

ghost use Rattle.std.specs.Prelude.{◌≡◌, eqb};
ghost use Rattle.rules.specs.Checks.{index_in_range, wrong_field};
ghost use Rattle.rules.specs.Faults.{row_field_of};
ghost use Rattle.rules.specs.Reading.{row_zero};

use rules::{Row, RowField, THICKNESS_LIMIT};

fn index_in_range(kind: u8, index: u8) -> bool
    ensures { result ≡ index_in_range kind index }
{
    if kind <= 3 {
        index == 100
    } else {
        index <= 200
    }
}

// Whether every field is 0, as in an unused place.
#[tactic(auto, unfolding(rules::specs::Base::all_zero))]
pub fn row_zero(row: Row) -> bool
    ensures { result ≡ row_zero row }
{
    row == Row::default()
}

// The lowest field out of range.
#[tactic(auto, unfolding(rules::specs::Checks::wrong_field))]
pub fn row_field(row: Row) -> Option<RowField>
    ensures { row_field_of result ≡ wrong_field row }
{
    if !(1..=THICKNESS_LIMIT).contains(&row.thickness) {
        return Some(RowField::Thickness);
    }
    if !(1..=6).contains(&row.kind) {
        return Some(RowField::Kind);
    }
    if !index_in_range(row.kind, row.index) {
        return Some(RowField::Index);
    }
    if 100 < row.saturation {
        return Some(RowField::Saturation);
    }
    if row.zero != 0 {
        return Some(RowField::Zero);
    }
    None
}

// Whether every field is in its range: one answer for the rows of a log, most of which are good.
#[tactic(auto, unfolding(rules::specs::Checks::wrong_field))]
pub fn row_good(row: Row) -> bool
    ensures { result ≡ eqb (wrong_field row) 0 }
{
    let index = index_in_range(row.kind, row.index);
    (1..=THICKNESS_LIMIT).contains(&row.thickness)
        && (1..=6).contains(&row.kind)
        && index
        && row.saturation <= 100
        && row.zero == 0
}
