// The row places of a lent part of a log, moved by five bytes: a place closed, opened for a row, or given to two rows.
// The part begins where the first place begins. Each `requires` is that it has so many bytes, which the callers see to.
#![tactic(auto)]

ghost use Rattle.std.specs.Prelude.{◌≡◌, ◌*◌, ◌≤◌, length};
ghost use Rattle.rules.specs.Records.{row_size};
ghost use Rattle.edit_row_places.specs.Places.{closed, inserted, divided};

use base_copies::copy_in;
use rules::ROW_SIZE;

// Closes the first place of t: the places below move up by one, and the last becomes zero.
pub fn close_place(t: &mut [u8])
    requires { row_size ≤ length t.old }
    ensures { t.new ≡ closed t.old }
{
    let last = t.len() - ROW_SIZE;
    t.copy_within(ROW_SIZE.., 0);
    t[last..].fill(0);
}

// The row comes in before the first place of t: the places move down by one, and the last goes.
pub fn insert_first(t: &mut [u8], row: [u8; ROW_SIZE])
    requires { row_size ≤ length t.old }
    ensures { t.new ≡ inserted row t.old }
{
    let last = t.len() - ROW_SIZE;
    t.copy_within(..last, ROW_SIZE);
    copy_in(t, 0, &row);
}

// The row in the first place of t gives way to its two parts.
#[tactic(auto, using(crate::proofs::PlaceLaws::divided_is))]
pub fn split_first(t: &mut [u8], upper: [u8; ROW_SIZE], lower: [u8; ROW_SIZE])
    requires { 2 * row_size ≤ length t.old }
    ensures { t.new ≡ divided upper lower t.old }
{
    insert_first(t, upper);
    copy_in(t, ROW_SIZE, &lower);
}
