// The slice table before and after an edit: a copy of the one that is lent, and how many leading slices of the new one are kept.
// Each `requires` is that a table has the bytes that are read or copied; check 1 saw to that.
#![tactic(auto)]

ghost use Rattle.std.specs.Prelude.{◌≡◌, ◌*◌, ◌≤◌, length};
ghost use Rattle.rules.specs.Records.{slice_size};
ghost use Rattle.rules.specs.Limits.{row_limit, table_size};
ghost use Rattle.rules.specs.EditReplies.{kept};

use rules::{SLICE_SIZE, TABLE_SIZE};

// The lent table's bytes.
pub fn table_copy(table: &[u8]) -> [u8; TABLE_SIZE]
    requires { length table.now ≡ table_size row_limit }
    ensures { result ≡ table.now }
{
    let mut copy = [0; TABLE_SIZE];
    copy.copy_from_slice(table);
    copy
}

// Of the used slices of the new table: it stops at the first whose bytes differ from the old table's.
pub fn kept_count(new: &[u8], old: &[u8], used: usize) -> usize
    requires { (used * slice_size ≤ length new.now) × (used * slice_size ≤ length old.now) }
    ensures { (result ≡ kept used new.now old.now) × (result ≤ used) }
{
    new.chunks_exact(SLICE_SIZE)
        .zip(old.chunks_exact(SLICE_SIZE))
        .take(used)
        .take_while(|(slice, lent)| slice == lent)
        .count()
}
