// The lent slice table: cleared, and a slice put into a place of it.
#![tactic(auto)]

ghost use Rattle.std.specs.Prelude.{◌≡◌, ◌+◌, ◌*◌, ◌≤◌, length, replicate};
ghost use Rattle.rules.specs.Records.{slice_size};
ghost use Rattle.record_slice_table.specs.Table.{put_at};

use base_copies::copy_in;
use record_slices::slice_bytes;
use rules::{SLICE_SIZE, Slice};

// Every byte becomes zero.
pub fn clear_table(table: &mut [u8])
    ensures { table.new ≡ replicate (length table.old) 0 }
{
    table.fill(0);
}

// A slice into its place of the table.
#[tactic(auto, using(crate::proofs::TableLaws::put_is))]
pub fn put_slice(table: &mut [u8], place: usize, c: Slice)
    requires { place * slice_size + slice_size ≤ length table.old }
    ensures { table.new ≡ put_at table.old place c }
{
    copy_in(table, place * SLICE_SIZE, &slice_bytes(c));
}
