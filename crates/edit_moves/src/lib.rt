// What an accepted edit does to the log's bytes: the rows from row k on move by one place, and the count follows. Rows count from 1.
// Each `requires` is that the log has the places that are moved, and that the count can be so; the checks see to both.
#![tactic(auto)]

ghost use Rattle.std.specs.Prelude.{◌≡◌, ◌+◌, ◌-◌, ◌*◌, ◌≤◌, ◌^◌, ◌<◌, length};
ghost use Rattle.rules.specs.Records.{row_size};
ghost use Rattle.rules.specs.Packed.{count_of};
ghost use Rattle.edit_moves.specs.Moves.{with_count, replaced_log, inserted_log, removed_log, divided_log};

use base_copies::copy_in;
use rules::ROW_SIZE;

// Where row k begins.
fn row_start(k: usize) -> usize
    requires { (1 ≤ k) × (1 + k * row_size < 2 ^ 64) }
    ensures { result ≡ 1 + (k - 1) * row_size }
{
    1 + (k - 1) * ROW_SIZE
}

fn raise_count(log: &mut [u8])
    requires count { 1 ≤ length log.old }
    requires room { count_of log.old < 255 }
    ensures { log.new ≡ with_count (count_of log.old + 1) log.old }
{
    log[0] += 1;
}

#[tactic(auto, using(crate::proofs::PartLaws::row_put))]
pub fn replace_row(log: &mut [u8], k: usize, row: [u8; ROW_SIZE])
    requires { (1 ≤ k) × (1 + k * row_size ≤ length log.old) }
    ensures { log.new ≡ replaced_log (k - 1) row log.old }
{
    copy_in(log, row_start(k), &row);
}

pub fn insert_row(log: &mut [u8], k: usize, row: [u8; ROW_SIZE])
    requires place { (1 ≤ k) × (1 + k * row_size ≤ length log.old) }
    requires room { count_of log.old < 255 }
    ensures { log.new ≡ inserted_log (k - 1) row log.old }
{
    raise_count(log);
    edit_row_places::insert_first(&mut log[row_start(k)..], row);
}

pub fn remove_row(log: &mut [u8], k: usize)
    requires place { (1 ≤ k) × (1 + k * row_size ≤ length log.old) }
    requires rows { 1 ≤ count_of log.old }
    ensures { log.new ≡ removed_log (k - 1) log.old }
{
    log[0] -= 1;
    edit_row_places::close_place(&mut log[row_start(k)..]);
}

// Row k gives way to its two parts.
pub fn split_row(log: &mut [u8], k: usize, upper: [u8; ROW_SIZE], lower: [u8; ROW_SIZE])
    requires place { (1 ≤ k) × (1 + (k + 1) * row_size ≤ length log.old) }
    requires room { count_of log.old < 255 }
    ensures { log.new ≡ divided_log (k - 1) upper lower log.old }
{
    raise_count(log);
    edit_row_places::split_first(&mut log[row_start(k)..], upper, lower);
}
