// The log as an accepted edit leaves it. `requires` is that the checks let the edit pass.
#![tactic(auto)]

ghost use Rattle.std.specs.Prelude.{◌≡◌, true, false, ◌+◌, ◌*◌, ◌-◌, ◌≤◌, ◌<◌, length};
ghost use Rattle.rules.specs.Base.{refuses};
ghost use Rattle.rules.specs.Records.{row_size};
ghost use Rattle.rules.specs.Limits.{thickness_limit};
ghost use Rattle.rules.specs.Packed.{count_of, rows_of};
ghost use Rattle.rules.specs.Edits.{brings, row_named, edited_log};
ghost use Rattle.rules.specs.Checks.{Passed};
ghost use Rattle.rules.proofs.Groups.{change_checks};
ghost use Rattle.rules.specs.Edits as rule;
ghost use Rattle.edit_naming.specs.Asked.{edit_of, number_of};
ghost use Rattle.edit_changes.specs.Split.{split_log};

use edit_naming::{Edit, EditKind};
use rules::{ROW_SIZE, Row};

// The bytes of the row that was brought.
fn brought(row: &[u8]) -> [u8; ROW_SIZE]
    requires { length row.now ≡ row_size }
    ensures { result ≡ row.now }
{
    let mut new = [0; ROW_SIZE];
    new.copy_from_slice(row);
    new
}

// As much of the row's soil as is said.
fn part(thickness: u16, row: Row) -> Row
    ensures { result ≡ rule.part thickness row }
{
    Row { thickness, ..row }
}

fn split(log: &mut [u8], k: u32, x: u32)
    requires place { (1 ≤ k) × (k ≤ count_of log.old) × (1 + (count_of log.old + 1) * row_size ≤ length log.old) }
    requires point { (count_of log.old < 255) × (x < (row_named (rows_of log.old) k).thickness) × (x ≤ thickness_limit) }
    ensures { log.new ≡ split_log k x log.old }
{
    let row = edit_naming::named_row(log, k);
    let upper = record_row_bytes::row_bytes(part(x as u16, row));
    let lower = record_row_bytes::row_bytes(part(row.thickness - x as u16, row));
    edit_moves::split_row(log, k as usize, upper, lower);
}

// Replace, insert, remove or split.
pub fn change(log: &mut [u8], edit: Edit<'_>)
    requires passed { Passed log.old × (refuses (change_checks (edit_of edit) log.old) ≡ false) }
    requires brought { brings (number_of edit.kind) ≡ true → length edit.row.now ≡ row_size }
    ensures { log.new ≡ edited_log (edit_of edit.entry) log.old }
{
    let Some(kind) = edit.kind else {
        unreachable!()
    };
    let k = edit.k as usize;
    match kind {
        EditKind::Replace => edit_moves::replace_row(log, k, brought(edit.row)),
        EditKind::Insert => edit_moves::insert_row(log, k, brought(edit.row)),
        EditKind::Remove => edit_moves::remove_row(log, k),
        EditKind::Split => split(log, edit.k, edit.x),
    }
}
