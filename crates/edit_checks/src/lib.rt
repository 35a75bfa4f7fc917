// The refusals of an edit, in order: 1 to 4 of what is lent, 13, 14, 3 for the new row, 4 for the new log; and how deep the new log is.
#![tactic(auto)]

ghost use Rattle.std.specs.Prelude.{◌≡◌, ◌⊎◌, ◌+◌, ◌*◌, ◌≤◌, ◌<◌, length, IfOk};
ghost use Rattle.rules.specs.Records.{row_size};
ghost use Rattle.rules.specs.Packed.{count_of, rows_of};
ghost use Rattle.rules.specs.Ground.{depth_of};
ghost use Rattle.rules.specs.Edits.{edited_rows};
ghost use Rattle.rules.specs.Checks.{edit_checks};
ghost use Rattle.rules.specs.Checks as checks;
ghost use Rattle.rules.specs.Faults.{refusal_in};
ghost use Rattle.rules.proofs.Groups.{change_checks};
ghost use Rattle.edit_naming.specs.Asked.{edit_of, number_of};
ghost use Rattle.edit_checks.specs.Depths.{goes, comes};

use edit_naming::{Edit, EditKind, named_row};
use record_log_checks::{CheckedLog, check_content};
use record_rows::read_row;
use rules::{DEPTH_LIMIT, Fault, ROW_SIZE};

// Check 1, of every piece that the edit's kind uses.
fn lengths_wrong(log: &[u8], pile: &[u8], table: &[u8], edit: Edit<'_>) -> bool
    ensures { result ≡ checks.edit_lengths_wrong (edit_of edit.entry) log.now pile.now table.now }
{
    record_lengths::lengths_wrong(log, pile, table) || edit.brings() && edit.row.len() != ROW_SIZE
}

// Check 3 of the row that replace and insert bring.
#[tactic(auto, unfolding(rules::specs::Checks::new_row_check))]
fn check_new_row(edit: Edit<'_>) -> Result<(), Fault>
    ensures { refusal_in result ≡ checks.new_row_check (edit_of edit.entry) }
{
    if !edit.brings() {
        return Ok(());
    }
    match record_row_ranges::row_field(read_row(edit.row, 0)) {
        Some(field) => Err(Fault::Row { row: edit.k, field }),
        None => Ok(()),
    }
}

// The thickness that goes.
fn gone(log: &[u8], edit: Edit<'_>) -> u64
    requires inside { 1 + count_of log.now * row_size ≤ length log.now }
    requires named { (number_of edit.kind ≡ 1) ⊎ (number_of edit.kind ≡ 3) → (1 ≤ edit.k) × (edit.k ≤ count_of log.now) }
    ensures { result ≡ goes (number_of edit.entry.kind) edit.entry.k (rows_of log.now) }
{
    match edit.kind {
        Some(EditKind::Replace | EditKind::Remove) => u64::from(named_row(log, edit.k).thickness),
        _ => 0,
    }
}

// The thickness that comes.
fn come(edit: Edit<'_>) -> u64
    ensures { (result ≡ comes (number_of edit.entry.kind) edit.entry.row.now) × (result < 65536) }
{
    if !edit.brings() {
        return 0;
    }
    u64::from(read_row(edit.row, 0).thickness)
}

// Checks 13, 14, 3 and 4 of an edit of a log that passes. The new log's depth comes from the lent one's.
#[tactic(auto, unfolding(rules::proofs::Groups::change_checks, rules::specs::Base::first, rules::specs::Base::when))]
fn check_change(checked: CheckedLog<'_>, edit: Edit<'_>) -> Result<u64, Fault>
    ensures refusal { refusal_in result ≡ change_checks (edit_of edit.entry) checked.entry.log.bytes.now }
    ensures depth { IfOk result (λ deep. deep ≡ depth_of (edited_rows (edit_of edit.entry) (rows_of checked.entry.log.bytes.now))) }
{
    if !edit.stands(checked.log.bytes) {
        return Err(Fault::NamesNothing);
    }
    if edit.full(checked.log.bytes) {
        return Err(Fault::Full);
    }
    check_new_row(edit)?;
    let deep = checked.depth - gone(checked.log.bytes, edit) + come(edit);
    if DEPTH_LIMIT < deep {
        return Err(Fault::TooDeep);
    }
    Ok(deep)
}

// All of them, and how deep the new log is. The lent log is read once for checks 2 to 4.
#[tactic(auto, using(rules::proofs::Groups::edit_grouped), unfolding(rules::specs::Base::first, rules::specs::Base::when))]
pub fn check_edit(log: &[u8], pile: &[u8], table: &[u8], edit: Edit<'_>) -> Result<u64, Fault>
    ensures refusal { refusal_in result ≡ edit_checks (edit_of edit.entry) log.now pile.now table.now }
    ensures depth { IfOk result (λ deep. deep ≡ depth_of (edited_rows (edit_of edit.entry) (rows_of log.now))) }
{
    if lengths_wrong(log, pile, table, edit) {
        return Err(Fault::Length);
    }
    check_change(check_content(log)?, edit)
}
