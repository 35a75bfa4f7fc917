// Packing a log: its checks, and its count and row places as the bytes of the form that the lent buffer's length tells.
#![tactic(auto)]

ghost use Rattle.std.specs.Prelude.{◌≡◌, ◌≤◌, length, take};
ghost use Rattle.rules.specs.Base.{when, first};
ghost use Rattle.rules.specs.Limits.{row_limit, log_size};
ghost use Rattle.rules.specs.Packed.{log_bytes};
ghost use Rattle.rules.specs.Checks.{first_wrong};
ghost use Rattle.rules.specs.Faults.{refusal_in};
ghost use Rattle.rules.specs.Reading.{rows_zero, unused_fields, pack_log_check, packed_log};

use base_copies::copy_in;
use record_lengths::row_limit;
use record_log_checks::row_fault;
use record_row_bytes::row_bytes;
use record_row_ranges::{row_field, row_zero};
use record_unused::count_wrong;
use rules::{Fault, Log, ROW_SIZE, Row};

// Whether every field of these rows is 0.
fn unused(rows: &[Row]) -> bool
    ensures { result ≡ rows_zero rows.now }
{
    rows.iter().all(|row| row_zero(*row))
}

// Check 3 of the used rows.
fn rows_refusal(rows: &[Row]) -> Result<(), Fault>
    requires { length rows.now ≤ row_limit }
    ensures { refusal_in result ≡ first_wrong 1 rows.now }
{
    for (i, row) in rows.iter().enumerate() {
        if let Some(field) = row_field(*row) {
            return Err(row_fault(i, field));
        }
    }
    Ok(())
}

// Checks 2 and 3 of fields that are packed.
#[tactic(auto, using(crate::proofs::PackLaws::all_places), unfolding(rules::specs::Reading::unused_fields, rules::specs::Base::first, rules::specs::Base::when))]
fn log_refusal(log: &Log, limit: usize) -> Result<(), Fault>
    requires { limit ≤ row_limit }
    ensures { refusal_in result ≡ first (when (unused_fields limit log.now) 2) (first_wrong 1 (take log.now.count log.now.rows)) }
{
    if count_wrong(limit, log.count) {
        return Err(Fault::Unused);
    }
    let (used, behind) = log.rows.split_at(usize::from(log.count));
    if !unused(behind) {
        return Err(Fault::Unused);
    }
    rows_refusal(used)
}

fn write_log(log: &Log, limit: usize, buf: &mut [u8])
    requires { (limit ≤ row_limit) × (length buf.old ≡ log_size limit) }
    ensures { buf.new ≡ log_bytes limit log.now }
{
    buf[0] = log.count;
    for (i, row) in log.rows[..limit].iter().enumerate() {
        copy_in(buf, 1 + i * ROW_SIZE, &row_bytes(*row));
    }
}

// A refused packing changes no byte.
#[tactic(auto, using(rules::proofs::FormLaws::form_size), unfolding(rules::specs::Reading::pack_log_check, rules::specs::Reading::packed_log, rules::specs::Base::first, rules::specs::Base::when, rules::specs::Limits::limit_of))]
pub fn pack_log(log: Log, buf: &mut [u8]) -> Result<(), Fault>
    ensures refusal { refusal_in result ≡ pack_log_check log buf.old }
    ensures bytes { buf.new ≡ packed_log log buf.old }
{
    let limit = row_limit(buf.len()).ok_or(Fault::Length)?;
    log_refusal(&log, limit)?;
    write_log(&log, limit, buf);
    Ok(())
}
