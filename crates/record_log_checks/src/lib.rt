// Checks 2 to 4 of a log, of which 2 stands in record_unused: its rows and their depth.
#![tactic(auto)]

ghost use Rattle.std.specs.Prelude.{◌≡◌, ◌+◌, ◌*◌, ◌^◌, ◌<◌, ◌≤◌, length, IfOk};
ghost use Rattle.rules.specs.Records.{row_size};
ghost use Rattle.rules.specs.Limits.{limit_of};
ghost use Rattle.rules.specs.Packed.{rows_from, rows_of};
ghost use Rattle.rules.specs.Ground.{depth_of};
ghost use Rattle.rules.specs.Checks.{first_wrong};
ghost use Rattle.rules.specs.Faults.{row_field_number, refusal_of, refusal_in};
ghost use Rattle.rules.proofs.Groups.{field_checks, content_checks};

mod checked;

pub use checked::{CheckedLog, PassedLog};
use record_row_ranges::{row_field, row_good};
use record_rows::row_inside;
use record_unused::unused_wrong;
use rules::{DEPTH_LIMIT, Fault, ROW_SIZE, Refusal, RowField};

// Refusal 3 of a row, counted from 0, and a field by its number.
pub fn row_refusal(i: usize, f: u32) -> Refusal
    requires { i < 2 ^ 8 }
    ensures { result ≡ record { number = 3; row = i + 1; field = f } }
{
    Refusal {
        number: 3,
        row: i as u32 + 1,
        field: f,
    }
}

// The fault of a row, counted from 0, whose field is out of range.
pub fn row_fault(i: usize, field: RowField) -> Fault
    requires { i < 2 ^ 8 }
    ensures { refusal_of result ≡ record { number = 3; row = i + 1; field = row_field_number field } }
{
    let row = i as u32 + 1;
    Fault::Row { row, field }
}

// Check 3 of the first n rows, and their thicknesses added up.
fn check_rows(s: &[u8], n: u8) -> Result<u64, Fault>
    requires { 1 + n * row_size ≤ length s.now }
    ensures refusal { refusal_in result ≡ first_wrong 1 (rows_from s.now 1 n) }
    ensures depth { IfOk result (λ depth. depth ≡ depth_of (rows_from s.now 1 n)) }
{
    let mut depth: u64 = 0;
    for i in 0..usize::from(n) {
        let row = row_inside(s, 1 + i * ROW_SIZE);
        if !row_good(row) {
            return Err(row_fault(i, row_field(row).unwrap()));
        }
        depth += u64::from(row.thickness);
    }
    Ok(depth)
}

// Checks 2 and 3.
#[tactic(auto, using(rules::proofs::FormLaws::limit_long, record_unused::proofs::CountLaws::inside), unfolding(rules::proofs::Groups::field_checks, rules::specs::Base::first, rules::specs::Base::when, rules::specs::Packed::rows_of))]
fn check_fields(s: &[u8]) -> Result<u64, Fault>
    requires { 0 < limit_of s.now }
    ensures refusal { refusal_in result ≡ field_checks s.now }
    ensures depth { IfOk result (λ depth. depth ≡ depth_of (rows_of s.now)) }
{
    if unused_wrong(s) {
        return Err(Fault::Unused);
    }
    check_rows(s, s[0])
}

// Checks 2 to 4; the log past them. Makes no Log: the rows are read from the bytes again where they are needed.
#[tactic(auto, using(crate::proofs::CheckedLaws::passed), unfolding(rules::proofs::Groups::content_checks, rules::specs::Base::first, rules::specs::Base::when))]
pub fn check_content(s: &[u8]) -> Result<CheckedLog<'_>, Fault>
    requires { 0 < limit_of s.now }
    ensures refusal { refusal_in result ≡ content_checks s.now }
    ensures log { IfOk result (λ checked. (checked.log.bytes ≡ s.entry) × (checked.depth ≡ depth_of (rows_of s.now))) }
{
    let depth = check_fields(s)?;
    if DEPTH_LIMIT < depth {
        return Err(Fault::TooDeep);
    }
    let log = PassedLog { bytes: s };
    Ok(CheckedLog { log, depth })
}
