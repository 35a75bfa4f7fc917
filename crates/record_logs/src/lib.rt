// A log read by itself: checks 1 to 3, and all its places.
#![tactic(auto)]

ghost use Rattle.std.specs.Prelude.{◌≡◌, false, ◌<◌, OnOk};
ghost use Rattle.rules.specs.Limits.{limit_of};
ghost use Rattle.rules.specs.Packed.{rows_of, log_of};
ghost use Rattle.rules.specs.Checks.{unused_wrong, first_wrong};
ghost use Rattle.rules.specs.Faults.{refusal_in};
ghost use Rattle.rules.specs.Reading.{no_log, read_log};

use record_lengths::row_limit;
use record_log_checks::row_fault;
use record_row_ranges::row_field;
use record_rows::row_inside;
use record_unused::unused_wrong;
use rules::{Fault, Log, LogRead, ROW_LIMIT, ROW_SIZE, Refusal, Row};

fn no_log() -> Log
    ensures { result ≡ no_log }
{
    Log {
        count: 0,
        rows: [Row::default(); ROW_LIMIT],
    }
}

// A log past checks 1 and 2, read into one of zeros: check 3 of each row as it is read.
#[tactic(auto, using(rules::proofs::FormLaws::limit_long))]
fn read_rows(s: &[u8], log: &mut Log) -> Result<(), Fault>
    requires { (0 < limit_of s.now) × (unused_wrong s.now ≡ false) × (log.old ≡ no_log) }
    ensures refusal { refusal_in result ≡ first_wrong 1 (rows_of s.now) }
    ensures log { OnOk result (log.new ≡ log_of s.now) }
{
    log.count = s[0];
    for i in 0..usize::from(s[0]) {
        let row = row_inside(s, 1 + i * ROW_SIZE);
        if let Some(field) = row_field(row) {
            return Err(row_fault(i, field));
        }
        log.rows[i] = row;
    }
    Ok(())
}

// Checks 1 to 3; where none refuses, log is what was read.
#[tactic(auto, unfolding(rules::specs::Reading::read_log, rules::specs::Base::first, rules::specs::Base::when, rules::specs::Limits::limit_of))]
fn read_into(s: &[u8], log: &mut Log) -> Result<(), Fault>
    requires { log.old ≡ no_log }
    ensures refusal { refusal_in result ≡ (read_log s.now).refusal }
    ensures log { OnOk result (log.new ≡ log_of s.now) }
{
    row_limit(s.len()).ok_or(Fault::Length)?;
    if unused_wrong(s) {
        return Err(Fault::Unused);
    }
    read_rows(s, log)
}

#[tactic(auto, unfolding(rules::specs::Reading::read_log))]
pub fn read_log(s: &[u8]) -> LogRead
    ensures { result ≡ read_log s.now }
{
    let mut read = LogRead {
        refusal: Refusal::default(),
        log: no_log(),
    };
    if let Err(fault) = read_into(s, &mut read.log) {
        return LogRead {
            refusal: Refusal::from(fault),
            log: no_log(),
        };
    }
    read
}
