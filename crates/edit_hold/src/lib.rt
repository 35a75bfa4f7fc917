// The changed log worked out into the lent table, and how many leading slices are kept.
#![tactic(auto)]

ghost use Rattle.std.specs.Prelude.{◌≡◌, length};
ghost use Rattle.rules.specs.Limits.{limit_of, table_size};
ghost use Rattle.rules.specs.Calculation.{fresh_table};
ghost use Rattle.rules.specs.EditReplies.{edit_answer};

use answer_work::work_out;
use edit_kept::{kept_count, table_copy};
use record_log_checks::CheckedLog;
use rules::{Answer, Refusal, SandNumbers};

// The changed log is worked out into the table. The table is written in place, so kept is counted against a copy of it.
pub fn hold(
    checked: CheckedLog<'_>,
    pile: &[u8],
    extra: Option<SandNumbers>,
    table: &mut [u8],
) -> Answer
    requires { length table.old ≡ table_size (limit_of checked.log.bytes.now) }
    ensures reply { result ≡ edit_answer checked.entry.log.bytes.now pile.now extra table.old }
    ensures table { table.new ≡ fresh_table checked.entry.log.bytes.now pile.now extra }
{
    let old = table_copy(table);
    match work_out(checked, pile, extra, table) {
        Ok(work) => {
            let kept = kept_count(table, &old, work.used) as u32;
            Answer {
                kept,
                ..work.answer
            }
        }
        Err(fault) => Answer::from(Refusal::from(fault)),
    }
}
