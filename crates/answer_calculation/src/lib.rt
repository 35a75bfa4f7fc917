// The plain calculation: checks 1 to 4, then what is worked out.
#![tactic(auto)]

ghost use Rattle.std.specs.Prelude.{◌≡◌, MatchResult};
ghost use Rattle.rules.specs.Answers.{refused};
ghost use Rattle.rules.specs.Faults.{refusal_of};
ghost use Rattle.rules.specs.Calculation.{calculated, table_after};

use answer_work::work_out;
use record_lengths::lengths_wrong;
use record_log_checks::check_content;
use rules::{Answer, Fault, Refusal, SandNumbers};

// The numbers of a log, a pile record with its extra record, and a slice table of any length, or the first check that refuses.
#[tactic(auto, using(crate::proofs::CheckedLaws::lent_wrong, crate::proofs::CheckedLaws::lent_content, crate::proofs::CheckedLaws::long, answer_work::proofs::WorkLaws::fault_refuses), unfolding(rules::specs::Calculation::calculated, rules::specs::Calculation::table_after, rules::specs::Calculation::fresh_table))]
fn numbers(
    log: &[u8],
    pile: &[u8],
    extra: Option<SandNumbers>,
    table: &mut [u8],
) -> Result<Answer, Fault>
    ensures reply { MatchResult result (λ answer. answer ≡ calculated log.now pile.now extra table.old) (λ fault. refused (refusal_of fault) ≡ calculated log.now pile.now extra table.old) }
    ensures table { table.new ≡ table_after log.now pile.now extra table.old }
{
    if lengths_wrong(log, pile, table) {
        return Err(Fault::Length);
    }
    let checked = check_content(log)?;
    let work = work_out(checked, pile, extra, table)?;
    Ok(work.answer)
}

// The reply of a log, a pile record with its extra record, and a slice table of any length, and the table afterwards.
pub fn calculate(log: &[u8], pile: &[u8], extra: Option<SandNumbers>, table: &mut [u8]) -> Answer
    ensures reply { result ≡ calculated log.now pile.now extra table.old }
    ensures table { table.new ≡ table_after log.now pile.now extra table.old }
{
    match numbers(log, pile, extra, table) {
        Ok(answer) => answer,
        Err(fault) => Answer::from(Refusal::from(fault)),
    }
}
