// What is worked out of a log past its checks, a pile record and its extra record: checks 5 to 12 and 17 in order, the numbers, and the slice
// table, written in place.
// Nothing counts the slices: a table has places for every shaft of a pile that passes checks 7 and 8.
#![tactic(auto)]

ghost use Rattle.std.specs.Prelude.{◌≡◌, ◌≤◌, length, IfOk};
ghost use Rattle.rules.specs.Limits.{limit_of, table_size};
ghost use Rattle.rules.specs.Packed.{rows_of, pile_of, table_bytes};
ghost use Rattle.rules.specs.Ground.{depth_of, soil_at};
ghost use Rattle.rules.specs.Checks.{ground_checks};
ghost use Rattle.rules.specs.Faults.{refusal_in};
ghost use Rattle.rules.specs.Calculation.{answer_of, held_slices_of, fresh_answer};
ghost use Rattle.answer_work.specs.Outcomes.{answer_in, used_in};

use answer_checks::{Tip, depth_refusal};
use answer_numbers::{BoundedPile, five_numbers, line_of};
use answer_tips::work_tip;
use ground_shaft::cut_shaft;
use record_log_checks::CheckedLog;
use record_pile_ranges::pile_refusal;
use record_piles::take_pile;
use record_slice_table::clear_table;
use rules::{Answer, Fault, Pile, SandNumbers};

// What is worked out of a log and a pile record beside the table: the answer, and how many slices it has.
#[derive(Clone, Copy)]
pub struct Worked {
    pub answer: Answer,
    pub used: usize,
}

// Checks 5 to 12 and 17, then the numbers. The shaft is cut before the tip is looked at: the cut tells the soil below the tip and its stratum.
// So a refusal may leave slices in the table.
#[tactic(auto, using(crate::proofs::WorkLaws::by_pile, crate::proofs::WorkLaws::by_depth, crate::proofs::WorkLaws::by_tip, crate::proofs::WorkLaws::cleared, crate::proofs::WorkLaws::answer_is, crate::proofs::WorkLaws::slices_are, crate::proofs::WorkLaws::shaft_top, answer_numbers::proofs::SideLaws::sides), unfolding(ground_shaft::specs::Shafts::shaft_of))]
fn work_pile(
    checked: CheckedLog<'_>,
    pile: Pile,
    extra: Option<SandNumbers>,
    table: &mut [u8],
) -> Result<Worked, Fault>
    requires { table_size (limit_of checked.log.bytes.now) ≤ length table.old }
    ensures refusal { refusal_in result ≡ ground_checks (soil_at (rows_of checked.entry.log.bytes.now)) (depth_of (rows_of checked.entry.log.bytes.now)) pile extra }
    ensures worked { IfOk result (λ work. (work.answer ≡ answer_of (rows_of checked.entry.log.bytes.now) pile extra) × (work.used ≡ length (held_slices_of (rows_of checked.entry.log.bytes.now) pile extra))) }
    ensures table { IfOk result (λ work. table.new ≡ table_bytes (length table.old) (held_slices_of (rows_of checked.entry.log.bytes.now) pile extra)) }
{
    pile_refusal(pile)?;
    depth_refusal(pile, checked.depth)?;
    let cut = cut_shaft(checked.log, pile, table);
    let tip = Tip {
        pile,
        soil: cut.soil,
        top: cut.top,
    };
    let r = work_tip(tip, extra)?;
    let answer = five_numbers(cut.soil, BoundedPile { pile }, r, line_of(cut.sum));
    Ok(Worked {
        answer,
        used: cut.used,
    })
}

// The answer and the table of a log past its checks, a pile record and its extra record; the table has the places of the log's form. Under a refusal the table becomes all zero.
#[tactic(auto, using(crate::proofs::WorkLaws::none_worked, record_slice_table::proofs::TableLaws::filled_none), unfolding(rules::specs::Calculation::fresh_answer))]
pub fn work_out(
    checked: CheckedLog<'_>,
    pile: &[u8],
    extra: Option<SandNumbers>,
    table: &mut [u8],
) -> Result<Worked, Fault>
    requires { table_size (limit_of checked.log.bytes.now) ≤ length table.old }
    ensures refusal { refusal_in result ≡ ground_checks (soil_at (rows_of checked.entry.log.bytes.now)) (depth_of (rows_of checked.entry.log.bytes.now)) (pile_of pile.now) extra }
    ensures worked { (answer_in result ≡ fresh_answer checked.entry.log.bytes.now pile.now extra) × (used_in result ≡ length (held_slices_of (rows_of checked.entry.log.bytes.now) (pile_of pile.now) extra)) }
    ensures table { table.new ≡ table_bytes (length table.old) (held_slices_of (rows_of checked.entry.log.bytes.now) (pile_of pile.now) extra) }
{
    let work = work_pile(checked, take_pile(pile), extra, table);
    if work.is_err() {
        clear_table(table);
    }
    work
}
