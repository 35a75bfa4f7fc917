// The door for hosts: the core's entries under plain names. Each takes any bytes of any length, and replies. psamathyr_c exports them to C.
#![tactic(auto)]

ghost use Rattle.std.specs.Prelude.{◌≡◌};
ghost use Rattle.rules.specs.Edits.{asked};
ghost use Rattle.rules.specs.Reading.{read_log, read_pile, read_slice, pack_log_check, packed_log, pile_of_read, pack_pile_check, packed_pile};
ghost use Rattle.rules.specs.SandTips.{sand_from};
ghost use Rattle.rules.specs.Answers.{refused};
ghost use Rattle.rules.specs.Calculation.{calculated, table_after};
ghost use Rattle.rules.specs.EditReplies.{edit_reply, edit_log, edit_table};

use edit_naming::Edit;
use rules::{Answer, LogRead, Pile, PileRead, SandFields, SandNumbers, SliceRead, refusal_in};

pub fn psamathyr_calculate(log: &[u8], pile: &[u8], sand: SandFields, table: &mut [u8]) -> Answer
    ensures reply { result ≡ calculated log.now pile.now (sand_from sand) table.old }
    ensures table { table.new ≡ table_after log.now pile.now (sand_from sand) table.old }
{
    let extra = Option::<SandNumbers>::from(sand);
    answer_calculation::calculate(log, pile, extra, table)
}

#[tactic(auto, using(edit_reply::proofs::KindLaws::reply_known, edit_reply::proofs::KindLaws::log_known, edit_reply::proofs::KindLaws::table_known))]
pub fn psamathyr_edit(
    log: &mut [u8],
    pile: &[u8],
    sand: SandFields,
    table: &mut [u8],
    kind: u32,
    k: u32,
    x: u32,
    row: &[u8],
) -> Answer
    ensures reply { result ≡ edit_reply (asked kind k x row.now) log.old pile.now (sand_from sand) table.old }
    ensures log { log.new ≡ edit_log (asked kind k x row.now) log.old pile.now table.old }
    ensures table { table.new ≡ edit_table (asked kind k x row.now) log.old pile.now (sand_from sand) table.old }
{
    let extra = Option::<SandNumbers>::from(sand);
    edit_reply::edit(log, pile, extra, table, Edit::asked(kind, k, x, row))
}

pub fn psamathyr_read_log(log: &[u8]) -> LogRead
    ensures { result ≡ read_log log.now }
{
    record_logs::read_log(log)
}

// Looks at count and rows only.
pub fn psamathyr_pack_log(fields: LogRead, log: &mut [u8]) -> Answer
    ensures reply { result ≡ refused (pack_log_check fields.log log.old) }
    ensures log { log.new ≡ packed_log fields.log log.old }
{
    let rows = fields.log;
    Answer::from(refusal_in(record_packing::pack_log(rows, log)))
}

pub fn psamathyr_read_pile(pile: &[u8]) -> PileRead
    ensures { result ≡ read_pile pile.now }
{
    record_piles::read_pile(pile)
}

// Looks at section to grade only.
pub fn psamathyr_pack_pile(fields: PileRead, pile: &mut [u8]) -> Answer
    ensures reply { result ≡ refused (pack_pile_check (pile_of_read fields) pile.old) }
    ensures pile { pile.new ≡ packed_pile (pile_of_read fields) pile.old }
{
    let parts = Pile::from(fields);
    Answer::from(refusal_in(record_pile_bytes::pack_pile(parts, pile)))
}

pub fn psamathyr_read_slice(table: &[u8], place: u32) -> SliceRead
    ensures { result ≡ read_slice table.now place }
{
    record_slices::read_slice(table, place)
}
