// The four edits of a lent log: their refusals in order, the log as it then stands, its answer and table, and kept.
#![tactic(auto)]

ghost use Rattle.std.specs.Prelude.{◌≡◌};
ghost use Rattle.rules.specs.EditReplies.{edit_reply, edit_log, edit_table};
ghost use Rattle.edit_naming.specs.Asked.{edit_of};

use edit_changes::change;
use edit_checks::check_edit;
use edit_hold::hold;
use record_log_checks::{CheckedLog, PassedLog};
use rules::{Answer, Refusal, SandNumbers};

// An edit of a log, with a pile record and its extra record, a slice table and a new row of any lengths: the reply, and the log and table afterwards.
pub fn edit(
    log: &mut [u8],
    pile: &[u8],
    extra: Option<SandNumbers>,
    table: &mut [u8],
    edit: edit_naming::Edit<'_>,
) -> Answer
    ensures reply { result ≡ edit_reply (edit_of edit.entry) log.old pile.now extra table.old }
    ensures log { log.new ≡ edit_log (edit_of edit.entry) log.old pile.now table.old }
    ensures table { table.new ≡ edit_table (edit_of edit.entry) log.old pile.now extra table.old }
{
    match check_edit(log, pile, table, edit) {
        Ok(depth) => {
            change(log, edit);
            let log = PassedLog { bytes: log };
            hold(CheckedLog { log, depth }, pile, extra, table)
        }
        Err(fault) => Answer::from(Refusal::from(fault)),
    }
}
