// Check 1 of a log, a pile record and a slice table: the lengths that they may have, and the row limit that the length of a log or a table tells.
#![tactic(auto)]

ghost use Rattle.std.specs.Prelude.{◌≡◌, ◌≤◌, ◌<◌, unwrap_or, IfSome};
ghost use Rattle.rules.specs.Limits.{row_limit, forms, log_size, table_size, form_by};
ghost use Rattle.rules.specs.Checks.{pile_length_wrong, lengths_wrong};

use rules::{GRADED_SIZE, LOG_SIZE, MORE_PLACES, PLAIN_SIZE, ROW_LIMIT, SLICE_SIZE, TABLE_SIZE};

// The row limit of a log of so many bytes, where a form is that long.
pub fn row_limit(len: usize) -> Option<usize>
    ensures told { unwrap_or result 0 ≡ form_by log_size forms len }
    ensures form { IfSome result (λ limit. (0 < limit) × (limit ≤ row_limit)) }
{
    (len == LOG_SIZE).then_some(ROW_LIMIT)
}

// The row limit that a slice table of so many bytes goes with, where there is one.
pub fn table_limit(len: usize) -> Option<usize>
    ensures told { unwrap_or result 0 ≡ form_by table_size forms len }
    ensures form { IfSome result (λ limit. (0 < limit) × (limit ≤ row_limit)) }
{
    (len == TABLE_SIZE).then_some(ROW_LIMIT)
}

// Check 1 of a pile record: it has neither eight bytes nor ten.
pub fn pile_length_wrong(pile: &[u8]) -> bool
    ensures { result ≡ pile_length_wrong pile.now }
{
    pile.len() != PLAIN_SIZE && pile.len() != GRADED_SIZE
}

// Check 1 of a calculation: the log has a form, the pile record one of its lengths, and the table goes with the log.
#[tactic(auto, unfolding(rules::specs::Limits::limit_of))]
pub fn lengths_wrong(log: &[u8], pile: &[u8], table: &[u8]) -> bool
    ensures { result ≡ lengths_wrong log.now pile.now table.now }
{
    let Some(limit) = row_limit(log.len()) else {
        return true;
    };
    pile_length_wrong(pile) || table.len() != (limit + MORE_PLACES) * SLICE_SIZE
}
