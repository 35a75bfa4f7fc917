// Check 2 of a log: its count, and its unused places.
#![tactic(auto)]

ghost use Rattle.std.specs.Prelude.{◌≡◌, ◌+◌, ◌*◌, ◌<◌};
ghost use Rattle.rules.specs.Base.{neg, all_zero};
ghost use Rattle.rules.specs.Records.{row_size};
ghost use Rattle.rules.specs.Limits.{limit_of};
ghost use Rattle.rules.specs.Checks.{count_wrong, unused_wrong};

use record_lengths::row_limit;
use rules::ROW_SIZE;

// Whether any byte is not zero: they are joined bit by bit, with no test in between.
#[tactic(auto, using(crate::proofs::BlankLaws::joined))]
fn any_set(bytes: &[u8]) -> bool
    ensures { result ≡ neg (all_zero bytes.now) }
{
    bytes.iter().fold(0, |any, &byte| any | byte) != 0
}

pub fn count_wrong(limit: usize, n: u8) -> bool
    ensures { result ≡ count_wrong limit n }
{
    n == 0 || limit < usize::from(n)
}

// Where n rows end and the unused places begin.
fn rows_end(n: u8) -> usize
    ensures { result ≡ 1 + n * row_size }
{
    1 + usize::from(n) * ROW_SIZE
}

// Check 2.
#[tactic(auto, using(rules::proofs::FormLaws::limit_long), unfolding(rules::specs::Checks::unused_wrong, rules::specs::Limits::limit_of))]
pub fn unused_wrong(s: &[u8]) -> bool
    requires { 0 < limit_of s.now }
    ensures { result ≡ unused_wrong s.now }
{
    let n = s[0];
    let limit = row_limit(s.len()).unwrap();
    count_wrong(limit, n) || any_set(&s[rows_end(n)..])
}
