// An edit, what it names, and whether there is room: one of four kinds, a row of the log, a split point in it, and a place for one more row.
// Checks 13 and 14. Each `requires` is that the log has the bytes of its rows; checks 1 and 2 come before.
#![tactic(auto)]

ghost use Rattle.std.specs.Prelude.{◌≡◌, ◌+◌, ◌*◌, ◌≤◌, ◌<◌, length};
ghost use Rattle.rules.specs.Base.{within};
ghost use Rattle.rules.specs.Records.{row_size};
ghost use Rattle.rules.specs.Limits.{limit_of};
ghost use Rattle.rules.specs.Packed.{count_of, rows_of};
ghost use Rattle.rules.specs.Edits as rule;
ghost use Rattle.rules.specs.Checks as checks;
ghost use Rattle.edit_naming.specs.Asked.{edit_of, known, number_of};

use rules::{Fault, ROW_SIZE, Row};

#[derive(Clone, Copy, PartialEq, Eq)]
pub enum EditKind {
    Replace,
    Insert,
    Remove,
    Split,
}

// The kinds are numbered from 1; every other number is refused as 13.
impl TryFrom<u32> for EditKind {
    ghost use Rattle.std.specs.Prelude.{◌≡◌, IfErr};
    ghost use Rattle.std.specs.Result.{result_ok};
    ghost use Rattle.rules.specs.declared.faults.Fault.TheVariants.{NamesNothing};
    ghost use Rattle.edit_naming.specs.Asked.{known, number_of};

    type Error = Fault;

    ghost try_from_gives = { λ number outcome. (number_of (result_ok outcome) ≡ known number) × IfErr outcome (λ fault. fault ≡ NamesNothing) };

    fn try_from(number: u32) -> Result<EditKind, Fault> {
        match number {
            1 => Ok(EditKind::Replace),
            2 => Ok(EditKind::Insert),
            3 => Ok(EditKind::Remove),
            4 => Ok(EditKind::Split),
            _ => Err(Fault::NamesNothing),
        }
    }
}

// An edit as it is asked for: of no kind where the number is none of the four. Row k counts from 1, x mm is the split point, and row has the
// bytes of the row that a replace or an insert brings.
#[derive(Clone, Copy)]
pub struct Edit<'a> {
    pub kind: Option<EditKind>,
    pub k: u32,
    pub x: u32,
    pub row: &'a [u8],
}

// Whether k is one of 1 to n.
fn one_of(n: u32, k: u32) -> bool
    ensures { result ≡ within 1 n k }
{
    (1..=n).contains(&k)
}

#[tactic(auto, using(rules::proofs::PassedLaws::count_length))]
fn count_of(log: &[u8]) -> u32
    requires { 1 ≤ length log.now }
    ensures { (result ≡ length (rows_of log.now)) × (result < 256) }
{
    u32::from(log[0])
}

// Row k of the log.
#[tactic(auto, using(crate::proofs::NamingLaws::row_there))]
pub fn named_row(log: &[u8], k: u32) -> Row
    requires { (1 ≤ k) × (k ≤ count_of log.now) × (1 + count_of log.now * row_size ≤ length log.now) }
    ensures { result ≡ rule.row_named (rows_of log.now) k }
{
    let at = 1 + (k as usize - 1) * ROW_SIZE;
    record_rows::row_inside(log, at)
}

impl<'a> Edit<'a> {
    pub fn asked(kind: u32, k: u32, x: u32, row: &'a [u8]) -> Edit<'a>
        ensures edit { edit_of result ≡ rule.asked (known kind) k x row.now }
        ensures lent { result.row ≡ row.entry }
    {
        let kind = EditKind::try_from(kind).ok();
        Edit { kind, k, x, row }
    }

    // Replace and insert.
    pub fn brings(self) -> bool
        ensures { result ≡ rule.brings (number_of self.entry.kind) }
    {
        matches!(self.kind, Some(EditKind::Replace | EditKind::Insert))
    }

    // Insert and split.
    fn grows(self) -> bool
        ensures { result ≡ rule.grows (number_of self.entry.kind) }
    {
        matches!(self.kind, Some(EditKind::Insert | EditKind::Split))
    }

    // Check 13 the other way round: the edit is one of the four, and names a row and a split point that are there.
    #[tactic(auto, using(rules::proofs::PassedLaws::count_length), unfolding(rules::specs::Edits::stands))]
    pub fn stands(self, log: &[u8]) -> bool
        requires { 1 + count_of log.now * row_size ≤ length log.now }
        ensures { result ≡ rule.stands (edit_of self.entry) (rows_of log.now) }
    {
        let n = count_of(log);
        let k = self.k;
        match self.kind {
            Some(EditKind::Replace) => one_of(n, k),
            Some(EditKind::Insert) => one_of(n + 1, k),
            Some(EditKind::Remove) => one_of(n, k) && 1 < n,
            Some(EditKind::Split) => {
                one_of(n, k) && (1..u32::from(named_row(log, k).thickness)).contains(&self.x)
            }
            None => false,
        }
    }

    // Check 14.
    #[tactic(auto, using(rules::proofs::PassedLaws::count_length), unfolding(rules::specs::Limits::limit_of))]
    pub fn full(self, log: &[u8]) -> bool
        requires { 1 ≤ length log.now }
        ensures { result ≡ checks.full (number_of self.entry.kind) (limit_of log.now) (length (rows_of log.now)) }
    {
        let limit = record_lengths::row_limit(log.len()).unwrap_or(0);
        self.grows() && limit <= usize::from(log[0])
    }
}
