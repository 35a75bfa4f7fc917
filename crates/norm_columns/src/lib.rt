// Which column of a table of the pile norm an index reads, and two numbers weighed.
#![tactic(auto)]

ghost use Rattle.std.specs.Prelude.{◌≡◌, ◌+◌, ◌*◌, ◌-◌, ◌<◌, ◌≤◌, max};
ghost use Rattle.rules.specs.Bounds.{weighed_bound};
ghost use Rattle.norm_columns.specs.Across.{Across};

// How far an index stands right of a table's first column. Both are stored as hundredths plus 100.
pub fn past(first: u8, index: u8) -> u64
    ensures { (result ≡ max first index - first) × (result < 256) }
{
    u64::from(index.saturating_sub(first))
}

// The column left of a reading, and tenths of the way to the next.
#[derive(Clone, Copy)]
pub struct Column {
    pub number: usize,
    pub across: u64,
}

// The column q hundredths right of the first, in a table of c + 2 columns.
pub fn column_for(q: u64, c: u64) -> Column
    requires { c ≤ 7 }
    ensures { Across c q result }
{
    let right = q.min((c + 1) * 10);
    let j = c.min(right / 10);
    Column {
        number: j as usize,
        across: right - j * 10,
    }
}

// Two numbers weighed: b by a part of the whole, a by the rest of it.
#[tactic(auto, using(crate::proofs::Means::mean_max))]
pub fn mean(whole: u64, part: u64, a: u64, b: u64) -> u64
    requires { (part ≤ whole) × (whole ≤ 20000) × (a ≤ weighed_bound) × (b ≤ weighed_bound) }
    ensures { (result ≡ (whole - part) * a + part * b) × (result ≤ whole * max a b) }
{
    (whole - part) * a + part * b
}
