// A log past checks 1 to 4, and how deep it is.
ghost use Rattle.std.specs.Prelude.{◌≡◌, ◌+◌, ◌*◌, ◌<◌};
ghost use Rattle.rules.specs.Records.{row_size};
ghost use Rattle.rules.specs.Packed.{count_of, row_at, rows_of};
ghost use Rattle.rules.specs.Ground.{depth_of};
ghost use Rattle.rules.specs.Checks.{Passed};

use record_rows::row_inside;
use rules::{ROW_SIZE, Row};

// A log past checks 1 to 4. Whoever holds one may read its rows by number: each lies in the bytes.
#[derive(Clone, Copy)]
pub struct PassedLog<'a> {
    pub bytes: &'a [u8],
    pub ghost passed: { Passed bytes.now },
}

impl<'a> PassedLog<'a> {
    // A row by its number, counted from 0.
    #[tactic(auto, using(crate::proofs::CheckedLaws::row_fits))]
    pub fn row(self, number: usize) -> Row
        requires { number < count_of self.bytes.now }
        ensures { result ≡ row_at self.entry.bytes.now (1 + number * row_size) }
    {
        row_inside(self.bytes, 1 + number * ROW_SIZE)
    }
}

// And how deep it is.
#[derive(Clone, Copy)]
pub struct CheckedLog<'a> {
    pub log: PassedLog<'a>,
    pub depth: u64,
    pub ghost deep: { depth ≡ depth_of (rows_of log.bytes.now) },
}
