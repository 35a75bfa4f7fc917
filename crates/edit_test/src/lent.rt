// What the steps work on, and what is printed of it.
ghost use Rattle.std.specs.Prelude.{◌≤◌};

use rules::{Answer, SandFields, SandNumbers};
use std::io;

// More than any piece that is rightly lent.
const LOG_ROOM: usize = 400;

const PILE_ROOM: usize = 20;

// Four numbers of four bytes: given, angle, unit weight below, unit weight above.
const SAND_ROOM: usize = 16;

const TABLE_ROOM: usize = 700;

const SUM_BASE: u64 = 1000000007;

#[derive(Clone, Copy)]
pub(crate) struct Lent {
    pub(crate) log: [u8; LOG_ROOM],
    pub(crate) pile: [u8; PILE_ROOM],
    pub(crate) sand: [u8; SAND_ROOM],
    pub(crate) table: [u8; TABLE_ROOM],
}

impl Lent {
    // Zeros.
    pub(crate) fn new() -> Lent {
        Lent {
            log: [0; LOG_ROOM],
            pile: [0; PILE_ROOM],
            sand: [0; SAND_ROOM],
            table: [0; TABLE_ROOM],
        }
    }

    // The extra record of the 16 bytes.
    pub(crate) fn extra(&self) -> Option<SandNumbers> {
        let sand = &self.sand;
        Option::<SandNumbers>::from(SandFields {
            given: number_at(sand, 0),
            angle: number_at(sand, 4),
            below: number_at(sand, 8),
            above: number_at(sand, 12),
        })
    }

    // A reply, and the sums of the log and of the table.
    pub(crate) fn show(&self, rt: &impl Print, a: Answer) -> io::Result<()> {
        let refusal = a.refusal;
        print!(rt;
            "{} {} {} {} ",
            refusal.number, refusal.row, refusal.field, a.kept
        )?;
        print!(rt;
            "{} {} {} {} {} ",
            a.line, a.tip, a.shaft, a.capacity, a.uplift
        )?;
        println!(rt; "{} {}", sum(&self.log), sum(&self.table))
    }
}

// The four bytes from i on as one number.
fn number_at(s: &[u8; SAND_ROOM], i: usize) -> u32
    requires { i ≤ 12 }
{
    u32::from_be_bytes([s[i], s[i + 1], s[i + 2], s[i + 3]])
}

// A sum that changes with any one byte: a rest by SUM_BASE, which has 30 bits.
fn sum(s: &[u8]) -> u32 {
    s.iter().fold(0, |total: u32, b| {
        ((u64::from(total) * 31 + u64::from(*b)) % SUM_BASE) as u32
    })
}
