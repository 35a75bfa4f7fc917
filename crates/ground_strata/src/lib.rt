// The strata along the rows of a log: each from the row at which it begins, as long as the soil stays the same.
#![tactic(auto)]

ghost use Rattle.std.specs.Prelude.{◌≡◌, ◌+◌, ◌-◌, ◌<◌};
ghost use Rattle.rules.specs.Packed.{rows_of};
ghost use Rattle.rules.specs.Ground.{depth_of};
ghost use Rattle.std.specs.Iterator.{at_most};
ghost use Rattle.ground_strata.specs.Strata.{Begins, Reaches, Walks, Goes, from_ground};

use record_log_checks::PassedLog;
use rules::Soil;

// Its soil, the depth down to which it goes, and the row that comes next, counted from 0.
#[derive(Clone, Copy)]
pub struct StratumFound {
    pub soil: Soil,
    pub bottom: u64,
    pub next: usize,
}

// Rows are taken while the soil stays the same, and none below the millimetre that the tip stands on. The log goes on below the tip,
// so nothing asks where it ends.
pub fn stratum_from(log: PassedLog<'_>, first: usize, top: u64, tip: u64) -> StratumFound
    requires { Begins log.bytes.now first top tip }
    ensures { Reaches log.entry.bytes.now first top tip result }
{
    let row = log.row(first);
    let soil = Soil::from(row);
    let mut bottom = top + u64::from(row.thickness);
    let mut next = first + 1;
    while bottom <= tip {
        let below = log.row(next);
        if soil != Soil::from(below) {
            return StratumFound { soil, bottom, next };
        }
        bottom += u64::from(below.thickness);
        next += 1;
    }
    StratumFound { soil, bottom, next }
}

// A stratum of a log: its soil, the row at which it begins, counted from 0, its top and its bottom.
#[derive(Clone, Copy)]
pub struct Stratum {
    pub soil: Soil,
    pub first: usize,
    pub top: u64,
    pub bottom: u64,
}

// What is left of a log's strata, from the ground down to the one that the tip stands on: the next one's first row and its top.
#[derive(Drop)]
pub struct Strata<'a> {
    log: PassedLog<'a>,
    tip: u64,
    next: usize,
    top: u64,
}

impl<'a> Strata<'a> {
    pub fn down_to(log: PassedLog<'a>, tip: u64) -> Strata<'a>
        requires { tip < depth_of (rows_of log.bytes.now) }
        ensures { result ≡ from_ground log.entry tip }
    {
        Strata {
            log,
            tip,
            next: 0,
            top: 0,
        }
    }
}

impl<'a> Iterator for Strata<'a> {
    type Item = Stratum;

    ghost can_next = { Walks };

    ghost next_gives = { Goes };

    ghost remaining = { λ s. at_most (s.tip + 1 - s.top) };

    fn next(&mut self) -> Option<Stratum> {
        if self.tip < self.top {
            return None;
        }
        let first = self.next;
        let top = self.top;
        let found = stratum_from(self.log, first, top, self.tip);
        self.next = found.next;
        self.top = found.bottom;
        Some(Stratum {
            soil: found.soil,
            first,
            top,
            bottom: found.bottom,
        })
    }
}
