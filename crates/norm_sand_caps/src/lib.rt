// Table 7.2, its columns for sand, read as the pile norm says: the most that R of a tip in sand may be.
#![tactic(auto)]

ghost use Rattle.std.specs.Prelude.{◌≡◌, ◌-◌, ◌*◌, ◌<◌, ◌≤◌};
ghost use Rattle.rules.specs.Bounds.{resistance_bound};
ghost use Rattle.rules.specs.SandTips.{cap_columns};
ghost use Rattle.rules.specs.SandTips as rule;
ghost use Rattle.norm_scales.specs.Scales.{Marked};
ghost use Rattle.norm_sand_caps.specs.Columns.{cap_at};

use norm_columns::past;
use norm_scales::{line_at, on_depths};
use rules::OnScale;

// A column for each kind of sand, 1 by medium, 2 by fine, 3 by silty: kPa at ten depths.
const COLUMNS: [[u16; 10]; 3] = [
    [3100, 3200, 3400, 3700, 4000, 4400, 4800, 5200, 5600, 6000],
    [2000, 2100, 2200, 2400, 2600, 2900, 3200, 3500, 3800, 4100],
    [1100, 1250, 1300, 1400, 1500, 1650, 1800, 1950, 2100, 2250],
];

// The columns as they are printed.
#[derive(Drop)]
struct CapColumns {
    cells: [[u16; 10]; 3],
    ghost printed: { cells ≡ cap_columns },
}

impl CapColumns {
    // A column between the two depths around a reading, in whole Pa.
    fn cap_at(&self, s: OnScale, i: usize) -> u64
        requires { Marked 8 s × (i < 3) }
        ensures { (result ≡ cap_at s i) × (result ≤ resistance_bound) }
    {
        line_at(&self.cells[i], s) * 1000 / s.span
    }
}

// For a kind of sand, at a depth in millimetres.
pub fn sand_cap(kind: u8, depth: u64) -> u64
    requires { kind ≤ 3 }
    ensures { (result ≡ rule.sand_cap kind depth) × (result ≤ resistance_bound) }
{
    let columns = CapColumns { cells: COLUMNS };
    columns.cap_at(on_depths(depth), past(1, kind) as usize)
}
