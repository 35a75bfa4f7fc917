// Table 7.7, read as the pile norm says: the coefficients of a tip in sand, in whole ten-thousandths.
#![tactic(auto)]

ghost use Rattle.std.specs.Prelude.{◌≡◌, ◌+◌, ◌*◌, ◌<◌, ◌≤◌};
ghost use Rattle.rules.specs.Bounds.{cell_bound};
ghost use Rattle.rules.specs.SandTips.{sand_lines};
ghost use Rattle.rules.specs.SandTips as rule;
ghost use Rattle.norm_scales.specs.Scales.{Marked};

use norm_columns::mean;
use norm_scales::{SandTip, line_at, on_angles, on_diameters, on_ratios};
use rules::OnScale;

// A line for each coefficient, with a cell for each angle: α1 and α2 in tenths, α3 at ten h/d and α4 at two diameters in hundredths.
const LINES: [[u16; 9]; 14] = [
    [95, 126, 173, 244, 346, 486, 713, 1080, 1630],
    [186, 248, 328, 455, 640, 876, 1270, 1850, 2600],
    [78, 79, 80, 82, 84, 85, 85, 85, 87],
    [75, 76, 77, 79, 81, 82, 83, 84, 85],
    [68, 70, 71, 74, 76, 78, 80, 82, 84],
    [62, 65, 67, 70, 73, 75, 77, 79, 81],
    [58, 61, 63, 67, 70, 73, 75, 78, 80],
    [55, 58, 61, 65, 68, 71, 73, 76, 79],
    [51, 55, 58, 62, 66, 69, 72, 75, 78],
    [49, 53, 57, 61, 65, 68, 72, 75, 78],
    [46, 51, 55, 60, 64, 67, 71, 74, 77],
    [44, 49, 54, 59, 63, 67, 70, 74, 77],
    [34, 31, 29, 27, 26, 25, 24, 23, 22],
    [25, 24, 23, 22, 21, 20, 19, 18, 17],
];

// The lines as they are printed.
#[derive(Drop)]
struct SandLines {
    cells: [[u16; 9]; 14],
    ghost printed: { cells ≡ sand_lines },
}

fn lines() -> SandLines {
    SandLines { cells: LINES }
}

impl SandLines {
    // A line between the two angles around a reading, times their span.
    fn at_angle(&self, s: OnScale, i: usize) -> u64
        requires { Marked 7 s × (i < 14) }
        ensures { (result ≡ rule.at_angle s i) × (result ≤ s.span * cell_bound) }
    {
        line_at(&self.cells[i], s)
    }

    // A coefficient of one line, printed in tenths.
    fn of_tenths(&self, s: OnScale, i: usize) -> u64
        requires { Marked 7 s × (i < 14) }
        ensures { (result ≡ rule.of_tenths s i) × (result ≤ cell_bound * 1000) }
    {
        self.at_angle(s, i) * 1000 / s.span
    }

    // A coefficient between two lines, printed in hundredths: rounded down once, after both interpolations.
    fn of_hundredths(&self, s: OnScale, first: usize, m: OnScale) -> u64
        requires { Marked 7 s × Marked 8 m × (first + m.place < 13) }
        ensures { (result ≡ rule.of_hundredths s first m) × (result ≤ cell_bound * 100) }
    {
        let i = first + m.place;
        let upper = self.at_angle(s, i);
        let lower = self.at_angle(s, i + 1);
        mean(m.span, m.past, upper, lower) * 100 / (m.span * s.span)
    }
}

// Each at a reduced angle in thousandths of a degree.
pub fn alpha_1(t: u64) -> u64
    ensures { (result ≡ rule.alpha1 t) × (result ≤ cell_bound * 1000) }
{
    lines().of_tenths(on_angles(t), 0)
}

pub fn alpha_2(t: u64) -> u64
    ensures { (result ≡ rule.alpha2 t) × (result ≤ cell_bound * 1000) }
{
    lines().of_tenths(on_angles(t), 1)
}

// α3 of a tip, and α4 of a pile's diameter in millimetres.
pub fn alpha_3(t: u64, tip: SandTip) -> u64
    ensures { (result ≡ rule.alpha3 t tip.height tip.diameter) × (result ≤ cell_bound * 100) }
{
    lines().of_hundredths(on_angles(t), 2, on_ratios(tip))
}

pub fn alpha_4(t: u64, d: u64) -> u64
    ensures { (result ≡ rule.alpha4 t d) × (result ≤ cell_bound * 100) }
{
    lines().of_hundredths(on_angles(t), 12, on_diameters(d))
}
