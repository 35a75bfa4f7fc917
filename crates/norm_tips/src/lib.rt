// Table 7.8, read as the pile norm says: resistance under the tip, by depth and index.
#![tactic(auto)]

ghost use Rattle.std.specs.Prelude.{◌≡◌, ◌*◌, ◌/◌, ◌<◌, ◌≤◌};
ghost use Rattle.rules.specs.Bounds.{cell_bound, resistance_bound};
ghost use Rattle.rules.specs.Tables.{tip_cell, kpa_of, gap};
ghost use Rattle.rules.specs.Numbers.{tip_read};
ghost use Rattle.rules.specs.Numbers as numbers;
ghost use Rattle.norm_spots.specs.Spots.{span_bound, Weights, InTable};
ghost use Rattle.norm_tips.specs.Cells.{cell_of, Printed, dash_of, tip_read_at};

use rules::Spot;

// The mark of a dash, which is no kPa.
const DASH: u16 = 65535;

// A row for each depth: kPa in columns 0.0 to 0.6.
const ROWS: [[u16; 7]; 10] = [
    [850, 750, 650, 500, 400, 300, 250],
    [1000, 850, 750, 650, 500, 400, 350],
    [1150, 1000, 850, 750, 600, 500, 450],
    [1350, 1200, 1050, 950, 800, 700, 600],
    [1550, 1400, 1250, 1100, 950, 800, 700],
    [1800, 1650, 1500, 1300, 1100, 1000, 800],
    [2100, 1900, 1700, 1500, 1300, 1150, 950],
    [2300, 2100, 1900, 1650, 1450, 1250, 1050],
    [3300, 3000, 2600, 2300, 2000, DASH, DASH],
    [4500, 4000, 3500, 3000, 2500, DASH, DASH],
];

// A stored number as a cell.
fn cell_of(n: u16) -> Option<u64>
    ensures { result ≡ cell_of n }
{
    (n != DASH).then_some(u64::from(n))
}

// A dash, and both weights above zero.
fn on_dash(u: u64, v: u64, c: Option<u64>) -> bool
    ensures { result ≡ gap u v c }
{
    c.is_none() && 0 < u && 0 < v
}

#[tactic(auto, unfolding(crate::specs::Cells::dash_of))]
fn any_dash(p: Spot, a: Option<u64>, b: Option<u64>, c: Option<u64>, d: Option<u64>) -> bool
    requires { Weights p }
    ensures { result ≡ dash_of p a b c d }
{
    let up = p.span - p.down;
    let left = 10 - p.across;
    on_dash(up, left, a)
        || on_dash(up, p.across, b)
        || on_dash(p.down, left, c)
        || on_dash(p.down, p.across, d)
}

// "R to whole Pa": rounded down once, after both interpolations.
fn whole_pascals(w: u64, span: u64) -> u64
    requires { (w ≤ span_bound * (10 * cell_bound)) × (0 < span) }
    ensures { result ≡ w * 100 / span }
{
    w * 100 / span
}

// The rows as they are printed.
#[derive(Drop)]
struct TipRows {
    cells: [[u16; 7]; 10],
    ghost printed: { Printed cells },
}

impl TipRows {
    fn cell(&self, i: usize, j: usize) -> Option<u64>
        requires { (i < 10) × (j < 7) }
        ensures { (result ≡ tip_cell i j) × (kpa_of result ≤ cell_bound) }
    {
        cell_of(self.cells[i][j])
    }

    // R, or the dash.
    fn tip_at(&self, p: Spot) -> Option<u64>
        requires { InTable 8 5 p }
        ensures { (result ≡ tip_read_at p) × (numbers.pascals result ≤ resistance_bound) }
    {
        let i = p.row;
        let j = p.column;
        let a = self.cell(i, j);
        let b = self.cell(i, j + 1);
        let c = self.cell(i + 1, j);
        let d = self.cell(i + 1, j + 1);
        if any_dash(p, a, b, c, d) {
            return None;
        }
        let w = norm_spots::weigh(
            p,
            a.unwrap_or(0),
            b.unwrap_or(0),
            c.unwrap_or(0),
            d.unwrap_or(0),
        );
        Some(whole_pascals(w, p.span))
    }
}

// At a depth in millimetres, by an index stored as hundredths plus 100.
pub fn tip_resistance(depth: u64, index: u8) -> Option<u64>
    ensures { (result ≡ tip_read depth index) × (numbers.pascals result ≤ resistance_bound) }
{
    let p = norm_tip_rows::tip_spot(depth, norm_columns::past(100, index));
    let rows = TipRows { cells: ROWS };
    rows.tip_at(p)
}
