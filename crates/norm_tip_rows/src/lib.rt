// Where a depth and an index stand in table 7.8: the row by arithmetic on whole metres.
#![tactic(auto)]

ghost use Rattle.std.specs.Prelude.{◌≡◌, ◌<◌, ◌≤◌, get_or};
ghost use Rattle.rules.specs.Tables.{tip_depths, row_for, spot_of};
ghost use Rattle.norm_spots.specs.Spots.{InTable};

use rules::Spot;

// The row of table 7.8 in which a whole metre stands, of the nine that have one below.
#[tactic(auto, unfolding(rules::specs::Tables::row_for))]
fn tip_row(metre: u64) -> u64
    requires { (3 ≤ metre) × (metre ≤ 40) }
    ensures { result ≡ row_for tip_depths 1 8 0 metre }
{
    if metre < 10 {
        return (2 * metre - 4) / 5;
    }
    if metre < 20 {
        return metre / 3;
    }
    (metre / 10 + 5).min(8)
}

// How deep a row of table 7.8 is, in metres.
fn tip_row_depth(row: u64) -> u64
    requires { row < 10 }
    ensures { result ≡ get_or tip_depths row 0 }
{
    if row < 4 {
        return (9 * row + 13) / 4;
    }
    if row < 7 {
        return 3 * row;
    }
    10 * row - 50
}

// Where a depth in millimetres and q hundredths right of the first column stand in table 7.8: above 3 m at 3 m, below 40 m at 40 m.
pub fn tip_spot(depth: u64, q: u64) -> Spot
    ensures { (result ≡ spot_of tip_depths 1000 8 5 depth q) × InTable 8 5 result }
{
    let read = depth.clamp(3000, 40000);
    let row = tip_row(read / 1000);
    let above = tip_row_depth(row) * 1000;
    let below = tip_row_depth(row + 1) * 1000;
    let col = norm_columns::column_for(q, 5);
    Spot {
        row: row as usize,
        column: col.number,
        down: read - above,
        span: below - above,
        across: col.across,
    }
}
