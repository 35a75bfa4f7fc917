// The four cells weighed between which a reading of a table of the pile norm stands.
#![tactic(auto)]

ghost use Rattle.std.specs.Prelude.{◌≡◌, ◌*◌, ◌≤◌};
ghost use Rattle.rules.specs.Bounds.{cell_bound};
ghost use Rattle.rules.specs.Tables.{weighed};
ghost use Rattle.norm_spots.specs.Spots.{span_bound, Weights};

use norm_columns::mean;
use rules::Spot;

// The four cells weighed, times span times ten.
pub fn weigh(p: Spot, a: u64, b: u64, c: u64, d: u64) -> u64
    requires { Weights p × (a ≤ cell_bound) × (b ≤ cell_bound) × (c ≤ cell_bound) × (d ≤ cell_bound) }
    ensures { (result ≡ weighed p a b c d) × (result ≤ span_bound * (10 * cell_bound)) }
{
    let across = p.across;
    let upper = mean(10, across, a, b);
    let lower = mean(10, across, c, d);
    mean(p.span, p.down, upper, lower)
}
