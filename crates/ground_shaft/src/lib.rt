// The shaft cut into slices: stratum after stratum from the ground down to the tip, each slice put into its place of the lent table; and
// the soil that the tip stands on, with the top of its stratum.
#![tactic(auto)]

ghost use Rattle.std.specs.Prelude.{◌≡◌, ◌≤◌, length};
ghost use Rattle.rules.specs.Bounds.{sum_bound};
ghost use Rattle.rules.specs.Packed.{rows_of, table_bytes};
ghost use Rattle.ground_shaft.specs.Shafts.{Ready, cut_of, shaft_of};

use ground_cuts::cut_part;
use ground_strata::Strata;
use record_log_checks::PassedLog;
use record_slice_table::clear_table;
use rules::{Pile, Soil};

// How many slices a shaft has, the sum of friction × thickness × factor, the soil below the tip and the top of its stratum.
#[derive(Clone, Copy, Default)]
pub struct Shaft {
    pub used: usize,
    pub sum: u64,
    pub soil: Soil,
    pub top: u64,
}

// The part of each stratum between head and tip, cut from its top. A table has places for every shaft, so nothing counts them.
pub fn cut_shaft(log: PassedLog<'_>, pile: Pile, table: &mut [u8]) -> Shaft
    requires { Ready log pile (length table.old) }
    ensures shaft { (result ≡ shaft_of (rows_of log.entry.bytes.now) pile) × (result.sum ≤ sum_bound) }
    ensures table { table.new ≡ table_bytes (length table.old) (cut_of (rows_of log.entry.bytes.now) pile) }
{
    clear_table(table);
    let rows = norm_friction::rows();
    let head = u64::from(pile.head);
    let tip = u64::from(pile.tip);
    let mut shaft = Shaft::default();
    // The row at which the stratum that was cut last begins: to keep its soil from turn to turn would take longer than to read it again.
    let mut first = 0;
    for stratum in Strata::down_to(log, tip) {
        let from = head.max(stratum.top);
        let end = tip.min(stratum.bottom);
        let part = cut_part(&rows, table, shaft.used, pile, stratum.soil, from, end);
        shaft.used = part.used;
        shaft.sum += part.sum;
        shaft.top = stratum.top;
        first = stratum.first;
    }
    shaft.soil = Soil::from(log.row(first));
    shaft
}
