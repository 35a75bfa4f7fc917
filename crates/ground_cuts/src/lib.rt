// The slices of a part of one stratum: how thick each is, its friction and factor, its place in the lent table, and its part of the sum.
#![tactic(auto)]

ghost use Rattle.std.specs.Prelude.{◌≡◌, ◌+◌, ◌*◌, ◌-◌, ◌^◌, ◌<◌, ◌≤◌, length};
ghost use Rattle.rules.specs.Widths.{Fits};
ghost use Rattle.rules.specs.Records.{slice_widths, slice_fields, slice_size};
ghost use Rattle.rules.specs.Bounds.{weight_bound};
ghost use Rattle.rules.specs.Grades.{lowering};
ghost use Rattle.rules.specs.Numbers.{friction_sum};
ghost use Rattle.record_slice_table.specs.Table.{put_all};
ghost use Rattle.ground_cuts.specs.Cuts.{slices_in, weight_of};

mod slices;

use norm_friction::FrictionRows;
use record_slice_table::put_slice;
use rules::{Pile, Slice, Soil};
use slices::Slices;

// How many places of the table are used, and friction × thickness × factor of the slices that were cut, added up.
#[derive(Clone, Copy)]
pub struct Cut {
    pub used: usize,
    pub sum: u64,
}

// Friction × thickness × factor.
fn weigh(slice: Slice) -> u64
    requires { Fits slice_widths (slice_fields slice) }
    ensures { result ≡ weight_of slice }
{
    u64::from(slice.friction) * u64::from(slice.thickness) * u64::from(slice.factor)
}

// What lies from one depth to another in a stratum of this soil, cut from its top, slice after slice put into the table from a place on.
// Table 7.3 is lent.
#[tactic(auto, using(crate::proofs::SliceLaws::cutting_none, crate::proofs::SliceLaws::one_more, crate::proofs::SliceLaws::sum_small))]
pub fn cut_part(
    rows: &FrictionRows,
    table: &mut [u8],
    place: usize,
    pile: Pile,
    soil: Soil,
    from: u64,
    end: u64,
) -> Cut
    requires { (lowering pile.grade ≤ from) × (end < 2 ^ 16) × ((place + length (slices_in pile soil from end)) * slice_size ≤ length table.old) }
    ensures cut { (result ≡ record { used = place + length (slices_in pile soil from end); sum = friction_sum (slices_in pile soil from end) }) × (result.sum ≤ weight_bound * (end - from)) }
    ensures table { table.new ≡ put_all table.old place (slices_in pile soil from end) }
{
    let mut used = place;
    let mut sum: u64 = 0;
    for slice in Slices::of(rows, pile, soil, from, end) {
        put_slice(table, used, slice);
        sum += weigh(slice);
        used += 1;
    }
    Cut { used, sum }
}
