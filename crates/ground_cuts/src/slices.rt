// The slices of a part of one stratum one after another, from its top.
ghost use Rattle.std.specs.Prelude.{◌≡◌, ◌+◌, ◌*◌, ◌-◌, ◌^◌, ◌<◌, ◌≤◌};
ghost use Rattle.std.specs.Iterator.{at_most};
ghost use Rattle.rules.specs.Grades.{lowering};
ghost use Rattle.ground_cuts.specs.Cuts.{slices_in, left_of, Cuttable, Goes};

use norm_columns::Column;
use norm_friction::FrictionRows;
use norm_grades::Shift;
use rules::{Pile, Slice, Soil, THICKEST_SLICE};

// What is left of them: at which depth the next begins, and where the last ends. Column and factor are the soil's alone, the shift is the
// site's.
#[derive(Drop)]
pub struct Slices<'a> {
    rows: &'a FrictionRows,
    column: Column,
    factor: u8,
    shift: Shift,
    at: u64,
    end: u64,
}

impl<'a> Slices<'a> {
    #[tactic(auto, using(crate::proofs::SliceLaws::soil_left))]
    pub(crate) fn of(
        rows: &'a FrictionRows,
        pile: Pile,
        soil: Soil,
        from: u64,
        end: u64,
    ) -> Slices<'a>
        requires { (lowering pile.grade ≤ from) × (end < 2 ^ 16) }
        ensures { Cuttable result × (left_of result ≡ slices_in pile soil from end) × (result.at ≡ from) × (result.end ≡ end) }
    {
        Slices {
            rows,
            column: norm_friction::column_of(soil),
            factor: norm_factors::factor(pile.method, soil.kind),
            shift: norm_grades::shift_of(pile.grade),
            at: from,
            end,
        }
    }
}

impl<'a> Iterator for Slices<'a> {
    type Item = Slice;

    ghost can_next = { Cuttable };

    ghost next_gives = { Goes };

    ghost remaining = { λ s. at_most (s.end - s.at) };

    // At most 2,000 mm, and no further than the end.
    fn next(&mut self) -> Option<Slice> {
        if self.at >= self.end {
            return None;
        }
        let at = self.at;
        let thickness = THICKEST_SLICE.min(self.end - at);
        // Friction is read at the mid-depth, in half millimetres, from the top as the site's grade moves it.
        let top = at + self.shift.raising - self.shift.lowering;
        let friction = self.rows.friction(self.column, top + top + thickness);
        self.at += thickness;
        Some(Slice {
            top: at as u16,
            thickness: thickness as u16,
            friction: friction as u32,
            factor: self.factor,
        })
    }
}
