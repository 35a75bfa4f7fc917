// Where a mid-depth stands among the rows of table 7.3, by arithmetic on the depth.
#![tactic(auto)]

ghost use Rattle.norm_friction_rows.specs.Standings.{Stands};

// The row above a mid-depth, 20,000ths of the way to the next row, and how many 20,000ths of a reading count.
#[derive(Clone, Copy)]
pub struct Standing {
    pub row: usize,
    pub part: u64,
    pub whole: u64,
}

// In table 7.3, in half millimetres. Its rows stand 1 m apart from 1 m on, 2 m apart from 6 m on and 5 m apart from 10 m to 35 m, each at
// a whole number of such steps: the steps down to a depth tell its row, what is left over its part of the way. "above 1 m depth the 1 m
// row, below 35 m the 35 m row". All of a reading counts from 1 m on, and above 1 m as much as the mid-depth has of 1 m.
#[tactic(auto, using(crate::proofs::Steps::above_all, crate::proofs::Steps::by_one_metre, crate::proofs::Steps::by_two_metres, crate::proofs::Steps::by_five_metres, crate::proofs::Steps::below_all))]
pub fn friction_row(mid: u64) -> Standing
    ensures { Stands mid result }
{
    if 20000 <= mid {
        if 70000 <= mid {
            return Standing {
                row: 11,
                part: 20000,
                whole: 20000,
            };
        }
        return Standing {
            row: (mid / 10000 + 5) as usize,
            part: mid % 10000 * 2,
            whole: 20000,
        };
    }
    if 12000 <= mid {
        return Standing {
            row: (mid / 4000 + 2) as usize,
            part: mid % 4000 * 5,
            whole: 20000,
        };
    }
    if 2000 <= mid {
        return Standing {
            row: (mid / 2000 - 1) as usize,
            part: mid % 2000 * 10,
            whole: 20000,
        };
    }
    Standing {
        row: 0,
        part: 0,
        whole: mid * 10,
    }
}
