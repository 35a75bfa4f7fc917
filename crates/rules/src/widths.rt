// The widths in bits of the fields of every record, in their order, and the bytes that they make; specs/Records.antt has them as definitions.
pub const ROW_THICKNESS: usize = 16;

pub const ROW_KIND: usize = 3;

pub const ROW_INDEX: usize = 8;

pub const ROW_SATURATION: usize = 7;

pub const ROW_ZERO: usize = 6;

pub const ROW_SIZE: usize = (ROW_THICKNESS + ROW_KIND + ROW_INDEX + ROW_SATURATION + ROW_ZERO) / 8;

pub const PILE_SECTION: usize = 2;

pub const PILE_A: usize = 12;

pub const PILE_B: usize = 12;

pub const PILE_METHOD: usize = 2;

pub const PILE_HEAD: usize = 16;

pub const PILE_TIP: usize = 16;

pub const PILE_ZERO: usize = 4;

pub const PILE_GRADE: usize = 16;

// A pile record without a grade, and one with it.
pub const PLAIN_SIZE: usize = (PILE_SECTION
    + PILE_A
    + PILE_B
    + PILE_METHOD
    + PILE_HEAD
    + PILE_TIP
    + PILE_ZERO)
    / 8;

pub const GRADED_SIZE: usize = PLAIN_SIZE + PILE_GRADE / 8;

pub const SLICE_TOP: usize = 16;

pub const SLICE_THICKNESS: usize = 11;

pub const SLICE_FRICTION: usize = 25;

pub const SLICE_FACTOR: usize = 4;

pub const SLICE_SIZE: usize = (SLICE_TOP + SLICE_THICKNESS + SLICE_FRICTION + SLICE_FACTOR) / 8;
