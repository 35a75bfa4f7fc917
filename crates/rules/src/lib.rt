// The things documents 01 and 02 speak of, as types: soil, row, log, pile, extra record, slice, refusal, answer, and the cells of a table.
// Every other crate, and every definition in specs/, uses these.
#![tactic(auto)]

mod conversions;
mod faults;
mod limits;
mod widths;

pub use faults::{Fault, PileField, RowField, refusal_in};
pub use limits::{
    DEPTH_LIMIT, FREE_GRADE, LOG_SIZE, MORE_PLACES, PLACE_LIMIT, ROW_LIMIT, TABLE_SIZE,
    THICKEST_SLICE, THICKNESS_LIMIT, TIP_LIMIT,
};
pub use widths::{
    GRADED_SIZE, PILE_A, PILE_B, PILE_GRADE, PILE_HEAD, PILE_METHOD, PILE_SECTION, PILE_TIP,
    PILE_ZERO, PLAIN_SIZE, ROW_INDEX, ROW_KIND, ROW_SATURATION, ROW_SIZE, ROW_THICKNESS, ROW_ZERO,
    SLICE_FACTOR, SLICE_FRICTION, SLICE_SIZE, SLICE_THICKNESS, SLICE_TOP,
};

// Refusal number, row and field; all 0 where nothing is refused.
#[repr(C)]
#[derive(Clone, Copy, Default, PartialEq, Eq)]
pub struct Refusal {
    pub number: u32,
    pub row: u32,
    pub field: u32,
}

// A row of a log, its five fields in order. The index is stored as hundredths plus 100.
#[repr(C)]
#[derive(Clone, Copy, Default, PartialEq, Eq)]
pub struct Row {
    pub thickness: u16,
    pub kind: u8,
    pub index: u8,
    pub saturation: u8,
    pub zero: u8,
}

// A log: how many rows are used, and all its places.
#[repr(C)]
#[derive(Clone, Copy)]
pub struct Log {
    pub count: u8,
    pub rows: [Row; ROW_LIMIT],
}

// A pile record, its fields in order. The grade is its 16 bits in two's complement, as a number.
#[derive(Clone, Copy, Default)]
pub struct Pile {
    pub section: u8,
    pub a: u16,
    pub b: u16,
    pub method: u8,
    pub head: u16,
    pub tip: u16,
    pub zero: u8,
    pub grade: u16,
}

// The extra record that a tip in sand brings: the friction angle of the soil at the base in hundredths of a degree, and two unit weights in
// N/m³, that of the soil below, at the base, and the mean one of the soils above.
#[derive(Clone, Copy)]
pub struct SandNumbers {
    pub angle: u32,
    pub below: u32,
    pub above: u32,
}

// A slice as the table holds it: friction in 1/200 Pa, factor in tenths.
#[repr(C)]
#[derive(Clone, Copy, Default)]
pub struct Slice {
    pub top: u16,
    pub thickness: u16,
    pub friction: u32,
    pub factor: u8,
}

// What reading a log, a pile record or a place of a slice table replies.
#[repr(C)]
#[derive(Clone, Copy)]
pub struct LogRead {
    pub refusal: Refusal,
    pub log: Log,
}

// The fields of a pile record stand flat: between a length of one byte and a section of one byte no struct can begin. The length is 8 or 10,
// or 0 where the reading is refused.
#[repr(C)]
#[derive(Clone, Copy)]
pub struct PileRead {
    pub refusal: Refusal,
    pub length: u8,
    pub section: u8,
    pub a: u16,
    pub b: u16,
    pub method: u8,
    pub head: u16,
    pub tip: u16,
    pub zero: u8,
    pub grade: u16,
}

#[repr(C)]
#[derive(Clone, Copy)]
pub struct SliceRead {
    pub refusal: u32,
    pub slice: Slice,
}

// The extra record of a sand tip as hosts give it: absent where given is 0.
#[repr(C)]
#[derive(Clone, Copy)]
pub struct SandFields {
    pub given: u32,
    pub angle: u32,
    pub below: u32,
    pub above: u32,
}

// What a calculation or an edit replies: line in N/m, the other four in N.
#[repr(C)]
#[derive(Clone, Copy, Default)]
pub struct Answer {
    pub refusal: Refusal,
    pub kept: u32,
    pub line: u64,
    pub tip: u64,
    pub shaft: u64,
    pub capacity: u64,
    pub uplift: u64,
}

// What makes two millimetres one stratum.
#[derive(Clone, Copy, Default, PartialEq, Eq)]
pub struct Soil {
    pub kind: u8,
    pub index: u8,
    pub saturation: u8,
}

// Where a reading stands in a table: row and column of the upper left of four cells, and the weights of the lower row
// and the right column: down parts of span, and across parts of ten.
#[derive(Clone, Copy)]
pub struct Spot {
    pub row: usize,
    pub column: usize,
    pub down: u64,
    pub span: u64,
    pub across: u64,
}

// Where a number stands on a printed scale: past the mark at this place, by so many parts of the span to the next.
#[derive(Clone, Copy)]
pub struct OnScale {
    pub place: usize,
    pub past: u64,
    pub span: u64,
}
