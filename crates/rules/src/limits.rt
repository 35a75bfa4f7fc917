// Sizes and counts of document 01, each named once; specs/Limits.antt has them as definitions.
use crate::widths::{ROW_SIZE, SLICE_SIZE};

// The row limit of the longest form of a log.
pub const ROW_LIMIT: usize = 64;

// A log of that form, and the slice table that goes with it.
pub const LOG_SIZE: usize = 1 + ROW_LIMIT * ROW_SIZE;

pub const MORE_PLACES: usize = 19;

pub const PLACE_LIMIT: usize = ROW_LIMIT + MORE_PLACES;

pub const TABLE_SIZE: usize = PLACE_LIMIT * SLICE_SIZE;

// The thickest row, and the deepest log.
pub const THICKNESS_LIMIT: u16 = 60000;

pub const DEPTH_LIMIT: u64 = 60000;

pub const THICKEST_SLICE: u64 = 2000;

pub const TIP_LIMIT: u64 = 40000;

// The grade up to which the tables are read as they stand.
pub const FREE_GRADE: u64 = 3000;
