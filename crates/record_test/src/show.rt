// What the lines are made of: the numbers of a value, bytes, and sums of them.
use rules::{Log, PileRead, Refusal, Row, Slice};
use std::fmt;

// The numbers of a value, in the order of its fields, each behind a space.
#[derive(Clone, Copy)]
pub(crate) struct Numbers<T>(pub(crate) T);

impl fmt::Display for Numbers<Refusal> {
    fn fmt<W: fmt::Write>(&self, f: &mut fmt::Formatter<W>) -> fmt::Result {
        let refusal = self.0;
        write!(f, " {} {} {}", refusal.number, refusal.row, refusal.field)
    }
}

impl fmt::Display for Numbers<Row> {
    fn fmt<W: fmt::Write>(&self, f: &mut fmt::Formatter<W>) -> fmt::Result {
        let row = self.0;
        write!(f, " {} {} {}", row.thickness, row.kind, row.index)?;
        write!(f, " {} {}", row.saturation, row.zero)
    }
}

impl fmt::Display for Numbers<PileRead> {
    fn fmt<W: fmt::Write>(&self, f: &mut fmt::Formatter<W>) -> fmt::Result {
        let read = self.0;
        write!(f, "{} {}", Numbers(read.refusal), read.length)?;
        write!(f, " {} {} {} {}", read.section, read.a, read.b, read.method)?;
        write!(
            f,
            " {} {} {} {}",
            read.head, read.tip, read.zero, read.grade
        )
    }
}

impl fmt::Display for Numbers<Slice> {
    fn fmt<W: fmt::Write>(&self, f: &mut fmt::Formatter<W>) -> fmt::Result {
        let slice = self.0;
        write!(f, " {} {}", slice.top, slice.thickness)?;
        write!(f, " {} {}", slice.friction, slice.factor)
    }
}

// The first 16 bytes, two digits for each.
#[derive(Clone, Copy)]
pub(crate) struct Hex<'a>(pub(crate) &'a [u8]);

impl fmt::Display for Hex<'_> {
    fn fmt<W: fmt::Write>(&self, f: &mut fmt::Formatter<W>) -> fmt::Result {
        for byte in self.0.iter().take(16) {
            write!(f, "{byte:02x}")?;
        }
        Ok(())
    }
}

// A sum, and the sum of that sum after each number, which changes with their order too.
#[derive(Clone, Copy, Default)]
struct Sums {
    sum: u64,
    all: u64,
}

impl Sums {
    fn with(self, number: u64) -> Sums {
        let sum = self.sum.wrapping_add(number);
        Sums {
            sum,
            all: self.all.wrapping_add(sum),
        }
    }
}

// The fields of a row as one number.
fn fields(row: &Row) -> u64 {
    u64::from(row.thickness)
        + 3 * u64::from(row.kind)
        + 5 * u64::from(row.index)
        + 7 * u64::from(row.saturation)
        + 11 * u64::from(row.zero)
}

// The sum of the sums of the first row's fields, of the first two rows', and so on.
pub(crate) fn row_sums(log: &Log) -> u64 {
    let start = Sums::default();
    let sums = log
        .rows
        .iter()
        .fold(start, |sums, row| sums.with(fields(row)));
    sums.all
}

// The sum of the sums of the first byte, of the first two, and so on.
pub(crate) fn byte_sums(bytes: &[u8]) -> u64 {
    let start = Sums::default();
    let sums = bytes
        .iter()
        .fold(start, |sums, byte| sums.with(u64::from(*byte)));
    sums.all
}
