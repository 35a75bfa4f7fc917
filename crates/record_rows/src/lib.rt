// A row of a log read: its five fields from its five bytes.
#![tactic(auto)]

ghost use Rattle.std.specs.Prelude.{◌≡◌, ◌+◌, ◌≤◌, length};
ghost use Rattle.rules.specs.Widths.{fields_of};
ghost use Rattle.rules.specs.Records.{row_from, row_size, row_widths};
ghost use Rattle.rules.specs.Packed.{row_at, no_row};

use record_bits::Cursor;
use record_words::{number_of, whole_five};
use rules::{ROW_INDEX, ROW_KIND, ROW_SATURATION, ROW_SIZE, ROW_THICKNESS, ROW_ZERO, Row};

// The row in the number of its five bytes.
fn row_of(word: u64) -> Row
    ensures { result ≡ row_from (fields_of row_widths word) }
{
    let mut fields = Cursor::over(word, ROW_SIZE * 8);
    Row {
        thickness: fields.take(ROW_THICKNESS) as u16,
        kind: fields.take(ROW_KIND) as u8,
        index: fields.take(ROW_INDEX) as u8,
        saturation: fields.take(ROW_SATURATION) as u8,
        zero: fields.take(ROW_ZERO) as u8,
    }
}

pub fn no_row() -> Row
    ensures { result ≡ no_row }
{
    Row::default()
}

// The row that begins at byte i; what lies past the end reads as 0.
#[tactic(auto, using(crate::proofs::RowLaws::row_past, crate::proofs::RowLaws::row_read))]
pub fn read_row(s: &[u8], i: usize) -> Row
    ensures { result ≡ row_at s.now i }
{
    match s.get(i..) {
        Some(rest) => row_of(number_of::<ROW_SIZE>(rest)),
        None => no_row(),
    }
}

// The same where all five bytes are inside: nothing asks where the slice ends.
#[tactic(auto, using(crate::proofs::RowLaws::row_read))]
pub fn row_inside(s: &[u8], i: usize) -> Row
    requires { i + row_size ≤ length s.now }
    ensures { result ≡ row_at s.now i }
{
    row_of(whole_five(&s[i..]))
}
