// A row of a log packed: its five bytes from its five fields.
#![tactic(auto)]

ghost use Rattle.std.specs.Prelude.{◌≡◌};
ghost use Rattle.rules.specs.Packed.{row_bytes};

use record_bits::Cursor;
use record_word_bytes::bytes_of;
use rules::{ROW_INDEX, ROW_KIND, ROW_SATURATION, ROW_SIZE, ROW_THICKNESS, ROW_ZERO, Row};

// The five bytes of a row; a field of more bits than its place is carried into the field before.
pub fn row_bytes(r: Row) -> [u8; ROW_SIZE]
    ensures { result ≡ row_bytes r }
{
    let mut fields = Cursor::over(0, ROW_SIZE * 8);
    fields.put(u64::from(r.thickness), ROW_THICKNESS);
    fields.put(u64::from(r.kind), ROW_KIND);
    fields.put(u64::from(r.index), ROW_INDEX);
    fields.put(u64::from(r.saturation), ROW_SATURATION);
    fields.put(u64::from(r.zero), ROW_ZERO);
    let [_, _, _, a, b, c, d, e] = bytes_of(fields.word);
    [a, b, c, d, e]
}
