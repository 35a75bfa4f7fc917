// A place of a slice table: its four fields and its seven bytes.
#![tactic(auto)]

ghost use Rattle.std.specs.Prelude.{◌≡◌};
ghost use Rattle.rules.specs.Packed.{slice_at, slice_bytes};
ghost use Rattle.rules.specs.Reading.{read_slice};

use record_bits::{Cursor, WORD_BITS, WORD_SIZE};
use record_lengths::table_limit;
use record_word_bytes::bytes_of;
use record_words::number_of;
use rules::{
    MORE_PLACES, SLICE_FACTOR, SLICE_FRICTION, SLICE_SIZE, SLICE_THICKNESS, SLICE_TOP, Slice,
    SliceRead,
};

// The slice that begins with the first byte.
fn take_slice(s: &[u8]) -> Slice
    ensures { result ≡ slice_at s.now 0 }
{
    let mut fields = Cursor::over(number_of::<WORD_SIZE>(s), WORD_BITS);
    Slice {
        top: fields.take(SLICE_TOP) as u16,
        thickness: fields.take(SLICE_THICKNESS) as u16,
        friction: fields.take(SLICE_FRICTION) as u32,
        factor: fields.take(SLICE_FACTOR) as u8,
    }
}

// One place of a slice table, counted from 0; past the last: all zero.
#[tactic(auto, using(crate::proofs::SliceLaws::slice_inside, crate::proofs::SliceLaws::slice_long, crate::proofs::SliceLaws::slice_past, crate::proofs::SliceLaws::slice_read))]
pub fn read_slice(s: &[u8], place: u32) -> SliceRead
    ensures { result ≡ read_slice s.now place }
{
    let Some(limit) = table_limit(s.len()) else {
        return SliceRead {
            refusal: 1,
            slice: Slice::default(),
        };
    };
    let place = place as usize;
    let slice = if place < limit + MORE_PLACES {
        take_slice(&s[place * SLICE_SIZE..])
    } else {
        Slice::default()
    };
    SliceRead { refusal: 0, slice }
}

// The seven bytes of a slice; a field of more bits than its place is carried into the field before.
pub fn slice_bytes(c: Slice) -> [u8; SLICE_SIZE]
    ensures { result ≡ slice_bytes c }
{
    let mut fields = Cursor::over(0, WORD_BITS);
    fields.put(u64::from(c.top), SLICE_TOP);
    fields.put(u64::from(c.thickness), SLICE_THICKNESS);
    fields.put(u64::from(c.friction), SLICE_FRICTION);
    fields.put(u64::from(c.factor), SLICE_FACTOR);
    let [a, b, c, d, e, f, g, _] = bytes_of(fields.word);
    [a, b, c, d, e, f, g]
}
