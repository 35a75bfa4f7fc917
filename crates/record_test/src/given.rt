// The bytes of a case, and what is made of them.
ghost use Rattle.std.specs.Prelude.{◌<◌};

use rules::{Log, Pile, ROW_LIMIT, Row, Slice};
use std::array;
use std::io::{self, Read};

// As many bytes as a case has: those that follow its head, and zeros.
pub(crate) const GIVEN_SIZE: usize = 600;

pub(crate) type Given = [u8; GIVEN_SIZE];

// The next byte of standard input, 0 at its end.
pub(crate) fn next_byte(input: &mut impl Read) -> io::Result<u8> {
    input.by_ref().bytes().next().unwrap_or(Ok(0))
}

pub(crate) fn next_wide(input: &mut impl Read) -> io::Result<u16> {
    let high = next_byte(input)?;
    let low = next_byte(input)?;
    Ok(u16::from_be_bytes([high, low]))
}

// Two bytes from i on, as one number.
pub(crate) fn wide(given: &Given, i: usize) -> u16
    requires { i < 599 }
{
    u16::from_be_bytes([given[i], given[i + 1]])
}

// Six bytes from i on: thickness in two, then one for each field.
pub(crate) fn row_given(given: &Given, i: usize) -> Row
    requires { i < 500 }
{
    Row {
        thickness: wide(given, i),
        kind: given[i + 2],
        index: given[i + 3],
        saturation: given[i + 4],
        zero: given[i + 5],
    }
}

// The count, and six bytes for each place.
pub(crate) fn log_given(given: &Given) -> Log {
    Log {
        count: given[0],
        rows: array::from_fn::<_, ROW_LIMIT, _>(|i| row_given(given, 1 + i * 6)),
    }
}

pub(crate) fn pile_given(given: &Given) -> Pile {
    Pile {
        section: given[0],
        a: wide(given, 1),
        b: wide(given, 3),
        method: given[5],
        head: wide(given, 6),
        tip: wide(given, 8),
        zero: given[10],
        grade: wide(given, 11),
    }
}

pub(crate) fn slice_given(given: &Given) -> Slice {
    Slice {
        top: wide(given, 0),
        thickness: wide(given, 2),
        friction: u32::from_be_bytes([given[4], given[5], given[6], given[7]]),
        factor: given[8],
    }
}
