// A number of 64 bits as its eight bytes, the first the most significant.
#![tactic(auto)]

ghost use Rattle.std.specs.Prelude.{◌≡◌};
ghost use Rattle.rules.specs.Widths.{fields_of, bytes};
ghost use Rattle.record_bits.specs.Word.{word_size};

use record_bits::WORD_SIZE;

pub fn bytes_of(w: u64) -> [u8; WORD_SIZE]
    ensures { result ≡ fields_of (bytes word_size) w }
{
    w.to_be_bytes()
}
