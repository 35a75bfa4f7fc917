// The bytes of a record as one number, the first the most significant.
#![tactic(auto)]

ghost use Rattle.std.specs.Prelude.{◌≡◌, ◌≤◌, length};
ghost use Rattle.rules.specs.Records.{row_size};
ghost use Rattle.rules.specs.Packed.{number_at};
ghost use Rattle.record_bits.specs.Word.{word_size};

use base_copies::copy_in;
use record_bits::WORD_SIZE;

// The first N bytes of s, at the end of a word of zeros.
#[tactic(auto, using(crate::proofs::NumberLaws::at_end))]
pub fn whole_number<const N: usize>(s: &[u8]) -> u64
    requires { (N ≤ word_size) × (N ≤ length s.now) }
    ensures { result ≡ number_at s.now 0 N }
{
    let mut word = [0; WORD_SIZE];
    copy_in(&mut word, WORD_SIZE - N, &s[..N]);
    u64::from_be_bytes(word)
}

// The first five bytes of s. Thickness and soil are joined apart, so that a row's thickness waits for no byte of its soil.
#[tactic(auto, using(crate::proofs::NumberLaws::five_are))]
pub fn whole_five(s: &[u8]) -> u64
    requires { row_size ≤ length s.now }
    ensures { result ≡ number_at s.now 0 row_size }
{
    let thickness = u64::from(s[0]) * 256 + u64::from(s[1]);
    let soil = (u64::from(s[2]) * 256 + u64::from(s[3])) * 256 + u64::from(s[4]);
    thickness * 16777216 + soil
}

// The first N bytes of s, 0 past the end. Where all are inside, no byte asks where the slice ends.
#[tactic(auto, using(crate::proofs::NumberLaws::before_zeros))]
pub fn number_of<const N: usize>(s: &[u8]) -> u64
    requires { N ≤ word_size }
    ensures { result ≡ number_at s.now 0 N }
{
    if N <= s.len() {
        return whole_number::<N>(s);
    }
    let mut first = [0; WORD_SIZE];
    copy_in(&mut first, 0, s);
    whole_number::<N>(&first)
}
