// A bit reader and a bit writer over a word.
#![tactic(auto)]

ghost use Rattle.std.specs.Prelude.{◌≡◌, ◌+◌, ◌^◌, ◌<◌, ◌≤◌};
ghost use Rattle.record_bits.specs.Word.{word_bits, Taken, Written};

pub const WORD_SIZE: usize = 8;

pub const WORD_BITS: usize = WORD_SIZE * 8;

// A record's bytes as one number, the first the most significant, and the bit at which the next field begins,
// counted from the top of the word: eight bytes begin at bit 0, five at bit 24.
#[derive(Clone, Copy)]
pub struct Cursor {
    pub word: u64,
    pub at: usize,
}

fn pow2(n: usize) -> u64
    requires { n < word_bits }
    ensures { (result ≡ 2 ^ n) × (0 < result) }
{
    1 << n
}

impl Cursor {
    // Before the first field of a record that is the last `bits` bits of the word.
    pub fn over(word: u64, bits: usize) -> Cursor
        requires { bits ≤ word_bits }
        ensures { (result.word ≡ word) × (result.at + bits ≡ word_bits) }
    {
        Cursor {
            word,
            at: WORD_BITS - bits,
        }
    }

    // The n bits at the cursor.
    #[tactic(auto, using(crate::proofs::BitLaws::remainder_small), unfolding(crate::specs::Word::field_of))]
    pub fn take(&mut self, n: usize) -> u64
        requires { (0 < n) × (n < word_bits) × (self.old.at + n ≤ word_bits) }
        ensures { Taken self.old.word self.old.at n result self.new.word self.new.at }
    {
        self.at += n;
        (self.word >> (WORD_BITS - self.at)) % pow2(n)
    }

    // The value in the n bits at the cursor, where the bits from the cursor on are 0. A value of more bits is carried into those before.
    pub fn put(&mut self, value: u64, n: usize)
        requires { (0 < n) × (self.old.at + n ≤ word_bits) }
        ensures { Written self.old.word self.old.at value n self.new.word self.new.at }
    {
        self.at += n;
        self.word = self.word.wrapping_add(value << (WORD_BITS - self.at));
    }
}
