// A pile record read: its fields from its bytes, eight of them or, with a grade, ten.
#![tactic(auto)]

ghost use Rattle.std.specs.Prelude.{◌≡◌, ◌+◌, ◌*◌, ◌<◌, ◌^◌, get_or, length, IfOk};
ghost use Rattle.rules.specs.Records.{plain_size};
ghost use Rattle.rules.specs.Packed.{pile_of};
ghost use Rattle.rules.specs.Base.{first, when};
ghost use Rattle.rules.specs.Checks.{pile_length_wrong};
ghost use Rattle.rules.specs.Faults.{refusal_in};
ghost use Rattle.rules.specs.Reading.{read_pile};
ghost use Rattle.rules.proofs.Groups.{pile_checks};

use record_bits::{Cursor, WORD_BITS, WORD_SIZE};
use record_lengths::pile_length_wrong;
use record_pile_ranges::pile_refusal;
use record_words::number_of;
use rules::{
    Fault, PILE_A, PILE_B, PILE_HEAD, PILE_METHOD, PILE_SECTION, PILE_TIP, PILE_ZERO, PLAIN_SIZE,
    Pile, PileRead, Refusal,
};

// A byte, 0 past the end.
fn byte_at(s: &[u8], i: usize) -> u8
    ensures { result ≡ get_or s.now i 0 }
{
    s.get(i).copied().unwrap_or(0)
}

// The grade, behind the other fields; what lies past the end reads as 0.
fn take_grade(s: &[u8]) -> u16
    ensures { result ≡ get_or s.now plain_size 0 * 256 + get_or s.now (plain_size + 1) 0 }
{
    u16::from_be_bytes([byte_at(s, PLAIN_SIZE), byte_at(s, PLAIN_SIZE + 1)])
}

// The fields, one after the other; what lies past the end reads as 0.
pub fn take_pile(s: &[u8]) -> Pile
    ensures { result ≡ pile_of s.now }
{
    let mut fields = Cursor::over(number_of::<WORD_SIZE>(s), WORD_BITS);
    Pile {
        section: fields.take(PILE_SECTION) as u8,
        a: fields.take(PILE_A) as u16,
        b: fields.take(PILE_B) as u16,
        method: fields.take(PILE_METHOD) as u8,
        head: fields.take(PILE_HEAD) as u16,
        tip: fields.take(PILE_TIP) as u16,
        zero: fields.take(PILE_ZERO) as u8,
        grade: take_grade(s),
    }
}

// Checks 1, 5 and 6, and the pile where none refuses.
#[tactic(auto, unfolding(rules::specs::Base::first, rules::specs::Base::when))]
fn checked_pile(s: &[u8]) -> Result<Pile, Fault>
    ensures refusal { refusal_in result ≡ first (when (pile_length_wrong s.now) 1) (pile_checks (pile_of s.now)) }
    ensures pile { IfOk result (λ pile. (pile ≡ pile_of s.now) × (length s.now < 2 ^ 8)) }
{
    if pile_length_wrong(s) {
        return Err(Fault::Length);
    }
    let pile = take_pile(s);
    pile_refusal(pile)?;
    Ok(pile)
}

#[tactic(auto, using(rules::proofs::Groups::read_pile_grouped))]
pub fn read_pile(s: &[u8]) -> PileRead
    ensures { result ≡ read_pile s.now }
{
    match checked_pile(s) {
        Ok(pile) => PileRead::told(Refusal::default(), s.len() as u8, pile),
        Err(fault) => PileRead::told(Refusal::from(fault), 0, Pile::default()),
    }
}
