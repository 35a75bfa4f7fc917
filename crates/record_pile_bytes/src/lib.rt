// A pile record packed: its bytes from its fields, eight of them or, with a grade, ten.
#![tactic(auto)]

ghost use Rattle.std.specs.Prelude.{◌≡◌};
ghost use Rattle.rules.specs.Base.{either};
ghost use Rattle.rules.specs.Widths.{fields_of, join, bytes};
ghost use Rattle.rules.specs.Records.{plain_widths, plain_size, graded_size, pile_fields};
ghost use Rattle.rules.specs.Packed.{pile_bytes};
ghost use Rattle.rules.specs.Checks.{pile_length_wrong};
ghost use Rattle.rules.specs.Faults.{refusal_in};
ghost use Rattle.rules.specs.Reading.{grade_lost, pack_pile_check, packed_pile};

use record_bits::{Cursor, WORD_BITS};
use record_lengths::pile_length_wrong;
use record_pile_ranges::pile_refusal;
use record_word_bytes::bytes_of;
use rules::{
    Fault, GRADED_SIZE, PILE_A, PILE_B, PILE_HEAD, PILE_METHOD, PILE_SECTION, PILE_TIP, PILE_ZERO,
    PLAIN_SIZE, Pile,
};

// The eight bytes before the grade; a field of more bits than its place is carried into the field before.
fn plain_bytes(p: Pile) -> [u8; PLAIN_SIZE]
    ensures { result ≡ fields_of (bytes plain_size) (join plain_widths (pile_fields p)) }
{
    let mut fields = Cursor::over(0, WORD_BITS);
    fields.put(u64::from(p.section), PILE_SECTION);
    fields.put(u64::from(p.a), PILE_A);
    fields.put(u64::from(p.b), PILE_B);
    fields.put(u64::from(p.method), PILE_METHOD);
    fields.put(u64::from(p.head), PILE_HEAD);
    fields.put(u64::from(p.tip), PILE_TIP);
    fields.put(u64::from(p.zero), PILE_ZERO);
    bytes_of(fields.word)
}

// All ten bytes.
fn pile_bytes(p: Pile) -> [u8; GRADED_SIZE]
    ensures { result ≡ pile_bytes graded_size p }
{
    let b = plain_bytes(p);
    let g = p.grade.to_be_bytes();
    [b[0], b[1], b[2], b[3], b[4], b[5], b[6], b[7], g[0], g[1]]
}

// Check 1 of a packing: the buffer has neither length, or it has eight bytes and there is a grade.
fn pack_length_wrong(grade: u16, buf: &[u8]) -> bool
    ensures { result ≡ either (pile_length_wrong buf.now) (grade_lost grade buf.now) }
{
    pile_length_wrong(buf) || buf.len() == PLAIN_SIZE && grade != 0
}

// As many of the bytes as the buffer has. A refused packing changes no byte.
#[tactic(auto, using(rules::proofs::Groups::pack_pile_grouped, crate::proofs::TenBytes::packed), unfolding(rules::specs::Reading::packed_pile, rules::specs::Base::first, rules::specs::Base::when))]
pub fn pack_pile(p: Pile, buf: &mut [u8]) -> Result<(), Fault>
    ensures refusal { refusal_in result ≡ pack_pile_check p buf.old }
    ensures buffer { buf.new ≡ packed_pile p buf.old }
{
    if pack_length_wrong(p.grade, buf) {
        return Err(Fault::Length);
    }
    pile_refusal(p)?;
    let n = buf.len();
    buf.copy_from_slice(&pile_bytes(p)[..n]);
    Ok(())
}
