// The ranges of a pile record's fields: checks 5 and 6.
#![tactic(auto)]

ghost use Rattle.std.specs.Prelude.{◌≡◌};
ghost use Rattle.rules.specs.Base.{when};
ghost use Rattle.rules.specs.Checks.{a_in_range, b_in_range, wrong_pile_field, section_check, method_wrong};
ghost use Rattle.rules.specs.Faults.{pile_field_of, refusal_in};
ghost use Rattle.rules.proofs.Groups.{pile_checks};

use rules::{Fault, Pile, PileField};

fn a_in_range(pile: Pile) -> bool
    ensures { result ≡ a_in_range pile }
{
    if pile.section == 1 {
        (150..=2000).contains(&pile.a)
    } else {
        (300..=4000).contains(&pile.a)
    }
}

fn b_in_range(pile: Pile) -> bool
    ensures { result ≡ b_in_range pile }
{
    if pile.section == 1 {
        pile.b == 0
    } else {
        (300..=4000).contains(&pile.b)
    }
}

// The first of section kind, a, b and the zero bits that is wrong.
#[tactic(auto, unfolding(rules::specs::Checks::wrong_pile_field))]
fn wrong_pile_field(pile: Pile) -> Option<PileField>
    ensures { pile_field_of result ≡ wrong_pile_field pile }
{
    if !(1..=2).contains(&pile.section) {
        return Some(PileField::Section);
    }
    if !a_in_range(pile) {
        return Some(PileField::A);
    }
    if !b_in_range(pile) {
        return Some(PileField::B);
    }
    if pile.zero != 0 {
        return Some(PileField::Zero);
    }
    None
}

// Check 5.
#[tactic(auto, unfolding(rules::specs::Checks::section_check))]
fn section_refusal(pile: Pile) -> Result<(), Fault>
    ensures { refusal_in result ≡ section_check pile }
{
    match wrong_pile_field(pile) {
        Some(field) => Err(Fault::Section { field }),
        None => Ok(()),
    }
}

// Check 6.
#[tactic(auto, unfolding(rules::specs::Base::when))]
fn method_refusal(pile: Pile) -> Result<(), Fault>
    ensures { refusal_in result ≡ when (method_wrong pile) 6 }
{
    if !(1..=3).contains(&pile.method) {
        return Err(Fault::Method);
    }
    Ok(())
}

#[tactic(auto, unfolding(rules::proofs::Groups::pile_checks, rules::specs::Base::first))]
pub fn pile_refusal(pile: Pile) -> Result<(), Fault>
    ensures { refusal_in result ≡ pile_checks pile }
{
    section_refusal(pile)?;
    method_refusal(pile)
}
