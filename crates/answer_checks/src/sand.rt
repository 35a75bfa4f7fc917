// Checks 9, 10 and 17 of a tip in sand that brings its extra record. (Without it a sand tip is 9.)
ghost use Rattle.std.specs.Prelude.{◌≡◌};
ghost use Rattle.rules.specs.Base.{neg, within};
ghost use Rattle.rules.specs.Checks.{record_wrong};
ghost use Rattle.rules.specs.Faults.{refusal_in};
ghost use Rattle.rules.specs.SandTips.{reduced};
ghost use Rattle.rules.proofs.Groups.{late_in_sand};

use crate::tip::Tip;
use norm_grades::below_cut;
use rules::{Fault, Pile, SandNumbers};

// An angle in hundredths of a degree: under 23 or over 39 degrees after the 0.9.
fn angle_wrong(angle: u32) -> bool
    ensures { result ≡ neg (within 23000 39000 (reduced angle)) }
{
    let t = u64::from(angle) * 9;
    !(23000..=39000).contains(&t)
}

// A unit weight of 0 or over 30,000 N/m³.
fn weight_wrong(weight: u32) -> bool
    ensures { result ≡ neg (within 1 30000 weight) }
{
    !(1..=30000).contains(&weight)
}

// One of the three numbers out of range, or h/d under 4.
fn record_wrong(pile: Pile, brought: SandNumbers) -> bool
    ensures { result ≡ record_wrong pile (Some brought) }
{
    angle_wrong(brought.angle)
        || weight_wrong(brought.below)
        || weight_wrong(brought.above)
        || below_cut(pile.grade, pile.tip) < 4 * u64::from(pile.a)
}

// The first that refuses.
#[tactic(auto, unfolding(rules::proofs::Groups::late_in_sand, rules::specs::Base::first, rules::specs::Base::when))]
pub fn sand_refusal(tip: Tip, brought: SandNumbers) -> Result<(), Fault>
    ensures { refusal_in result ≡ late_in_sand tip.top tip.pile (Some brought) }
{
    if tip.pile.section == 2 {
        return Err(Fault::SandUnread);
    }
    if tip.seat_short() {
        return Err(Fault::SeatShort);
    }
    if record_wrong(tip.pile, brought) {
        return Err(Fault::SandWrong);
    }
    Ok(())
}
