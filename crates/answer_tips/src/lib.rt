// The tip of a pile in the soil below it: checks 9 to 12 and 17, and R where none refuses.
#![tactic(auto)]

ghost use Rattle.std.specs.Prelude.{◌≡◌, ◌≤◌, true, false};
ghost use Rattle.rules.specs.Base.{refuses};
ghost use Rattle.rules.specs.Limits.{tip_limit};
ghost use Rattle.rules.specs.Numbers.{sand};
ghost use Rattle.rules.proofs.Groups.{pile_checks};
ghost use Rattle.answer_tips.specs.Tips.{TipWorked};

use answer_checks::{Tip, clay_refusal, sand_refusal};
use norm_grades::{below_cut, depth_read};
use norm_sand_tips::sand_resistance;
use norm_tips::tip_resistance;
use rules::{Fault, SandNumbers};

// In sand, with the extra record: by the formula.
#[tactic(auto, using(rules::proofs::Groups::late_in_sand_lem, crate::proofs::SandLaws::bounded), unfolding(rules::specs::Numbers::resistance))]
fn sand_tip(tip: Tip, brought: SandNumbers) -> Result<u64, Fault>
    requires good { refuses (pile_checks tip.pile) ≡ false }
    requires near { tip.pile.tip ≤ tip_limit }
    requires sand { sand tip.soil ≡ true }
    ensures { TipWorked tip.soil tip.top tip.pile (Some brought) result }
{
    let pile = tip.pile;
    sand_refusal(tip, brought)?;
    let h = below_cut(pile.grade, pile.tip);
    let depth = depth_read(pile.grade, pile.tip);
    Ok(sand_resistance(brought, h, u64::from(pile.a), tip.soil.kind, depth))
}

// By the soil just below the tip: R in whole Pa, of sand by the formula and of clay by the tip table, or the first that refuses. Over clay the
// extra record is not looked at.
#[tactic(auto, using(rules::proofs::Groups::late_in_sand_lem, rules::proofs::Groups::late_in_clay_lem), unfolding(rules::specs::Numbers::resistance, rules::proofs::Groups::late_in_sand, rules::specs::Base::first, rules::specs::Base::when))]
pub fn work_tip(tip: Tip, extra: Option<SandNumbers>) -> Result<u64, Fault>
    requires good { refuses (pile_checks tip.pile) ≡ false }
    requires near { tip.pile.tip ≤ tip_limit }
    ensures { TipWorked tip.soil tip.top tip.pile extra result }
{
    let pile = tip.pile;
    if tip.soil.kind <= 3 {
        return sand_tip(tip, extra.ok_or(Fault::SandUnread)?);
    }
    let read = tip_resistance(depth_read(pile.grade, pile.tip), tip.soil.index);
    clay_refusal(tip, read)
}
