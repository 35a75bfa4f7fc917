// Checks 7 and 8, which look at the pile's depths.
ghost use Rattle.std.specs.Prelude.{◌≡◌};
ghost use Rattle.rules.specs.Faults.{refusal_in};
ghost use Rattle.answer_checks.specs.Depths.{depth_checks};

use norm_grades::{cut_depth, depth_read};
use rules::{Fault, Pile, TIP_LIMIT};

// The first that refuses, of a log that is this deep.
#[tactic(auto, unfolding(crate::specs::Depths::depth_checks, rules::specs::Base::first, rules::specs::Base::when))]
pub fn depth_refusal(pile: Pile, depth: u64) -> Result<(), Fault>
    ensures { refusal_in result ≡ depth_checks depth pile }
{
    let tip = u64::from(pile.tip);
    if pile.tip <= pile.head
        || !(3000..=TIP_LIMIT).contains(&tip)
        || u64::from(pile.head) < cut_depth(pile.grade)
        || TIP_LIMIT < depth_read(pile.grade, pile.tip)
    {
        return Err(Fault::Depths);
    }
    if depth < tip + 5000 {
        return Err(Fault::LogShort);
    }
    Ok(())
}
