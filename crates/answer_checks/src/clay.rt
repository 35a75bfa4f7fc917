// Checks 10 to 12 of a tip in clay, which look at its stratum, its soil and what the tip table is read to.
ghost use Rattle.std.specs.Prelude.{◌≡◌, IfOk};
ghost use Rattle.rules.specs.Numbers.{tip_of, tip_read};
ghost use Rattle.rules.specs.Faults.{refusal_in};
ghost use Rattle.rules.proofs.Groups.{late_in_clay};

use crate::tip::Tip;
use rules::Fault;

// The R that was read, or the first that refuses.
#[tactic(auto, unfolding(rules::proofs::Groups::late_in_clay, rules::specs::Base::first, rules::specs::Base::when))]
pub fn clay_refusal(tip: Tip, read: Option<u64>) -> Result<u64, Fault>
    requires { read ≡ tip_read (tip_of tip.pile) tip.soil.index }
    ensures refusal { refusal_in result ≡ late_in_clay tip.soil tip.top tip.pile }
    ensures resistance { IfOk result (λ r. read ≡ Some r) }
{
    if tip.seat_short() {
        return Err(Fault::SeatShort);
    }
    if 160 < tip.soil.index {
        return Err(Fault::TooSoft);
    }
    read.ok_or(Fault::Dashed)
}
