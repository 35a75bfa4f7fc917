// The tip of a pile in its ground, and check 10, the seat: how much of the shaft stands in the stratum that holds the tip.
ghost use Rattle.std.specs.Prelude.{◌≡◌, ◌≤◌};

use rules::{Pile, Soil};

// With the soil just below it and the top of the stratum of that soil. Head and top lie no deeper than the tip.
#[derive(Clone, Copy)]
pub struct Tip {
    pub pile: Pile,
    pub soil: Soil,
    pub top: u64,
    pub ghost head: { pile.head ≤ pile.tip },
    pub ghost above: { top ≤ pile.tip },
}

impl Tip {
    ghost use Rattle.rules.specs.Checks.{seat_short};

    // Check 10: the seat is under 2,000 mm, or under the diameter or longer side.
    pub(crate) fn seat_short(self) -> bool
        ensures { result ≡ seat_short self.top self.pile }
    {
        let pile = self.pile;
        let seat = u64::from(pile.tip) - u64::from(pile.head).max(self.top);
        seat < 2000 || seat < u64::from(pile.a.max(pile.b))
    }
}
