// The five numbers of an answer, roundings 2 to 6. (1, R, stands with the tip table.)
#![tactic(auto)]

ghost use Rattle.std.specs.Prelude.{◌≡◌, ◌+◌, ◌/◌, ◌≤◌};
ghost use Rattle.rules.specs.Bounds.{resistance_bound, sum_bound, line_bound, force_bound};
ghost use Rattle.rules.specs.Numbers.{tip_force, shaft_force, capacity_of, uplift_of};
ghost use Rattle.rules.specs.Answers as answers;
ghost use Rattle.answer_numbers.specs.Sides.{Sides};

use rules::{Answer, Pile, Soil};

// A pile whose sides keep every product within 64 bits, and whose head lies no deeper than its tip.
#[derive(Clone, Copy)]
pub struct BoundedPile {
    pub pile: Pile,
    pub ghost sides: { Sides pile },
    pub ghost head: { pile.head ≤ pile.tip },
}

// 2: the sum of friction × thickness × factor, in whole N per metre of perimeter.
pub fn line_of(sum: u64) -> u64
    requires { sum ≤ sum_bound }
    ensures { (result ≡ sum / 2000000) × (result ≤ line_bound) }
{
    sum / 2000000
}

impl BoundedPile {
    // 3: R × area, in whole N.
    #[tactic(auto, using(crate::proofs::SideLaws::circle, crate::proofs::SideLaws::rectangle), unfolding(rules::specs::Numbers::tip_force))]
    fn tip_force(self, r: u64) -> u64
        requires { r ≤ resistance_bound }
        ensures { (result ≡ tip_force self.pile r) × (result ≤ force_bound) }
    {
        let a = u64::from(self.pile.a);
        if self.pile.section == 1 {
            return r * a * a * 314159 / 400000000000;
        }
        let b = u64::from(self.pile.b);
        r * a * b / 1000000
    }

    // 4: line × perimeter, in whole N.
    #[tactic(auto, using(crate::proofs::SideLaws::circle, crate::proofs::SideLaws::rectangle), unfolding(rules::specs::Numbers::shaft_force))]
    fn shaft_force(self, line: u64) -> u64
        requires { line ≤ line_bound }
        ensures { (result ≡ shaft_force self.pile line) × (result ≤ force_bound) }
    {
        let a = u64::from(self.pile.a);
        if self.pile.section == 1 {
            return line * a * 314159 / 100000000;
        }
        let b = u64::from(self.pile.b);
        line * (a + b) * 2 / 1000
    }

    // 6, of the shaft.
    #[tactic(auto, unfolding(rules::specs::Numbers::uplift_of))]
    fn uplift(self, n: u64) -> u64
        requires { n ≤ force_bound }
        ensures { result ≡ uplift_of self.pile n }
    {
        let tenths = if self.pile.tip - self.pile.head < 4000 {
            6
        } else {
            8
        };
        n * tenths / 10
    }
}

// 5, of tip and shaft together; a sand tip takes all.
#[tactic(auto, unfolding(rules::specs::Numbers::capacity_of))]
fn capacity(soil: Soil, n: u64) -> u64
    requires { n ≤ force_bound + force_bound }
    ensures { result ≡ capacity_of soil n }
{
    if 3 < soil.kind && soil.saturation < 90 {
        return n * 8 / 10;
    }
    n
}

// The five numbers.
#[tactic(auto, unfolding(rules::specs::Answers::numbers))]
pub fn five_numbers(soil: Soil, bounded: BoundedPile, r: u64, line: u64) -> Answer
    requires { (r ≤ resistance_bound) × (line ≤ line_bound) }
    ensures { result ≡ answers.numbers soil bounded.pile r line }
{
    let tip = bounded.tip_force(r);
    let shaft = bounded.shaft_force(line);
    let capacity = capacity(soil, tip + shaft);
    let uplift = bounded.uplift(shaft);
    Answer {
        line,
        tip,
        shaft,
        capacity,
        uplift,
        ..Answer::default()
    }
}
