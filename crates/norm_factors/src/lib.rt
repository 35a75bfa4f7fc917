// The method factor.
#![tactic(auto)]

ghost use Rattle.std.specs.Prelude.{◌≡◌, ◌≤◌};
ghost use Rattle.rules.specs.Bounds.{factor_bound};
ghost use Rattle.rules.specs.Numbers as numbers;

// In tenths.
#[tactic(auto, unfolding(rules::specs::Numbers::factor))]
pub fn factor(method: u8, kind: u8) -> u8
    ensures { (result ≡ numbers.factor method kind) × (6 ≤ result) × (result ≤ factor_bound) }
{
    match method {
        1 => match kind {
            6 => 6,
            _ => 7,
        },
        2 => 6,
        _ => match kind {
            6 => 7,
            _ => 8,
        },
    }
}
