// R of a tip in sand, by formula (7.12) of the pile norm, and at most what table 7.2 allows.
#![tactic(auto)]

ghost use Rattle.std.specs.Prelude.{◌≡◌, ◌+◌, ◌*◌, ◌/◌, ◌<◌, ◌≤◌};
ghost use Rattle.rules.specs.Bounds.{cell_bound, resistance_bound};
ghost use Rattle.rules.specs.SandTips as rule;
ghost use Rattle.norm_scales.specs.Scales.{diameter_bound, height_bound};
ghost use Rattle.norm_sand_tips.specs.Terms.{unit_weight_bound, overburden_bound, width_bound, depth_bound, Weighs};

use norm_alphas::{alpha_1, alpha_2, alpha_3, alpha_4};
use norm_sand_caps::sand_cap;
use norm_scales::SandTip;
use rules::SandNumbers;

// α1 γ'1 d in whole Pa, of ten-thousandths, N/m³ and mm.
#[tactic(auto, unfolding(rules::specs::SandTips::width_term))]
fn width_term(a: u64, weight: u64, d: u64) -> u64
    requires { (a ≤ cell_bound * 1000) × (weight ≤ unit_weight_bound) × (d ≤ diameter_bound) }
    ensures { (result ≡ rule.width_term a weight d) × (result ≤ width_bound) }
{
    a * weight * d / 10000000
}

// γ1 h in whole Pa, of N/m³ and mm.
fn overburden(weight: u64, h: u64) -> u64
    requires { (weight ≤ unit_weight_bound) × (h ≤ height_bound) }
    ensures { (result ≡ rule.overburden weight h) × (result ≤ overburden_bound) }
{
    weight * h / 1000
}

// α2 α3 γ1 h in whole Pa, of ten-thousandths twice and Pa.
#[tactic(auto, unfolding(rules::specs::SandTips::depth_term))]
fn depth_term(a: u64, b: u64, p: u64) -> u64
    requires { (a ≤ cell_bound * 1000) × (b ≤ cell_bound * 100) × (p ≤ overburden_bound) }
    ensures { (result ≡ rule.depth_term a b p) × (result ≤ depth_bound) }
{
    a * b * p / 100000000
}

// 0.75 α4 of the bracket, in whole Pa.
fn of_bracket(a: u64, bracket: u64) -> u64
    requires { (a ≤ cell_bound * 100) × (bracket ≤ width_bound + depth_bound) }
    ensures { result ≡ 75 * a * bracket / 1000000 }
{
    75 * a * bracket / 1000000
}

// The formula, of a tip.
fn formula(base: SandNumbers, tip: SandTip) -> u64
    requires { Weighs base }
    ensures { result ≡ rule.sand_formula base tip.height tip.diameter }
{
    let t = u64::from(base.angle) * 9;
    let width = width_term(alpha_1(t), u64::from(base.below), tip.diameter);
    let over = overburden(u64::from(base.above), tip.height);
    let depth = depth_term(alpha_2(t), alpha_3(t, tip), over);
    of_bracket(alpha_4(t, tip.diameter), width + depth)
}

// R of a tip h deep and a diameter d in millimetres, for a kind of sand: at most the cap at this depth as read.
#[tactic(auto, unfolding(rules::specs::SandTips::sand_resistance))]
pub fn sand_resistance(base: SandNumbers, h: u64, d: u64, kind: u8, depth: u64) -> u64
    requires { Weighs base × (h ≤ height_bound) × (0 < d) × (d ≤ diameter_bound) × (kind ≤ 3) }
    ensures { (result ≡ rule.sand_resistance base h d kind depth) × (result ≤ resistance_bound) }
{
    let tip = SandTip {
        height: h,
        diameter: d,
    };
    formula(base, tip).min(sand_cap(kind, depth))
}
