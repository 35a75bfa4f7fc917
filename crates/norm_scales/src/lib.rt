// Where a number stands on the printed scales of tables 7.7 and 7.2: its place by arithmetic, with no list of marks; and what a line of
// such a table reads there.
#![tactic(auto)]

ghost use Rattle.std.specs.Prelude.{◌≡◌, refl, IsTrue, List, ℕ, ◌+◌, ◌*◌, ◌-◌, ◌<◌, ◌≤◌, max, length, get_or};
ghost use Rattle.rules.specs.SandTips.{angles, ratios, diameters, cap_depths};
ghost use Rattle.rules.specs.SandTips as rule;
ghost use Rattle.norm_scales.specs.Scales.{diameter_bound, height_bound, step_of, Marked, is_scale};

use norm_columns::mean;
use rules::OnScale;

// A place of a scale, its mark and the next.
#[derive(Clone, Copy)]
struct Step {
    place: u64,
    mark: u64,
    next: u64,
}

// A printed scale: its first mark and its last, and the step of each whole unit between them.
trait Scale {
    const FIRST: u64;

    const LAST: u64;

    ghost FIRST: { ℕ };

    ghost LAST: { ℕ };

    ghost marks: { List ℕ };

    // The most parts that one unit may have.
    ghost finest: { ℕ };

    fn step(whole: u64) -> Step
        requires { (FIRST ≤ whole) × (whole ≤ LAST) }
        ensures { result ≡ step_of marks (length marks - 2) whole };

    ghost printed: { IsTrue (is_scale FIRST LAST finest marks) };
}

// By whole degrees.
struct Angles;

impl Scale for Angles {
    const FIRST: u64 = 23;

    const LAST: u64 = 39;

    ghost FIRST = { 23 };

    ghost LAST = { 39 };

    ghost marks = { angles };

    ghost finest = { diameter_bound };

    ghost printed = { refl };

    fn step(degree: u64) -> Step {
        let place = ((degree - 23) / 2).min(7);
        Step {
            place,
            mark: 2 * place + 23,
            next: 2 * place + 25,
        }
    }
}

// By whole halves of h/d.
struct Ratios;

impl Scale for Ratios {
    const FIRST: u64 = 8;

    const LAST: u64 = 50;

    ghost FIRST = { 8 };

    ghost LAST = { 50 };

    ghost marks = { ratios };

    ghost finest = { diameter_bound };

    ghost printed = { refl };

    fn step(halves: u64) -> Step {
        if halves < 10 {
            return Step {
                place: 0,
                mark: 8,
                next: 10,
            };
        }
        let place = (halves / 5 - 1).min(8);
        Step {
            place,
            mark: 5 * place + 5,
            next: 5 * place + 10,
        }
    }
}

// By millimetres, with two marks.
struct Diameters;

impl Scale for Diameters {
    const FIRST: u64 = 800;

    const LAST: u64 = 4000;

    ghost FIRST = { 800 };

    ghost LAST = { 4000 };

    ghost marks = { diameters };

    ghost finest = { 1 };

    ghost printed = { refl };

    #[tactic(auto, unfolding(rules::specs::Tables::row_for))]
    fn step(_diameter: u64) -> Step {
        Step {
            place: 0,
            mark: 800,
            next: 4000,
        }
    }
}

// By whole metres of table 7.2.
struct CapDepths;

impl Scale for CapDepths {
    const FIRST: u64 = 3;

    const LAST: u64 = 35;

    ghost FIRST = { 3 };

    ghost LAST = { 35 };

    ghost marks = { cap_depths };

    ghost finest = { diameter_bound };

    ghost printed = { refl };

    fn step(metre: u64) -> Step {
        if metre < 5 {
            return Step {
                place: metre - 3,
                mark: metre,
                next: metre + 1,
            };
        }
        if metre < 10 {
            let place = metre / 7 + 2;
            return Step {
                place,
                mark: 2 * place + 1,
                next: 3 * place + 1,
            };
        }
        let place = (metre / 5 + 2).min(8);
        Step {
            place,
            mark: 5 * place - 10,
            next: 5 * place - 5,
        }
    }
}

// A number in parts of which one unit of the scale has so many: before the first mark it stands at the first, past the last at the last.
#[tactic(auto, using(crate::proofs::ScaleLaws::whole_units, crate::proofs::ScaleLaws::fits))]
fn on_scale<S: Scale>(n: u64, unit: u64) -> OnScale
    requires { (0 < unit) × (unit ≤ S.finest) }
    ensures { (result ≡ rule.on_scale S.marks unit n) × Marked (length S.marks - 2) result }
{
    let read = n.clamp(S::FIRST * unit, S::LAST * unit);
    let step = S::step(read / unit);
    OnScale {
        place: step.place as usize,
        past: read - step.mark * unit,
        span: (step.next - step.mark) * unit,
    }
}

// A reduced angle, in thousandths of a degree.
pub fn on_angles(t: u64) -> OnScale
    ensures { (result ≡ rule.on_angles t) × Marked 7 result }
{
    on_scale::<Angles>(t, 1000)
}

// A tip in sand: how deep it is, h, and the pile's diameter, d, both in millimetres.
#[derive(Clone, Copy)]
pub struct SandTip {
    pub height: u64,
    pub diameter: u64,
    pub ghost reached: { height ≤ height_bound },
    pub ghost some: { 0 < diameter },
    pub ghost round: { diameter ≤ diameter_bound },
}

// h/d of a tip.
pub fn on_ratios(tip: SandTip) -> OnScale
    ensures { (result ≡ rule.on_ratios tip.height tip.diameter) × Marked 8 result }
{
    on_scale::<Ratios>(2 * tip.height, tip.diameter)
}

// A diameter in millimetres.
pub fn on_diameters(d: u64) -> OnScale
    ensures { (result ≡ rule.on_diameters d) × Marked 0 result }
{
    on_scale::<Diameters>(d, 1)
}

// A depth of table 7.2, in millimetres.
pub fn on_depths(depth: u64) -> OnScale
    ensures { (result ≡ rule.on_scale cap_depths 1000 depth) × Marked 8 result }
{
    on_scale::<CapDepths>(depth, 1000)
}

// A line of a table between the two marks around a reading, times their span.
pub fn line_at(line: &[u16], s: OnScale) -> u64
    requires { Marked (length line.now - 2) s × (2 ≤ length line.now) }
    ensures { (result ≡ rule.mean s (get_or line.now s.place 0) (get_or line.now (s.place + 1) 0)) × (result ≤ s.span * max (get_or line.now s.place 0) (get_or line.now (s.place + 1) 0)) }
{
    let j = s.place;
    mean(s.span, s.past, u64::from(line[j]), u64::from(line[j + 1]))
}
