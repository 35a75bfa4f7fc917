// The grade of a site: how deep it is cut, how deep a tip then is, and how far a cut or a fill moves the depths at which tables are read.
#![tactic(auto)]

ghost use Rattle.std.specs.Prelude.{◌≡◌, ◌-◌, ◌^◌, ◌≤◌};
ghost use Rattle.rules.specs.Grades as rule;

use rules::FREE_GRADE;

// How deep the site is cut; 0 where it is not.
#[tactic(auto, unfolding(rules::specs::Grades::cut_depth))]
pub fn cut_depth(grade: u16) -> u64
    ensures { (result ≡ rule.cut_depth grade) × (result ≤ 2 ^ 15) }
{
    u64::from(grade.cast_signed().min(0).unsigned_abs())
}

// How high it is filled; 0 where it is not.
#[tactic(auto, unfolding(rules::specs::Grades::fill_height))]
fn fill_height(grade: u16) -> u64
    ensures { (result ≡ rule.fill_height grade) × (result ≤ 2 ^ 15) }
{
    u64::from(grade.cast_signed().max(0).unsigned_abs())
}

// A depth in millimetres, less the cut.
pub fn below_cut(grade: u16, depth: u16) -> u64
    ensures { (result ≡ depth - rule.cut_depth grade) × (result ≤ depth) }
{
    u64::from(depth).saturating_sub(cut_depth(grade))
}

// How far the depths at which the tables are read are moved, in millimetres: raised by a fill, lowered by a cut.
#[derive(Clone, Copy)]
pub struct Shift {
    pub raising: u64,
    pub lowering: u64,
}

// Each by what passes 3,000 mm.
pub fn shift_of(grade: u16) -> Shift
    ensures { (result ≡ record { raising = rule.raising grade; lowering = rule.lowering grade }) × (result.raising ≤ 2 ^ 15) }
{
    Shift {
        raising: fill_height(grade).saturating_sub(FREE_GRADE),
        lowering: cut_depth(grade).saturating_sub(FREE_GRADE),
    }
}

// A depth in millimetres as table 7.8 is read at it.
pub fn depth_read(grade: u16, depth: u16) -> u64
    ensures { result ≡ rule.as_read grade 1 depth }
{
    let shift = shift_of(grade);
    (u64::from(depth) + shift.raising).saturating_sub(shift.lowering)
}
