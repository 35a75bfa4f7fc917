// Checks 7 to 12 and 17 of a pile in its ground: its depths (7 and 8), its tip in clay (10 to 12) or in sand (9, 10 and 17), and its seat (10).
#![tactic(auto)]

mod clay;
mod depths;
mod sand;
mod tip;

pub use clay::clay_refusal;
pub use depths::depth_refusal;
pub use sand::sand_refusal;
pub use tip::Tip;
