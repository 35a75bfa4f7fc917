// One thing made of another: the soil of a row, the extra record of what a host gives, the pile of a reading and the reading of a pile, and the
// answer that a refusal gives.
ghost use Rattle.std.specs.Prelude.{◌≡◌};
ghost use Rattle.rules.specs.Reading.{pile_told};

use crate::{Answer, Pile, PileRead, Refusal, Row, SandFields, SandNumbers, Soil};

impl From<Row> for Soil {
    ghost use Rattle.rules.specs.Ground.{soil_of};

    ghost from_gives = { λ row soil. soil ≡ soil_of row };

    fn from(row: Row) -> Soil {
        Soil {
            kind: row.kind,
            index: row.index,
            saturation: row.saturation,
        }
    }
}

// Absent where given is 0.
impl From<SandFields> for Option<SandNumbers> {
    ghost use Rattle.rules.specs.SandTips.{sand_from};

    ghost from_gives = { λ fields brought. brought ≡ sand_from fields };

    #[tactic(auto, unfolding(crate::specs::SandTips::sand_from))]
    fn from(fields: SandFields) -> Option<SandNumbers> {
        if fields.given == 0 {
            return None;
        }
        Some(SandNumbers {
            angle: fields.angle,
            below: fields.below,
            above: fields.above,
        })
    }
}

impl From<PileRead> for Pile {
    ghost use Rattle.rules.specs.Reading.{pile_of_read};

    ghost from_gives = { λ read pile. pile ≡ pile_of_read read };

    fn from(read: PileRead) -> Pile {
        Pile {
            section: read.section,
            a: read.a,
            b: read.b,
            method: read.method,
            head: read.head,
            tip: read.tip,
            zero: read.zero,
            grade: read.grade,
        }
    }
}

impl PileRead {
    // What a reading tells.
    pub fn told(refusal: Refusal, length: u8, pile: Pile) -> PileRead
        ensures { result ≡ pile_told refusal length pile }
    {
        PileRead {
            refusal,
            length,
            section: pile.section,
            a: pile.a,
            b: pile.b,
            method: pile.method,
            head: pile.head,
            tip: pile.tip,
            zero: pile.zero,
            grade: pile.grade,
        }
    }
}

// The refusal with its row and field, and zeros for all numbers.
impl From<Refusal> for Answer {
    ghost use Rattle.rules.specs.Answers.{refused};

    ghost from_gives = { λ refusal answer. answer ≡ refused refusal };

    fn from(refusal: Refusal) -> Answer {
        Answer {
            refusal,
            ..Answer::default()
        }
    }
}
