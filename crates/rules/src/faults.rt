// What is wrong where a call is refused: a case for each check, in the order of their numbers; specs/Faults.antt has the refusal of each.
ghost use Rattle.std.specs.Prelude.{◌≡◌};
ghost use Rattle.rules.specs.Base.{refuse};
ghost use Rattle.rules.specs.Faults.{refusal_in};

use crate::Refusal;

// The fields of a row, in order.
#[derive(Clone, Copy, PartialEq, Eq)]
pub enum RowField {
    Thickness,
    Kind,
    Index,
    Saturation,
    Zero,
}

impl From<RowField> for u32 {
    ghost use Rattle.rules.specs.Faults.{row_field_number};

    ghost from_gives = { λ field n. n ≡ row_field_number field };

    fn from(field: RowField) -> u32 {
        match field {
            RowField::Thickness => 1,
            RowField::Kind => 2,
            RowField::Index => 3,
            RowField::Saturation => 4,
            RowField::Zero => 5,
        }
    }
}

// The fields of a pile record that check 5 looks at, in order.
#[derive(Clone, Copy, PartialEq, Eq)]
pub enum PileField {
    Section,
    A,
    B,
    Zero,
}

impl From<PileField> for u32 {
    ghost use Rattle.rules.specs.Faults.{pile_field_number};

    ghost from_gives = { λ field n. n ≡ pile_field_number field };

    fn from(field: PileField) -> u32 {
        match field {
            PileField::Section => 1,
            PileField::A => 2,
            PileField::B => 3,
            PileField::Zero => 4,
        }
    }
}

#[derive(Clone, Copy, PartialEq, Eq)]
pub enum Fault {
    // 1: a lent piece has the wrong length.
    Length,
    // 2: the count, or an unused place that is not zero.
    Unused,
    // 3: a row's field; rows count from 1.
    Row { row: u32, field: RowField },
    // 4: the log is too deep.
    TooDeep,
    // 5: a field of the pile record.
    Section { field: PileField },
    // 6
    Method,
    // 7: head and tip.
    Depths,
    // 8: the log ends too near below the tip.
    LogShort,
    // 9: a sand tip without its record, or in a rectangle.
    SandUnread,
    // 10
    SeatShort,
    // 11
    TooSoft,
    // 12: a dash would be read.
    Dashed,
    // 13: the edit names nothing that is there.
    NamesNothing,
    // 14: no place is left.
    Full,
    // 17: the record of a sand tip.
    SandWrong,
}

// A refusal of this number, without row and field.
fn numbered(number: u32) -> Refusal
    ensures { result ≡ refuse number }
{
    Refusal {
        number,
        ..Refusal::default()
    }
}

impl From<Fault> for Refusal {
    ghost use Rattle.rules.specs.Faults.{refusal_of};

    ghost from_gives = { λ fault refusal. refusal ≡ refusal_of fault };

    fn from(fault: Fault) -> Refusal {
        match fault {
            Fault::Length => numbered(1),
            Fault::Unused => numbered(2),
            Fault::Row { row, field } => Refusal {
                number: 3,
                row,
                field: u32::from(field),
            },
            Fault::TooDeep => numbered(4),
            Fault::Section { field } => Refusal {
                number: 5,
                row: 0,
                field: u32::from(field),
            },
            Fault::Method => numbered(6),
            Fault::Depths => numbered(7),
            Fault::LogShort => numbered(8),
            Fault::SandUnread => numbered(9),
            Fault::SeatShort => numbered(10),
            Fault::TooSoft => numbered(11),
            Fault::Dashed => numbered(12),
            Fault::NamesNothing => numbered(13),
            Fault::Full => numbered(14),
            Fault::SandWrong => numbered(17),
        }
    }
}

// What a check replies, as a refusal: of number 0 where nothing is wrong.
#[tactic(auto, unfolding(crate::specs::Faults::refusal_in))]
pub fn refusal_in(outcome: Result<(), Fault>) -> Refusal
    ensures { result ≡ refusal_in outcome }
{
    match outcome {
        Ok(()) => numbered(0),
        Err(fault) => Refusal::from(fault),
    }
}
