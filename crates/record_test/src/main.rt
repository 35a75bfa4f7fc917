// Runs the cases of standard input through the crates rows, logs, packing, piles and slices, and prints a line for each; stdout has what document 01 says.
//
// A case: its kind, two bytes with a length, two bytes with how many bytes follow, and those bytes. What is read is that long,
// the bytes that follow and then zeros, and the last two of 600 say which place or byte; what is packed goes to a buffer that long, 165 in every byte.
#![tactic(auto)]

mod given;
mod packs;
mod reads;
mod show;

use given::{GIVEN_SIZE, Given, next_byte, next_wide, wide};
use packs::{pack_log, pack_pile, pack_row, pack_slice};
use reads::{read_log, read_pile, read_row, read_rows, read_slice};
use std::io::{self, Read};

const CASES: usize = 100000;

// What a case does.
#[derive(Clone, Copy)]
enum Kind {
    ReadLog,
    ReadRows,
    ReadPile,
    ReadSlice,
    ReadRow,
    PackLog,
    PackPile,
    PackSlice,
    PackRow,
}

impl Kind {
    // By the byte that a case begins with; 0 ends the cases.
    fn of(byte: u8) -> Option<Kind> {
        match byte {
            0 => None,
            1 => Some(Kind::ReadLog),
            2 => Some(Kind::ReadRows),
            3 => Some(Kind::ReadPile),
            4 => Some(Kind::ReadSlice),
            5 => Some(Kind::ReadRow),
            6 => Some(Kind::PackLog),
            7 => Some(Kind::PackPile),
            8 => Some(Kind::PackSlice),
            _ => Some(Kind::PackRow),
        }
    }
}

#[derive(Clone, Copy)]
struct Case {
    kind: Kind,
    length: u16,
    given: Given,
}

// Puts as many bytes as are said to follow in front, or as many as there are.
fn fill(input: &mut impl Read, given: &mut Given) -> io::Result<()> {
    let following = usize::from(next_wide(input)?);
    for x in given.iter_mut().take(following) {
        let Some(b) = input.by_ref().bytes().next() else {
            break;
        };
        *x = b?;
    }
    Ok(())
}

fn next_case(input: &mut impl Read) -> io::Result<Option<Case>> {
    let Some(kind) = Kind::of(next_byte(input)?) else {
        return Ok(None);
    };
    let length = next_wide(input)?;
    let mut given = [0; GIVEN_SIZE];
    fill(input, &mut given)?;
    Ok(Some(Case {
        kind,
        length,
        given,
    }))
}

fn run(rt: &impl Print, case: &Case) -> io::Result<()> {
    let given = &case.given;
    let length = usize::from(case.length).min(GIVEN_SIZE);
    let read = &given[..length];
    let place = wide(given, 598);
    let mut buf = [165; GIVEN_SIZE];
    let packed = &mut buf[..length];
    match case.kind {
        Kind::ReadLog => read_log(rt, read),
        Kind::ReadRows => read_rows(rt, read),
        Kind::ReadPile => read_pile(rt, read),
        Kind::ReadSlice => read_slice(rt, read, place),
        Kind::ReadRow => read_row(rt, read, place),
        Kind::PackLog => pack_log(rt, given, packed),
        Kind::PackPile => pack_pile(rt, given, packed),
        Kind::PackSlice => pack_slice(rt, given),
        Kind::PackRow => pack_row(rt, given),
    }
}

fn main(rt: HostRuntime) -> io::Result<()> {
    let mut input = rt.reader();
    for _ in 0..CASES {
        let Some(case) = next_case(&mut input)? else {
            break;
        };
        run(&rt, &case)?;
    }
    Ok(())
}
