// Runs the steps that standard input holds, each of 25 bytes, on one log, pile record, extra record and slice table: an edit, or bytes put into
// one of the four. After an edit it prints the reply and a sum of the log's and of the table's bytes.
#![tactic(auto)]

mod lent;
mod steps;

use lent::Lent;
use std::io;
use steps::{StepKind, next_step};

const STEP_LIMIT: usize = 10000;

fn main(rt: HostRuntime) -> io::Result<()> {
    let mut input = rt.reader();
    let mut lent = Lent::new();
    for _ in 0..STEP_LIMIT {
        let Some(step) = next_step(&mut input)? else {
            break;
        };
        match step.kind {
            StepKind::Edit => {
                let extra = lent.extra();
                let answer = step.edit(&mut lent.log, &lent.pile, extra, &mut lent.table);
                lent.show(&rt, answer)?;
            }
            StepKind::PutLog => step.put_into(&mut lent.log),
            StepKind::PutPile => step.put_into(&mut lent.pile),
            StepKind::PutTable => step.put_into(&mut lent.table),
            StepKind::PutSand => step.put_into(&mut lent.sand),
        }
    }
    Ok(())
}
