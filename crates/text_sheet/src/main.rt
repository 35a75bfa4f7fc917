// The sheet program: a log and a pile record from standard input, their sheet to standard output.
#![tactic(auto)]

ghost use Rattle.std.specs.Prelude.{◌≤◌, length, IfOk};

use rules::{GRADED_SIZE, LOG_SIZE};
use std::io::{self, Read};

// One byte more than a log and a pile record with a grade have, so that a longer input is noticed.
const INPUT_SIZE: usize = LOG_SIZE + GRADED_SIZE + 1;

// Puts what comes next at the front of s, until s is full or the input ends, and says how many bytes that is.
fn read_full(input: &mut impl Read, s: &mut [u8]) -> io::Result<usize>
    ensures { IfOk result (λ n. n ≤ length s.new) }
{
    for (i, x) in s.iter_mut().enumerate() {
        let Some(b) = input.by_ref().bytes().next() else {
            return Ok(i);
        };
        *x = b?;
    }
    Ok(s.len())
}

fn main(rt: HostRuntime) -> io::Result<()> {
    let mut input = [0u8; INPUT_SIZE];
    let n = read_full(&mut rt.reader(), &mut input)?;
    let page = text_page::sheet(&input[..n]);
    rt.write_all(&page.bytes[..page.len])
}
