// Prints every printed cell of table 7.7, and of the sand columns of table 7.2, as it is read at its own marks: a line for each, with the number
// of the coefficient (7 for table 7.2), the marks and what is read there. stdout has what the norm prints, from the second program.
#![tactic(auto)]

ghost use Rattle.std.specs.Prelude.{◌≤◌};

use norm_alphas::{alpha_1, alpha_2, alpha_3, alpha_4};
use norm_sand_caps::sand_cap;
use norm_scales::SandTip;
use std::io;

// Angles stand every two degrees from 23 to 39. α1 and α2 have no other mark.
fn line<R: Fn(u64) -> u64>(
    rt: &impl Print,
    number: u64,
    mark: Option<u64>,
    read: R,
) -> io::Result<()>
    requires { R.IsAlwaysCallable read }
{
    for t in (23000..=39000).step_by(2000) {
        match mark {
            Some(mark) => println!(rt; "{number} {mark} {t} {}", read(t))?,
            None => println!(rt; "{number} {t} {}", read(t))?,
        }
    }
    Ok(())
}

// α3 of a tip so deep, of a pile of a diameter of 1,000.
fn third_line(rt: &impl Print, height: u64) -> io::Result<()>
    requires { height ≤ 40000 }
{
    let tip = SandTip {
        height,
        diameter: 1000,
    };
    line(rt, 3, Some(height), |t| alpha_3(t, tip))
}

// h/d of 4, then from 5 to 25 by two and a half.
fn third_lines(rt: &impl Print) -> io::Result<()> {
    third_line(rt, 4000)?;
    for height in (5000..=25000).step_by(2500) {
        third_line(rt, height)?;
    }
    Ok(())
}

// At 3, 4, 5 and 7 m, then from 10 to 35 m by five.
fn column(rt: &impl Print, kind: u8) -> io::Result<()>
    requires { kind ≤ 3 }
{
    for depth in [
        3000, 4000, 5000, 7000, 10000, 15000, 20000, 25000, 30000, 35000,
    ] {
        println!(rt; "7 {kind} {depth} {}", sand_cap(kind, depth))?;
    }
    Ok(())
}

fn main(rt: HostRuntime) -> io::Result<()> {
    line(&rt, 1, None, alpha_1)?;
    line(&rt, 2, None, alpha_2)?;
    third_lines(&rt)?;
    line(&rt, 4, Some(800), |t| alpha_4(t, 800))?;
    line(&rt, 4, Some(4000), |t| alpha_4(t, 4000))?;
    column(&rt, 1)?;
    column(&rt, 2)?;
    column(&rt, 3)
}
