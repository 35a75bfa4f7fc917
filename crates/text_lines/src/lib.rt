// The lines of the sheet, put one after another into a lent buffer.
//
// How a sheet is put together: with a buffer of 4,096 zeros,
//     let mut page = Writer { buf, at: 0 };
//     print_answer(&mut page, a);
// and then, where a refuses nothing, for each slice c in order and once at the end
//     print_slice(&mut page, c);
//     print_total(&mut page, a);
// after which buf[..page.at] is the sheet. Each call leaves page.at behind its line, which is at most
// 40 + 33 * i after i slices, so the room that each line asks for is there: a whole sheet of 83 has at most 2,890 bytes.
//
// For the proof of such a loop, proofs/SheetLaws carries `Holds n buf at text`, that the n bytes are the text and zeros behind
// it, from call to call: sheet_begun, sheet_more, sheet_ended, and sheet_refused.
#![tactic(auto)]

ghost use Rattle.std.specs.Prelude.{◌+◌, ◌*◌, ◌<◌, ◌≤◌, length};
ghost use Rattle.rules.specs.Sheet.{text_line, answer_line, slice_line, total_line};
ghost use Rattle.text_writing.specs.Text.{Puts};
ghost use Rattle.text_lines.specs.Lines.{line_room};

use rules::{Answer, Slice};
use text_writing::Writer;

// A word, its numbers, and a newline.
fn put_line(page: &mut Writer<'_>, word: &[u8], xs: &[u64])
    requires { page.old.at + (length word.now + 21 * length xs.now) < length page.old.buf.now }
    ensures { Puts page.old (text_line word.now xs.now) page.new }
{
    page.put_bytes(word);
    page.put_numbers(xs);
    page.put_bytes(b"\n");
}

// The answer line, the first: refusal number, row and field.
pub fn print_answer(page: &mut Writer<'_>, a: Answer)
    requires { page.old.at + line_room ≤ length page.old.buf.now }
    ensures put { Puts page.old (answer_line a) page.new }
    ensures short { page.new.at ≤ page.old.at + 40 }
{
    let refusal = a.refusal;
    let xs = [
        u64::from(refusal.number),
        u64::from(refusal.row),
        u64::from(refusal.field),
    ];
    put_line(page, b"answer", &xs);
}

// A slice line: top, thickness, friction and factor.
pub fn print_slice(page: &mut Writer<'_>, c: Slice)
    requires { page.old.at + line_room ≤ length page.old.buf.now }
    ensures put { Puts page.old (slice_line c) page.new }
    ensures short { page.new.at ≤ page.old.at + 33 }
{
    let xs = [
        u64::from(c.top),
        u64::from(c.thickness),
        u64::from(c.friction),
        u64::from(c.factor),
    ];
    put_line(page, b"slice", &xs);
}

// The total line: line, tip, shaft, capacity and uplift.
pub fn print_total(page: &mut Writer<'_>, a: Answer)
    requires { page.old.at + line_room ≤ length page.old.buf.now }
    ensures put { Puts page.old (total_line a) page.new }
    ensures short { page.new.at ≤ page.old.at + 111 }
{
    let xs = [a.line, a.tip, a.shaft, a.capacity, a.uplift];
    put_line(page, b"total", &xs);
}
