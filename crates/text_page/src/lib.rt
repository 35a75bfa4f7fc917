// The sheet of a log and a pile record, laid out on a page.
#![tactic(auto)]

ghost use Rattle.std.specs.Prelude.{◌≡◌, List, ◌+◌, ◌<◌, ◌≤◌, length, replicate, unwrap_or, IfSome};
ghost use Rattle.rules.specs.Limits.{row_limit, forms, form_by, log_size, table_size};
ghost use Rattle.rules.specs.Sheet.{input_limit, sheet_of, sheet_text};
ghost use Rattle.rules.specs.declared.Slice.{Slice};
ghost use Rattle.text_lines.specs.Lines.{Holds};
ghost use Rattle.text_page.specs.Places.{Printable};
ghost use Rattle.text_page.specs.Pages.{page_size, page_of};

use record_lengths::row_limit;
use record_slices::read_slice;
use rules::{
    Answer, GRADED_SIZE, MORE_PLACES, PLACE_LIMIT, PLAIN_SIZE, ROW_SIZE, SLICE_SIZE, TABLE_SIZE,
};
use text_lines::{print_answer, print_slice, print_total};
use text_writing::Writer;

const PAGE_SIZE: usize = 4096;

// The text that is printed is the first len bytes; the others are zero.
#[derive(Clone, Copy)]
pub struct Page {
    pub bytes: [u8; PAGE_SIZE],
    pub len: usize,
}

// The answer line; then, where nothing is refused, a line for each slice of the table, down to the first place of no
// thickness, and the total line.
fn lay_out(page: &mut Writer<'_>, answer: Answer, table: &[u8])
    requires zeros { page.old.buf.now ≡ replicate page_size 0 }
    requires front { page.old.at ≡ 0 }
    ensures same_buffer { page.new.buf.ghost_name ≡ page.old.buf.ghost_name }
    ensures sheet { (cs : List Slice) → Printable answer table.now cs → Holds page_size page.new.buf.now page.new.at (sheet_of answer cs) }
{
    print_answer(page, answer);
    if 0 < answer.refusal.number {
        return;
    }
    for place in 0..PLACE_LIMIT as u32 {
        let slice = read_slice(table, place).slice;
        if slice.thickness == 0 {
            break;
        }
        print_slice(page, slice);
    }
    print_total(page, answer);
}

// The row limit of a log that so many bytes of pile record follow, in an input of len bytes.
fn limit_before(size: usize, len: usize) -> Option<usize>
    ensures told { unwrap_or result 0 ≡ form_by (λ n. log_size n + size) forms len }
    ensures form { IfSome result (λ limit. (0 < limit) × (limit ≤ row_limit)) }
{
    row_limit(len.checked_sub(size)?)
}

// The row limit of an input, by its length: that of the log before a pile record, without a grade or with one.
fn input_limit(input: &[u8]) -> Option<usize>
    ensures told { unwrap_or result 0 ≡ input_limit input.now }
    ensures form { IfSome result (λ limit. (0 < limit) × (limit ≤ row_limit)) }
{
    let plain = limit_before(PLAIN_SIZE, input.len());
    plain.or(limit_before(GRADED_SIZE, input.len()))
}

// The sheet of an input of this row limit, put on a page of zeros; the table, of zeros too, is what it is worked out in.
fn put_sheet(page: &mut Writer<'_>, input: &[u8], limit: usize, table: &mut [u8])
    requires zeros { page.old.buf.now ≡ replicate page_size 0 }
    requires front { page.old.at ≡ 0 }
    requires limit { (limit ≡ input_limit input.now) × (limit ≤ row_limit) }
    requires table { table.old ≡ replicate (table_size limit) 0 }
    ensures same_buffer { page.new.buf.ghost_name ≡ page.old.buf.ghost_name }
    ensures sheet { Holds page_size page.new.buf.now page.new.at (sheet_text input.now) }
{
    let end = (1 + limit * ROW_SIZE).min(input.len());
    let (log, pile) = input.split_at(end);
    let answer = answer_calculation::calculate(log, pile, None, table);
    lay_out(page, answer, table);
}

// What is printed for the bytes that were read, of any number: the log, and behind it the pile record.
pub fn sheet(input: &[u8]) -> Page
    ensures { (result ≡ page_of (sheet_text input.now)) × (result.len ≤ page_size) × (length result.bytes ≡ page_size) }
{
    let limit = input_limit(input).unwrap_or(0);
    let size = (limit + MORE_PLACES) * SLICE_SIZE;
    let mut table = [0u8; TABLE_SIZE];
    let mut bytes = [0u8; PAGE_SIZE];
    let mut page = Writer {
        buf: &mut bytes,
        at: 0,
    };
    put_sheet(&mut page, input, limit, &mut table[..size]);
    let len = page.at;
    Page { bytes, len }
}
