// Cases that read: each prints a line.
use super::show::{Hex, Numbers, row_sums};
use record_row_bytes::row_bytes;
use record_row_ranges::row_field;
use std::io;

pub(crate) fn read_log(rt: &impl Print, s: &[u8]) -> io::Result<()> {
    let read = record_logs::read_log(s);
    let sum = row_sums(&read.log);
    println!(rt; "log{} {} {sum}", Numbers(read.refusal), read.log.count)
}

// Every row that is used, field by field.
pub(crate) fn read_rows(rt: &impl Print, s: &[u8]) -> io::Result<()> {
    print!(rt; "rows")?;
    let log = record_logs::read_log(s).log;
    for row in log.rows.iter().filter(|row| row.thickness != 0) {
        print!(rt; "{}", Numbers(*row))?;
    }
    println!(rt; "")
}

pub(crate) fn read_pile(rt: &impl Print, s: &[u8]) -> io::Result<()> {
    println!(rt; "pile{}", Numbers(record_piles::read_pile(s)))
}

// Spot i, counted from 0.
pub(crate) fn read_slice(rt: &impl Print, s: &[u8], i: u16) -> io::Result<()> {
    let read = record_slices::read_slice(s, u32::from(i));
    println!(rt; "slice {}{}", read.refusal, Numbers(read.slice))
}

// The row that begins at byte i, the number of its wrong field, 0 where there is none, and its bytes.
pub(crate) fn read_row(rt: &impl Print, s: &[u8], i: u16) -> io::Result<()> {
    let row = record_rows::read_row(s, usize::from(i));
    let wrong = row_field(row).map_or(0, u32::from);
    println!(rt; "row{} {wrong} {}", Numbers(row), Hex(&row_bytes(row)))
}
