// Cases that pack: each prints a line.
use super::given::{Given, log_given, pile_given, row_given, slice_given};
use super::show::{Hex, Numbers, byte_sums};
use record_row_bytes::row_bytes;
use record_row_ranges::row_field;
use rules::{Fault, refusal_in};
use std::io;

// What a packing replies, and the buffer that it leaves.
fn packed(rt: &impl Print, name: &str, outcome: Result<(), Fault>, buf: &[u8]) -> io::Result<()> {
    let refusal = refusal_in(outcome);
    println!(rt;
        "{name}{} {} {}",
        Numbers(refusal),
        Hex(buf),
        byte_sums(buf)
    )
}

pub(crate) fn pack_log(rt: &impl Print, given: &Given, buf: &mut [u8]) -> io::Result<()> {
    let outcome = record_packing::pack_log(log_given(given), buf);
    packed(rt, "packlog", outcome, buf)
}

pub(crate) fn pack_pile(rt: &impl Print, given: &Given, buf: &mut [u8]) -> io::Result<()> {
    let outcome = record_pile_bytes::pack_pile(pile_given(given), buf);
    packed(rt, "packpile", outcome, buf)
}

pub(crate) fn pack_slice(rt: &impl Print, given: &Given) -> io::Result<()> {
    let bytes = record_slices::slice_bytes(slice_given(given));
    println!(rt; "packslice {}", Hex(&bytes))
}

// Its bytes, and the number of its wrong field, 0 where there is none.
pub(crate) fn pack_row(rt: &impl Print, given: &Given) -> io::Result<()> {
    let row = row_given(given, 0);
    let wrong = row_field(row).map_or(0, u32::from);
    println!(rt; "packrow {} {wrong}", Hex(&row_bytes(row)))
}
