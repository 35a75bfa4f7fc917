// A step as standard input holds it.
use edit_naming::Edit;
use rules::{Answer, ROW_SIZE, SandNumbers};
use std::io::{self, Read};

// More than a row has.
const ROW_ROOM: usize = 8;

// What a step does: an edit of what is lent, or bytes put into the log, the pile record, the table or the extra record.
#[derive(Clone, Copy)]
pub(crate) enum StepKind {
    Edit,
    PutLog,
    PutPile,
    PutTable,
    PutSand,
}

impl StepKind {
    // By the byte that a step begins with; 255 ends the steps.
    fn of(byte: u8) -> Option<StepKind> {
        match byte {
            255 => None,
            0 => Some(StepKind::Edit),
            1 => Some(StepKind::PutLog),
            2 => Some(StepKind::PutPile),
            3 => Some(StepKind::PutTable),
            _ => Some(StepKind::PutSand),
        }
    }
}

#[derive(Clone, Copy)]
pub(crate) struct Step {
    pub(crate) kind: StepKind,
    // how many bytes are lent of each, where it has so many
    log: usize,
    pile: usize,
    table: usize,
    // the number of the edit's kind, its row k, which is the place that bytes are put at, and its split point x
    number: u32,
    k: u32,
    x: u32,
    // how many bytes of the row are lent, and its bytes
    row_length: u8,
    row: [u8; ROW_ROOM],
}

impl Step {
    // The edit that is asked for, of as much of each as is lent.
    pub(crate) fn edit(
        &self,
        log: &mut [u8],
        pile: &[u8],
        extra: Option<SandNumbers>,
        table: &mut [u8],
    ) -> Answer {
        let log_length = self.log.min(log.len());
        let pile_length = self.pile.min(pile.len());
        let table_length = self.table.min(table.len());
        edit_reply::edit(
            &mut log[..log_length],
            &pile[..pile_length],
            extra,
            &mut table[..table_length],
            Edit::asked(self.number, self.k, self.x, self.row()),
        )
    }

    // The lent bytes of the row.
    fn row(&self) -> &[u8] {
        let length = usize::from(self.row_length).min(ROW_ROOM);
        &self.row[..length]
    }

    // Those bytes go to t, from byte k on, where t has so many.
    pub(crate) fn put_into(&self, t: &mut [u8]) {
        let row = self.row();
        let from = self.k as usize;
        if let Some(place) = t.get_mut(from..from + row.len()) {
            place.copy_from_slice(row);
        }
    }
}

// What comes next on standard input: a byte, 255 at its end.
fn byte(input: &mut impl Read) -> io::Result<u8> {
    input.by_ref().bytes().next().unwrap_or(Ok(255))
}

fn two(input: &mut impl Read) -> io::Result<u16> {
    let high = byte(input)?;
    let low = byte(input)?;
    Ok(u16::from_be_bytes([high, low]))
}

fn four(input: &mut impl Read) -> io::Result<u32> {
    let high = two(input)?;
    let low = two(input)?;
    Ok(u32::from(high) << 16 | u32::from(low))
}

// Zeros where the input ended.
fn next_row(input: &mut impl Read) -> io::Result<[u8; ROW_ROOM]> {
    let mut row = [0; ROW_ROOM];
    for x in row.iter_mut().take(ROW_SIZE) {
        let Some(b) = input.by_ref().bytes().next() else {
            break;
        };
        *x = b?;
    }
    Ok(row)
}

pub(crate) fn next_step(input: &mut impl Read) -> io::Result<Option<Step>> {
    let Some(kind) = StepKind::of(byte(input)?) else {
        return Ok(None);
    };
    Ok(Some(Step {
        kind,
        log: usize::from(two(input)?),
        pile: usize::from(two(input)?),
        table: usize::from(two(input)?),
        number: four(input)?,
        k: four(input)?,
        x: four(input)?,
        row_length: byte(input)?,
        row: next_row(input)?,
    }))
}
