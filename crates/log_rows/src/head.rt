//! What stands before the rows of a row event.

ghost use Rattle.std.specs.Prelude.{◌≡◌};
ghost use Rattle.list_laws.specs.Outcome.{Gives};
ghost use Rattle.log_rows.specs.Head.{kind_of_event, head_value, more_at, after_at, head_at, are_all, has_all};

use crate::change::RowsKind;
use crate::fault::RowFault;
use crate::image::{bit_of, bits_size};
use log_events::{Size, number_at};
use log_tables::{front_of, packed_of};

/// Which rows an event of a type has, and whether it is of the second version, which may say more before them;
/// `None` where it has none.
pub fn kind_of_event(event_type: u8) -> Option<(RowsKind, bool)>
    ensures { result ≡ kind_of_event event_type }
{
    if event_type == 23 {
        Some((RowsKind::Write, false))
    } else if event_type == 24 {
        Some((RowsKind::Update, false))
    } else if event_type == 25 {
        Some((RowsKind::Delete, false))
    } else if event_type == 30 {
        Some((RowsKind::Write, true))
    } else if event_type == 31 {
        Some((RowsKind::Update, true))
    } else if event_type == 32 {
        Some((RowsKind::Delete, true))
    } else {
        None
    }
}

/// What stands before the rows of a row event, and their bytes. All are slices of the event's body.
#[derive(Clone, Copy, Debug, PartialEq, Eq)]
pub struct RowsHead<'b> {
    /// the table's number, as its map has it
    pub table: u64,
    /// how many columns the table has
    pub count: u64,
    /// a bit for each column that the rows have, the lowest of a byte first
    pub present: &'b [u8],
    /// the same of the rows after a change
    pub present_after: &'b [u8],
    /// the rows, one behind another
    pub rows: &'b [u8],
}

/// What stands behind that which the second version says more.
fn behind_more(second: bool, bytes: &[u8]) -> Result<&[u8], RowFault>
    ensures { Gives (λ x. x.now) result (more_at second bytes.now) }
{
    if !second {
        return Ok(bytes);
    }
    let (size, behind) = front_of(bytes, 2)?;
    let size = number_at(size, 0, Size::Two);
    if size < 2 {
        return Err(RowFault::CutHead);
    }
    let (_, rest) = front_of(behind, size - 2)?;
    Ok(rest)
}

/// The bits of the columns after a change, and what stands behind them.
fn after_of<'b>(
    kind: RowsKind,
    size: u64,
    present: &'b [u8],
    bytes: &'b [u8],
) -> Result<(&'b [u8], &'b [u8]), RowFault>
    ensures { Gives (λ x. (x.0.now, x.1.now)) result (after_at kind size present.now bytes.now) }
{
    match kind {
        RowsKind::Update => {
            let (after, rest) = front_of(bytes, size)?;
            Ok((after, rest))
        }
        _ => Ok((present, bytes)),
    }
}

/// What stands before the rows of an event's body, and their bytes. Takes no memory.
#[tactic(auto, unfolding(crate::specs::Head::head_at))]
pub fn rows_of(kind: RowsKind, second: bool, body: &[u8]) -> Result<RowsHead<'_>, RowFault>
    ensures { Gives head_value result (head_at kind second body.now) }
{
    let (head, behind) = front_of(body, 8)?;
    let columns = behind_more(second, behind)?;
    let (count, behind_count) = packed_of(columns)?;
    let size = bits_size(count);
    let (present, behind_present) = front_of(behind_count, size)?;
    let (present_after, rows) = after_of(kind, size, present, behind_present)?;
    Ok(RowsHead {
        table: number_at(head, 0, Size::Six),
        count,
        present,
        present_after,
        rows,
    })
}

/// Whether the first bits are 1, so many of them.
fn are_all(count: usize, bits: &[u8]) -> bool
    ensures { result ≡ are_all count bits.now }
{
    for place in 0..count {
        if !bit_of(bits, place) {
            return false;
        }
    }
    true
}

impl<'b> RowsHead<'b> {
    /// Whether the rows have all columns of a table that has so many, one at least.
    pub fn has_all(&self, columns: usize) -> bool
        ensures { result ≡ has_all columns (head_value self.now) }
    {
        self.count == columns as u64
            && columns > 0
            && are_all(columns, self.present)
            && are_all(columns, self.present_after)
    }
}
