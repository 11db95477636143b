//! The check of an event.

ghost use Rattle.std.specs.Prelude.{◌≡◌};
ghost use Rattle.log_events.specs.Crc.{crc32};
ghost use Rattle.log_events.specs.Event.{settled, sum_holds};

use crate::crc::{ALL_ONES, CrcTable};
use crate::number::{Size, behind, number_at};

/// The type of a format description.
pub(crate) const FORMAT_DESCRIPTION: u64 = 15;

/// Where an event's flags stand.
const FLAGS: usize = 17;

/// The check of an event's bytes; that of a format description is of its bytes without the flag that says
/// that the log is still written.
fn settled_check(table: &CrcTable, bytes: &[u8]) -> u32
    ensures { result ≡ crc32 (settled bytes.now) }
{
    if number_at(bytes, 4, Size::One) != FORMAT_DESCRIPTION {
        return table.check_of(bytes);
    }
    let Some((flags, others)) = behind(bytes, FLAGS).split_first() else {
        return table.check_of(bytes);
    };
    let head = bytes.split_at(FLAGS).0;
    let head_sum = table.go_on(ALL_ONES, head);
    let flags_sum = table.go_on(head_sum, &[*flags - *flags % 2]);
    table.go_on(flags_sum, others) ^ ALL_ONES
}

/// Whether an event's last four bytes are the check of the others, where the log has checks.
pub(crate) fn holds(table: &CrcTable, checked: bool, bytes: &[u8]) -> bool
    ensures { result ≡ sum_holds checked bytes.now }
{
    if !checked {
        return true;
    }
    let place = bytes.len().saturating_sub(4);
    let wanted = number_at(bytes, place, Size::Four);
    wanted == u64::from(settled_check(table, bytes.split_at(place).0))
}
