//! Whether a lent key is copied.

ghost use Rattle.std.specs.Prelude.{◌≡◌};
ghost use Rattle.pk_copy.specs.Marks.{is_inside};

use pk_copy::{CopyState, LentKey, Mark};

/// Whether the key is copied: its table is done, or is copied up to a key that this one is at most. The table's
/// mark alone tells it, but where the table is partly copied. Takes no memory.
pub(crate) fn is_inside(marks: &CopyState, key: &LentKey<'_>) -> bool
    ensures { result ≡ is_inside marks.now key.now }
{
    match marks.mark(key.table()) {
        Mark::Waiting => false,
        Mark::Upto(last) => key.view().cmp(&last.view()).is_le(),
        Mark::Done => true,
    }
}
