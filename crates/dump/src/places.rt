//! Where a key, and a table, stands among rows by rising key.

ghost use Rattle.std.specs.Prelude.{◌≡◌, ◌==◌, MatchResult, not, position};
ghost use Rattle.pk_copy.specs.KeyOrder.{key_cmp};
ghost use Rattle.target_tables.specs.Places.{IsAt, IsGap};
ghost use Rattle.target_tables.specs.Rising.{IsRising};

use pk_copy::{Key, KeyView};
use row_view::RowBuf;
use std::cmp::Ordering;

/// The place of the row at the key, or else the place at which it would stand. Found by halves.
pub(crate) fn place_of(pairs: &[(Key, RowBuf)], key: &KeyView<'_>) -> Result<usize, usize>
    requires { IsRising key_cmp pairs.now }
    ensures { MatchResult result (IsAt key_cmp pairs.now key.now) (IsGap key_cmp pairs.now key.now) }
{
    let mut low = 0;
    let mut high = pairs.len();
    while low < high {
        let middle = low + (high - low) / 2;
        match pairs[middle].0.view().cmp(&*key) {
            Ordering::Less => low = middle + 1,
            Ordering::Equal => return Ok(middle),
            Ordering::Greater => high = middle,
        }
    }
    Err(low)
}

/// The place of the first row that isn't of table `t`. Takes no memory.
pub fn place_of_other(rows: &[(Key, RowBuf)], t: usize) -> Option<usize>
    ensures { result ≡ position (λ row. not (row.0.table == t)) rows.now }
{
    rows.iter().position(|row| usize::from(row.0.table()) != t)
}
