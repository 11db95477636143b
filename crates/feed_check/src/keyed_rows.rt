//! What stands at keys while feeds are gone through.

ghost use Rattle.std.specs.Prelude.{◌≡◌, [], OnOk};
ghost use Rattle.std.specs.Option.{option_copied, option_map};
ghost use Rattle.pk_copy.specs.KeyOrder.{key_cmp};
ghost use Rattle.pk_copy.specs.KeyValue.{KeyValue};
ghost use Rattle.target_tables.specs.Contents.{value_at};
ghost use Rattle.target_tables.specs.Touches.{last_at};
ghost use Rattle.feed_check.specs.Replay.{left_at};
ghost use Rattle.feed_check.specs.Private.Replayed.{row_in};

use pk_copy::LentKey;
use std::alloc::{AllocError, Global};
use std::marker::Model;
use target_tables::{TableFault, Tables};

/// Rows, or what else stands at keys, by key. Keys are lent from the feed's buffer. Seen in contracts as the list
/// of keys and rows, by rising key.
#[derive(Drop)]
pub(crate) struct KeyedRows<'h, R> {
    rows: Tables<LentKey<'h>, R>,
}

impl<'h, R> Model for KeyedRows<'h, R> {
    ghost use Rattle.std.specs.Prelude.{List};
    ghost use Rattle.pk_copy.specs.KeyValue.{KeyValue};
    ghost use Rattle.feed_check.specs.Private.Replayed.{rows_of, AreOwn};

    ghost Value = { List (KeyValue × R) };

    ghost view = { λ r. rows_of r.rows.entries };

    ghost invariant = { λ r. AreOwn r.rows.entries };
}

/// The row at a key of a map.
fn row_at<'t, 'h, R>(rows: &'t Tables<LentKey<'h>, R>, key: &LentKey<'h>) -> Option<&'t R>
    ensures { option_copied result ≡ option_map (λ there. there.1) (value_at key_cmp rows.now.entries key.now) }
{
    match rows.get(key) {
        None => None,
        Some((_, row)) => Some(row),
    }
}

impl<'h, R: Drop> KeyedRows<'h, R> {
    /// No row stands. Takes no memory.
    pub(crate) fn new(alloc: Global) -> KeyedRows<'h, R>
        ensures { result ≡ [] }
    {
        KeyedRows {
            rows: Tables::new(alloc),
        }
    }

    /// The row at a key.
    pub(crate) fn at(&self, key: &LentKey<'h>) -> Option<&R>
        ensures { option_copied result ≡ row_in self.now key.now }
    {
        row_at(&self.rows, key)
    }

    /// Makes touches of keys, of which the last of each key counts. An error is want of memory.
    pub(crate) fn touch(
        &mut self,
        alloc: Global,
        touches: Vec<(LentKey<'h>, Option<R>)>,
    ) -> Result<(), AllocError>
        ensures { OnOk result ((key : KeyValue) → row_in self.new key ≡ left_at (last_at key_cmp touches.entry.items key) (row_in self.old key)) }
    {
        match self.rows.apply(alloc, 0, touches) {
            Ok(_) => Ok(()),
            Err(TableFault::Memory) => Err(AllocError),
            Err(TableFault::OwnedByOther { .. }) => unreachable!(),
        }
    }
}
