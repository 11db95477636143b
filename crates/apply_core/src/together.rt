//! Streams put together over one target, in order: a stream's rows are put to those of the lower ones.

ghost use Rattle.std.specs.Prelude.{◌≡◌, ◌∷◌, [], ◌++◌, List, length, IfErr, OnOk};
ghost use Rattle.board_laws.specs.Meaning.{State};
ghost use Rattle.apply_core.specs.Private.Together.{AreTogether, ArePutsOfCut, IsNotPut};

use pk_copy::{Key, keys_tie_where_they_are_equal};
use row_view::RowBuf;
use std::alloc::Global;
use target_tables::{TableFault, Tables};

/// Stream `s` is put to the lower ones, whose rows are in the target: its rows are put there, if none of
/// them meets a row. What is refused leaves the target as it was.
pub(crate) fn put_stream(
    alloc: Global,
    rows: &mut Tables<Key, RowBuf>,
    s: u8,
    puts: Vec<(Key, Option<RowBuf>)>,
) -> Result<(), TableFault<Key>>
    ensures ok { OnOk result ((lower : List State) (state : State) → length lower ≡ s → AreTogether lower rows.old.entries → ArePutsOfCut state puts.items → AreTogether (lower ++ state ∷ []) rows.new.entries) }
    ensures err { IfErr result (λ fault. (lower : List State) (state : State) → length lower ≡ s → AreTogether lower rows.old.entries → ArePutsOfCut state puts.items → IsNotPut lower state fault) }
{
    keys_tie_where_they_are_equal();
    match rows.apply(alloc, s, puts) {
        Ok(_) => Ok(()),
        Err(fault) => Err(fault),
    }
}
