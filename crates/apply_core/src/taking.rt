//! Taking the next chunk of rows out of a stream's image.

ghost use Rattle.std.specs.Prelude.{◌≡◌, ◌+◌, IfOk, map, take};
ghost use Rattle.source_feed.specs.Image.{lent_row};
ghost use Rattle.board_laws.specs.Allowed.{IsAllowed};
ghost use Rattle.board_laws.specs.Chunk.{rows_left};
ghost use Rattle.board_laws.specs.Event.{copy_rows};
ghost use Rattle.apply_core.specs.Private.Chunks.{last_key_of, IsTakenChunk};

use crate::puts::puts_of_rows;
use crate::stream::Stream;
use board_laws::{Copied, chunks_are_of_the_rows_left, kept_rows_are_one_list};
use pk_copy::{CopyState, Key, KeyView, LentKey, Mark, keys_tie_where_they_are_equal};
use row_view::{RowBuf, RowBytes};
use std::alloc::{AllocError, Global};

/// A chunk in memory of its own, before its rows are put into the target.
#[derive(Drop)]
pub(crate) struct Chunk {
    /// the rows as they are put
    pub(crate) puts: Vec<(Key, Option<RowBuf>)>,
    /// how the mark moves
    pub(crate) step: MarkMove,
}

/// How a chunk moves the mark of its table.
#[derive(Drop)]
pub(crate) struct MarkMove {
    /// how many rows the chunk has, and whether the table is then done
    pub(crate) copied: Copied,
    /// the last row's key
    pub(crate) last: Option<Key>,
}

/// The key up to which the first table that isn't done is copied, if there is one.
fn copied_up_to(marks: &CopyState) -> Option<KeyView<'_>>
    ensures { result ≡ marks.now.upto }
{
    match marks.mark(marks.done()) {
        Mark::Upto(last) => Some(last.view()),
        _ => None,
    }
}

/// The last row's key, in memory of its own.
fn last_key(
    alloc: Global,
    rows: &[(&LentKey<'_>, &RowBytes<'_>)],
) -> Result<Option<Key>, AllocError>
    ensures { IfOk result (λ key. key ≡ last_key_of (map lent_row rows.now)) }
{
    match rows.last() {
        None => Ok(None),
        Some((key, _)) => {
            let key = Key::from_lent(alloc, key)?;
            Ok(Some(key))
        }
    }
}

impl<'h> Stream<'h> {
    /// The first rows that are left to copy, one more than a chunk takes, lent from the image. An error is
    /// want of memory.
    fn rows_to_copy<'i>(
        &'i self,
        alloc: Global,
        c: u32,
    ) -> Result<Vec<(&'i LentKey<'i>, &'i RowBytes<'i>)>, AllocError>
        requires { IsAllowed self.now (copy_rows c) }
        ensures { IfOk result (λ found. map lent_row found.items ≡ take (c + 1) (rows_left self.now)) }
    {
        kept_rows_are_one_list();
        chunks_are_of_the_rows_left();
        let after = copied_up_to(&self.marks);
        let found = self
            .image
            .chunk(alloc, self.marks.done(), after.as_ref(), c as usize + 1)?;
        Ok(found)
    }

    /// The next chunk, its rows' kept columns in memory of their own. One row more tells whether it takes all that are left. An error
    /// is want of memory.
    pub(crate) fn take_chunk(&self, alloc: Global, c: u32) -> Result<Chunk, AllocError>
        requires { IsAllowed self.now (copy_rows c) }
        ensures { IfOk result (IsTakenChunk self.now c) }
    {
        keys_tie_where_they_are_equal();
        chunks_are_of_the_rows_left();
        self.is_sound();
        let mut rows = self.rows_to_copy(alloc, c)?;
        let done = rows.len() <= c as usize;
        rows.truncate(c as usize);
        let puts = puts_of_rows(alloc, &self.plan, &rows)?;
        let last = last_key(alloc, &rows)?;
        let copied = Copied {
            rows: rows.len() as u32,
            done,
        };
        Ok(Chunk {
            puts,
            step: MarkMove { copied, last },
        })
    }
}
