//! A board's copy.

ghost use Rattle.std.specs.Prelude.{◌≡◌, map, IfOk};
ghost use Rattle.std.specs.Arc.{arc_value};

use crate::board::Board;
use crate::bringing::bring;
use crate::stream::Stream;
use pk_copy::Key;
use row_view::RowBuf;
use source_feed::{Image, Prepared};
use std::alloc::{AllocError, Global};
use std::sync::Arc;
use target_tables::Tables;

/// The groups of a list, shared with it. An error is want of memory.
fn shared_groups<'h>(
    alloc: Global,
    list: &[Arc<Prepared<'h>>],
) -> Result<Vec<Arc<Prepared<'h>>>, AllocError>
    ensures { IfOk result (λ groups. map arc_value groups.items ≡ map arc_value list.now) }
{
    let mut groups = Vec::with_capacity(alloc, list.len())?;
    for group in list {
        groups.push(Arc::clone(group)?)?;
    }
    Ok(groups)
}

/// Copies of all rows with their streams. An error is want of memory.
fn copies_of_entries(
    alloc: Global,
    rows: &Tables<Key, RowBuf>,
) -> Result<Tables<Key, RowBuf>, AllocError>
    ensures { IfOk result (λ copies. copies.entries ≡ rows.now.entries) }
{
    let mut copies = Tables::new(alloc);
    for (key, owner, row) in rows.iter() {
        copies.push(key.try_clone(alloc)?, owner, row.try_clone(alloc)?)?;
    }
    Ok(copies)
}

impl<'h> Stream<'h> {
    /// A stream that means the same, whose groups are shared with this one. Its image is made anew where a
    /// snapshot is open, and else when one is opened. An error is want of memory.
    fn try_clone(&self, alloc: Global) -> Result<Stream<'h>, AllocError>
        ensures { IfOk result (λ copy. copy ≡ self.now) }
    {
        let plan = Arc::clone(&self.plan)?;
        let list = shared_groups(alloc, &self.list)?;
        let marks = self.marks.try_clone(alloc)?;
        let mut image = Image::new(alloc);
        let mut imaged = 0;
        if let Some(group) = self.cursor.snapshot() {
            bring(alloc, &mut image, &mut imaged, &list, group)?;
        }
        Ok(Stream {
            plan,
            list,
            cursor: self.cursor,
            marks,
            image,
            imaged,
        })
    }
}

/// Streams that mean the same. An error is want of memory.
fn copies_of_streams<'h>(
    alloc: Global,
    streams: &[Stream<'h>],
) -> Result<Vec<Stream<'h>>, AllocError>
    ensures { IfOk result (λ copies. copies.items ≡ streams.now) }
{
    let mut copies = Vec::with_capacity(alloc, streams.len())?;
    for stream in streams {
        copies.push(stream.try_clone(alloc)?)?;
    }
    Ok(copies)
}

impl<'h> Board<'h> {
    /// An equal board, with rows of its own; the groups that are read are shared. Takes memory and time in
    /// the rows and the lists, and where a snapshot is open in the touches up to its group. An error is want
    /// of memory.
    pub fn try_clone(&self, alloc: Global) -> Result<Board<'h>, AllocError>
        ensures { IfOk result (λ copy. copy ≡ self.now) }
    {
        let streams = copies_of_streams(alloc, &self.streams)?;
        let rows = copies_of_entries(alloc, &self.rows)?;
        Ok(Board { streams, rows })
    }
}
