//! Rows of an image: the first ones of a table past a key, and all.

ghost use Rattle.std.specs.Prelude.{◌≡◌, IfOk, map};
ghost use Rattle.std.specs.Option.{option_copied};
ghost use Rattle.pk_copy.specs.KeyOrder.{key_cmp};
ghost use Rattle.target_tables.specs.Contents.{past_key};
ghost use Rattle.target_tables.specs.Rising.{IsRising};
ghost use Rattle.source_feed.specs.Image.{chunk_of, lent_row};
ghost use Rattle.source_feed.specs.Private.ImageEntries.{first_of};

use crate::image::Image;
use pk_copy::{KeyView, LentKey};
use row_view::RowBytes;
use std::alloc::{AllocError, Global};
use target_tables::{Scan, Tables};

/// The first rows of a table among entries. Stops at the first key of a later table.
fn first_rows<'i, 'h>(
    alloc: Global,
    mut entries: Scan<'i, LentKey<'h>, RowBytes<'h>>,
    t: u8,
    rows: usize,
) -> Result<Vec<(&'i LentKey<'h>, &'i RowBytes<'h>)>, AllocError>
    requires { IsRising key_cmp entries }
    ensures { IfOk result (λ found. map lent_row found.items ≡ first_of entries.entry t rows) }
{
    let mut found = Vec::new(alloc);
    while found.len() < rows {
        let Some((key, _, row)) = entries.next() else {
            return Ok(found);
        };
        if key.table() > t {
            return Ok(found);
        }
        if key.table() == t {
            found.push((key, row))?;
        }
    }
    Ok(found)
}

/// The entries past a key, by rising key. The key's own isn't among them.
fn entries_past<'i, 'h>(
    rows: &'i Tables<LentKey<'h>, RowBytes<'h>>,
    key: &LentKey<'h>,
) -> Scan<'i, LentKey<'h>, RowBytes<'h>>
    ensures entries { result ≡ past_key key_cmp rows.now.entries key.now }
    ensures rising { IsRising key_cmp rows.now.entries }
{
    rows.scan_past(key)
}

impl<'h> Image<'h> {
    /// All rows with their keys, by rising key. Takes memory for the answer; an error is want of it.
    pub fn rows<'i>(
        &'i self,
        alloc: Global,
    ) -> Result<Vec<(&'i LentKey<'h>, &'i RowBytes<'h>)>, AllocError>
        ensures { IfOk result (λ found. map lent_row found.items ≡ self.now) }
    {
        let mut found = Vec::with_capacity(alloc, self.len())?;
        for (key, _, row) in self.rows.iter() {
            found.push((key, row))?;
        }
        Ok(found)
    }

    /// The first so many rows of table `t` past a key, or from the table's first key on where none is
    /// given, by rising key. The first of them is found by halves, and no row of another table is passed
    /// over. Takes memory for the answer and for a key of several parts; an error is want of it.
    pub fn chunk<'i>(
        &'i self,
        alloc: Global,
        t: u8,
        after: Option<&KeyView<'h>>,
        rows: usize,
    ) -> Result<Vec<(&'i LentKey<'h>, &'i RowBytes<'h>)>, AllocError>
        ensures { IfOk result (λ found. map lent_row found.items ≡ chunk_of self.now t (option_copied after.entry) rows) }
    {
        let Some(key) = after else {
            let first = LentKey::first_of(alloc, t);
            return first_rows(alloc, self.rows.scan(&first), t, rows);
        };
        let key = LentKey::from_view(alloc, key)?;
        first_rows(alloc, entries_past(&self.rows, &key), t, rows)
    }
}
