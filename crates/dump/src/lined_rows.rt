//! Rows of a dump with the text of their lines.

ghost use Rattle.std.specs.Prelude.{◌≡◌, ◌<◌, ◌≤◌, ◌⊎◌, ◌-◌, [], IfSome, Some, length, slice_get, take};
ghost use Rattle.dump.specs.Dump.{row_line};
ghost use Rattle.dump.specs.Private.Known.{AreLinesOf, texts_of, KeepsLine};

use crate::rows::DumpRows;
use pk_copy::Key;
use row_view::RowBuf;
use std::alloc::Global;
use std::marker::Model;

/// The rows of a dump that was read, and the text of each one's line, lent: what another dump can be read beside.
/// Seen in contracts as the list of keys and rows.
#[derive(Drop)]
pub struct LinedRows<'t> {
    rows: DumpRows,
    // of the first rows; of all, unless there was no memory for one
    lines: Vec<&'t [u8]>,
}

impl<'t> Model for LinedRows<'t> {
    ghost use Rattle.dump.specs.DumpRowsValue.{DumpRowsValue};
    ghost use Rattle.dump.specs.Private.Known.{AreLinesOf, texts_of};

    ghost Value = { DumpRowsValue };

    ghost view = { λ l. l.rows };

    ghost invariant = { λ l. AreLinesOf (texts_of l.lines.items) l.rows };
}

impl<'t> LinedRows<'t> {
    /// No rows. Takes no memory.
    pub(crate) fn none(alloc: Global) -> LinedRows<'t>
        ensures { result ≡ [] }
    {
        LinedRows {
            rows: DumpRows::new(alloc),
            lines: Vec::new(alloc),
        }
    }

    /// These rows, the first of which have these lines.
    pub(crate) fn new(rows: DumpRows, lines: Vec<&'t [u8]>) -> LinedRows<'t>
        requires { AreLinesOf (texts_of lines.items) rows }
        ensures { result ≡ rows }
    {
        LinedRows { rows, lines }
    }

    /// The rows.
    pub fn rows(&self) -> &DumpRows
        ensures { result.now ≡ self.now }
    {
        &self.rows
    }

    /// The rows without their lines.
    pub(crate) fn into_rows(self) -> DumpRows
        ensures { result ≡ self.entry }
    {
        self.rows
    }

    /// The row at a place with its key, and the text of its line, where that was kept.
    pub(crate) fn line_at(&self, place: usize) -> Option<(&Key, &RowBuf, &'t [u8])>
        ensures stands { IfSome result (λ known. slice_get self.now place ≡ Some (known.0.now, known.1.now)) }
        ensures line { IfSome result (λ known. known.2.now ≡ row_line known.1.now) }
    {
        let line = self.lines.get(place)?;
        let (key, row) = self.rows.as_slice().get(place)?;
        Some((key, row, *line))
    }

    /// The first place from this one on at which the key is behind those of all these rows.
    pub(crate) fn place_behind(&self, place: usize, rows: &DumpRows) -> usize {
        let known = self.rows.as_slice();
        for at in place..known.len() {
            if rows.is_behind_all(&known[at].0) {
                return at;
            }
        }
        known.len()
    }
}

/// Keeps the text that stands before what is behind it, the line of the row that was added to so many, if lines are
/// kept and those of all of these are. Where there is no memory for it, it isn't kept, nor is one behind it.
pub(crate) fn keep_line<'t>(
    lines: &mut Vec<&'t [u8]>,
    keeps: bool,
    count: usize,
    rows: &DumpRows,
    text: &'t [u8],
    behind: &[u8],
)
    requires { length behind.now ≤ length text.now }
    ensures { (texts_of lines.new.items ≡ texts_of lines.old.items)
        ⊎ KeepsLine count (length rows.now) (texts_of lines.old.items) (texts_of lines.new.items) (take (length text.now - length behind.now) text.now) }
{
    if !keeps || lines.len() != count || rows.len() <= count {
        return;
    }
    let (line, _) = text.split_at(text.len() - behind.len());
    match lines.push(line) {
        Ok(()) => {}
        Err(_) => {}
    }
}
