//! Rows that are written as one message.

ghost use Rattle.std.specs.Prelude.{◌≡◌, ◌<◌, ◌++◌, ◌^◌, List, IfOk, length};
ghost use Rattle.row_view.specs.Row.{RowValue};
ghost use Rattle.json_pieces.specs.Telling.{Tells, at};
ghost use Rattle.compaction.specs.Private.Sized.{change_fields, inserts_message, joined};

use crate::sized_row::SizedRow;
use json_pieces::Line;
use printing::Out;
use proto_wire::{
    bytes_field_size, number_field_size, put_bytes_head, put_number, put_text, put_varint,
    size_of_both, text_field_size,
};
use std::alloc::{AllocError, Global};
use std::marker::Model;

/// The number of a ROW event's type.
const ROW: u64 = 12;

/// A message of a feed, behind its length, with one event: the ROW that inserts rows of a table. What stands before its
/// changes is there as bytes, the changes are written from the rows. Seen in contracts as its bytes.
#[derive(Drop)]
pub(crate) struct Portion<'h> {
    head: Vec<u8>,
    rows: Vec<SizedRow<'h>>,
    size: usize,
}

impl<'h> Model for Portion<'h> {
    ghost use Rattle.std.specs.Prelude.{◌≡◌, ℕ, List, ◌++◌};
    ghost use Rattle.std.specs.Prelude.{length as long};
    ghost use Rattle.compaction.specs.Private.Sized.{change_fields};

    ghost Value = { List ℕ };

    ghost view = { λ p. p.head.items ++ change_fields p.rows.items };

    ghost invariant = { λ p. p.size ≡ long (p.head.items ++ change_fields p.rows.items) };
}

/// What stands in the message before changes of so many bytes.
fn head_before(alloc: Global, name: &str, changes: usize) -> Result<Vec<u8>, AllocError>
    ensures { IfOk result (λ head. (rows : List RowValue) → length (change_fields rows) ≡ changes → head.items ++ change_fields rows ≡ inserts_message name.now rows) }
{
    let row_event = size_of_both(text_field_size(1, name.len())?, changes)?;
    let body = bytes_field_size(5, row_event)?;
    let event = size_of_both(number_field_size(1, ROW), body)?;
    let response = bytes_field_size(1, event)?;
    let mut head = Vec::new(alloc);
    put_varint(&mut head, response as u64)?;
    put_bytes_head(&mut head, 1, event)?;
    put_number(&mut head, 1, ROW)?;
    put_bytes_head(&mut head, 5, row_event)?;
    put_text(&mut head, 1, name.as_bytes())?;
    Ok(head)
}

/// Puts the changes that insert rows.
fn put_changes<O: Out>(out: &mut O, line: &mut Line, rows: &[SizedRow<'_>])
    ensures { Tells (at (O.written out.old) line.old) (at (O.written out.new) line.new) (change_fields rows.now) }
{
    for row in rows {
        row.put_change(out, line);
    }
}

impl<'h> Portion<'h> {
    /// The message that inserts these rows, whose changes have so many bytes, into the table of this name. An error is want
    /// of memory.
    pub(crate) fn new(
        alloc: Global,
        name: &str,
        rows: Vec<SizedRow<'h>>,
        changes: usize,
    ) -> Result<Portion<'h>, AllocError>
        requires { changes ≡ length (change_fields rows.items) }
        ensures { IfOk result (λ portion. portion ≡ inserts_message name.now rows.entry.items) }
    {
        let head = head_before(alloc, name, changes)?;
        let size = size_of_both(head.len(), changes)?;
        Ok(Portion { head, rows, size })
    }

    /// How many bytes it has.
    fn size(&self) -> usize
        ensures { result ≡ length self.now }
    {
        self.size
    }

    /// Puts it. Takes no memory.
    fn put<O: Out>(&self, out: &mut O, line: &mut Line)
        ensures { Tells (at (O.written out.old) line.old) (at (O.written out.new) line.new) self.now }
    {
        line.put(out, &self.head);
        put_changes(out, line, &self.rows);
    }
}

/// A law of what is in memory: it has no more bytes than 64 bits count.
pub(crate) fn is_counted(portion: &Portion<'_>)
    ensures { length portion.now < 2 ^ 64 }
{
    portion.size();
}

/// How many bytes messages have together.
pub(crate) fn size_of_portions(portions: &[Portion<'_>]) -> Result<usize, AllocError>
    ensures { IfOk result (λ size. size ≡ length (joined portions.now)) }
{
    let mut size = 0;
    for portion in portions {
        size = size_of_both(size, portion.size())?;
    }
    Ok(size)
}

/// Puts messages one after another. Takes no memory.
pub(crate) fn put_portions<O: Out>(out: &mut O, line: &mut Line, portions: &[Portion<'_>])
    ensures { Tells (at (O.written out.old) line.old) (at (O.written out.new) line.new) (joined portions.now) }
{
    for portion in portions {
        portion.put(out, line);
    }
}
