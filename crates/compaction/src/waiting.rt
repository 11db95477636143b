//! Rows that wait to be written as one portion.

ghost use Rattle.std.specs.Prelude.{◌≡◌, ◌↔◌, length, ◌++◌, [], ◌∷◌, IsTrue, IfSome, IfNone, IfErr, OnOk};
ghost use Rattle.row_view.specs.WrittenRow.{IsWithinLimits};
ghost use Rattle.source_feed.specs.Planned.{source_of};
ghost use Rattle.feed_bytes.specs.Inserts.{inserts};
ghost use Rattle.compaction.specs.Private.Limits.{IsOverBy};
ghost use Rattle.compaction.specs.Private.Sized.{change_fields, inserts_message, joined};
ghost use Rattle.compaction.specs.Private.Written.{AddsEvents, AreOfOthers, AreWaiting, CanBePut, IsNameOf, IsPut, IsReady};

use crate::fault::WriteFault;
use crate::portion::{Portion, is_counted};
use crate::sized_row::{SizedRow, change_size};
use feed_bytes::{FieldBytes, Source};
use filter_rule::Plan;
use proto_wire::size_of_both;
use row_view::RowBytes;
use std::alloc::{AllocError, Global};
use std::marker::Model;
use std::mem;
use vevent::events_are_read_again;

/// The most rows of a portion.
const ROWS: usize = 1_000;

/// A portion of so many bytes takes no further row.
const BYTES: usize = 1_048_576;

/// Rows of one table that wait to be written, each within the limits of a row.
#[derive(Drop)]
pub(crate) struct Waiting<'h> {
    table: u8,
    rows: Vec<SizedRow<'h>>,
    /// how many bytes the rows have as they are written
    bytes: usize,
    /// how many bytes the changes have that insert them, as fields of their event
    changes: usize,
}

impl<'h> Model for Waiting<'h> {
    ghost use Rattle.compaction.specs.Private.Written.{WaitingValue, AreWaiting};

    ghost Value = { WaitingValue };

    ghost view = { λ w. record { table = w.table; rows = w.rows.items } };

    ghost invariant = { λ w. AreWaiting w.rows.items w.changes };
}

/// The name that a feed has of a planned table, by the FIELDs that are in force.
fn name_of<'h>(plan: &Plan, fields: &[FieldBytes<'h>], table: u8) -> Option<&'h str>
    ensures name { IfSome result (λ name. IsNameOf plan.now table name.now) }
    ensures none { IfNone result (AreOfOthers plan.now table fields.entry.now) }
{
    let source = Source::new(plan.keyspace(), plan.shard());
    for field in fields {
        let name = field.name();
        if is_name_of(plan, &source, table, name) {
            return Some(name);
        }
    }
    None
}

/// A name of a source's feed is one of a table of the plan.
fn is_name_of(plan: &Plan, source: &Source<'_>, table: u8, name: &str) -> bool
    requires { source.now ≡ source_of plan.now }
    ensures { IsTrue result ↔ IsNameOf plan.now table name.now }
{
    match plan.table(source.table(name)) {
        Some(found) => found == table,
        None => false,
    }
}

/// Puts the message that inserts rows into the table of this name behind others.
fn push_portion<'h>(
    alloc: Global,
    portions: &mut Vec<Portion<'h>>,
    name: &str,
    rows: Vec<SizedRow<'h>>,
    changes: usize,
) -> Result<(), AllocError>
    requires { AreWaiting rows.items changes }
    ensures adds { OnOk result (AddsEvents (joined portions.old.items) (joined portions.new.items) (inserts name.now rows.entry.items ∷ [])) }
    ensures bytes { OnOk result (joined portions.new.items ≡ joined portions.old.items ++ inserts_message name.now rows.entry.items) }
{
    events_are_read_again();
    let portion = Portion::new(alloc, name, rows, changes)?;
    is_counted(&portion);
    portions.push(portion)?;
    Ok(())
}

impl<'h> Waiting<'h> {
    /// No row waits. Takes no memory.
    pub(crate) fn new(alloc: Global) -> Waiting<'h>
        ensures { result.rows ≡ [] }
    {
        Waiting {
            table: 0,
            rows: Vec::new(alloc),
            bytes: 0,
            changes: 0,
        }
    }

    /// Puts what waits behind the portions, if something does; then nothing waits.
    pub(crate) fn flush(
        &mut self,
        alloc: Global,
        portions: &mut Vec<Portion<'h>>,
        plan: &Plan,
        fields: &[FieldBytes<'h>],
    ) -> Result<(), AllocError>
        requires { CanBePut plan.now fields.now self.old }
        ensures put { OnOk result (IsPut plan.now self.old (joined portions.old.items) (joined portions.new.items)) }
        ensures emptied { OnOk result (self.new.rows ≡ []) }
    {
        if self.rows.is_empty() {
            return Ok(());
        }
        let Some(name) = name_of(plan, fields, self.table) else {
            unreachable!()
        };
        let changes = self.changes;
        let rows = mem::replace(&mut self.rows, Vec::new(alloc));
        self.bytes = 0;
        self.changes = 0;
        push_portion(alloc, portions, name, rows, changes)
    }

    /// Makes room for a row of a table: what waits is put behind the portions, unless it is of this table and has room.
    pub(crate) fn make_room(
        &mut self,
        alloc: Global,
        table: u8,
        portions: &mut Vec<Portion<'h>>,
        plan: &Plan,
        fields: &[FieldBytes<'h>],
    ) -> Result<(), AllocError>
        requires { CanBePut plan.now fields.now self.old }
        ensures { OnOk result (IsReady plan.now table self.old (joined portions.old.items) self.new (joined portions.new.items)) }
    {
        if self.table == table && self.rows.len() < ROWS && self.bytes < BYTES {
            return Ok(());
        }
        self.flush(alloc, portions, plan, fields)
    }

    /// Lets a row of a table wait behind the others, which are of this table.
    pub(crate) fn push(&mut self, table: u8, row: &RowBytes<'h>) -> Result<(), WriteFault>
        ensures waits { OnOk result (self.new ≡ record { table = table; rows = self.old.rows ++ row.now ∷ [] }) }
        ensures long { IfErr result (IsOverBy (¬ IsWithinLimits row.now)) }
    {
        let row = SizedRow::of(row)?;
        let size = row.size();
        let changes = size_of_both(self.changes, change_size(&row))?;
        self.rows.push(row)?;
        self.table = table;
        self.bytes = self.bytes.saturating_add(size);
        self.changes = changes;
        Ok(())
    }
}
