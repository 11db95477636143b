//! What the parts of a checkpoint say of streams.

ghost use Rattle.std.specs.Prelude.{◌≡◌, ◌≤◌, ◌↔◌, ◌++◌, ◌∷◌, [], Some, Err, map, length, slice_get, IsTrue, IfOk, IfErr, OnOk};
ghost use Rattle.std.specs.Arc.{arc_value};
ghost use Rattle.source_feed.specs.GroupValue.{Position};
ghost use Rattle.vevent.specs.CheckpointPart.{TablePartValue};
ghost use Rattle.checkpoint_laws.specs.Saved.{SavedStream};
ghost use Rattle.checkpoint_laws.specs.Said.{SaysStream, IsCheckpoint};
ghost use Rattle.checkpoint_core.specs.Fault.{IsNothing, HasParts};
ghost use Rattle.checkpoint_core.specs.declared.fault.ReadFault.TheVariants.{Memory};
ghost use Rattle.checkpoint_core.specs.Private.Reading.{OfEachTable, IsAtPosition, SayTables, SayStreams};

use crate::fault::ReadFault;
use crate::head::{have_heads, position_in};
use crate::marks::read_marks;
use crate::names::{has_so_many, have_as_many, have_names};
use crate::parts::read_parts;
use crate::rows::read_rows;
use crate::saved::ReadStream;
use checkpoint_laws::Version;
use filter_rule::Plan;
use gtid_set::GtidSet;
use std::alloc::{AllocError, Global};
use std::sync::Arc;
use vevent::{StreamPart, TablePart};

/// The position of the first table's part.
fn first_position(alloc: Global, tables: &[TablePart<'_>]) -> Result<GtidSet, ReadFault>
    requires { 1 ≤ length tables.now }
    ensures ok { IfOk result (λ position. (part : TablePartValue) → slice_get tables.now 0 ≡ Some part → IsAtPosition position 0 part) }
    ensures err { IfErr result (IsNothing (λ (position : Position). OfEachTable (IsAtPosition position) tables.now)) }
{
    match position_in(alloc, tables[0].answer().gtid())? {
        None => Err(ReadFault::Broken),
        Some(position) => Ok(position),
    }
}

/// What the parts of a stream's first tables say of it.
fn read_tables<'b>(
    alloc: Global,
    version: Version,
    plan: &Plan,
    tables: &[TablePart<'b>],
) -> Result<ReadStream<'b>, ReadFault>
    requires some { 1 ≤ length tables.now }
    requires few { length tables.now ≤ length plan.now.tables }
    ensures ok { IfOk result (SayTables version plan.now tables.now) }
    ensures err { IfErr result (IsNothing (SayTables version plan.now tables.now)) }
{
    if !have_names(version, plan, tables) {
        return Err(ReadFault::Broken);
    }
    let position = first_position(alloc, tables)?;
    if !have_heads(alloc, plan, tables, &position)? {
        return Err(ReadFault::Broken);
    }
    let marks = read_marks(alloc, plan, tables)?;
    let rows = read_rows(alloc, plan, tables)?;
    Ok(ReadStream {
        position,
        marks,
        rows,
    })
}

/// The parts of a stream's tables.
fn tables_of<'b>(alloc: Global, part: &StreamPart<'b>) -> Result<Vec<TablePart<'b>>, AllocError>
    ensures { IfOk result (λ tables. tables.items ≡ part.now.tables) }
{
    let mut tables = Vec::new(alloc);
    for table in part.tables() {
        tables.push(table)?;
    }
    Ok(tables)
}

/// Whether a part is of the plan's shard.
fn is_of_shard(plan: &Plan, part: &StreamPart<'_>) -> bool
    ensures { IsTrue result ↔ (part.now.shard ≡ plan.now.shard) }
{
    part.shard() == plan.shard()
}

/// What a stream's part says of it.
fn read_stream<'b>(
    alloc: Global,
    version: Version,
    plan: &Plan,
    part: &StreamPart<'b>,
) -> Result<ReadStream<'b>, ReadFault>
    ensures ok { IfOk result (λ saved. SaysStream version plan.now saved part.now) }
    ensures err { IfErr result (IsNothing (λ (saved : SavedStream). SaysStream version plan.now saved part.now)) }
{
    if !is_of_shard(plan, part) {
        return Err(ReadFault::Broken);
    }
    if !has_so_many(version, plan, part) {
        return Err(ReadFault::Broken);
    }
    plan.tables();
    let tables = tables_of(alloc, part)?;
    let saved = read_tables(alloc, version, plan, &tables)?;
    Ok(saved)
}

/// Puts what is said of a stream behind the others.
fn push_stream<'b>(saved: &mut Vec<ReadStream<'b>>, one: ReadStream<'b>) -> Result<(), ReadFault>
    ensures ok { OnOk result (saved.new.items ≡ saved.old.items ++ one.entry ∷ []) }
    ensures err { IfErr result (λ fault. fault ≡ Memory) }
{
    if saved.push(one).is_err() {
        return Err(ReadFault::Memory);
    }
    Ok(())
}

/// What the parts of streams say of them, each by its plan.
fn read_streams<'b>(
    alloc: Global,
    version: Version,
    plans: &[Arc<Plan>],
    parts: &[StreamPart<'b>],
) -> Result<Vec<ReadStream<'b>>, ReadFault>
    requires { length parts.now ≡ length plans.now }
    ensures ok { IfOk result (λ saved. SayStreams version (map arc_value plans.now) parts.now saved.items) }
    ensures err { IfErr result (IsNothing (SayStreams version (map arc_value plans.now) parts.now)) }
{
    let mut saved = Vec::new(alloc);
    for s in 0..parts.len() {
        let one = read_stream(alloc, version, &plans[s], &parts[s])?;
        push_stream(&mut saved, one)?;
    }
    Ok(saved)
}

/// Reads a checkpoint of streams under these plans, of version 1 or 2: of each its position, how far its tables
/// are copied, and its rows by rising key, lent from the bytes. A version 2 may have parts of the first
/// tables alone, as many in each stream; the others wait and have no rows. Fields come in any order, and others
/// are skipped.
///
/// `Broken` where the bytes are no checkpoint for these plans: other first bytes, a broken frame or message,
/// bytes after the end, another number of parts; of a stream another shard, in version 1 another number of tables,
/// in version 2 none, more than there are, another number than in the first stream or another name; other columns, a position that can't be read or that differs between its tables, another mark or marks out of
/// order, a last key that isn't one of its table or stands without its mark, rows of another width, without a
/// key or whose keys don't rise. Any other error is want of memory; bytes that aren't as many messages as there are
/// plans are `Broken` whatever memory there is. Takes some words a row, and memory for keys of several parts
/// or of more than 12 bytes.
pub fn read_checkpoint<'b>(
    alloc: Global,
    plans: &[Arc<Plan>],
    bytes: &'b [u8],
) -> Result<Vec<ReadStream<'b>>, ReadFault>
    ensures said { IfOk result (λ saved. IsCheckpoint (map arc_value plans.now) bytes.now saved.items) }
    ensures refused { IfErr result (IsNothing (IsCheckpoint (map arc_value plans.now) bytes.now)) }
    // Memory is wanted for bytes alone that are as many parts as there are plans.
    ensures memory { result ≡ Err ReadFault.Memory → HasParts bytes.now (length plans.now) }
{
    let parts = read_parts(alloc, bytes, plans.len())?;
    if !have_as_many(parts.version, &parts.streams) {
        return Err(ReadFault::Broken);
    }
    let saved = read_streams(alloc, parts.version, plans, &parts.streams)?;
    Ok(saved)
}
