//! Dumps of a workflow's tables.

ghost use Rattle.std.specs.Prelude.{◌≡◌, ◌++◌, OnOk, IfErr, IfOk};
ghost use Rattle.vrepl_c.specs.Answer.{Judges};
ghost use Rattle.vrepl_c.specs.Dumps.{entries_bytes, entry_bytes, IsReadAs, ReadsDump};
ghost use Rattle.vrepl_c.specs.Unread.{IsUnread};
ghost use Rattle.vrepl_c.specs.Workflows.{plan_of};

use crate::encoded::{push_bytes, push_row};
use crate::keys::push_key;
use crate::room::{MEMORY, put};
use crate::workflow::plan_of;
use dump::{DumpFault, DumpRows, read_dump};
use filter_rule::{Plan, Table};
use pk_copy::Key;
use row_view::RowBuf;
use std::alloc::{AllocError, Global};
use vdiff::name_of_table;

/// The number of a text that is no dump.
pub(crate) const BAD_DUMP: u32 = 121;

/// How many rows a dump has, and their bytes.
#[derive(Drop)]
struct ReadDump {
    count: usize,
    bytes: Vec<u8>,
}

/// Adds a row with its table and its key.
fn push_entry(
    into: &mut Vec<u8>,
    tables: &[Table],
    key: &Key,
    row: &RowBuf,
) -> Result<(), AllocError>
    ensures { OnOk result (into.new.items ≡ into.old.items ++ entry_bytes tables.now (key.now, row.now)) }
{
    push_bytes(into, name_of_table(tables, key.table()).as_bytes())?;
    push_key(into, &key.view())?;
    push_row(into, Some(row.view()))
}

/// Adds rows.
fn push_entries(
    into: &mut Vec<u8>,
    tables: &[Table],
    entries: &[(Key, RowBuf)],
) -> Result<(), AllocError>
    ensures { OnOk result (into.new.items ≡ into.old.items ++ entries_bytes tables.now entries.now) }
{
    for entry in entries {
        push_entry(into, tables, &entry.0, &entry.1)?;
    }
    Ok(())
}

/// The bytes of a dump's rows.
fn bytes_of(alloc: Global, tables: &[Table], rows: &DumpRows) -> Result<Vec<u8>, AllocError>
    ensures { IfOk result (λ bytes. bytes.items ≡ entries_bytes tables.now rows.now) }
{
    let mut bytes = Vec::new(alloc);
    push_entries(&mut bytes, tables, rows.as_slice())?;
    Ok(bytes)
}

/// A dump of the plan's tables, or why the text is none.
fn dump_of(alloc: Global, plan: &Plan, text: &[u8]) -> Result<ReadDump, DumpFault>
    ensures read { IfOk result (λ read. IsReadAs plan.now text.now read.count read.bytes.items) }
    ensures unread { IfErr result (λ fault. IsUnread plan.now text.now fault) }
{
    let rows = match read_dump(alloc, plan, text) {
        Ok(rows) => rows,
        Err(DumpFault::BadDump { line }) => return Err(DumpFault::BadDump { line }),
        Err(DumpFault::Memory) => return Err(DumpFault::Memory),
    };
    match bytes_of(alloc, plan.tables(), &rows) {
        Ok(bytes) => Ok(ReadDump {
            count: rows.len(),
            bytes,
        }),
        Err(_) => Err(DumpFault::Memory),
    }
}

/// Puts the rows of a dump of a workflow's tables into the room, as bytes that are walked over, and says how many they are;
/// or which line, from 1, is the first that can't stand there.
#[unsafe(no_mangle)]
pub extern "C" fn vrepl_dump(
    alloc: Global,
    workflow: &[u8],
    dump: &[u8],
    rows: &mut usize,
    bad_line: &mut usize,
    room: &mut [u8],
    length: &mut usize,
) -> u32
    ensures { Judges (λ plan. ReadsDump plan dump.now result rows.new bad_line.new room.old room.new length.new) result (plan_of workflow.now 0) }
{
    let plan = match plan_of(alloc, workflow, 0) {
        Ok(plan) => plan,
        Err(number) => return number,
    };
    match dump_of(alloc, &plan, dump) {
        Ok(read) => {
            *rows = read.count;
            *length = put(&read.bytes, room);
            0
        }
        Err(DumpFault::BadDump { line }) => {
            *bad_line = line;
            BAD_DUMP
        }
        Err(DumpFault::Memory) => MEMORY,
    }
}
