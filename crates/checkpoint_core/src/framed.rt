//! A stream's part behind its length. A message is written first, and its head then put in front of it: so nothing
//! is counted beforehand.

ghost use Rattle.std.specs.Prelude.{◌≡◌, ◌≤◌, ◌++◌, ℕ, List, map, length, OnOk};
ghost use Rattle.proto_wire.specs.Writing.{written_field, written_fields, message_field};
ghost use Rattle.vevent.specs.ContentView.{table_content};
ghost use Rattle.vevent.specs.WrittenEvent.{message_fields};
ghost use Rattle.vevent.specs.WrittenPart.{written_table_part, written_stream_part};
ghost use Rattle.checkpoint_laws.specs.Written.{framed};

use proto_wire::{put_bytes_head, put_number, put_text, put_varint};
use std::alloc::{AllocError, Global};
use vevent::{TableContent, write_answer};

/// Puts bytes in front of those that stand behind the first `start`, which move up. An error is want of memory.
fn put_before(out: &mut Vec<u8>, start: usize, head: Vec<u8>) -> Result<(), AllocError>
    requires { start ≤ length out.old.items }
    ensures { OnOk result ((before behind : List ℕ) → length before ≡ start → out.old.items ≡ before ++ behind → out.new.items ≡ before ++ (head.items ++ behind)) }
{
    out.splice(start..start, head)?;
    Ok(())
}

/// Makes the bytes behind the first `start` the message of a field. An error is want of memory.
fn make_message(
    alloc: Global,
    out: &mut Vec<u8>,
    start: usize,
    number: u32,
) -> Result<(), AllocError>
    requires { start ≤ length out.old.items }
    ensures { OnOk result ((before message : List ℕ) → length before ≡ start → out.old.items ≡ before ++ message → out.new.items ≡ before ++ written_field (message_field number message)) }
{
    let size = out.len() - start;
    let mut head = Vec::new(alloc);
    put_bytes_head(&mut head, number, size)?;
    put_before(out, start, head)?;
    Ok(())
}

/// Makes the bytes behind the first `start` a message behind its length. An error is want of memory.
fn make_frame(alloc: Global, out: &mut Vec<u8>, start: usize) -> Result<(), AllocError>
    requires { start ≤ length out.old.items }
    ensures { OnOk result ((before message : List ℕ) → length before ≡ start → out.old.items ≡ before ++ message → out.new.items ≡ before ++ framed message) }
{
    let size = out.len() - start;
    let mut head = Vec::new(alloc);
    put_varint(&mut head, size as u64)?;
    put_before(out, start, head)?;
    Ok(())
}

/// Appends a table's part.
fn put_table(alloc: Global, out: &mut Vec<u8>, content: &TableContent<'_>) -> Result<(), AllocError>
    ensures { OnOk result (out.new.items ≡ out.old.items ++ written_table_part (table_content content.now)) }
{
    put_number(out, 1, content.mark.number())?;
    let start = out.len();
    write_answer(out, &content.answer)?;
    make_message(alloc, out, start, 2)?;
    put_text(out, 3, content.name)?;
    Ok(())
}

/// Appends the parts of tables.
fn put_tables(
    alloc: Global,
    out: &mut Vec<u8>,
    tables: &[TableContent<'_>],
) -> Result<(), AllocError>
    ensures { OnOk result (out.new.items ≡ out.old.items ++ written_fields (message_fields 2 (map written_table_part (map table_content tables.now)))) }
{
    for table in tables {
        let start = out.len();
        put_table(alloc, out, table)?;
        make_message(alloc, out, start, 2)?;
    }
    Ok(())
}

/// Appends a stream's part.
fn put_stream_part(
    alloc: Global,
    out: &mut Vec<u8>,
    shard: &str,
    tables: &[TableContent<'_>],
) -> Result<(), AllocError>
    ensures { OnOk result (out.new.items ≡ out.old.items ++ written_stream_part (record { shard = shard.now; tables = map table_content tables.now })) }
{
    put_text(out, 1, shard.as_bytes())?;
    put_tables(alloc, out, tables)?;
    Ok(())
}

/// Appends a stream's part behind its length. An error is want of memory.
pub(crate) fn put_framed(
    alloc: Global,
    out: &mut Vec<u8>,
    shard: &str,
    tables: &[TableContent<'_>],
) -> Result<(), AllocError>
    ensures { OnOk result (out.new.items ≡ out.old.items ++ framed (written_stream_part (record { shard = shard.now; tables = map table_content tables.now }))) }
{
    let start = out.len();
    put_stream_part(alloc, out, shard, tables)?;
    make_frame(alloc, out, start)?;
    Ok(())
}
