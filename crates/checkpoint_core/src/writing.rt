//! A stream as its part of a checkpoint.

ghost use Rattle.std.specs.Prelude.{◌≡◌, ◌++◌, [], map, IfOk, OnOk};
ghost use Rattle.std.specs.Option.{option_map_or};
ghost use Rattle.std.specs.String.{string_bytes};
ghost use Rattle.source_feed.specs.Image.{lent_row};
ghost use Rattle.vevent.specs.ContentView.{table_content};
ghost use Rattle.vevent.specs.WrittenPart.{written_stream_part};
ghost use Rattle.checkpoint_laws.specs.declared.version.Version.TheVariants.{Two};
ghost use Rattle.checkpoint_laws.specs.Written.{position_text, stream_part, framed};
ghost use Rattle.checkpoint_core.specs.Private.WrittenTables.{written_value};

use crate::framed::put_framed;
use crate::written_tables::{WrittenTable, content_of, written_tables};
use filter_rule::Plan;
use gtid_set::GtidSet;
use pk_copy::{CopyState, Key};
use row_view::RowBuf;
use std::alloc::{AllocError, Global};
use vevent::TableContent;

/// A position as it is written.
fn position_text(alloc: Global, position: Option<&GtidSet>) -> Result<String, AllocError>
    ensures { IfOk result (λ text. string_bytes text ≡ position_text (option_map_or (λ set. set.now) position.entry [])) }
{
    match position {
        None => String::from_str(alloc, "MySQL56/"),
        Some(set) => format!(in alloc; "MySQL56/{set}"),
    }
}

/// What is written of tables, lent, with the text of the position.
fn contents_of<'c>(
    alloc: Global,
    written: &'c [WrittenTable<'_>],
    position: &'c str,
) -> Result<Vec<TableContent<'c>>, AllocError>
    ensures { IfOk result (λ contents. map table_content contents.items ≡ map (written_value position.now) written.now) }
{
    let mut contents = Vec::with_capacity(alloc, written.len())?;
    for table in written {
        contents.push(content_of(table, position))?;
    }
    Ok(contents)
}

/// Appends a stream's part of a checkpoint of version 2 behind its length: the shard of its plan, and of each
/// table its name, its columns, the position (none: the empty set), the stream's rows in it, which stand by rising key, and how
/// far it is copied. An error is want of memory.
pub fn put_stream<'x>(
    alloc: Global,
    out: &mut Vec<u8>,
    plan: &'x Plan,
    position: Option<&GtidSet>,
    marks: &'x CopyState,
    rows: &'x [(&'x Key, &'x RowBuf)],
) -> Result<(), AllocError>
    ensures { OnOk result (out.new.items ≡ out.old.items ++ framed (written_stream_part (stream_part Two plan.now (record { position = option_map_or (λ set. set.now) position.entry []; marks = marks.now; rows = map lent_row rows.now })))) }
{
    let gtid = position_text(alloc, position)?;
    let written = written_tables(alloc, &*plan, &*marks, &*rows)?;
    let tables = contents_of(alloc, &written, gtid.as_str())?;
    put_framed(alloc, out, plan.shard(), &tables)?;
    Ok(())
}
