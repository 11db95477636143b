//! All of it as one line of JSON.

ghost use Rattle.std.specs.Prelude.{◌≡◌, ◌++◌, false, IfOk, OnOk, map};
ghost use Rattle.std.specs.Option.{option_copied};
ghost use Rattle.std.specs.String.{string_bytes};
ghost use Rattle.serde_json.specs.Data.{array};
ghost use Rattle.serde_json.specs.View.{items_of, view};
ghost use Rattle.serde_json.specs.Written.{has_float};
ghost use Rattle.status_said.specs.Shards.{least_in};
ghost use Rattle.status_said.specs.Json.{name_text, table_data, list_data, stream_data, checkpoint_data, checkpoints_from, position_data, least_data, status_data, json_line};

use crate::least::{least_in, shards_of};
use crate::lines::{done_of, file_name, mark_word, phase_word};
use checkpoint_places::{CheckpointStand, StreamStand, TableStand};
use gtid_set::GtidSet;
use serde_json::{Value, json};
use shown_text::printable;
use std::alloc::{AllocError, Global};
use std::str;

/// A list of values.
fn list_of(values: Vec<Value>) -> Value
    ensures { view result ≡ array (items_of (map view values.items)) }
{
    Value::Array(values)
}

/// A name, printable where it isn't UTF-8.
fn name_text(alloc: Global, name: &[u8]) -> Result<String, AllocError>
    ensures { IfOk result (λ text. string_bytes text ≡ name_text name.now) }
{
    match str::from_utf8(name) {
        Ok(text) => Ok(String::from_str(alloc, text)?),
        Err(_) => printable(alloc, name),
    }
}

/// A table of a stream.
fn table_value(alloc: Global, table: &TableStand<'_>) -> Result<Value, AllocError>
    ensures { IfOk result (λ made. view made ≡ table_data table.now) }
{
    let mark = mark_word(table.mark);
    let name = name_text(alloc, table.name)?;
    let rows = table.rows;
    json!(in alloc; {"mark": mark, "name": name, "rows": rows})
}

/// Puts tables behind other values.
fn push_tables(
    alloc: Global,
    tables: &[TableStand<'_>],
    values: &mut Vec<Value>,
) -> Result<(), AllocError>
    ensures { OnOk result (map view values.new.items ≡ map view values.old.items ++ map table_data tables.now) }
{
    for table in tables {
        let value = table_value(alloc, table)?;
        values.push(value)?;
    }
    Ok(())
}

/// Tables.
fn tables_value(alloc: Global, tables: &[TableStand<'_>]) -> Result<Value, AllocError>
    ensures { IfOk result (λ made. view made ≡ list_data table_data tables.now) }
{
    let mut values = Vec::new(alloc);
    push_tables(alloc, tables, &mut values)?;
    Ok(list_of(values))
}

/// A stream.
fn stream_value(alloc: Global, stream: &StreamStand<'_>) -> Result<Value, AllocError>
    ensures { IfOk result (λ made. view made ≡ stream_data stream.now) }
{
    let done = done_of(&stream.tables);
    let phase = phase_word(&stream.tables);
    let set = &stream.position;
    let position = format!(in alloc; "{set}")?;
    let shard = stream.shard;
    let tables = tables_value(alloc, &stream.tables)?;
    json!(in alloc; {"done": done, "phase": phase, "position": position, "shard": shard, "tables": tables})
}

/// Puts streams behind other values.
fn push_streams(
    alloc: Global,
    streams: &[StreamStand<'_>],
    values: &mut Vec<Value>,
) -> Result<(), AllocError>
    ensures { OnOk result (map view values.new.items ≡ map view values.old.items ++ map stream_data streams.now) }
{
    for stream in streams {
        let value = stream_value(alloc, stream)?;
        values.push(value)?;
    }
    Ok(())
}

/// Streams.
fn streams_value(alloc: Global, streams: &[StreamStand<'_>]) -> Result<Value, AllocError>
    ensures { IfOk result (λ made. view made ≡ list_data stream_data streams.now) }
{
    let mut values = Vec::new(alloc);
    push_streams(alloc, streams, &mut values)?;
    Ok(list_of(values))
}

/// A checkpoint.
fn checkpoint_value(
    alloc: Global,
    name: &str,
    stand: &CheckpointStand<'_>,
) -> Result<Value, AllocError>
    ensures { IfOk result (λ made. view made ≡ checkpoint_data name.now stand.now) }
{
    let streams = streams_value(alloc, &stand.streams)?;
    let version = u64::from(stand.version);
    json!(in alloc; {"file": name, "streams": streams, "version": version})
}

/// Puts checkpoints behind other values.
fn push_checkpoints(
    alloc: Global,
    names: &[&str],
    stands: &[CheckpointStand<'_>],
    values: &mut Vec<Value>,
) -> Result<(), AllocError>
    ensures { OnOk result (map view values.new.items ≡ map view values.old.items ++ checkpoints_from (map (λ name. name.now) names.now) 0 stands.now) }
{
    for i in 0..stands.len() {
        let value = checkpoint_value(alloc, file_name(names, i), &stands[i])?;
        values.push(value)?;
    }
    Ok(())
}

/// Checkpoints.
fn checkpoints_value(
    alloc: Global,
    names: &[&str],
    stands: &[CheckpointStand<'_>],
) -> Result<Value, AllocError>
    ensures { IfOk result (λ made. view made ≡ array (items_of (checkpoints_from (map (λ name. name.now) names.now) 0 stands.now))) }
{
    let mut values = Vec::new(alloc);
    push_checkpoints(alloc, names, stands, &mut values)?;
    Ok(list_of(values))
}

/// A position, null where there is none.
fn position_value(alloc: Global, position: Option<&GtidSet>) -> Result<Value, AllocError>
    ensures { IfOk result (λ made. view made ≡ position_data (option_copied position.entry)) }
{
    match position {
        None => Ok(Value::Null),
        Some(position) => {
            let text = format!(in alloc; "{position}")?;
            Ok(Value::String(text))
        }
    }
}

/// The least position of a shard.
fn least_value(
    alloc: Global,
    stands: &[CheckpointStand<'_>],
    shard: &str,
) -> Result<Value, AllocError>
    ensures { IfOk result (λ made. view made ≡ least_data stands.now shard.now) }
{
    let least = least_in(alloc, shard, stands)?;
    let position = position_value(alloc, least)?;
    json!(in alloc; {"position": position, "shard": shard})
}

/// Puts the least positions of shards behind other values.
fn push_leasts(
    alloc: Global,
    stands: &[CheckpointStand<'_>],
    shards: &[&str],
    values: &mut Vec<Value>,
) -> Result<(), AllocError>
    ensures { OnOk result (map view values.new.items ≡ map view values.old.items ++ map (least_data stands.now) (map (λ shard. shard.now) shards.now)) }
{
    for shard in shards {
        let value = least_value(alloc, stands, shard)?;
        values.push(value)?;
    }
    Ok(())
}

/// The least positions of shards.
fn leasts_value(
    alloc: Global,
    stands: &[CheckpointStand<'_>],
    shards: &[&str],
) -> Result<Value, AllocError>
    ensures { IfOk result (λ made. view made ≡ list_data (least_data stands.now) (map (λ shard. shard.now) shards.now)) }
{
    let mut values = Vec::new(alloc);
    push_leasts(alloc, stands, shards, &mut values)?;
    Ok(list_of(values))
}

/// The whole object.
fn status_value(
    alloc: Global,
    names: &[&str],
    stands: &[CheckpointStand<'_>],
) -> Result<Value, AllocError>
    ensures { IfOk result (λ made. view made ≡ status_data (map (λ name. name.now) names.now) stands.now) }
{
    let shards = shards_of(alloc, stands)?;
    let checkpoints = checkpoints_value(alloc, names, stands)?;
    let least = leasts_value(alloc, stands, &shards)?;
    json!(in alloc; {"checkpoints": checkpoints, "least": least})
}

/// A value without spaces, and the end of the line.
fn line_of(alloc: Global, value: &Value) -> Result<String, AllocError>
    requires { has_float (view value.now) ≡ false }
    ensures { IfOk result (λ line. string_bytes line ≡ json_line (view value.now)) }
{
    let mut line = value.to_string(alloc)?;
    line.push_str("\n")?;
    Ok(line)
}

/// The line of JSON of checkpoints, whose files have these names.
pub(crate) fn status_line(
    alloc: Global,
    names: &[&str],
    stands: &[CheckpointStand<'_>],
) -> Result<String, AllocError>
    ensures { IfOk result (λ line. string_bytes line ≡ json_line (status_data (map (λ name. name.now) names.now) stands.now)) }
{
    let whole = status_value(alloc, names, stands)?;
    line_of(alloc, &whole)
}
