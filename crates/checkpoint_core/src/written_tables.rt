//! What is written of a stream's tables.

ghost use Rattle.std.specs.Prelude.{◌≡◌, ◌<◌, ℕ, List, Some, map, length, slice_get, IfOk};
ghost use Rattle.filter_rule.specs.WellFormed.{AreColumnPlaces};
ghost use Rattle.pk_copy.specs.MarkView.{mark_value};
ghost use Rattle.source_feed.specs.Image.{lent_row};
ghost use Rattle.vevent.specs.CheckpointPart.{mark_number};
ghost use Rattle.vevent.specs.ColumnView.{field_value};
ghost use Rattle.vevent.specs.ContentView.{table_content};
ghost use Rattle.filter_rule.specs.PlanValue.{table_name};
ghost use Rattle.checkpoint_laws.specs.Written.{number_of_mark, last_row_of, saved_rows_of_table};
ghost use Rattle.checkpoint_core.specs.Private.WrittenTables.{fields_at, part_of_table, parts_of_tables, written_value};

use filter_rule::{ColumnDef, Plan};
use pk_copy::{CopyState, Key, Mark, lastpk_of};
use row_view::{RowBuf, RowBytes};
use std::alloc::{AllocError, Global};
use vevent::{AnswerContent, ColumnField, TableContent, TableMark};

/// What is written of a table: its name, its mark, its columns and those of its key, its rows, and the key of the
/// mark.
#[derive(Drop)]
pub(crate) struct WrittenTable<'a> {
    name: &'a [u8],
    mark: TableMark,
    fields: Vec<ColumnField<'a>>,
    key_fields: Vec<ColumnField<'a>>,
    rows: Vec<RowBytes<'a>>,
    last: Option<RowBuf>,
}

/// The bytes of a row, where there is one.
fn bytes_of(row: &Option<RowBuf>) -> Option<RowBytes<'_>>
    ensures { result ≡ row.now }
{
    match row {
        None => None,
        Some(row) => Some(row.bytes()),
    }
}

/// What is written of a table, lent, with the text of the position.
pub(crate) fn content_of<'c>(table: &'c WrittenTable<'_>, position: &'c str) -> TableContent<'c>
    ensures { table_content result ≡ written_value position.now table.now }
{
    TableContent {
        mark: table.mark,
        answer: AnswerContent {
            fields: table.fields.as_slice(),
            pkfields: table.key_fields.as_slice(),
            gtid: position,
            rows: table.rows.as_slice(),
            lastpk: bytes_of(&table.last),
        },
        name: table.name,
    }
}

/// The name of table `t`.
pub(crate) fn name_of(plan: &Plan, t: u8) -> &[u8]
    requires { t < length plan.now.tables }
    ensures { result.now ≡ table_name plan.now t }
{
    plan.tables()[usize::from(t)].name().as_bytes()
}

/// A column as an answer names it.
fn field_of(column: &ColumnDef) -> ColumnField<'_>
    ensures { field_value result ≡ column.now }
{
    ColumnField {
        name: column.name(),
        type_number: u64::from(column.type_number()),
    }
}

/// The column at a place, as an answer names it.
fn field_at(columns: &[ColumnDef], place: usize) -> ColumnField<'_>
    requires { place < length columns.now }
    ensures { slice_get columns.now place ≡ Some (field_value result) }
{
    field_of(&columns[place])
}

/// The columns at these places, as an answer names them.
pub(crate) fn fields_at<'a>(
    alloc: Global,
    columns: &'a [ColumnDef],
    places: &[u8],
) -> Result<Vec<ColumnField<'a>>, AllocError>
    requires { AreColumnPlaces columns.now places.now }
    ensures { IfOk result (λ fields. map field_value fields.items ≡ fields_at columns.now places.now) }
{
    let mut fields = Vec::new(alloc);
    for place in places {
        fields.push(field_at(columns, *place as usize))?;
    }
    Ok(fields)
}

/// Those of these rows that are of table `t`.
fn table_rows<'a>(
    alloc: Global,
    own: &'a [(&'a Key, &'a RowBuf)],
    t: u8,
) -> Result<Vec<RowBytes<'a>>, AllocError>
    ensures { IfOk result (λ rows. rows.items ≡ map (λ row. row.1) (saved_rows_of_table t (map lent_row own.now))) }
{
    let mut rows = Vec::new(alloc);
    for i in 0..own.len() {
        let pair = &own[i];
        if pair.0.table() == t {
            rows.push(pair.1.bytes())?;
        }
    }
    Ok(rows)
}

/// The kind of a mark.
fn kind_of(mark: &Mark<'_>) -> TableMark
    ensures { mark_number result ≡ number_of_mark (mark_value mark.now) }
{
    match mark {
        Mark::Waiting => TableMark::Waiting,
        Mark::Upto(_) => TableMark::Upto,
        Mark::Done => TableMark::Done,
    }
}

/// The key of a mark, as a row.
fn last_row(alloc: Global, mark: &Mark<'_>) -> Result<Option<RowBuf>, AllocError>
    ensures { IfOk result (λ last. last ≡ last_row_of (mark_value mark.now)) }
{
    match mark {
        Mark::Waiting => Ok(None),
        Mark::Upto(key) => Ok(Some(lastpk_of(alloc, &key.view())?)),
        Mark::Done => Ok(None),
    }
}

/// What is written of table `t`, by its mark and the rows of its stream.
fn written_table<'a>(
    alloc: Global,
    plan: &'a Plan,
    t: u8,
    mark: &Mark<'_>,
    own: &'a [(&'a Key, &'a RowBuf)],
) -> Result<WrittenTable<'a>, AllocError>
    requires { t < length plan.now.tables }
    ensures { IfOk result (λ table. (position : List ℕ) → written_value position table ≡ part_of_table plan.now t (mark_value mark.now) (map lent_row own.now) position) }
{
    Ok(WrittenTable {
        name: name_of(plan, t),
        mark: kind_of(mark),
        fields: fields_at(alloc, plan.columns(t), plan.kept_columns(t))?,
        key_fields: fields_at(alloc, plan.columns(t), plan.key_columns(t))?,
        rows: table_rows(alloc, own, t)?,
        last: last_row(alloc, mark)?,
    })
}

/// What is written of a stream's tables, in order, by the rows of the stream.
pub(crate) fn written_tables<'a>(
    alloc: Global,
    plan: &'a Plan,
    marks: &CopyState,
    own: &'a [(&'a Key, &'a RowBuf)],
) -> Result<Vec<WrittenTable<'a>>, AllocError>
    ensures { IfOk result (λ tables. (position : List ℕ) → map (written_value position) tables.items ≡ parts_of_tables plan.now marks.now (map lent_row own.now) position (length plan.now.tables)) }
{
    let mut tables = Vec::new(alloc);
    for t in 0..plan.tables().len() {
        let mark = marks.mark(t as u8);
        tables.push(written_table(alloc, plan, t as u8, &mark, own)?)?;
    }
    Ok(tables)
}
