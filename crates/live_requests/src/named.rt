//! The table and the key that a request names.

ghost use Rattle.std.specs.Prelude.{◌≡◌, ◌<◌, Some, IfOk, IfSome, MatchOption, length, map, position};
ghost use Rattle.std.specs.Option.{option_map};
ghost use Rattle.std.specs.Str.{bytes_eq};
ghost use Rattle.filter_rule.specs.PlanValue.{table_of_name};
ghost use Rattle.pk_copy.specs.KeyValue.{KeyValue};
ghost use Rattle.row_view.specs.ColumnValue.{column_value};
ghost use Rattle.live_requests.specs.Named.{IsKeyText, value_of, values_of};

use crate::word::first_part;
use filter_rule::{Plan, Table};
use hex::FromHexError;
use pk_copy::{Key, key_of_lastpk};
use row_view::{Column, RowBuf};
use std::alloc::{AllocError, Global};

/// The number of the table of this name, if the plan has it. Takes no memory.
pub fn table_named(plan: &Plan, name: &[u8]) -> Option<u8>
    ensures number { result ≡ table_of_name plan.now name.now }
    ensures within { IfSome result (λ t. t < length plan.now.tables) }
{
    let place = place_of_table(plan.tables(), name)?;
    Some(place as u8)
}

fn place_of_table(tables: &[Table], name: &[u8]) -> Option<usize>
    ensures value { result ≡ position (λ table. bytes_eq table.name name.now) tables.now }
    ensures within { IfSome result (λ t. t < length tables.now) }
{
    tables
        .iter()
        .position(|table| table.name().as_bytes() == name)
}

/// The value of a cell, if it is one that isn't NULL: `x` and hexadecimal digits in pairs. An error is want of memory.
fn value_of(alloc: Global, cell: &[u8]) -> Result<Option<Vec<u8>>, AllocError>
    ensures { IfOk result (λ value. option_map (λ bytes. bytes.items) value ≡ value_of cell.now) }
{
    let Some((first, digits)) = cell.split_first() else {
        return Ok(None);
    };
    if *first != b'x' {
        return Ok(None);
    }
    match hex::decode(alloc, digits) {
        Ok(bytes) => Ok(Some(bytes)),
        Err(FromHexError::OutOfMemory) => Err(AllocError),
        Err(_) => Ok(None),
    }
}

/// The values of cells that are parted by commas, where each is one that isn't NULL.
fn values_of(alloc: Global, text: &[u8]) -> Result<Option<Vec<Vec<u8>>>, AllocError>
    ensures { IfOk result (λ values. option_map (λ all. map (λ value. value.items) all.items) values ≡ values_of text.now) }
{
    let mut values = Vec::new(alloc);
    let mut rest = Some(text);
    while let Some(text) = rest {
        let (cell, behind) = first_part(text, b',');
        match value_of(alloc, cell)? {
            Some(value) => values.push(value)?,
            None => return Ok(None),
        }
        rest = behind;
    }
    Ok(Some(values))
}

/// The columns of these values.
fn columns_of<'v>(alloc: Global, values: &'v [Vec<u8>]) -> Result<Vec<Column<'v>>, AllocError>
    ensures { IfOk result (λ columns. map column_value columns.items ≡ map (λ value. Some value.items) values.now) }
{
    let mut columns = Vec::new(alloc);
    for value in values {
        columns.push(Column::Bytes(value.as_slice()))?;
    }
    Ok(columns)
}

/// The key of table `t` that a text names: its parts as cells, parted by commas, a number as its decimal text. `None` where
/// it names none. An error is want of memory, or a text beyond the limits of a row. That `t` is a table of the plan is the
/// caller's.
pub fn key_named(alloc: Global, plan: &Plan, t: u8, text: &[u8]) -> Result<Option<Key>, AllocError>
    requires { t < length plan.now.tables }
    ensures { IfOk result (λ found. MatchOption found ((key : KeyValue) → ¬ IsKeyText plan.now t text.now key) (IsKeyText plan.now t text.now)) }
{
    let Some(values) = values_of(alloc, text)? else {
        return Ok(None);
    };
    if values.len() != plan.key_columns(t).len() {
        return Ok(None);
    }
    let columns = columns_of(alloc, &values)?;
    let Some(row) = RowBuf::of_columns(alloc, &columns)? else {
        return Err(AllocError);
    };
    match key_of_lastpk(plan, t, &row.view()) {
        Ok(key) => Ok(Some(Key::from_view(alloc, &key)?)),
        Err(_) => Ok(None),
    }
}
