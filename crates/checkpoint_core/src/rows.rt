//! The rows that a checkpoint says a stream has.

ghost use Rattle.std.specs.Prelude.{◌<◌, ◌≤◌, ◌↔◌, ◌++◌, ℕ, List, map, length, IsTrue, IfOk, IfErr, OnOk};
ghost use Rattle.pk_copy.specs.KeyOrder.{key_cmp};
ghost use Rattle.pk_copy.specs.KeyValue.{KeyValue};
ghost use Rattle.source_feed.specs.History.{RowValue};
ghost use Rattle.target_tables.specs.Rising.{IsRising, AreBelow};
ghost use Rattle.checkpoint_core.specs.Fault.{IsNothing};
ghost use Rattle.checkpoint_core.specs.Private.Reading.{IsRowOf, IsNextRow, AreRows, of_table, rows_in, rows_from};

use crate::fault::ReadFault;
use filter_rule::Plan;
use pk_copy::Key;
use row_view::RowBytes;
use std::alloc::Global;
use vevent::{AnswerRows, TablePart};

/// The key at which a row of table `t` stands, in memory of its own.
fn key_for(alloc: Global, plan: &Plan, t: u8, row: &RowBytes<'_>) -> Result<Key, ReadFault>
    requires { t < length plan.now.tables }
    ensures ok { IfOk result (IsRowOf plan.now t row.now) }
    ensures err { IfErr result (IsNothing (IsRowOf plan.now t row.now)) }
{
    let view = row.view();
    if view.len() != plan.kept_columns(t).len() {
        return Err(ReadFault::Broken);
    }
    match Key::of_kept(alloc, plan, t, row)? {
        Err(_) => Err(ReadFault::Broken),
        Ok(key) => Ok(key),
    }
}

/// Whether a key is greater than that of every row. Looks at the last row alone and takes no memory.
fn is_behind(rows: &[(Key, RowBytes<'_>)], key: &Key) -> bool
    requires { IsRising key_cmp rows.now }
    ensures { IsTrue result ↔ AreBelow key_cmp key.now rows.now }
{
    match rows.last() {
        None => true,
        Some((last, _)) => last.cmp(key).is_lt(),
    }
}

/// A row of table `t` is put behind the others.
fn put_row<'b>(
    alloc: Global,
    plan: &Plan,
    t: u8,
    row: RowBytes<'b>,
    rows: &mut Vec<(Key, RowBytes<'b>)>,
) -> Result<(), ReadFault>
    requires table { t < length plan.now.tables }
    requires rising { IsRising key_cmp rows.old.items }
    ensures ok { OnOk result (IsNextRow plan.now t row.entry rows.old.items rows.new.items) }
    ensures err { IfErr result (IsNothing (λ (key : KeyValue). IsRowOf plan.now t row.entry key × AreBelow key_cmp key rows.old.items)) }
{
    let key = key_for(alloc, plan, t, &row)?;
    if !is_behind(rows, &key) {
        return Err(ReadFault::Broken);
    }
    if rows.push((key, row)).is_err() {
        return Err(ReadFault::Memory);
    }
    Ok(())
}

/// The rows of table `t` are put behind those of the tables before it.
fn put_rows<'b>(
    alloc: Global,
    plan: &Plan,
    t: u8,
    found: AnswerRows<'b>,
    rows: &mut Vec<(Key, RowBytes<'b>)>,
) -> Result<(), ReadFault>
    requires table { t < length plan.now.tables }
    requires rows { AreRows plan.now (map of_table rows.old.items) rows.old.items }
    ensures ok { OnOk result (AreRows plan.now (map of_table rows.old.items ++ rows_in t found.entry) rows.new.items) }
    ensures err { IfErr result (λ fault. (later : List (ℕ × RowValue)) → IsNothing (AreRows plan.now ((map of_table rows.old.items ++ rows_in t found.entry) ++ later)) fault) }
{
    for row in found {
        put_row(alloc, plan, t, row, rows)?;
    }
    Ok(())
}

/// The rows of all tables, by their parts.
pub(crate) fn read_rows<'b>(
    alloc: Global,
    plan: &Plan,
    tables: &[TablePart<'b>],
) -> Result<Vec<(Key, RowBytes<'b>)>, ReadFault>
    requires { length tables.now ≤ length plan.now.tables }
    ensures ok { IfOk result (λ rows. AreRows plan.now (rows_from 0 tables.now) rows.items) }
    ensures err { IfErr result (IsNothing (AreRows plan.now (rows_from 0 tables.now))) }
{
    plan.tables();
    let mut rows = Vec::new(alloc);
    for t in 0..tables.len() {
        put_rows(alloc, plan, t as u8, tables[t].answer().rows(), &mut rows)?;
    }
    Ok(rows)
}
