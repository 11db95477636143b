//! The first differences, as a person reads them.

ghost use Rattle.std.specs.Prelude.{◌≡◌, ◌++◌, IfOk, OnOk, option_copied};
ghost use Rattle.vdiff.specs.Found.{difference_of};
ghost use Rattle.vdiff_text.specs.ShownDifferences.{both_sides, one_side, shown_difference, shown_differences, sides_text};

use crate::columns::{push_both_lines, push_one_lines};
use crate::keys::push_head;
use dump::DumpRows;
use filter_rule::Table;
use pk_copy::Key;
use row_view::RowBuf;
use std::alloc::{AllocError, Global};
use vdiff::Found;
use vdiff_patch::Differences;

/// The first `count` keys at which a source's rows and a target's differ, by rising key, or all where there are fewer: a
/// line of the table and the key, and behind it a line a column, with both values of each that differs, or the values of a
/// row that stands on one side alone. An error is want of memory.
pub fn differences_text(
    alloc: Global,
    tables: &[Table],
    source: &DumpRows,
    target: &DumpRows,
    count: u32,
) -> Result<Vec<u8>, AllocError>
    ensures { IfOk result (λ text. text.items ≡ shown_differences tables.now count source.now target.now) }
{
    let mut text = Vec::new(alloc);
    let mut differences = Differences::new(source, target);
    for _ in 0..count {
        let Some(found) = differences.next() else {
            return Ok(text);
        };
        push_difference(alloc, &mut text, tables, &found)?;
    }
    Ok(text)
}

/// Adds a key at which they differ.
fn push_difference(
    alloc: Global,
    text: &mut Vec<u8>,
    tables: &[Table],
    found: &Found<'_>,
) -> Result<(), AllocError>
    ensures { OnOk result (text.new.items ≡ text.old.items ++ shown_difference tables.now (difference_of found.now)) }
{
    match tables.get(usize::from(found.key.table())) {
        None => Ok(()),
        Some(table) => push_sides(alloc, text, table, found),
    }
}

/// Adds a key of a table at which they differ.
fn push_sides(
    alloc: Global,
    text: &mut Vec<u8>,
    table: &Table,
    found: &Found<'_>,
) -> Result<(), AllocError>
    ensures { OnOk result (text.new.items ≡ text.old.items ++ sides_text table.now found.now.key.now (option_copied found.now.source) (option_copied found.now.target)) }
{
    match (found.source, found.target) {
        (None, None) => Ok(()),
        (Some(row), None) => {
            push_one_side(alloc, text, table, found.key, b" only in the source\n", row)
        }
        (None, Some(there)) => {
            push_one_side(
                alloc,
                text,
                table,
                found.key,
                b" only in the target\n",
                there,
            )
        }
        (Some(row), Some(there)) => push_both_sides(alloc, text, table, found.key, row, there),
    }
}

/// Adds a key and the row that stands there on one side alone.
fn push_one_side(
    alloc: Global,
    text: &mut Vec<u8>,
    table: &Table,
    key: &Key,
    what: &[u8],
    row: &RowBuf,
) -> Result<(), AllocError>
    ensures { OnOk result (text.new.items ≡ text.old.items ++ one_side table.now key.now what.now row.now) }
{
    push_head(alloc, text, table, key, what)?;
    push_one_lines(alloc, text, table, &row.view())
}

/// Adds a key and the columns that differ in the rows that stand there.
fn push_both_sides(
    alloc: Global,
    text: &mut Vec<u8>,
    table: &Table,
    key: &Key,
    row: &RowBuf,
    there: &RowBuf,
) -> Result<(), AllocError>
    ensures { OnOk result (text.new.items ≡ text.old.items ++ both_sides table.now key.now row.now there.now) }
{
    push_head(alloc, text, table, key, b" differs\n")?;
    push_both_lines(alloc, text, table, &row.view(), &there.view())
}
