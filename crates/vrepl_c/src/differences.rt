//! The keys at which two dumps differ.

ghost use Rattle.std.specs.Prelude.{◌≡◌, ◌++◌, OnOk, IfOk, List, option_copied};
ghost use Rattle.vdiff.specs.Differences.{AreFirstDifferences, Difference};
ghost use Rattle.vdiff.specs.Found.{difference_of};
ghost use Rattle.vrepl_c.specs.Dumps.{difference_bytes, differences_bytes};
ghost use Rattle.vrepl_c.specs.Encoded.{row_bytes};

use crate::encoded::{push_bytes, push_row};
use crate::keys::push_key;
use dump::DumpRows;
use filter_rule::Table;
use pk_copy::keys_tie_where_they_are_equal;
use row_view::RowBuf;
use std::alloc::{AllocError, Global};
use vdiff::{Found, first_found, name_of_table};

/// Adds a row that may be there.
fn push_side(into: &mut Vec<u8>, row: Option<&RowBuf>) -> Result<(), AllocError>
    ensures { OnOk result (into.new.items ≡ into.old.items ++ row_bytes (option_copied row.entry)) }
{
    match row {
        None => push_row(into, None),
        Some(row) => push_row(into, Some(row.view())),
    }
}

/// Adds a key at which two dumps differ, with the rows that stand there.
fn push_difference(
    into: &mut Vec<u8>,
    tables: &[Table],
    found: &Found<'_>,
) -> Result<(), AllocError>
    ensures { OnOk result (into.new.items ≡ into.old.items ++ difference_bytes tables.now (difference_of found.now)) }
{
    push_bytes(into, name_of_table(tables, found.key.table()).as_bytes())?;
    push_key(into, &found.key.view())?;
    push_side(into, found.source)?;
    push_side(into, found.target)
}

/// Adds the first keys at which two dumps differ, by rising key, at most so many.
fn push_differences(
    into: &mut Vec<u8>,
    tables: &[Table],
    source: &DumpRows,
    target: &DumpRows,
    most: usize,
) -> Result<(), AllocError>
    ensures { OnOk result ((found : List Difference) × AreFirstDifferences most source.now target.now found
        × (into.new.items ≡ into.old.items ++ differences_bytes tables.now found)) }
{
    let mut left = source.as_slice();
    let mut right = target.as_slice();
    for _ in 0..most {
        let Some(found) = first_found(left, right) else {
            return Ok(());
        };
        push_difference(into, tables, &found)?;
        left = found.source_left;
        right = found.target_left;
    }
    Ok(())
}

/// The bytes of the first keys at which two dumps differ, by rising key, at most so many.
pub(crate) fn bytes_of(
    alloc: Global,
    tables: &[Table],
    source: &DumpRows,
    target: &DumpRows,
    most: usize,
) -> Result<Vec<u8>, AllocError>
    ensures { IfOk result (λ bytes. (found : List Difference) × AreFirstDifferences most source.now target.now found
        × (bytes.items ≡ differences_bytes tables.now found)) }
{
    let mut bytes = Vec::new(alloc);
    push_differences(&mut bytes, tables, source, target, most)?;
    Ok(bytes)
}
