//! The first keys at which two sets of rows differ, with both rows, as JSON.

ghost use Rattle.std.specs.Prelude.{◌≡◌, IfOk, map, List};
ghost use Rattle.serde_json.specs.Data.{array};
ghost use Rattle.serde_json.specs.View.{items_of, view};
ghost use Rattle.vdiff.specs.Json.{difference_data};
ghost use Rattle.vdiff.specs.Differences.{AreFirstDifferences, Difference};
ghost use Rattle.vdiff.specs.Found.{difference_of};

use crate::json_cells::{key_value, side_value};
use crate::keys::name_of_table;
use crate::walk::{Found, first_found};
use dump::DumpRows;
use filter_rule::Table;
use serde_json::{Value, json};
use std::alloc::{AllocError, Global};

/// The first `count` keys at which the two differ, by rising key.
pub(crate) fn differences_value(
    alloc: Global,
    tables: &[Table],
    source: &DumpRows,
    target: &DumpRows,
    count: u32,
) -> Result<Value, AllocError>
    ensures { IfOk result (λ made. (found : List Difference) × AreFirstDifferences count source.now target.now found × (view made ≡ array (items_of (map (difference_data tables.now) found)))) }
{
    let mut differences = Vec::new(alloc);
    let mut left = source.as_slice();
    let mut right = target.as_slice();
    for _ in 0..count {
        let Some(found) = first_found(left, right) else {
            return Ok(Value::Array(differences));
        };
        let difference = difference_value(alloc, tables, &found)?;
        differences.push(difference)?;
        left = found.source_left;
        right = found.target_left;
    }
    Ok(Value::Array(differences))
}

/// A key at which the two differ, its table, and the rows that stand there.
fn difference_value(alloc: Global, tables: &[Table], found: &Found<'_>) -> Result<Value, AllocError>
    ensures { IfOk result (λ made. view made ≡ difference_data tables.now (difference_of found.now)) }
{
    let key = key_value(alloc, found.key)?;
    let source = side_value(alloc, found.source)?;
    let target = side_value(alloc, found.target)?;
    let table = name_of_table(tables, found.key.table());
    json!(in alloc; {"key": key, "source": source, "table": table, "target": target})
}
