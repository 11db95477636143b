//! What all parts of a stream's tables begin with: the columns of their tables, and the stream's position.

ghost use Rattle.std.specs.Prelude.{◌≡◌, ◌<◌, ◌≤◌, ◌↔◌, Ok, Some, map, length, slice_get, IsTrue, IfOk};
ghost use Rattle.std.specs.Result.{result_ok};
ghost use Rattle.gtid_set.specs.Text.{position_of_text};
ghost use Rattle.vevent.specs.CheckpointPart.{TablePartValue};
ghost use Rattle.vevent.specs.ColumnView.{field_value};
ghost use Rattle.checkpoint_laws.specs.Written.{fields_of_table, key_fields_of};
ghost use Rattle.checkpoint_core.specs.Private.Reading.{OfEachTable, IsAtPosition, HasHead};

use crate::written_tables::fields_at;
use filter_rule::Plan;
use gtid_set::{GtidFault, GtidSet, same_set_is_equality};
use std::alloc::{AllocError, Global};
use vevent::{ColumnField, ColumnFields, RowsAnswer, TablePart};

/// Whether two columns have the same name and type.
fn is_same_field(one: &ColumnField<'_>, other: &ColumnField<'_>) -> bool
    ensures { IsTrue result ↔ (field_value one.now ≡ field_value other.now) }
{
    one.name == other.name && one.type_number == other.type_number
}

/// Whether the columns of an answer are these, in this order. Takes no memory.
fn are_fields(fields: ColumnFields<'_>, wanted: &[ColumnField<'_>]) -> bool
    ensures { IsTrue result ↔ (fields.entry ≡ map field_value wanted.now) }
{
    let mut fields = fields;
    for other in wanted {
        match fields.next() {
            None => return false,
            Some(field) => {
                if !is_same_field(&field, other) {
                    return false;
                }
            }
        }
    }
    match fields.next() {
        None => true,
        Some(_) => false,
    }
}

/// The position that a text means, if it means one. An error is want of memory.
pub(crate) fn position_in(alloc: Global, text: &str) -> Result<Option<GtidSet>, AllocError>
    ensures { IfOk result (λ found. found ≡ result_ok (position_of_text text.now)) }
{
    match GtidSet::parse(alloc, text) {
        Ok(set) => Ok(Some(set)),
        Err(GtidFault::Memory) => Err(AllocError),
        Err(_) => Ok(None),
    }
}

/// Whether a text means this position. An error is want of memory.
fn means(alloc: Global, text: &str, position: &GtidSet) -> Result<bool, AllocError>
    ensures { IfOk result (λ yes. IsTrue yes ↔ (position_of_text text.now ≡ Ok position.now)) }
{
    same_set_is_equality();
    match position_in(alloc, text)? {
        None => Ok(false),
        Some(found) => Ok(found == *position),
    }
}

/// Whether an answer has the kept columns of table `t` and those of its key. An error is want of memory.
fn has_columns(
    alloc: Global,
    plan: &Plan,
    t: u8,
    answer: &RowsAnswer<'_>,
) -> Result<bool, AllocError>
    requires { t < length plan.now.tables }
    ensures { IfOk result (λ yes. IsTrue yes ↔ ((answer.now.fields ≡ fields_of_table plan.now t) × (answer.now.pkfields ≡ key_fields_of plan.now t))) }
{
    let columns = fields_at(alloc, plan.columns(t), plan.kept_columns(t))?;
    let key_columns = fields_at(alloc, plan.columns(t), plan.key_columns(t))?;
    if !are_fields(answer.fields(), &columns) {
        return Ok(false);
    }
    Ok(are_fields(answer.pkfields(), &key_columns))
}

/// Whether the part of table `t` has the columns of the table and of its key, and this position, which is read of the
/// first table's part. An error is want of memory.
fn has_head(
    alloc: Global,
    plan: &Plan,
    t: u8,
    part: &TablePart<'_>,
    position: &GtidSet,
) -> Result<bool, AllocError>
    requires table { t < length plan.now.tables }
    requires first { t ≡ 0 → IsAtPosition position.now 0 part.now }
    ensures { IfOk result (λ yes. IsTrue yes ↔ HasHead plan.now position.now t part.now) }
{
    let answer = part.answer();
    if !has_columns(alloc, plan, t, &answer)? {
        return Ok(false);
    }
    if t == 0 {
        return Ok(true);
    }
    means(alloc, answer.gtid(), position)
}

/// Whether the parts of the plan's first tables have the columns of their tables and keys, and this position, which is
/// that of the first part. An error is want of memory.
pub(crate) fn have_heads(
    alloc: Global,
    plan: &Plan,
    tables: &[TablePart<'_>],
    position: &GtidSet,
) -> Result<bool, AllocError>
    requires few { length tables.now ≤ length plan.now.tables }
    requires first { (part : TablePartValue) → slice_get tables.now 0 ≡ Some part → IsAtPosition position.now 0 part }
    ensures { IfOk result (λ yes. IsTrue yes ↔ OfEachTable (HasHead plan.now position.now) tables.now) }
{
    plan.tables();
    for t in 0..tables.len() {
        if !has_head(alloc, plan, t as u8, &tables[t], position)? {
            return Ok(false);
        }
    }
    Ok(true)
}
