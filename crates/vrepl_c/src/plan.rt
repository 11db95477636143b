//! Plans as bytes that a caller walks over.

ghost use Rattle.std.specs.Prelude.{◌≡◌, ◌++◌, OnOk, IfOk};
ghost use Rattle.std.specs.Result.{result_map_both};
ghost use Rattle.vrepl_c.specs.Answer.{Answers, Gives};
ghost use Rattle.vrepl_c.specs.PlanBytes.{column_bytes, columns_bytes, each_place, places_bytes, plan_bytes, table_bytes, tables_bytes};
ghost use Rattle.vrepl_c.specs.Room.{IsPut};
ghost use Rattle.vrepl_c.specs.Workflows.{plan_of};

use crate::encoded::{push_bytes, push_number};
use crate::room::{MEMORY, put};
use crate::workflow::plan_of;
use filter_rule::{ColumnDef, Plan, Table};
use std::alloc::{AllocError, Global};

/// Adds a column.
fn push_column(into: &mut Vec<u8>, column: &ColumnDef) -> Result<(), AllocError>
    ensures { OnOk result (into.new.items ≡ into.old.items ++ column_bytes column.now) }
{
    push_bytes(into, column.name().as_bytes())?;
    push_number(into, u64::from(column.type_number()))
}

/// Adds columns.
fn push_columns(into: &mut Vec<u8>, columns: &[ColumnDef]) -> Result<(), AllocError>
    ensures { OnOk result (into.new.items ≡ into.old.items ++ columns_bytes columns.now) }
{
    for column in columns {
        push_column(into, column)?;
    }
    Ok(())
}

/// Adds places.
fn push_each(into: &mut Vec<u8>, places: &[u8]) -> Result<(), AllocError>
    ensures { OnOk result (into.new.items ≡ into.old.items ++ each_place places.now) }
{
    for place in places {
        push_number(into, u64::from(*place))?;
    }
    Ok(())
}

/// Adds places behind their number.
fn push_places(into: &mut Vec<u8>, places: &[u8]) -> Result<(), AllocError>
    ensures { OnOk result (into.new.items ≡ into.old.items ++ places_bytes places.now) }
{
    push_number(into, places.len() as u64)?;
    push_each(into, places)
}

/// Adds a table.
fn push_table(into: &mut Vec<u8>, table: &Table) -> Result<(), AllocError>
    ensures { OnOk result (into.new.items ≡ into.old.items ++ table_bytes table.now) }
{
    push_bytes(into, table.name().as_bytes())?;
    push_number(into, table.columns().len() as u64)?;
    push_columns(into, table.columns())?;
    push_places(into, table.key())?;
    push_places(into, table.kept())
}

/// Adds tables.
fn push_tables(into: &mut Vec<u8>, tables: &[Table]) -> Result<(), AllocError>
    ensures { OnOk result (into.new.items ≡ into.old.items ++ tables_bytes tables.now) }
{
    for table in tables {
        push_table(into, table)?;
    }
    Ok(())
}

/// The bytes of a plan.
fn bytes_of(alloc: Global, plan: &Plan) -> Result<Vec<u8>, AllocError>
    ensures { IfOk result (λ bytes. bytes.items ≡ plan_bytes plan.now) }
{
    let mut bytes = Vec::new(alloc);
    push_bytes(&mut bytes, plan.keyspace().as_bytes())?;
    push_bytes(&mut bytes, plan.shard().as_bytes())?;
    push_number(&mut bytes, plan.tables().len() as u64)?;
    push_tables(&mut bytes, plan.tables())?;
    Ok(bytes)
}

/// The bytes of the plan of a stream, or the number of the refusal.
fn plan_bytes_of(alloc: Global, workflow: &[u8], stream: usize) -> Result<Vec<u8>, u32>
    ensures { Gives (λ bytes. bytes.items) result (result_map_both plan_bytes (λ number. number) (plan_of workflow.now stream)) }
{
    let plan = plan_of(alloc, workflow, stream)?;
    match bytes_of(alloc, &plan) {
        Ok(bytes) => Ok(bytes),
        Err(_) => Err(MEMORY),
    }
}

/// Puts the plan of a stream, by its number from 0, into the room, as bytes that are walked over.
#[unsafe(no_mangle)]
pub extern "C" fn vrepl_plan(
    alloc: Global,
    workflow: &[u8],
    stream: usize,
    room: &mut [u8],
    length: &mut usize,
) -> u32
    ensures { Answers (λ plan. IsPut (plan_bytes plan) room.old room.new length.new) result (plan_of workflow.now stream) }
{
    match plan_bytes_of(alloc, workflow, stream) {
        Ok(bytes) => {
            *length = put(&bytes, room);
            0
        }
        Err(number) => number,
    }
}
