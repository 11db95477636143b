//! Names of columns to their places.

ghost use Rattle.std.specs.Prelude.{◌≡◌, ℕ, List, None, Ok, find, position, option_map, Err, ◌<◌, ◌≤◌, length, IfSome, IfOk};
ghost use Rattle.std.specs.Str.{bytes_eq};
ghost use Rattle.list_laws.specs.Outcome.{each};
ghost use Rattle.filter_rule.specs.Faults.{GivesOrFails, no_such_column, key_type, Fault};
ghost use Rattle.row_view.specs.FieldValue.{FieldValue};
ghost use Rattle.filter_rule.specs.Resolving.{is_key_type, is_vindex_type, place_in, type_in, unfit_key, refuse_type, vindex_place, vindex_type, own_vindex_type, resolved};

use crate::document::{ColumnText, TableText};
use crate::fault::PlanFault;
use crate::name::Name;
use crate::places::Places;
use crate::table::{ColumnDef, Table};
use crate::types::{is_long_text, is_short_text, is_whole_number};
use std::alloc::Global;
use vindex::Vindex;

fn is_key_type(type_number: u32) -> bool
    ensures { result ≡ is_key_type type_number }
{
    is_whole_number(type_number) || is_short_text(type_number)
}

fn is_vindex_type(vindex: Vindex, type_number: u32) -> bool
    ensures { result ≡ is_vindex_type vindex type_number }
{
    match vindex {
        Vindex::Numeric | Vindex::ReverseBits | Vindex::Hash => is_whole_number(type_number),
        Vindex::Binary | Vindex::BinaryMd5 => {
            is_key_type(type_number) || is_long_text(type_number)
        }
    }
}

/// The refusal of a column that isn't there.
fn absent(alloc: Global, table: &str, column: &str) -> PlanFault
    ensures { GivesOrFails {X = ℕ} {Y = ℕ} (λ n. n) (Err result) (Err (no_such_column table.now column.now)) }
{
    let Ok(table) = String::from_str(alloc, table) else {
        return PlanFault::Memory;
    };
    let Ok(column) = String::from_str(alloc, column) else {
        return PlanFault::Memory;
    };
    PlanFault::NoSuchColumn { table, column }
}

/// The refusal of a column's type.
fn unfit(alloc: Global, table: &str, column: &str) -> PlanFault
    ensures { GivesOrFails {X = ℕ} {Y = ℕ} (λ n. n) (Err result) (Err (key_type table.now column.now)) }
{
    let Ok(table) = String::from_str(alloc, table) else {
        return PlanFault::Memory;
    };
    let Ok(column) = String::from_str(alloc, column) else {
        return PlanFault::Memory;
    };
    PlanFault::KeyType { table, column }
}

fn place_of(columns: &[ColumnDef], name: &str) -> Option<usize>
    ensures value { result ≡ position (λ c. bytes_eq c.name name.now) columns.now }
    ensures within { IfSome result (λ place. place < length columns.now) }
{
    columns.iter().position(|column| column.name() == name)
}

/// The place of a table's column of a name.
pub(crate) fn place_in(
    alloc: Global,
    table: &str,
    columns: &[ColumnDef],
    name: &str,
) -> Result<usize, PlanFault>
    ensures place { GivesOrFails (λ n. n) result (place_in table.now columns.now name.now) }
    ensures within { IfOk result (λ place. place < length columns.now) }
{
    match place_of(columns, name) {
        Some(place) => Ok(place),
        None => Err(absent(alloc, table, name)),
    }
}

fn column_of<'t>(columns: &'t [ColumnDef], name: &str) -> Option<&'t ColumnDef>
    ensures { option_map (λ c. c.now) result ≡ find (λ c. bytes_eq c.name name.now) columns.now }
{
    columns.iter().find(|column| column.name() == name)
}

fn type_in(columns: &[ColumnDef], name: &str) -> u32
    ensures { result ≡ type_in columns.now name.now }
{
    match column_of(columns, name) {
        Some(column) => column.type_number(),
        None => 0,
    }
}

/// A column that a vindex can take.
pub(crate) fn check_vindex_type(
    alloc: Global,
    table: &str,
    columns: &[ColumnDef],
    name: &str,
    vindex: Vindex,
) -> Result<(), PlanFault>
    ensures { GivesOrFails (λ _. name.now) result (vindex_type table.now columns.now name.now vindex) }
{
    if is_vindex_type(vindex, type_in(columns, name)) {
        Ok(())
    } else {
        Err(unfit(alloc, table, name))
    }
}

fn unfit_key<'k, 'v>(columns: &[ColumnDef], names: &'k [Name<'v>]) -> Option<&'k Name<'v>>
    ensures { option_map (λ n. n.now) result ≡ unfit_key columns.now names.now }
{
    names
        .iter()
        .find(|name| !is_key_type(type_in(columns, name.as_str())))
}

/// The places of columns of these names.
fn places_of(
    alloc: Global,
    table: &str,
    columns: &[ColumnDef],
    names: &[Name<'_>],
) -> Result<Vec<u8>, PlanFault>
    requires { length columns.now ≤ 256 }
    ensures { GivesOrFails (λ v. v.items) result (each (place_in table.now columns.now) names.now) }
{
    let mut places = Vec::new(alloc);
    for name in names {
        let place = place_in(alloc, table, columns, name.as_str())?;
        places.push(place as u8)?;
    }
    Ok(places)
}

/// Copies of columns.
fn copied(alloc: Global, columns: &[ColumnText<'_>]) -> Result<Vec<ColumnDef>, PlanFault>
    ensures { GivesOrFails {Y = List FieldValue} (λ v. v.items) result (Ok columns.now) }
{
    let mut copies = Vec::new(alloc);
    for column in columns {
        copies.push(ColumnDef::new(alloc, column.name.as_str(), column.type_number)?)?;
    }
    Ok(copies)
}

fn check_key_types(
    alloc: Global,
    table: &str,
    columns: &[ColumnDef],
    names: &[Name<'_>],
) -> Result<(), PlanFault>
    ensures { GivesOrFails (λ _. None) result (refuse_type table.now (unfit_key columns.now names.now)) }
{
    match unfit_key(columns, names) {
        None => Ok(()),
        Some(name) => Err(unfit(alloc, table, name.as_str())),
    }
}

fn vindex_place(
    alloc: Global,
    table: &str,
    columns: &[ColumnDef],
    vindex: &Option<(Name<'_>, Vindex)>,
) -> Result<Option<(usize, Vindex)>, PlanFault>
    ensures { GivesOrFails (λ o. o) result (vindex_place table.now columns.now vindex.now) }
{
    match vindex {
        None => Ok(None),
        Some((name, vindex)) => {
            let place = place_in(alloc, table, columns, name.as_str())?;
            Ok(Some((place, *vindex)))
        }
    }
}

fn check_own_vindex(
    alloc: Global,
    table: &str,
    columns: &[ColumnDef],
    vindex: &Option<(Name<'_>, Vindex)>,
) -> Result<(), PlanFault>
    ensures { GivesOrFails (λ _. option_map (λ v. v.0) vindex.now) result (own_vindex_type table.now columns.now vindex.now) }
{
    match vindex {
        None => Ok(()),
        Some((name, vindex)) => { check_vindex_type(alloc, table, columns, name.as_str(), *vindex) }
    }
}

/// The table of a plan that a table of the workflow file names.
#[tactic(auto, unfolding(crate::specs::Resolving::resolved))]
pub(crate) fn resolved(alloc: Global, table: &TableText<'_>) -> Result<Table, PlanFault>
    requires { length table.now.columns ≤ 256 }
    ensures { GivesOrFails (λ t. t) result (resolved table.now) }
{
    let name = table.name.as_str();
    let columns = copied(alloc, &table.columns)?;
    let key = places_of(alloc, name, &columns, &table.key)?;
    let vindex = vindex_place(alloc, name, &columns, &table.vindex)?;
    check_key_types(alloc, name, &columns, &table.key)?;
    check_own_vindex(alloc, name, &columns, &table.vindex)?;
    let kept = Places::all(alloc, columns.len())?;
    Ok(Table::new(alloc, name, columns, key, vindex, kept)?)
}
