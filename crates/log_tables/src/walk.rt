//! The columns of a table map.

ghost use Rattle.std.specs.Prelude.{◌≡◌, ◌==◌, ◌<◌, ◌≤◌, ◌+◌, ◌^◌, ◌++◌, [], ◌∷◌, map, IfOk, OnOk};
ghost use Rattle.std.specs.List.{list_any};
ghost use Rattle.list_laws.specs.Outcome.{Gives, GivesUnless};
ghost use Rattle.log_tables.specs.Fault.{meant};
ghost use Rattle.log_tables.specs.TableMap.{map_value};
ghost use Rattle.log_tables.specs.Column.{is_all_told, wanted_value, column_value, told_value, with_labels, kind_there, column_at, columns_in, signs_told, columns_of};

use crate::collation::{collation_of, collations_of, comma_told, is_labelled};
use crate::column::{LogColumn, Wanted};
use crate::extra::part_of;
use crate::fault::{TableError, TableFault};
use crate::kind::{kind_of, metadata_size};
use crate::labels::labels_of;
use crate::map::TableMap;
use crate::names::has_names;
use crate::part::front_of;
use crate::sign::{is_number, is_signed_so};
use crate::told::Told;
use log_events::{Size, number_at};
use log_values::Kind;
use std::alloc::{AllocError, Global};

/// A kind, where there is one and its sign is right.
fn kind_there(kind: Option<Kind>, signs: &[u8], place: u64) -> Result<Kind, TableFault>
    ensures { Gives (λ x. x) result (kind_there kind signs.now place) }
{
    match kind {
        Some(kind) if is_signed_so(kind, signs, place) => Ok(kind),
        _ => Err(TableFault::OtherType),
    }
}

/// A column of a kind, with its labels, and what is told of the others.
fn with_labels<'b>(
    alloc: Global,
    kind: Kind,
    told: Told<'b>,
) -> Result<(LogColumn<'b>, Told<'b>), TableError>
    ensures value { GivesUnless meant (λ x. (column_value x.0, told_value x.1)) result (with_labels kind (told_value told.entry)) }
    ensures few { IfOk result (λ x. (x.1.numbers ≡ told.entry.numbers) × (x.1.collations.past ≡ told.entry.collations.past)) }
{
    match kind {
        Kind::Label(_) => {
            let (labels, enums) = labels_of(alloc, told.enums)?;
            Ok((LogColumn { kind, labels }, Told { enums, ..told }))
        }
        Kind::Labels(..) => {
            let (labels, sets) = labels_of(alloc, told.sets)?;
            Ok((LogColumn { kind, labels }, Told { sets, ..told }))
        }
        _ => {
            let labels = Vec::new(alloc);
            Ok((LogColumn { kind, labels }, told))
        }
    }
}

/// The column of a type, under the type number that the workflow has, and what is told of the others.
#[tactic(auto, unfolding(crate::specs::Column::column_at))]
fn column_of<'b>(
    alloc: Global,
    wanted: u32,
    log_type: u8,
    told: Told<'b>,
) -> Result<(LogColumn<'b>, Told<'b>), TableError>
    requires numbers { told.numbers + 1 < 2 ^ 64 }
    requires past { told.collations.past + 1 < 2 ^ 64 }
    ensures value { GivesUnless meant (λ x. (column_value x.0, told_value x.1)) result (column_at wanted log_type (told_value told.entry)) }
    ensures few { IfOk result (λ x. (x.1.numbers ≤ told.entry.numbers + 1) × (x.1.collations.past ≤ told.entry.collations.past + 1)) }
{
    let (meta, metadata) = front_of(told.metadata, u64::from(metadata_size(log_type)))?;
    let meta = number_at(meta, 0, Size::Two) as u16;
    let (collation, collations) = collation_of(is_labelled(log_type, meta), told.collations)?;
    let kind = kind_of(wanted, log_type, meta, comma_told(collation));
    let kind = kind_there(kind, told.signs, told.numbers)?;
    let numbers = if is_number(log_type) {
        told.numbers + 1
    } else {
        told.numbers
    };
    with_labels(
        alloc,
        kind,
        Told {
            metadata,
            collations,
            numbers,
            ..told
        },
    )
}

/// Whether nothing more is told than the columns needed.
fn is_all_told(told: &Told<'_>) -> bool
    ensures { result ≡ is_all_told (told_value told.now) }
{
    told.metadata.is_empty()
        && told.enums.is_empty()
        && told.sets.is_empty()
        && told.collations.others.is_empty()
}

/// One column more.
fn push_column<'b>(
    columns: &mut Vec<LogColumn<'b>>,
    column: LogColumn<'b>,
) -> Result<(), AllocError>
    ensures { OnOk result (map column_value columns.new.items ≡ map column_value columns.old.items ++ column_value column.entry ∷ []) }
{
    match columns.push(column) {
        Ok(()) => Ok(()),
        Err(_) => Err(AllocError),
    }
}

/// The columns of types, one by one.
fn columns_in<'b>(
    alloc: Global,
    wanted: &[Wanted<'_>],
    types: &[u8],
    told: Told<'b>,
) -> Result<Vec<LogColumn<'b>>, TableError>
    requires numbers { told.numbers ≡ 0 }
    requires past { told.collations.past ≡ 0 }
    ensures { GivesUnless meant (λ cs. map column_value cs.items) result (columns_in (map wanted_value wanted.now) types.now (told_value told.entry)) }
{
    let mut columns = Vec::new(alloc);
    let mut left = told;
    let mut others = types;
    for column in wanted {
        let Some((log_type, behind)) = others.split_first() else {
            return Err(TableError::Fault(TableFault::OtherColumns));
        };
        let (found, rest) = column_of(alloc, column.type_number, *log_type, left)?;
        push_column(&mut columns, found)?;
        left = rest;
        others = behind;
    }
    if !is_all_told(&left) {
        return Err(TableError::Fault(TableFault::CutBody));
    }
    Ok(columns)
}

/// Whether a column is of YEAR.
fn has_year(types: &[u8]) -> bool
    ensures { result ≡ list_any (λ t. t == 13) types.now }
{
    for log_type in types {
        if *log_type == 13 {
            return true;
        }
    }
    false
}

/// The signs that are told of columns of these types.
fn signs_told<'b>(types: &[u8], signs: &'b [u8]) -> &'b [u8]
    ensures { result.now ≡ signs_told types.now signs.now }
{
    if has_year(types) { &[] } else { signs }
}

/// The columns of a table map, in order, under the workflow's: as many, with the same names where the map tells
/// names, and each of its type. An error is the first fault, or want of memory.
#[tactic(auto, unfolding(crate::specs::Column::columns_of))]
pub fn columns_of<'b>(
    alloc: Global,
    wanted: &[Wanted<'_>],
    table: &TableMap<'b>,
) -> Result<Vec<LogColumn<'b>>, TableError>
    ensures { GivesUnless meant (λ cs. map column_value cs.items) result (columns_of (map wanted_value wanted.now) (map_value table.now)) }
{
    if wanted.len() != table.types.len() {
        return Err(TableError::Fault(TableFault::OtherColumns));
    }
    let names = part_of(4, table.extra)?;
    let enums = part_of(6, table.extra)?;
    let sets = part_of(5, table.extra)?;
    let signs = part_of(1, table.extra)?;
    let each = part_of(11, table.extra)?;
    let most = part_of(10, table.extra)?;
    if !has_names(wanted, names) {
        return Err(TableError::Fault(TableFault::OtherColumns));
    }
    let collations = collations_of(each, most)?;
    let told = Told {
        metadata: table.metadata,
        enums,
        sets,
        collations,
        signs: signs_told(table.types, signs),
        numbers: 0,
    };
    columns_in(alloc, wanted, table.types, told)
}
