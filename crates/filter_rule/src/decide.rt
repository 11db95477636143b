//! What a rule decides of a table.

ghost use Rattle.std.specs.Prelude.{◌≡◌, ◌≤◌, length};
ghost use Rattle.list_laws.specs.Outcome.{each};
ghost use Rattle.filter_text.specs.FilterText.{in_range_of};
ghost use Rattle.filter_rule.specs.Faults.{GivesOrFails};
ghost use Rattle.filter_rule.specs.Rules.{kept_by, own_decision, decide, decide_once, decide_each};
ghost use Rattle.filter_rule.specs.Resolving.{name_at, lists_key, place_in};
ghost use Rattle.filter_text.specs.Views.{rows_said};
ghost use Rattle.filter_rule.specs.Private.RuleViews.{form_seen};

use crate::decision::Decision;
use crate::fault::PlanFault;
use crate::places::Places;
use crate::resolve::{check_vindex_type, place_in};
use crate::rule::{Place, RuleForm};
use crate::table::{ColumnDef, Table};
use filter_text::{ColumnList, Rows};
use std::alloc::Global;
use vindex::{KeyRange, Vindex};

/// The name of the column at a place.
fn name_at(columns: &[ColumnDef], place: u8) -> &str
    ensures { result.now ≡ name_at columns.now place }
{
    match columns.get(usize::from(place)) {
        Some(column) => column.name(),
        None => "",
    }
}

/// Whether a list has each column of a key.
fn lists_key(list: &ColumnList<'_>, columns: &[ColumnDef], key: &[u8]) -> bool
    ensures { result ≡ lists_key list.now columns.now key.now }
{
    key.iter().all(|place| list.has(name_at(columns, *place)))
}

/// The places of listed columns.
fn listed_places(
    alloc: Global,
    list: &ColumnList<'_>,
    table: &str,
    columns: &[ColumnDef],
) -> Result<Vec<u8>, PlanFault>
    requires { length columns.now ≤ 256 }
    ensures { GivesOrFails (λ v. v.items) result (each (place_in table.now columns.now) list.now) }
{
    let mut places = Vec::new(alloc);
    let mut left = list.again();
    while let Some(name) = left.next_column() {
        let place = place_in(alloc, table, columns, name)?;
        places.push(place as u8)?;
    }
    Ok(places)
}

/// The columns that a rule keeps of a table.
fn kept_by(
    alloc: Global,
    place: Place,
    columns: &Option<ColumnList<'_>>,
    table: &Table,
) -> Result<Places, PlanFault>
    ensures { GivesOrFails (λ k. k) result (kept_by place.stream place.rule columns.now table.now) }
{
    match columns {
        None => Ok(Places::all(alloc, table.few_columns().len())?),
        Some(list) => {
            if !lists_key(list, table.columns(), table.key()) {
                return Err(place.fault());
            }
            let places = listed_places(alloc, list, table.name(), table.few_columns())?;
            Ok(Places::new(places))
        }
    }
}

/// A key range under the table's own vindex.
fn own_decision(
    alloc: Global,
    place: Place,
    columns: &Option<ColumnList<'_>>,
    range: &KeyRange,
    table: &Table,
) -> Result<Decision, PlanFault>
    ensures { GivesOrFails (λ d. d) result (own_decision place.stream place.rule columns.now table.now range.now table.now.vindex) }
{
    match table.vindex() {
        None => Err(place.fault()),
        Some((column, vindex)) => {
            let kept = kept_by(alloc, place, columns, table)?;
            let range = range.try_clone(alloc)?;
            Ok(Decision::InRange {
                column,
                vindex,
                range,
                kept,
            })
        }
    }
}

/// A key range under a vindex that the rule names with its column.
fn named_decision(
    alloc: Global,
    place: Place,
    columns: &Option<ColumnList<'_>>,
    column: &str,
    vindex: Vindex,
    range: &KeyRange,
    table: &Table,
) -> Result<Decision, PlanFault>
    ensures { GivesOrFails (λ d. d) result (decide place.stream place.rule columns.now (in_range_of column.now vindex range.now) table.now) }
{
    let kept = kept_by(alloc, place, columns, table)?;
    let at = place_in(alloc, table.name(), table.columns(), column)?;
    check_vindex_type(alloc, table.name(), table.columns(), column, vindex)?;
    let range = range.try_clone(alloc)?;
    Ok(Decision::InRange {
        column: at,
        vindex,
        range,
        kept,
    })
}

/// What a rule decides of a table that it is first to match.
fn decide(
    alloc: Global,
    place: Place,
    columns: &Option<ColumnList<'_>>,
    rows: &Rows<'_>,
    table: &Table,
) -> Result<Decision, PlanFault>
    ensures { GivesOrFails (λ d. d) result (decide place.stream place.rule columns.now (rows_said rows.now) table.now) }
{
    match rows {
        Rows::EveryRow => {
            let kept = kept_by(alloc, place, columns, table)?;
            Ok(Decision::EveryRow { kept })
        }
        Rows::OwnVindex { range } => own_decision(alloc, place, columns, range, table),
        Rows::Named {
            column,
            vindex,
            range,
        } => named_decision(alloc, place, columns, column, *vindex, range, table),
    }
}

/// What a rule leaves of one table's decision: it stays where an earlier rule matched the table.
fn decide_once(
    alloc: Global,
    place: Place,
    form: &RuleForm<'_>,
    table: &Table,
    decision: &mut Decision,
) -> Result<(), PlanFault>
    ensures { GivesOrFails (λ _. decision.new) result (decide_once place.stream place.rule (form_seen form.now) table.now decision.old) }
{
    if let Decision::NoRule = decision {
        if form.scope.is_for(table.name()) {
            *decision = decide(alloc, place, &form.columns, &form.rows, table)?;
        }
    }
    Ok(())
}

/// Takes one rule over all tables, in order.
pub(crate) fn decide_each(
    alloc: Global,
    place: Place,
    form: &RuleForm<'_>,
    tables: &[Table],
    decisions: &mut [Decision],
) -> Result<(), PlanFault>
    requires { length decisions.old ≡ length tables.now }
    ensures decided { GivesOrFails (λ _. decisions.new) result (decide_each place.stream place.rule (form_seen form.now) tables.now decisions.old) }
    ensures count { length decisions.new ≡ length decisions.old }
{
    for i in 0..tables.len() {
        decide_once(alloc, place, form, &tables[i], &mut decisions[i])?;
    }
    Ok(())
}
