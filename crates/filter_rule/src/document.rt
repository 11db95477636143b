//! The workflow file as a typed document, lent from its JSON value.

ghost use Rattle.std.specs.Prelude.{Result, map};
ghost use Rattle.serde_json.specs.View.{view};
ghost use Rattle.list_laws.specs.Outcome.{each};
ghost use Rattle.filter_rule.specs.Faults.{GivesOrFails};
ghost use Rattle.filter_rule.specs.Document.{type_said, column_of, vindex_of, vindex_said, filter_in, rule_of, stream_of, list_apart, table_of, document_of};

use crate::distinct::{HasName, check_distinct};
use crate::fault::PlanFault;
use crate::further::{uses_hash, uses_no_other, vindex_named};
use crate::json::{list_in, member, pair, text, text_in};
use crate::name::{Name, name_of};
use crate::types::type_named;
use serde_json::Value;
use std::alloc::Global;
use std::marker::Model;
use vindex::Vindex;

/// A value that a JSON value says, in a file that uses the vindex `hash` or doesn't.
pub(crate) trait FromJson<'v>: Sized {
    ghost use Rattle.std.specs.Prelude.{Bool, Result};
    ghost use Rattle.serde_json.specs.Data.{Data};
    ghost use Rattle.filter_rule.specs.Faults.{Fault};

    // what it says, or its fault
    ghost reads: { Bool → Data → Result Self Fault };

    fn from_json(alloc: Global, hash: bool, value: &'v Value) -> Result<Self, PlanFault>
        ensures { GivesOrFails (λ x. x) result (reads hash (view value.now)) };
}

/// Each value in order, up to the first fault.
pub(crate) fn each<'v, T: FromJson<'v> + Drop>(
    alloc: Global,
    hash: bool,
    values: &'v [Value],
) -> Result<Vec<T>, PlanFault>
    ensures { GivesOrFails (λ v. v.items) result (each (T.reads hash) (map view values.now)) }
{
    let mut found = Vec::new(alloc);
    for value in values {
        found.push(T::from_json(alloc, hash, value)?)?;
    }
    Ok(found)
}

/// The values of a member that is a list, no two of them under the same text.
#[tactic(auto, unfolding(crate::specs::Document::list_apart))]
fn list_apart<'v, T: FromJson<'v> + HasName + Drop>(
    alloc: Global,
    hash: bool,
    value: &'v Value,
    key: &str,
) -> Result<Vec<T>, PlanFault>
    ensures { GivesOrFails (λ v. v.items) result (list_apart T.name (T.reads hash) key.now (view value.now)) }
{
    let values = list_in(value, key)?;
    let items = each(alloc, hash, values)?;
    check_distinct(alloc, &items)?;
    Ok(items)
}

impl<'v> FromJson<'v> for Name<'v> {
    ghost use Rattle.filter_rule.specs.Document.{name_of as name_said};

    ghost reads = { λ _. name_said };

    fn from_json(_alloc: Global, _hash: bool, value: &'v Value) -> Result<Name<'v>, PlanFault> {
        name_of(value)
    }
}

/// A type by its name or its number.
#[tactic(auto, unfolding(crate::specs::Document::type_said))]
fn type_of(value: &Value) -> Result<u32, PlanFault>
    ensures { GivesOrFails (λ n. n) result (type_said (view value.now)) }
{
    if let Some(name) = value.as_str() {
        return match type_named(name) {
            Some(number) => Ok(number),
            None => Err(PlanFault::Shape),
        };
    }
    match value.as_u64() {
        Some(number) if number < 1 << 32 => Ok(number as u32),
        _ => Err(PlanFault::Shape),
    }
}

/// A column's name and type number.
#[derive(Drop)]
pub(crate) struct ColumnText<'v> {
    pub(crate) name: Name<'v>,
    pub(crate) type_number: u32,
}

impl<'v> Model for ColumnText<'v> {
    ghost use Rattle.row_view.specs.FieldValue.{FieldValue};

    ghost Value = { FieldValue };

    ghost view = { λ c. record { name = c.name; type_number = c.type_number } };
}

impl<'v> FromJson<'v> for ColumnText<'v> {
    ghost use Rattle.filter_rule.specs.Document.{column_of};

    ghost reads = { λ _. column_of };

    #[tactic(auto, unfolding(crate::specs::Document::column_of))]
    fn from_json(
        _alloc: Global,
        _hash: bool,
        value: &'v Value,
    ) -> Result<ColumnText<'v>, PlanFault> {
        let (name, number) = pair(value)?;
        let name = name_of(name)?;
        let type_number = type_of(number)?;
        Ok(ColumnText { name, type_number })
    }
}

/// A table with the names of its key and vindex columns.
#[derive(Drop)]
pub(crate) struct TableText<'v> {
    pub(crate) name: Name<'v>,
    pub(crate) columns: Vec<ColumnText<'v>>,
    pub(crate) key: Vec<Name<'v>>,
    pub(crate) vindex: Option<(Name<'v>, Vindex)>,
}

impl<'v> Model for TableText<'v> {
    ghost use Rattle.filter_rule.specs.Document.{TableSaid};

    ghost Value = { TableSaid };

    ghost view = { λ t. record { name = t.name; columns = t.columns.items; key = t.key.items; vindex = t.vindex } };
}

/// A vindex: its column's name, and its own.
#[tactic(auto, unfolding(crate::specs::Document::vindex_of))]
fn vindex_of(hash: bool, value: &Value) -> Result<(Name<'_>, Vindex), PlanFault>
    ensures { GivesOrFails (λ p. p) result (vindex_of hash (view value.now)) }
{
    let (column, name) = pair(value)?;
    let column = name_of(column)?;
    match vindex_named(hash, text(name)?) {
        Some(vindex) => Ok((column, vindex)),
        None => Err(PlanFault::Shape),
    }
}

/// The vindex of a table, if it has one.
#[tactic(auto, unfolding(crate::specs::Document::vindex_said))]
fn vindex_in(hash: bool, value: &Value) -> Result<Option<(Name<'_>, Vindex)>, PlanFault>
    ensures { GivesOrFails (λ o. o) result (vindex_said hash (view value.now)) }
{
    match value.get("vindex") {
        None => Ok(None),
        Some(found) => Ok(Some(vindex_of(hash, found)?)),
    }
}

/// A rule's `match` and `filter`, and whether the file says that it uses the vindex `hash`.
#[derive(Drop)]
pub(crate) struct RuleText<'v> {
    pub(crate) matches: &'v str,
    pub(crate) filter: &'v str,
    pub(crate) uses_hash: bool,
}

impl<'v> Model for RuleText<'v> {
    ghost use Rattle.filter_rule.specs.Document.{RuleSaid};

    ghost Value = { RuleSaid };

    ghost view = { λ r. record { matches = r.matches.now; filter = r.filter.now; uses_hash = r.uses_hash } };
}

/// The filter of a rule, nothing where it is absent.
#[tactic(auto, unfolding(crate::specs::Document::filter_in))]
fn filter_in(value: &Value) -> Result<&str, PlanFault>
    ensures { GivesOrFails (λ s. s.now) result (filter_in (view value.now)) }
{
    match value.get("filter") {
        None => Ok(""),
        Some(found) => text(found),
    }
}

impl<'v> FromJson<'v> for RuleText<'v> {
    ghost use Rattle.filter_rule.specs.Document.{rule_of};

    ghost reads = { rule_of };

    #[tactic(auto, unfolding(crate::specs::Document::rule_of))]
    fn from_json(_alloc: Global, hash: bool, value: &'v Value) -> Result<RuleText<'v>, PlanFault> {
        let matches = text_in(value, "match")?;
        let filter = filter_in(value)?;
        Ok(RuleText {
            matches,
            filter,
            uses_hash: hash,
        })
    }
}

/// A stream's shard and rules.
#[derive(Drop)]
pub(crate) struct StreamText<'v> {
    pub(crate) shard: &'v str,
    pub(crate) rules: Vec<RuleText<'v>>,
}

impl<'v> Model for StreamText<'v> {
    ghost use Rattle.filter_rule.specs.Document.{StreamSaid};

    ghost Value = { StreamSaid };

    ghost view = { λ s. record { shard = s.shard.now; rules = s.rules.items } };
}

impl<'v> FromJson<'v> for StreamText<'v> {
    ghost use Rattle.filter_rule.specs.Document.{stream_of};

    ghost reads = { stream_of };

    #[tactic(auto, unfolding(crate::specs::Document::stream_of))]
    fn from_json(alloc: Global, hash: bool, value: &'v Value) -> Result<StreamText<'v>, PlanFault> {
        let shard = text_in(value, "shard")?;
        let filter = member(value, "filter")?;
        let rules = each(alloc, hash, list_in(filter, "rules")?)?;
        Ok(StreamText { shard, rules })
    }
}

impl<'v> HasName for Name<'v> {
    ghost name = { λ n. n };

    fn name(&self) -> &str {
        self.as_str()
    }
}

impl<'v> HasName for ColumnText<'v> {
    ghost name = { λ c. c.name };

    fn name(&self) -> &str {
        self.name.as_str()
    }
}

impl<'v> HasName for TableText<'v> {
    ghost name = { λ t. t.name };

    fn name(&self) -> &str {
        self.name.as_str()
    }
}

impl<'v> HasName for StreamText<'v> {
    ghost name = { λ s. s.shard };

    fn name(&self) -> &str {
        self.shard
    }
}

impl<'v> FromJson<'v> for TableText<'v> {
    ghost use Rattle.filter_rule.specs.Document.{table_of};

    ghost reads = { table_of };

    #[tactic(auto, unfolding(crate::specs::Document::table_of))]
    fn from_json(alloc: Global, hash: bool, value: &'v Value) -> Result<TableText<'v>, PlanFault> {
        let name = name_of(member(value, "name")?)?;
        let vindex = vindex_in(hash, value)?;
        let columns = list_apart(alloc, hash, value, "columns")?;
        let key = list_apart(alloc, hash, value, "key")?;
        Ok(TableText {
            name,
            columns,
            key,
            vindex,
        })
    }
}

/// The whole file: its keyspace, tables and streams, and whether it says that it uses no vindex beyond
/// the four but `hash`.
#[derive(Drop)]
pub(crate) struct Document<'v> {
    pub(crate) keyspace: &'v str,
    pub(crate) tables: Vec<TableText<'v>>,
    pub(crate) streams: Vec<StreamText<'v>>,
    pub(crate) uses_no_other: bool,
}

impl<'v> Model for Document<'v> {
    ghost use Rattle.filter_rule.specs.Document.{DocumentSaid};

    ghost Value = { DocumentSaid };

    ghost view = { λ d. record { keyspace = d.keyspace.now; tables = d.tables.items; streams = d.streams.items; uses_no_other = d.uses_no_other } };
}

/// What the file's JSON value says, or that it has another shape.
#[tactic(auto, unfolding(crate::specs::Document::document_of))]
pub(crate) fn document_of(alloc: Global, value: &Value) -> Result<Document<'_>, PlanFault>
    ensures { GivesOrFails (λ d. d) result (document_of (view value.now)) }
{
    let hash = uses_hash(value);
    let keyspace = text_in(value, "keyspace")?;
    let tables = list_apart(alloc, hash, value, "tables")?;
    let streams = list_apart(alloc, hash, value, "streams")?;
    Ok(Document {
        keyspace,
        tables,
        streams,
        uses_no_other: uses_no_other(value),
    })
}
