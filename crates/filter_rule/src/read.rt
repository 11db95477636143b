//! The workflow file: from its text to a plan for each stream.

ghost use Rattle.std.specs.Prelude.{◌≡◌, ◌<◌, ◌⊎◌, length, IsErrAnd, List, None, Some, Ok, Err, OnOk, IfOk, IfErr, IfSome, map, string_bytes};
ghost use Rattle.std.specs.Arc.{arc_value};
ghost use Rattle.list_laws.specs.Outcome.{each};
ghost use Rattle.filter_rule.specs.Faults.{GivesOrFails, definition_fault_of};
ghost use Rattle.filter_rule.specs.FirstRule.{FollowFirstRules};
ghost use Rattle.filter_rule.specs.Private.Accepted.{AreNarrow, ArePlansOver, IsAccepted};
ghost use Rattle.filter_rule.specs.Standing.{Stands, IsFaultless};
ghost use Rattle.filter_rule.specs.Streams.{FollowStreams};
ghost use Rattle.filter_rule.specs.WellFormed.{IsPlan, ArePlans};
ghost use Rattle.filter_rule.specs.PlanValue.{PlanValue};
ghost use Rattle.filter_rule.specs.Resolving.{resolved};
ghost use Rattle.filter_rule.specs.Reading.{json_of, decided_by, decided_from, plan_over, plans_of_document, plans_of_value, plans_of, IsNoJson, IsSomeText};
ghost use Rattle.serde_json.specs.Read.{read as read_text};
ghost use Rattle.serde_json.specs.View.{view};

use crate::document::{Document, StreamText, TableText, document_of};
use crate::fault::PlanFault;
use crate::keeping::{Decided, closed};
use crate::limits::{check_vindexes, within_limits};
use crate::plan::{Plan, Schema};
use crate::resolve::resolved;
use crate::streams::decisions_of;
use crate::table::Table;
use serde_json::Value;
use std::alloc::Global;
use std::str;
use std::sync::Arc;

/// The JSON value of a text in UTF-8.
fn value_of(alloc: Global, text: &str) -> Result<Value, PlanFault>
    ensures ok { IfOk result (λ value. read_text text.now ≡ Some (view value)) }
    ensures no_json { result ≡ Err PlanFault.Json → read_text text.now ≡ None }
    ensures refused { IfErr result (λ fault. (fault ≡ PlanFault.Json) ⊎ (fault ≡ PlanFault.Memory)) }
    ensures memory { result ≡ Err PlanFault.Memory → 0 < length text.now }
{
    match Value::from_str(alloc, text) {
        Ok(value) => Ok(value),
        Err(e) if e.is_memory() => Err(PlanFault::Memory),
        Err(_) => Err(PlanFault::Json),
    }
}

/// The JSON value of a text. Memory is taken for a text that has a byte alone.
fn json_of(alloc: Global, text: &[u8]) -> Result<Value, PlanFault>
    ensures value { GivesOrFails view result (json_of text.now) }
    ensures read { OnOk result (IsSomeText text.now) }
    ensures memory { result ≡ Err PlanFault.Memory → IsSomeText text.now }
{
    match str::from_utf8(text) {
        Ok(text) => value_of(alloc, text),
        Err(_) => Err(PlanFault::Json),
    }
}

/// The tables of the plans.
fn tables_of(alloc: Global, tables: &[TableText<'_>]) -> Result<Vec<Table>, PlanFault>
    requires { AreNarrow tables.now }
    ensures { GivesOrFails (λ v. v.items) result (each resolved tables.now) }
{
    let mut found = Vec::new(alloc);
    for table in tables {
        found.push(resolved(alloc, table)?)?;
    }
    Ok(found)
}

/// What one stream decides.
#[tactic(auto, unfolding(crate::specs::Reading::decided_by))]
fn decided_by(
    alloc: Global,
    tables: &[Table],
    n: usize,
    stream: &StreamText<'_>,
) -> Result<Decided, PlanFault>
    ensures { GivesOrFails (λ d. d) result (decided_by tables.now n stream.now) }
{
    let decisions = decisions_of(alloc, n, tables, &stream.rules)?;
    let shard = String::from_str(alloc, stream.shard)?;
    Ok(Decided { shard, decisions })
}

/// What each stream decides.
fn decided_from(
    alloc: Global,
    tables: &[Table],
    streams: &[StreamText<'_>],
) -> Result<Vec<Decided>, PlanFault>
    ensures { GivesOrFails (λ v. v.items) result (decided_from tables.now 0 streams.now) }
{
    let mut decided = Vec::new(alloc);
    for n in 0..streams.len() {
        decided.push(decided_by(alloc, tables, n, &streams[n])?)?;
    }
    Ok(decided)
}

/// A stream's plan.
fn plan_over(alloc: Global, schema: &Arc<Schema>, stream: Decided) -> Result<Arc<Plan>, PlanFault>
    requires { IsPlan (plan_over (string_bytes (arc_value schema.now).keyspace) (arc_value schema.now).tables.items stream) }
    ensures { GivesOrFails arc_value result
        (Ok (plan_over (string_bytes (arc_value schema.now).keyspace) (arc_value schema.now).tables.items stream)) }
{
    let Decided { shard, decisions } = stream;
    let schema = Arc::try_clone(schema)?;
    Ok(Arc::new(alloc, Plan::new(schema, shard, decisions))?)
}

/// A plan for each stream.
fn plans_over(
    alloc: Global,
    schema: &Arc<Schema>,
    streams: Vec<Decided>,
) -> Result<Vec<Arc<Plan>>, PlanFault>
    requires { ArePlansOver (string_bytes (arc_value schema.now).keyspace) (arc_value schema.now).tables.items streams.items }
    ensures { GivesOrFails {Y = List PlanValue} (λ v. map arc_value v.items) result
        (Ok (map (plan_over (string_bytes (arc_value schema.now).keyspace) (arc_value schema.now).tables.items) streams.items)) }
{
    let mut plans = Vec::new(alloc);
    for stream in streams {
        plans.push(plan_over(alloc, schema, stream)?)?;
    }
    Ok(plans)
}

/// The plans of a document within the limits.
#[tactic(auto, unfolding(crate::specs::Reading::plans_of_document))]
fn plans_of_document(alloc: Global, document: &Document<'_>) -> Result<Vec<Arc<Plan>>, PlanFault>
    requires { IsAccepted document.now }
    ensures { GivesOrFails (λ v. map arc_value v.items) result (plans_of_document document.now) }
{
    let tables = tables_of(alloc, &document.tables)?;
    let streams = decided_from(alloc, &tables, &document.streams)?;
    let tables = closed(alloc, &streams, tables)?;
    let keyspace = String::from_str(alloc, document.keyspace)?;
    let schema = Arc::new(alloc, Schema { keyspace, tables })?;
    plans_over(alloc, &schema, streams)
}

/// The plans of the file's JSON value.
fn plans_of_value(alloc: Global, value: &Value) -> Result<Vec<Arc<Plan>>, PlanFault>
    ensures { GivesOrFails (λ v. map arc_value v.items) result (plans_of_value (view value.now)) }
{
    let said = document_of(alloc, value)?;
    check_vindexes(&said)?;
    let document = within_limits(said)?;
    plans_of_document(alloc, &document)
}

/// The plans of the file's text.
#[tactic(auto, unfolding(crate::specs::Reading::plans_of))]
fn plans_of(alloc: Global, text: &[u8]) -> Result<Vec<Arc<Plan>>, PlanFault>
    ensures plans { GivesOrFails (λ v. map arc_value v.items) result (plans_of text.now) }
    ensures memory { result ≡ Err PlanFault.Memory → IsSomeText text.now }
{
    let value = json_of(alloc, text)?;
    plans_of_value(alloc, &value)
}

impl Plan {
    /// Reads a workflow file: one plan a stream, in the file's order, all over the same tables. It is
    /// read exactly where the file has no fault. A fault is the first in this order: `Json`; `Shape`;
    /// `Limit`; table by table its absent columns, then its unfit types (`NoSuchColumn`, `KeyType`);
    /// stream by stream and rule by rule the rule's form (`BadRule`), then for each table that it is
    /// first to match `BadRule`, `NoSuchColumn`, `KeyType`; behind all these, table by table, that all
    /// streams with a rule for it keep the same columns in the same order (`ColumnsDiffer`). `Memory` is for want of memory
    /// alone, never for an empty text or one that isn't UTF-8, and stands in place of what would have been found later.
    pub fn read_all(alloc: Global, text: &[u8]) -> Result<Vec<Arc<Plan>>, PlanFault>
        ensures reads { GivesOrFails (λ v. map arc_value v.items) result (plans_of text.now) }
        // A text is refused as no JSON exactly where it is none, unless memory ran out.
        ensures no_json { result ≡ Err PlanFault.Json → IsNoJson text.now }
        ensures json { IsNoJson text.now → IsErrAnd result (λ fault. (fault ≡ PlanFault.Json) ⊎ (fault ≡ PlanFault.Memory)) }
        // There are 1 to 64 plans, for distinct shards, over the same tables; each is well formed.
        ensures well_formed { IfOk result (λ v. ArePlans (map arc_value v.items)) }
        // They are those of the file's streams, in order, over its keyspace and tables.
        ensures streams { IfOk result (λ v. FollowStreams text.now (map arc_value v.items)) }
        // What a refusal says of the file stands in it.
        ensures stands { IfErr result (λ fault. IfSome (definition_fault_of fault) (Stands text.now)) }
        // In a file that is read no fault stands.
        ensures sound { OnOk result (IsFaultless text.now) }
        // The first rule of a stream that matches a table decides it.
        ensures first_rule { IfOk result (λ v. FollowFirstRules text.now (map arc_value v.items)) }
        // Memory is wanted for a text in UTF-8 that isn't empty alone.
        ensures memory { result ≡ Err PlanFault.Memory → IsSomeText text.now }
    {
        plans_of(alloc, text)
    }
}
