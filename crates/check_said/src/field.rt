//! A FIELD event that differs from the workflow's table.

ghost use Rattle.std.specs.Prelude.{◌≡◌, ◌≢◌, ℕ, List, [], ◌∷◌, ◌++◌, ◌<◌, IfSome, IfNone, length};
ghost use Rattle.std.specs.Option.{option_map};
ghost use Rattle.vevent.specs.ColumnView.{field_value};
ghost use Rattle.vevent.specs.EventValue.{Field};
ghost use Rattle.vevent.specs.EventView.{event_value};
ghost use Rattle.vevent.specs.Response.{response_of};
ghost use Rattle.source_feed.specs.Planned.{same_column};
ghost use Rattle.source_feed.specs.SourceValue.{short_name};
ghost use Rattle.check_said.specs.Differing.{first_differing, differing_at, event_differing, first_event, first_message, differing_value};

use crate::messages::Message;
use filter_rule::{ColumnDef, Plan};
use vevent::{ColumnField, ColumnFields, Event, FieldEvent, Response};

/// A column in which a FIELD event differs: the table by its number, the column's place, from 0, and what the
/// feed has there, nothing where it has fewer columns.
#[derive(Clone, Copy)]
pub(crate) struct Differing<'h> {
    pub table: u8,
    pub place: usize,
    pub said: Option<ColumnField<'h>>,
}

/// Whether a column is the workflow's.
fn is_same(column: &ColumnDef, field: &ColumnField<'_>) -> bool
    ensures { result ≡ same_column column.now (field_value field.now) }
{
    column.name() == field.name && u64::from(column.type_number()) == field.type_number
}

/// The first column in which some differ from the workflow's.
fn first_differing<'h>(
    columns: &[ColumnDef],
    fields: ColumnFields<'h>,
) -> Option<(usize, Option<ColumnField<'h>>)>
    ensures { option_map (λ d. (d.0, option_map field_value d.1)) result ≡ first_differing 0 columns.now fields.entry }
{
    let mut fields = fields;
    for place in 0..columns.len() {
        match fields.next() {
            None => return Some((place, None)),
            Some(field) => {
                if !is_same(&columns[place], &field) {
                    return Some((place, Some(field)));
                }
            }
        }
    }
    match fields.next() {
        None => None,
        Some(field) => Some((columns.len(), Some(field))),
    }
}

/// What stands behind the keyspace and a dot, if the name starts with them.
fn behind_keyspace<'h>(keyspace: &str, name: &'h str) -> Option<&'h str>
    ensures some { IfSome result (λ rest. name.now ≡ (keyspace.now ++ 46 ∷ []) ++ rest.now) }
    ensures none { IfNone result ((rest : List ℕ) → name.now ≢ (keyspace.now ++ 46 ∷ []) ++ rest) }
{
    name.strip_prefix(keyspace)?.strip_prefix('.')
}

/// A table's name without the keyspace and its dot.
fn short_name<'h>(keyspace: &str, name: &'h str) -> &'h str
    ensures { result.now ≡ short_name keyspace.now name.now }
{
    if keyspace.is_empty() {
        return name;
    }
    behind_keyspace(keyspace, name).unwrap_or(name)
}

/// The column in which columns of a table differ from the plan's.
fn differing_at<'h>(plan: &Plan, fields: ColumnFields<'h>, table: u8) -> Option<Differing<'h>>
    requires { table < length plan.now.tables }
    ensures { option_map differing_value result ≡ differing_at plan.now fields.entry table }
{
    let (place, said) = first_differing(plan.columns(table), fields)?;
    Some(Differing { table, place, said })
}

/// The column in which a FIELD event of a table of the plan differs.
fn difference_of<'h>(plan: &Plan, field: &FieldEvent<'h>) -> Option<Differing<'h>>
    ensures { option_map differing_value result ≡ event_differing plan.now (Field field.now.table_name field.now.fields) }
{
    let table = plan.table(short_name(plan.keyspace(), field.table_name()))?;
    differing_at(plan, field.fields(), table)
}

/// The column in which an event differs.
fn event_difference<'h>(plan: &Plan, event: &Event<'h>) -> Option<Differing<'h>>
    ensures { option_map differing_value result ≡ event_differing plan.now (event_value event.now) }
{
    match event {
        Event::Field(field) => difference_of(plan, field),
        _ => None,
    }
}

/// The first column of a message's FIELD events that differs.
fn differing_in<'h>(plan: &Plan, message: &'h [u8]) -> Option<Differing<'h>>
    ensures { option_map differing_value result ≡ first_event plan.now (response_of message.entry.now).items }
{
    let mut events = Response::new(message);
    while let Ok(Some(event)) = events.next_event() {
        if let Some(found) = event_difference(plan, &event) {
            return Some(found);
        }
    }
    None
}

/// The number of the first message with a FIELD event that differs, from 1, and the column in which it does.
pub(crate) fn first_field<'h>(
    plan: &Plan,
    messages: &[Message<'h>],
) -> Option<(usize, Differing<'h>)>
    ensures { option_map (λ d. (d.0, differing_value d.1)) result ≡ first_message plan.now 1 messages.now }
{
    for i in 0..messages.len() {
        let message = &messages[i];
        if let Some(found) = differing_in(plan, message.bytes) {
            return Some((i + 1, found));
        }
    }
    None
}
