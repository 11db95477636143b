//! Whether the FIELD events of a feed agree with a plan.

ghost use Rattle.std.specs.Prelude.{◌≡◌, ◌||◌, option_copied, None, Some, false};
ghost use Rattle.vevent.specs.EventValue as value;
ghost use Rattle.vevent.specs.EventView.{event_value};
ghost use Rattle.source_feed.specs.Planned.{same_columns, differs, differs_from};
ghost use Rattle.source_feed.specs.Private.FeedTables.{number_under};

use crate::source::Source;
use filter_rule::{ColumnDef, Plan};
use vevent::{ColumnField, ColumnFields, Event, FieldEvent};

/// Looks for a FIELD event that differs from a plan, where there is a plan to agree with.
#[derive(Drop)]
pub(crate) struct FieldCheck<'p> {
    plan: Option<&'p Plan>,
    /// whether an event that was seen differs
    pub(crate) differs: bool,
}

impl<'p> FieldCheck<'p> {
    /// No event was seen yet.
    pub(crate) fn new(plan: Option<&'p Plan>) -> FieldCheck<'p>
        ensures plan { option_copied result.plan ≡ option_copied plan.entry }
        ensures none { result.differs ≡ false }
    {
        FieldCheck {
            plan,
            differs: false,
        }
    }

    /// A table's number in the plan, where there is a plan that has it.
    pub(crate) fn number(&self, table: &str) -> Option<u8>
        ensures { result ≡ number_under (option_copied self.now.plan) table.now }
    {
        match self.plan {
            None => None,
            Some(plan) => plan.table(table),
        }
    }

    /// Sees one more event.
    pub(crate) fn see(&mut self, event: &Event<'_>)
        ensures plan { option_copied self.new.plan ≡ option_copied self.old.plan }
        ensures differs { self.new.differs ≡ (self.old.differs || differs_from (option_copied self.old.plan) (event_value event.now)) }
    {
        if let (Some(plan), Event::Field(field)) = (self.plan, event) {
            self.differs = self.differs || field_differs(plan, field);
        }
    }
}

/// The columns of a FIELD event are these, in this order.
fn are_same_columns(columns: &[ColumnDef], fields: ColumnFields<'_>) -> bool
    ensures { result ≡ same_columns columns.now fields.entry }
{
    let mut fields = fields;
    for column in columns {
        match fields.next() {
            Some(field) => {
                if column.name() != field.name
                    || u64::from(column.type_number()) != field.type_number
                {
                    return false;
                }
            }
            None => return false,
        }
    }
    fields.next().is_none()
}

/// The FIELD event is of a planned table, and its columns aren't the plan's.
fn field_differs(plan: &Plan, field: &FieldEvent<'_>) -> bool
    ensures { result ≡ differs plan.now (value.Field field.now.table_name field.now.fields) }
{
    let source = Source {
        keyspace: plan.keyspace(),
        shard: plan.shard(),
    };
    match plan.table(source.table(field.table_name())) {
        None => false,
        Some(t) => !are_same_columns(plan.columns(t), field.fields()),
    }
}
