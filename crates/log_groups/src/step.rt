//! What an event is to a transaction.

ghost use Rattle.std.specs.Prelude.{◌≡◌, option_map};
ghost use Rattle.list_laws.specs.Outcome.{Gives};
ghost use Rattle.log_events.specs.Event.{log_event};
ghost use Rattle.log_groups.specs.Body.{query_value};
ghost use Rattle.log_groups.specs.Step.{step_value, said, step_of, steps_of, NextStep};

use crate::class::{EventClass, class_of};
use crate::fault::GroupFault;
use crate::gtid::{MariaGtid, MysqlGtid, maria_gtid_of, mysql_gtid_of};
use crate::query::{Query, query_of};
use crate::statement::{Statement, statement_of};
use crate::xid::{Xid, prepared_of};
use log_events::{Event, Events};
use log_rows::{RowsHead, RowsKind, rows_of};
use log_tables::{TableMap, map_of};

/// The position of a transaction, as its server has it.
#[derive(Clone, Copy)]
pub enum Gtid<'b> {
    Maria(MariaGtid<'b>),
    Mysql(MysqlGtid<'b>),
}

/// How a transaction ends.
#[derive(Clone, Copy)]
pub enum Ending<'b> {
    /// What it did is committed.
    Committed,
    /// Nothing of it is left.
    RolledBack,
    /// What it did waits for a later transaction that ends it by this id.
    Prepared(Xid<'b>),
    /// What an XA transaction did is committed; its id stands with the position.
    XaCommitted,
    /// Nothing of an XA transaction is left; its id stands with the position.
    XaRolledBack,
}

/// What an event is to a transaction.
#[derive(Clone, Copy)]
pub(crate) enum Step<'b> {
    /// One begins at this position.
    Begin(Gtid<'b>),
    /// A number stands for this table from here on.
    Map(TableMap<'b>),
    /// Rows of a table.
    Rows(RowsKind, RowsHead<'b>),
    /// It ends.
    Ends(Ending<'b>),
    /// A statement.
    Said(Statement, Query<'b>),
}

/// What a statement is to a transaction.
fn said<'b>(statement: Statement, query: Query<'b>) -> Result<Option<Step<'b>>, GroupFault>
    ensures { Gives (λ s. option_map step_value s) result (said statement (query_value query.entry)) }
{
    match statement {
        Statement::Passes => Ok(None),
        Statement::Unknown => Err(GroupFault::Statement),
        _ => Ok(Some(Step::Said(statement, query))),
    }
}

/// What an event is to a transaction, `None` where it is nothing.
#[tactic(auto, unfolding(crate::specs::Step::step_of))]
fn step_of<'b>(event: &Event<'b>) -> Result<Option<Step<'b>>, GroupFault>
    ensures { Gives (λ s. option_map step_value s) result (step_of (log_event event.now)) }
{
    match class_of(event.kind, event.flags) {
        EventClass::Query => {
            let query = query_of(event.body)?;
            said(statement_of(query.text), query)
        }
        EventClass::Xid => Ok(Some(Step::Ends(Ending::Committed))),
        EventClass::TableMap => {
            let map = map_of(event.body)?;
            Ok(Some(Step::Map(map)))
        }
        EventClass::Rows(kind, second) => {
            let head = rows_of(kind, second, event.body)?;
            Ok(Some(Step::Rows(kind, head)))
        }
        EventClass::MariaGtid => {
            let gtid = maria_gtid_of(event.body)?;
            Ok(Some(Step::Begin(Gtid::Maria(gtid))))
        }
        EventClass::MysqlGtid => {
            let gtid = mysql_gtid_of(event.body)?;
            Ok(Some(Step::Begin(Gtid::Mysql(gtid))))
        }
        EventClass::XaPrepare => {
            let prepared = prepared_of(event.body)?;
            if prepared.one_phase {
                return Ok(Some(Step::Ends(Ending::Committed)));
            }
            Ok(Some(Step::Ends(Ending::Prepared(prepared.xid))))
        }
        EventClass::Refused(number) => Err(GroupFault::Refused(number)),
        EventClass::Description
        | EventClass::MariaList
        | EventClass::MysqlList
        | EventClass::Skipped => Ok(None),
    }
}

/// The next step of a log's events; those that are no step are passed over.
pub(crate) fn next_step<'b>(events: &mut Events<'_, 'b>) -> Result<Option<Step<'b>>, GroupFault>
    ensures { NextStep step_value (steps_of events.old.reading) result (steps_of events.new.reading) }
{
    while let Some(event) = events.next_event()? {
        if let Some(step) = step_of(&event)? {
            return Ok(Some(step));
        }
    }
    Ok(None)
}
