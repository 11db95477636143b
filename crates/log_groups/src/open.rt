//! A transaction so far.

ghost use Rattle.std.specs.Prelude.{◌≡◌, ℕ, None, Some, OnOk, OnErr, map, take, option_map, if◌then◌else◌};
ghost use Rattle.std.specs.Result.{result_map_both};
ghost use Rattle.std.specs.Str.{str_eq_ignore_ascii_case};
ghost use Rattle.log_tables.specs.TableMap.{map_value};
ghost use Rattle.log_rows.specs.Head.{head_value};
ghost use Rattle.log_groups.specs.Body.{query_value};
ghost use Rattle.log_groups.specs.Keeping.{mark_of, mark_value};
ghost use Rattle.log_groups.specs.declared.statement.Statement.TheVariants.{BacksTo};
ghost use Rattle.log_groups.specs.Step.{Rows, ending_value, step_value};
ghost use Rattle.log_groups.specs.Transaction.{Altered, done_value, begun, opened, with_done, with_save, with_back, with_map, map_of, said_within, turn_within, opens, said_first, turn_first, turn_at};
ghost use Rattle.log_groups.specs.Calls.{Turns};

use crate::done::{Done, Waits};
use crate::fault::{GroupError, GroupFault};
use crate::query::Query;
use crate::statement::{Statement, back_name, same_letters, saved_name};
use crate::step::{Ending, Step};
use log_rows::{RowsHead, RowsKind};
use log_tables::TableMap;
use std::alloc::{AllocError, Global};
use std::marker::Model;

/// A savepoint: its name, and how many changes stood before it.
#[derive(Drop)]
pub(crate) struct SavedMark {
    pub(crate) name: Vec<u8>,
    pub(crate) count: usize,
}

/// How many changes stood before the latest savepoint of a name, in letters of either case.
fn mark_of(marks: &[SavedMark], name: &[u8]) -> Option<usize>
    ensures { result ≡ mark_of name.now (map mark_value marks.now) }
{
    let mut found = None;
    for mark in marks {
        found = mark.or(name, found);
    }
    found
}

impl SavedMark {
    /// The count of a savepoint of this name, else another one.
    fn or(&self, name: &[u8], other: Option<usize>) -> Option<usize>
        ensures { result ≡ (if str_eq_ignore_ascii_case (mark_value self.now).name name.now then Some (mark_value self.now).count else other) }
    {
        if same_letters(&self.name, name) {
            Some(self.count)
        } else {
            other
        }
    }
}

/// No savepoint has the name.
#[derive(Clone, Copy)]
struct NoSavepoint;

/// The latest map of a number.
fn map_of<'b>(maps: &[TableMap<'b>], number: u64) -> Option<TableMap<'b>>
    ensures { option_map map_value result ≡ map_of number (map map_value maps.now) }
{
    let mut left = maps.len();
    while left > 0 {
        left -= 1;
        let table = maps[left];
        if table.table == number {
            return Some(table);
        }
    }
    None
}

/// Takes the changes back behind the first ones.
fn cut(changes: &mut Vec<Done<'_>>, count: usize)
    ensures { map done_value changes.new.items ≡ take count (map done_value changes.old.items) }
{
    changes.truncate(count);
}

/// A transaction so far.
#[derive(Drop)]
pub(crate) struct Open<'b> {
    /// what its first statement may be, where that is still to come
    waits: Option<Waits>,
    changes: Vec<Done<'b>>,
    marks: Vec<SavedMark>,
    maps: Vec<TableMap<'b>>,
}

impl<'b> Model for Open<'b> {
    ghost use Rattle.std.specs.Prelude.{map};
    ghost use Rattle.log_tables.specs.TableMap.{map_value};
    ghost use Rattle.log_groups.specs.Keeping.{mark_value};
    ghost use Rattle.log_groups.specs.Transaction.{SoFar, done_value};

    ghost Value = { SoFar };

    ghost view = { λ o. record { waits = o.waits; kept = record { changes = map done_value o.changes.items; marks = map mark_value o.marks.items }; maps = map map_value o.maps.items } };
}

impl<'b> Open<'b> {
    /// A transaction without steps. Takes no memory.
    pub(crate) fn new(alloc: Global, waits: Option<Waits>) -> Open<'b>
        ensures { result ≡ begun waits }
    {
        Open {
            waits,
            changes: Vec::new(alloc),
            marks: Vec::new(alloc),
            maps: Vec::new(alloc),
        }
    }

    /// What the transaction did.
    pub(crate) fn into_changes(self) -> Vec<Done<'b>>
        ensures { map done_value result.items ≡ self.entry.kept.changes }
    {
        self.changes
    }

    /// The first statement has begun the transaction.
    fn begin(&mut self)
        ensures { self.new ≡ opened self.old }
    {
        self.waits = None;
    }

    /// One change more, within the transaction.
    fn put(&mut self, done: Done<'b>) -> Result<(), AllocError>
        ensures { OnOk result (self.new ≡ with_done self.old (done_value done.entry)) }
    {
        self.waits = None;
        self.changes.push(done)?;
        Ok(())
    }

    /// One map more.
    fn put_map(&mut self, table: TableMap<'b>) -> Result<(), AllocError>
        ensures { OnOk result (self.new ≡ with_map self.old (map_value table.entry)) }
    {
        self.maps.push(table)?;
        Ok(())
    }

    /// One savepoint more.
    fn save(&mut self, alloc: Global, name: &[u8]) -> Result<(), AllocError>
        ensures { OnOk result (self.new ≡ with_save self.old name.now) }
    {
        let mark = SavedMark {
            name: Vec::from_slice(alloc, name)?,
            count: self.changes.len(),
        };
        self.marks.push(mark)?;
        Ok(())
    }

    /// Takes the changes back behind the latest savepoint of a name.
    fn back(&mut self, name: &[u8]) -> Result<(), NoSavepoint>
        ensures made { OnOk result ((k : ℕ) × (mark_of name.now self.old.kept.marks ≡ Some k) × (self.new ≡ with_back self.old k)) }
        ensures none { OnErr result (mark_of name.now self.old.kept.marks ≡ None) }
    {
        match mark_of(&self.marks, name) {
            Some(count) => {
                cut(&mut self.changes, count);
                Ok(())
            }
            None => Err(NoSavepoint),
        }
    }

    /// The latest map of a number.
    fn map_of(&self, number: u64) -> Option<TableMap<'b>>
        ensures { option_map map_value result ≡ map_of number self.now.maps }
    {
        map_of(&self.maps, number)
    }

    /// Takes rows of a table.
    fn take_rows(
        &mut self,
        kind: RowsKind,
        head: RowsHead<'b>,
    ) -> Result<Option<Ending<'b>>, GroupError>
        ensures { Turns (turn_within self.old (Rows kind (head_value head.entry))) self.new (result_map_both (λ e. option_map ending_value e) (λ e. e) result) }
    {
        match self.map_of(head.table) {
            Some(table) => {
                self.put(Done::Rows(kind, table, head))?;
                Ok(None)
            }
            None => Err(GroupError::Fault(GroupFault::NoTable)),
        }
    }

    /// Goes back to a savepoint.
    fn take_back(&mut self, query: Query<'b>) -> Result<Option<Ending<'b>>, GroupError>
        ensures { Turns (said_within self.old BacksTo (query_value query.entry)) self.new (result_map_both (λ e. option_map ending_value e) (λ e. e) result) }
    {
        match self.back(back_name(query.text)) {
            Ok(()) => Ok(None),
            Err(_) => Err(GroupError::Fault(GroupFault::NoSavepoint)),
        }
    }

    /// Takes a statement in the midst of the transaction.
    fn take_said(
        &mut self,
        alloc: Global,
        statement: Statement,
        query: Query<'b>,
    ) -> Result<Option<Ending<'b>>, GroupError>
        ensures { Turns (said_within self.old statement (query_value query.entry)) self.new (result_map_both (λ e. option_map ending_value e) (λ e. e) result) }
    {
        match statement {
            Statement::Commits => Ok(Some(Ending::Committed)),
            Statement::RollsBack => Ok(Some(Ending::RolledBack)),
            Statement::Saves => {
                self.save(alloc, saved_name(query.text))?;
                Ok(None)
            }
            Statement::BacksTo => self.take_back(query),
            Statement::Alters => {
                self.put(Done::Altered(query))?;
                Ok(None)
            }
            Statement::Harmless => Ok(None),
            _ => Err(GroupError::Fault(GroupFault::Outside)),
        }
    }

    /// Takes a step in the midst of the transaction.
    fn take_within(
        &mut self,
        alloc: Global,
        step: Step<'b>,
    ) -> Result<Option<Ending<'b>>, GroupError>
        ensures { Turns (turn_within self.old (step_value step.entry)) self.new (result_map_both (λ e. option_map ending_value e) (λ e. e) result) }
    {
        match step {
            Step::Begin(_) => Err(GroupError::Fault(GroupFault::Outside)),
            Step::Map(table) => {
                self.put_map(table)?;
                Ok(None)
            }
            Step::Rows(kind, head) => self.take_rows(kind, head),
            Step::Ends(ending) => Ok(Some(ending)),
            Step::Said(statement, query) => self.take_said(alloc, statement, query),
        }
    }

    /// The first statement begins the transaction, where it may.
    fn take_begin(&mut self, waits: Waits) -> Result<Option<Ending<'b>>, GroupError>
        ensures { Turns (opens waits (opened self.old)) self.new (result_map_both (λ e. option_map ending_value e) (λ e. e) result) }
    {
        match waits {
            Waits::ForOne => Err(GroupError::Fault(GroupFault::Outside)),
            Waits::ForEither => {
                self.begin();
                Ok(None)
            }
        }
    }

    /// The first statement makes a table and begins the transaction, where it may.
    fn take_made(
        &mut self,
        waits: Waits,
        query: Query<'b>,
    ) -> Result<Option<Ending<'b>>, GroupError>
        ensures { Turns (opens waits (with_done self.old (Altered (query_value query.entry)))) self.new (result_map_both (λ e. option_map ending_value e) (λ e. e) result) }
    {
        match waits {
            Waits::ForOne => Err(GroupError::Fault(GroupFault::Outside)),
            Waits::ForEither => {
                self.put(Done::Altered(query))?;
                Ok(None)
            }
        }
    }

    /// Takes the first statement.
    fn take_first_said(
        &mut self,
        waits: Waits,
        statement: Statement,
        query: Query<'b>,
    ) -> Result<Option<Ending<'b>>, GroupError>
        ensures { Turns (said_first waits self.old statement (query_value query.entry)) self.new (result_map_both (λ e. option_map ending_value e) (λ e. e) result) }
    {
        match statement {
            Statement::Begins => self.take_begin(waits),
            Statement::AltersAndBegins => self.take_made(waits, query),
            Statement::Alters => {
                self.put(Done::Altered(query))?;
                Ok(Some(Ending::Committed))
            }
            Statement::Harmless => Ok(Some(Ending::Committed)),
            Statement::XaCommits => Ok(Some(Ending::XaCommitted)),
            Statement::XaRollsBack => Ok(Some(Ending::XaRolledBack)),
            _ => Err(GroupError::Fault(GroupFault::Outside)),
        }
    }

    /// Takes the first step.
    fn take_first(&mut self, waits: Waits, step: Step<'b>) -> Result<Option<Ending<'b>>, GroupError>
        ensures { Turns (turn_first waits self.old (step_value step.entry)) self.new (result_map_both (λ e. option_map ending_value e) (λ e. e) result) }
    {
        match step {
            Step::Said(statement, query) => self.take_first_said(waits, statement, query),
            _ => Err(GroupError::Fault(GroupFault::Outside)),
        }
    }

    /// Takes a step, and answers how the transaction ends, if it does.
    #[tactic(auto, unfolding(crate::specs::Transaction::turn_at))]
    pub(crate) fn take(
        &mut self,
        alloc: Global,
        step: Step<'b>,
    ) -> Result<Option<Ending<'b>>, GroupError>
        ensures { Turns (turn_at self.old (step_value step.entry)) self.new (result_map_both (λ e. option_map ending_value e) (λ e. e) result) }
    {
        match self.waits {
            Some(waits) => self.take_first(waits, step),
            None => self.take_within(alloc, step),
        }
    }
}
