//! How far a checkpoint says that a stream's tables are copied.

ghost use Rattle.std.specs.Prelude.{◌≡◌, ◌<◌, ◌≤◌, ◌≢◌, Some, None, length, IsTrue, IfOk, IfErr};
ghost use Rattle.pk_copy.specs.Lastpk.{IsTableKey};
ghost use Rattle.pk_copy.specs.Marks.{MarkValue, waiting};
ghost use Rattle.checkpoint_core.specs.Fault.{IsNothing};
ghost use Rattle.checkpoint_core.specs.Private.Reading.{IsLast, SaysMark, AreMarksOf, IsMarked, IsOfTable, IsOfPlan, IsOpenAt, IsMarkedMore, mark_read};

use crate::fault::ReadFault;
use filter_rule::Plan;
use pk_copy::{CopyState, Key, key_of_lastpk, keys_read_are_table_keys};
use row_view::{RowBytes, RowView};
use std::alloc::Global;
use vevent::{TableMark, TablePart};

/// The mark that is read of a table.
#[derive(Drop)]
pub(crate) enum MarkRead {
    /// Nothing of the table is copied yet.
    Waiting,
    /// Its keys up to this one are copied.
    Upto(Key),
    /// All of it is copied.
    Done,
}

/// The key of table `t` that a row of its key columns is.
fn last_key(alloc: Global, plan: &Plan, t: u8, row: &RowView<'_>) -> Result<Key, ReadFault>
    requires { t < length plan.now.tables }
    ensures ok { IfOk result (λ key. IsLast plan.now t row.now key × (key.table ≡ t) × IsTableKey plan.now key) }
    ensures err { IfErr result (IsNothing (IsLast plan.now t row.now)) }
{
    keys_read_are_table_keys();
    if row.len() != plan.key_columns(t).len() {
        return Err(ReadFault::Broken);
    }
    match key_of_lastpk(plan, t, row) {
        Err(_) => Err(ReadFault::Broken),
        Ok(key) => {
            let _parts = key.parts();
            Ok(Key::from_view(alloc, &key)?)
        }
    }
}

/// The mark of table `t` by its kind and the key that is given with it.
fn mark_by(
    alloc: Global,
    plan: &Plan,
    t: u8,
    kind: TableMark,
    last: Option<RowBytes<'_>>,
) -> Result<MarkRead, ReadFault>
    requires { t < length plan.now.tables }
    ensures ok { IfOk result (λ mark. IsMarked plan.now t (mark_read mark) kind last.entry × IsOfTable t mark × IsOfPlan plan.now mark) }
    ensures err { IfErr result (IsNothing (λ (mark : MarkValue). IsMarked plan.now t mark kind last.entry)) }
{
    match kind {
        TableMark::Waiting => match last {
            None => Ok(MarkRead::Waiting),
            Some(_) => Err(ReadFault::Broken),
        },
        TableMark::Upto => match last {
            None => Err(ReadFault::Broken),
            Some(row) => Ok(MarkRead::Upto(last_key(alloc, plan, t, &row.view())?)),
        },
        TableMark::Done => match last {
            None => Ok(MarkRead::Done),
            Some(_) => Err(ReadFault::Broken),
        },
    }
}

/// The mark of table `t` by its part.
fn read_mark(alloc: Global, plan: &Plan, t: u8, part: &TablePart<'_>) -> Result<MarkRead, ReadFault>
    requires { t < length plan.now.tables }
    ensures ok { IfOk result (λ mark. SaysMark plan.now t (mark_read mark) part.now × IsOfTable t mark × IsOfPlan plan.now mark) }
    ensures err { IfErr result (IsNothing (λ (mark : MarkValue). SaysMark plan.now t mark part.now)) }
{
    match part.mark() {
        None => Err(ReadFault::Broken),
        Some(kind) => mark_by(alloc, plan, t, kind, part.answer().lastpk()),
    }
}

/// Table `t` has a mark behind those of the tables before it, if these are all done or it is waiting.
fn add_mark(marks: &mut CopyState, t: u8, mark: MarkRead) -> bool
    requires inside { t < marks.old.tables }
    requires open { IsOpenAt t marks.old }
    requires table { IsOfTable t mark }
    ensures added { IsTrue result → IsMarkedMore t (mark_read mark) marks.old marks.new }
    ensures refused { ¬ IsTrue result → (mark_read mark ≢ waiting) × (marks.old.done < t) }
{
    match mark {
        MarkRead::Waiting => true,
        _ if marks.done() < t => false,
        MarkRead::Upto(key) => {
            marks.move_to(key);
            true
        }
        MarkRead::Done => {
            marks.finish_table();
            true
        }
    }
}

/// The marks of the plan's tables, by the parts of the first ones; the others wait.
pub(crate) fn read_marks(
    alloc: Global,
    plan: &Plan,
    tables: &[TablePart<'_>],
) -> Result<CopyState, ReadFault>
    requires { length tables.now ≤ length plan.now.tables }
    ensures ok { IfOk result (AreMarksOf plan.now tables.now) }
    ensures err { IfErr result (IsNothing (AreMarksOf plan.now tables.now)) }
{
    let mut marks = CopyState::new(plan.tables().len() as u8);
    for t in 0..tables.len() {
        let mark = read_mark(alloc, plan, t as u8, &tables[t])?;
        if !add_mark(&mut marks, t as u8, mark) {
            return Err(ReadFault::Broken);
        }
    }
    Ok(marks)
}
