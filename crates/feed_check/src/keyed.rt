//! Changes with the keys of their rows.

ghost use Rattle.std.specs.Prelude.{◌≡◌, ◌<◌, ◌++◌, length, IfOk, OnOk};
ghost use Rattle.filter_rule.specs.PlanValue.{table_of_name};
ghost use Rattle.feed_check.specs.KeyedChanges.{keyed_row, keyed_image, keyed_at, keyed_in};

use filter_rule::Plan;
use pk_copy::{LentKey, key_of};
use row_view::RowBytes;
use source_feed::{Change, Group};
use std::alloc::{AllocError, Global};
use std::marker::Model;

/// A row with its key, both lent from the feed's buffer.
#[derive(Drop)]
pub(crate) struct KeyedRow<'h> {
    pub(crate) key: LentKey<'h>,
    pub(crate) row: RowBytes<'h>,
}

impl<'h> Model for KeyedRow<'h> {
    ghost use Rattle.feed_check.specs.KeyedChanges.{KeyedRowValue};

    ghost Value = { KeyedRowValue };

    ghost view = { λ r. (r.key, r.row) };
}

/// A change of a row of one of the plan's tables, where it stands in its feed.
#[derive(Drop)]
pub(crate) struct KeyedChange<'h> {
    pub(crate) group: u32,
    pub(crate) place: usize,
    pub(crate) before: Option<KeyedRow<'h>>,
    pub(crate) after: Option<KeyedRow<'h>>,
}

impl<'h> Model for KeyedChange<'h> {
    ghost use Rattle.feed_check.specs.KeyedChanges.{KeyedChangeValue};

    ghost Value = { KeyedChangeValue };

    ghost view = { λ c. record { group = c.group; place = c.place; before = c.before; after = c.after } };
}

/// A row of table `t` with its key, if it has one.
fn keyed_row<'h>(
    alloc: Global,
    plan: &Plan,
    t: u8,
    row: RowBytes<'h>,
) -> Result<Option<KeyedRow<'h>>, AllocError>
    requires { t < length plan.now.tables }
    ensures { IfOk result (λ keyed. keyed ≡ keyed_row plan.now t row.entry) }
{
    let view = row.view();
    if view.len() != plan.columns(t).len() {
        return Ok(None);
    }
    match key_of(plan, t, &view) {
        Ok(key) => {
            let key = LentKey::from_view(alloc, &key)?;
            Ok(Some(KeyedRow { key, row }))
        }
        Err(_) => Ok(None),
    }
}

/// The same of a row that there may be.
fn keyed_image<'h>(
    alloc: Global,
    plan: &Plan,
    t: u8,
    row: Option<RowBytes<'h>>,
) -> Result<Option<KeyedRow<'h>>, AllocError>
    requires { t < length plan.now.tables }
    ensures { IfOk result (λ keyed. keyed ≡ keyed_image plan.now t row.entry) }
{
    match row {
        None => Ok(None),
        Some(row) => keyed_row(alloc, plan, t, row),
    }
}

/// A change of table `t` at its place in its group.
fn keyed_change<'h>(
    alloc: Global,
    plan: &Plan,
    t: u8,
    group: u32,
    place: usize,
    change: &Change<'_, 'h>,
) -> Result<KeyedChange<'h>, AllocError>
    requires { t < length plan.now.tables }
    ensures { IfOk result (λ keyed. keyed ≡ record { group = group; place = place; before = keyed_image plan.now t change.now.before; after = keyed_image plan.now t change.now.after }) }
{
    let before = keyed_image(alloc, plan, t, change.before_bytes())?;
    let after = keyed_image(alloc, plan, t, change.after_bytes())?;
    Ok(KeyedChange {
        group,
        place,
        before,
        after,
    })
}

/// Puts a change at its place in its group behind the others, if its table is one of the plan's.
fn push_keyed<'h>(
    alloc: Global,
    plan: &Plan,
    group: u32,
    place: usize,
    change: &Change<'_, 'h>,
    keyed: &mut Vec<KeyedChange<'h>>,
) -> Result<(), AllocError>
    ensures { OnOk result (keyed.new.items ≡ keyed.old.items ++ keyed_at plan.now group place change.now (table_of_name plan.now change.now.table)) }
{
    if let Some(t) = plan.table(change.table()) {
        let change = keyed_change(alloc, plan, t, group, place, change)?;
        keyed.push(change)?;
    }
    Ok(())
}

/// The changes of a group to the plan's tables, in order.
pub(crate) fn keyed_group<'h>(
    alloc: Global,
    plan: &Plan,
    group: &Group<'_, 'h>,
) -> Result<Vec<KeyedChange<'h>>, AllocError>
    ensures { IfOk result (λ keyed. keyed.items ≡ keyed_in plan.now group.now) }
{
    let number = group.number();
    let changes = group.changes();
    let count = changes.len();
    let mut keyed = Vec::with_capacity(alloc, count)?;
    let mut place: usize = 0;
    for change in changes {
        place += 1;
        push_keyed(alloc, plan, number, place, &change, &mut keyed)?;
    }
    Ok(keyed)
}
