//! A feed's changes, replayed one after another.

ghost use Rattle.std.specs.Prelude.{◌≡◌, ◌∷◌, ◌++◌, List, IfOk, OnOk};
ghost use Rattle.std.specs.Option.{option_copied, option_to_list};
ghost use Rattle.vdiff.specs.Report.{row_eq};
ghost use Rattle.feed_check.specs.KeyedChanges.{KeyedChangeValue};
ghost use Rattle.feed_check.specs.Replay.{put, removal, touches_of_keyed};
ghost use Rattle.feed_check.specs.Findings.{has_key, why_before, why_after, found_before, found_after};
ghost use Rattle.feed_check.specs.Private.Replayed.{row_in, IsReplayed};

use crate::finding::{Doubt, Finding};
use crate::keyed::{KeyedChange, KeyedRow};
use crate::keyed_rows::KeyedRows;
use pk_copy::LentKey;
use row_view::RowBytes;
use std::alloc::{AllocError, Global};

/// The rows that stand behind some changes of a feed, and what was told of these.
#[derive(Drop)]
pub(crate) struct Replay<'h> {
    pub(crate) rows: KeyedRows<'h, RowBytes<'h>>,
    pub(crate) findings: Vec<Finding<'h>>,
}

/// Whether two rows have equal columns.
fn same_rows(row: &RowBytes<'_>, other: &RowBytes<'_>) -> bool
    ensures { result ≡ row_eq row.now other.now }
{
    row.same(other)
}

/// Why a row before a change isn't true, beside the row that stands at its key.
fn why_before(row: &RowBytes<'_>, there: Option<&RowBytes<'_>>) -> Option<Doubt>
    ensures { result ≡ why_before row.now (option_copied there.entry) }
{
    match there {
        None => Some(Doubt::NoRow),
        Some(there) => {
            if same_rows(row, there) {
                None
            } else {
                Some(Doubt::OtherRow)
            }
        }
    }
}

/// Whether a row that there may be has this key.
fn has_key(image: Option<&KeyedRow<'_>>, key: &LentKey<'_>) -> bool
    ensures { result ≡ has_key (option_copied image.entry) key.now }
{
    match image {
        None => false,
        Some(image) => *key == image.key,
    }
}

/// Why a row after a change isn't true, beside the row that stands at its key.
fn why_after(own: bool, there: Option<&RowBytes<'_>>) -> Option<Doubt>
    ensures { result ≡ why_after own (option_copied there.entry) }
{
    match there {
        Some(_) if !own => Some(Doubt::RowThere),
        _ => None,
    }
}

/// What is told of a change's row before.
fn found_before<'h>(
    alloc: Global,
    rows: &KeyedRows<'h, RowBytes<'h>>,
    change: &KeyedChange<'h>,
) -> Result<Option<Finding<'h>>, AllocError>
    ensures { IfOk result (λ found. found ≡ found_before change.now (row_in rows.now)) }
{
    let Some(image) = &change.before else {
        return Ok(None);
    };
    match why_before(&image.row, rows.at(&image.key)) {
        None => Ok(None),
        Some(why) => Ok(Some(Finding::new(alloc, change, why, &image.key)?)),
    }
}

/// What is told of a change's row after.
fn found_after<'h>(
    alloc: Global,
    rows: &KeyedRows<'h, RowBytes<'h>>,
    change: &KeyedChange<'h>,
) -> Result<Option<Finding<'h>>, AllocError>
    ensures { IfOk result (λ found. found ≡ found_after change.now (row_in rows.now)) }
{
    let Some(image) = &change.after else {
        return Ok(None);
    };
    let own = has_key(change.before.as_ref(), &image.key);
    match why_after(own, rows.at(&image.key)) {
        None => Ok(None),
        Some(why) => Ok(Some(Finding::new(alloc, change, why, &image.key)?)),
    }
}

/// Puts what is told of a change behind the others, if anything is.
fn push_if<'h>(
    findings: &mut Vec<Finding<'h>>,
    found: Option<Finding<'h>>,
) -> Result<(), AllocError>
    ensures { OnOk result (findings.new.items ≡ findings.old.items ++ option_to_list found.entry) }
{
    if let Some(found) = found {
        findings.push(found)?;
    }
    Ok(())
}

/// Puts behind others that nothing is left at the key of a row before, if there is one.
fn push_removal<'h>(
    before: Option<KeyedRow<'h>>,
    touches: &mut Vec<(LentKey<'h>, Option<RowBytes<'h>>)>,
) -> Result<(), AllocError>
    ensures { OnOk result (touches.new.items ≡ touches.old.items ++ removal before.entry) }
{
    if let Some(KeyedRow { key, row: _ }) = before {
        touches.push((key, None))?;
    }
    Ok(())
}

/// Puts behind others that a row after is put at its key, if there is one.
fn push_put<'h>(
    after: Option<KeyedRow<'h>>,
    touches: &mut Vec<(LentKey<'h>, Option<RowBytes<'h>>)>,
) -> Result<(), AllocError>
    ensures { OnOk result (touches.new.items ≡ touches.old.items ++ put after.entry) }
{
    if let Some(KeyedRow { key, row }) = after {
        touches.push((key, Some(row)))?;
    }
    Ok(())
}

/// What a change does to keys.
fn touches_of<'h>(
    alloc: Global,
    change: KeyedChange<'h>,
) -> Result<Vec<(LentKey<'h>, Option<RowBytes<'h>>)>, AllocError>
    ensures { IfOk result (λ touches. touches.items ≡ touches_of_keyed change.entry) }
{
    let KeyedChange {
        group: _,
        place: _,
        before,
        after,
    } = change;
    let mut touches = Vec::with_capacity(alloc, 2)?;
    push_removal(before, &mut touches)?;
    push_put(after, &mut touches)?;
    Ok(touches)
}

impl<'h> Replay<'h> {
    /// Goes on by a change. An error is want of memory.
    pub(crate) fn take(&mut self, alloc: Global, change: KeyedChange<'h>) -> Result<(), AllocError>
        ensures { OnOk result ((past : List KeyedChangeValue) → IsReplayed past self.old.rows self.old.findings.items → IsReplayed (change.entry ∷ past) self.new.rows self.new.findings.items) }
    {
        let before = found_before(alloc, &self.rows, &change)?;
        let after = found_after(alloc, &self.rows, &change)?;
        push_if(&mut self.findings, before)?;
        push_if(&mut self.findings, after)?;
        let touches = touches_of(alloc, change)?;
        self.rows.touch(alloc, touches)?;
        Ok(())
    }
}
