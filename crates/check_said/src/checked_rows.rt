//! Checks of feeds beside the rows that they leave.

ghost use Rattle.std.specs.Prelude.{◌≡◌, IfOk, map};
ghost use Rattle.source_feed.specs.Image.{lent_row};
ghost use Rattle.feed_check.specs.Checked as told;

use feed_check::{Checked, rows_of_table};
use pk_copy::LentKey;
use row_view::RowBytes;
use std::alloc::{AllocError, Global};
use std::marker::Model;

/// A check of a feed, and the rows that pass at the feed's end. Seen in contracts as the check.
#[derive(Drop)]
pub(crate) struct CheckedRows<'c, 'h> {
    check: &'c Checked<'h>,
    rows: Vec<(&'c LentKey<'h>, &'c RowBytes<'h>)>,
}

impl<'c, 'h> Model for CheckedRows<'c, 'h> {
    ghost use Rattle.std.specs.Prelude.{◌≡◌, map};
    ghost use Rattle.source_feed.specs.Image.{lent_row};
    ghost use Rattle.feed_check.specs.Checked.{CheckedValue};

    ghost Value = { CheckedValue };

    ghost view = { λ c. c.check.now };

    ghost invariant = { λ c. map lent_row c.rows.items ≡ c.check.now.rows };
}

impl<'c, 'h> CheckedRows<'c, 'h> {
    /// A check with its rows. An error is want of memory for the list of the rows.
    fn of(alloc: Global, check: &'c Checked<'h>) -> Result<CheckedRows<'c, 'h>, AllocError>
        ensures { IfOk result (λ made. made ≡ check.entry.now) }
    {
        let rows = check.rows(alloc)?;
        Ok(CheckedRows { check, rows })
    }

    /// The check.
    pub(crate) fn check(&self) -> &'c Checked<'h>
        ensures { result.now ≡ self.now }
    {
        self.check
    }

    /// How many rows of table `t` pass at the feed's end.
    pub(crate) fn rows_of(&self, t: usize) -> usize
        ensures { result ≡ told.rows_of_table t self.now.rows }
    {
        rows_of_table(&self.rows, t)
    }
}

/// Checks with their rows. An error is want of memory.
pub(crate) fn with_rows<'c, 'h>(
    alloc: Global,
    checks: &'c [Checked<'h>],
) -> Result<Vec<CheckedRows<'c, 'h>>, AllocError>
    ensures { IfOk result (λ made. made.items ≡ checks.entry.now) }
{
    let mut made = Vec::with_capacity(alloc, checks.len())?;
    for check in checks {
        let one = CheckedRows::of(alloc, check)?;
        made.push(one)?;
    }
    Ok(made)
}
