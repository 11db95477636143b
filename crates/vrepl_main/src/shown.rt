//! The text of a feed's groups.

ghost use Rattle.std.specs.Prelude.{◌∷◌, ◌++◌};
ghost use Rattle.gtid_set.specs.Printed.{interval_text, numbers_text, printed_position, uuid_text};
ghost use Rattle.vrepl_main.specs.Adding.{AddsText, at};
ghost use Rattle.feed_text.specs.Shown.{shown_row_line, shown_row_lines, change_text, changes_text, group_line, group_text, shown};

use crate::output::{print_cells, put_all, put_number, put_str};
use gtid_set::{GtidSet, Interval, uuid_text};
use printing::{Gathered, Out, OutFailed};
use row_view::{Columns, RowBytes};
use source_feed::{Change, Group, GroupChanges, Groups};

/// Prints groups in small pieces: for each group the line `group NUMBER POSITION`, then for each
/// change the row before behind `- TABLE` and the row after behind `+ TABLE`, each cell behind a tab.
/// Takes no memory. Fails where `out` does, and has then printed a beginning of the text.
pub(crate) fn print_groups<W: Out>(
    out: &mut W,
    text: &mut Gathered,
    groups: &Groups<'_>,
) -> Result<(), OutFailed>
    ensures { AddsText result (at (W.written out.old) text.old) (at (W.written out.new) text.new) (shown groups.now.items) }
{
    for group in groups.iter() {
        print_group(out, text, &group)?;
    }
    Ok(())
}

/// Prints a group.
fn print_group<W: Out>(
    out: &mut W,
    text: &mut Gathered,
    group: &Group<'_, '_>,
) -> Result<(), OutFailed>
    ensures { AddsText result (at (W.written out.old) text.old) (at (W.written out.new) text.new) (group_text group.now) }
{
    print_group_line(out, text, group)?;
    print_changes(out, text, group.changes())
}

/// Prints the first line of a group.
fn print_group_line<W: Out>(
    out: &mut W,
    text: &mut Gathered,
    group: &Group<'_, '_>,
) -> Result<(), OutFailed>
    ensures { AddsText result (at (W.written out.old) text.old) (at (W.written out.new) text.new) (group_line group.now) }
{
    put_all(out, text, b"group ")?;
    put_number(out, text, u64::from(group.number()))?;
    put_all(out, text, b" ")?;
    print_position(out, text, group.position())?;
    put_all(out, text, b"\n")
}

/// Prints a position, an interval at a time. Takes no memory.
pub(crate) fn print_position<W: Out>(
    out: &mut W,
    text: &mut Gathered,
    position: &GtidSet,
) -> Result<(), OutFailed>
    ensures { AddsText result (at (W.written out.old) text.old) (at (W.written out.new) text.new) (printed_position position.now) }
{
    let mut before = None;
    for interval in position.intervals() {
        print_interval(out, text, before, interval)?;
        before = Some(interval.uuid);
    }
    Ok(())
}

/// Prints an interval behind one of this uuid, if there is one.
#[inline(always)]
fn print_interval<W: Out>(
    out: &mut W,
    text: &mut Gathered,
    before: Option<u128>,
    interval: &Interval,
) -> Result<(), OutFailed>
    ensures { AddsText result (at (W.written out.old) text.old) (at (W.written out.new) text.new) (interval_text before interval.now) }
{
    match before {
        None => print_named(out, text, interval),
        Some(uuid) if uuid == interval.uuid => {
            put_all(out, text, b":")?;
            print_numbers(out, text, interval)
        }
        Some(_) => {
            put_all(out, text, b",")?;
            print_named(out, text, interval)
        }
    }
}

/// Prints an interval behind its uuid.
#[inline(always)]
fn print_named<W: Out>(
    out: &mut W,
    text: &mut Gathered,
    interval: &Interval,
) -> Result<(), OutFailed>
    ensures { AddsText result (at (W.written out.old) text.old) (at (W.written out.new) text.new) (uuid_text interval.now.uuid ++ 58 ∷ numbers_text interval.now) }
{
    put_all(out, text, &uuid_text(interval.uuid))?;
    put_all(out, text, b":")?;
    print_numbers(out, text, interval)
}

/// Prints the numbers of an interval: the only one, or the first and the last.
fn print_numbers<W: Out>(
    out: &mut W,
    text: &mut Gathered,
    interval: &Interval,
) -> Result<(), OutFailed>
    ensures { AddsText result (at (W.written out.old) text.old) (at (W.written out.new) text.new) (numbers_text interval.now) }
{
    put_number(out, text, interval.first)?;
    if interval.first == interval.last {
        return Ok(());
    }
    put_all(out, text, b"-")?;
    put_number(out, text, interval.last)
}

/// Prints the lines of changes.
fn print_changes<W: Out>(
    out: &mut W,
    text: &mut Gathered,
    changes: GroupChanges<'_, '_>,
) -> Result<(), OutFailed>
    ensures { AddsText result (at (W.written out.old) text.old) (at (W.written out.new) text.new) (changes_text changes.entry) }
{
    for change in changes {
        print_change(out, text, &change)?;
    }
    Ok(())
}

/// Prints the lines of a change.
fn print_change<W: Out>(
    out: &mut W,
    text: &mut Gathered,
    change: &Change<'_, '_>,
) -> Result<(), OutFailed>
    ensures { AddsText result (at (W.written out.old) text.old) (at (W.written out.new) text.new) (change_text change.now) }
{
    print_row_if(out, text, "- ", change.table(), change.before_bytes())?;
    print_row_if(out, text, "+ ", change.table(), change.after_bytes())
}

/// Prints the line of a row, if there is one.
#[inline(always)]
fn print_row_if<W: Out>(
    out: &mut W,
    text: &mut Gathered,
    mark: &str,
    table: &str,
    row: Option<RowBytes<'_>>,
) -> Result<(), OutFailed>
    ensures { AddsText result (at (W.written out.old) text.old) (at (W.written out.new) text.new) (shown_row_lines mark.now table.now row.entry) }
{
    match row {
        None => Ok(()),
        Some(row) => print_row(out, text, mark, table, row.columns()),
    }
}

/// Prints the line of a row.
fn print_row<W: Out>(
    out: &mut W,
    text: &mut Gathered,
    mark: &str,
    table: &str,
    columns: Columns<'_>,
) -> Result<(), OutFailed>
    ensures { AddsText result (at (W.written out.old) text.old) (at (W.written out.new) text.new) (shown_row_line mark.now table.now columns.entry) }
{
    put_str(out, text, mark)?;
    put_str(out, text, table)?;
    print_cells(out, text, columns)?;
    put_all(out, text, b"\n")
}
