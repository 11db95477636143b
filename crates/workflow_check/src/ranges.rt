//! Streams without a rule for a table, and tables of which the streams pass ranges that don't tile.

ghost use Rattle.std.specs.Prelude.{◌≡◌, ◌++◌, IfOk, OnOk, map};
ghost use Rattle.std.specs.Option.{option_copied, option_to_list};
ghost use Rattle.serde_json.specs.View.{view};
ghost use Rattle.workflow_check.specs.Ranges.{undecided_by, undecided_in, range_by, ranges_of, is_like, like_all, are_alike, same_end, same_range, one_with_all, are_one, next_at, are_tiles, is_untiled, untiled_in};

use crate::json::text_at;
use crate::note::{Flaw, Note, item_place};
use crate::passing::{Ranged, range_of, rows_by, vindex_name};
use crate::rules::{Rule, first_rule, rules_in, vindex_in};
use serde_json::Value;
use std::alloc::{AllocError, Global};
use vindex::KeyRange;

/// Puts the tables that none of a stream's rules matches behind the notes.
fn push_undecided_by(
    alloc: Global,
    rules: &[Rule<'_>],
    place: &str,
    tables: &[&str],
    notes: &mut Vec<Note>,
) -> Result<(), AllocError>
    ensures { OnOk result (notes.new.items ≡ notes.old.items ++ undecided_by rules.now place.now (map (λ name. name.now) tables.now)) }
{
    for table in tables {
        if first_rule(rules, table).is_none() {
            let place = String::from_str(alloc, place)?;
            notes.push(Note::new(alloc, place, Flaw::Undecided, table)?)?;
        }
    }
    Ok(())
}

/// Puts the tables for which a stream has no rule behind the notes.
pub(crate) fn push_undecided(
    alloc: Global,
    tables: &[&str],
    streams: &[Value],
    notes: &mut Vec<Note>,
) -> Result<(), AllocError>
    ensures { OnOk result (notes.new.items ≡ notes.old.items ++ undecided_in (map (λ name. name.now) tables.now) 0 (map view streams.now)) }
{
    for i in 0..streams.len() {
        let place = item_place(alloc, "streams", i)?;
        let rules = rules_in(alloc, &streams[i])?;
        push_undecided_by(alloc, &rules, &place, tables, notes)?;
    }
    Ok(())
}

/// The range of a table that a stream passes, if it passes one.
fn range_by<'v>(
    alloc: Global,
    table: &'v Value,
    stream: &'v Value,
) -> Result<Option<Ranged<'v>>, AllocError>
    ensures { IfOk result (λ range. range ≡ range_by (view table.entry.now) (view stream.entry.now)) }
{
    let rules = rules_in(alloc, stream)?;
    let rows = rows_by(alloc, first_rule(&rules, text_at(table, "name")))?;
    match rows {
        None => Ok(None),
        Some(rows) => Ok(range_of(vindex_in(table), rows)),
    }
}

/// Puts a range behind others, if there is one.
fn push_if<'v>(range: Option<Ranged<'v>>, ranges: &mut Vec<Ranged<'v>>) -> Result<(), AllocError>
    ensures { OnOk result (ranges.new.items ≡ ranges.old.items ++ option_to_list range.entry) }
{
    if let Some(range) = range {
        ranges.push(range)?;
    }
    Ok(())
}

/// The ranges of a table that streams pass.
fn ranges_of<'v>(
    alloc: Global,
    table: &'v Value,
    streams: &'v [Value],
) -> Result<Vec<Ranged<'v>>, AllocError>
    ensures { IfOk result (λ ranges. ranges.items ≡ ranges_of (view table.entry.now) (map view streams.entry.now)) }
{
    let mut ranges = Vec::with_capacity(alloc, streams.len())?;
    for stream in streams {
        let range = range_by(alloc, table, stream)?;
        push_if(range, &mut ranges)?;
    }
    Ok(ranges)
}

/// Whether two ranges are by the same vindex of the same column.
fn is_like(range: &Ranged<'_>, other: &Ranged<'_>) -> bool
    ensures { result ≡ is_like range.now other.now }
{
    range.column == other.column && vindex_name(range.vindex) == vindex_name(other.vindex)
}

/// Whether a range is so with each of others.
fn like_all(ranges: &[Ranged<'_>], range: &Ranged<'_>) -> bool
    ensures { result ≡ like_all ranges.now range.now }
{
    for other in ranges {
        if !is_like(range, other) {
            return false;
        }
    }
    true
}

/// Whether any two ranges are by the same vindex of the same column.
fn are_alike(ranges: &[Ranged<'_>]) -> bool
    ensures { result ≡ are_alike ranges.now }
{
    for range in ranges {
        if !like_all(ranges, range) {
            return false;
        }
    }
    true
}

/// Whether two ends are the same.
fn same_end(end: Option<&[u8]>, other: Option<&[u8]>) -> bool
    ensures { result ≡ same_end (option_copied end.entry) (option_copied other.entry) }
{
    match (end, other) {
        (None, None) => true,
        (Some(end), Some(other)) => end == other,
        _ => false,
    }
}

/// Whether two ranges have the same bounds.
fn same_range(range: &KeyRange, other: &KeyRange) -> bool
    ensures { result ≡ same_range range.now other.now }
{
    range.start() == other.start() && same_end(range.end(), other.end())
}

/// Whether a range has the bounds of each of others.
fn one_with_all(ranges: &[Ranged<'_>], range: &Ranged<'_>) -> bool
    ensures { result ≡ one_with_all ranges.now range.now }
{
    for other in ranges {
        if !same_range(&range.range, &other.range) {
            return false;
        }
    }
    true
}

/// Whether any two ranges have the same bounds.
fn are_one(ranges: &[Ranged<'_>]) -> bool
    ensures { result ≡ are_one ranges.now }
{
    for range in ranges {
        if !one_with_all(ranges, range) {
            return false;
        }
    }
    true
}

/// The range that starts where others end.
fn next_at<'r, 'v>(ranges: &'r [Ranged<'v>], end: &[u8]) -> Option<&'r Ranged<'v>>
    ensures { option_copied result ≡ next_at ranges.now end.now }
{
    for range in ranges {
        if end == range.range.start() {
            return Some(range);
        }
    }
    None
}

/// Whether ranges lie end to end over all ids, in some order.
#[tactic(auto, using(crate::proofs::RangeLaws::leads_more))]
fn are_tiles(ranges: &[Ranged<'_>]) -> bool
    ensures { result ≡ are_tiles ranges.now }
{
    let mut covered: Option<&[u8]> = Some(&[]);
    for _step in ranges {
        let Some(end) = covered else {
            return false;
        };
        let Some(next) = next_at(ranges, end) else {
            return false;
        };
        covered = next.range.end();
    }
    covered.is_none()
}

/// Whether each stream passes a range of the table, and these ought to tile and don't.
fn is_untiled(alloc: Global, table: &Value, streams: &[Value]) -> Result<bool, AllocError>
    ensures { IfOk result (λ untiled. untiled ≡ is_untiled (view table.now) (map view streams.now)) }
{
    let ranges = ranges_of(alloc, table, streams)?;
    Ok(
        ranges.len() == streams.len()
            && are_alike(&ranges)
            && !are_one(&ranges)
            && !are_tiles(&ranges),
    )
}

/// Puts the tables of which the streams' ranges don't tile behind the notes.
pub(crate) fn push_untiled(
    alloc: Global,
    streams: &[Value],
    tables: &[Value],
    notes: &mut Vec<Note>,
) -> Result<(), AllocError>
    ensures { OnOk result (notes.new.items ≡ notes.old.items ++ untiled_in (map view streams.now) 0 (map view tables.now)) }
{
    for i in 0..tables.len() {
        if is_untiled(alloc, &tables[i], streams)? {
            let place = item_place(alloc, "tables", i)?;
            notes.push(Note::new(alloc, place, Flaw::Untiled, "")?)?;
        }
    }
    Ok(())
}
