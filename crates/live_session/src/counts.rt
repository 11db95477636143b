//! How many rows each stream has in each table.

ghost use Rattle.std.specs.Prelude.{◌≡◌, ◌≤◌, ◌<◌, ◌+◌, ◌^◌, ℕ, IfOk, get_or, length, map, slice_set};
ghost use Rattle.pk_copy.specs.KeyOrder.{key_cmp};
ghost use Rattle.target_tables.specs.Rising.{IsRising};
ghost use Rattle.live_json.specs.Private.Parts.{counts_value};
ghost use Rattle.live_session.specs.Counts.{AreAllCounts, AreCounts, HaveCounted};

use crate::page::first_key;
use apply_core::Board;
use filter_rule::Table;
use live_json::CountsTold;
use pk_copy::Key;
use row_view::RowBuf;
use std::alloc::{AllocError, Global};
use target_tables::Scan;

/// One row more of a stream.
fn count_one(counts: &mut [u64], stream: u8)
    requires { get_or counts.old stream 0 + 1 < 2 ^ 64 }
    ensures { counts.new ≡ slice_set counts.old stream (get_or counts.old stream 0 + 1) }
{
    let s = usize::from(stream);
    if s < counts.len() {
        counts[s] += 1;
    }
}

/// Adds how many rows of a table each stream has among entries. Stops at the first key of a later table.
fn count_from(mut entries: Scan<'_, Key, RowBuf>, t: u8, counts: &mut [u64])
    requires rising { IsRising key_cmp entries }
    requires few { (s : ℕ) → get_or counts.old s 0 + length entries < 2 ^ 64 }
    ensures { HaveCounted entries.entry t counts.old counts.new }
{
    while let Some((key, stream, _)) = entries.next() {
        if key.table() > t {
            return;
        }
        if key.table() == t {
            count_one(counts, stream);
        }
    }
}

/// How many rows each stream has in table `t`.
fn counts_of(alloc: Global, board: &Board<'_>, t: u8) -> Result<Vec<u64>, AllocError>
    ensures { IfOk result (λ counts. AreCounts board.now.rows t (length board.now.streams) counts.items) }
{
    let first = first_key(alloc, t)?;
    let mut counts = vec![in alloc; 0u64; board.len()]?;
    // (for the contract: that they can be counted)
    board.target().len();
    count_from(board.target().scan(&first), t, &mut counts);
    Ok(counts)
}

/// The same of each table, by its name.
pub(crate) fn all_counts<'b>(
    alloc: Global,
    board: &Board<'_>,
    tables: &'b [Table],
) -> Result<Vec<CountsTold<'b>>, AllocError>
    requires { length tables.now ≤ 64 }
    ensures { IfOk result (λ all. AreAllCounts board.now.rows tables.entry.now (length board.now.streams) (map counts_value all.items)) }
{
    let mut all = Vec::new(alloc);
    for t in 0..tables.len() {
        let rows = counts_of(alloc, board, t as u8)?;
        all.push(CountsTold {
            table: tables[t].name(),
            rows,
        })?;
    }
    Ok(all)
}
