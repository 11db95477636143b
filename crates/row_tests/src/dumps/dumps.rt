//! Rows by key and their dump.

ghost use Rattle.std.specs.Prelude.{Some};

use crate::dumps::two_tables::plan;
use dump::*;
use filter_rule::Plan;
use pk_copy::{Key, KeyView, key_of};
use printing::*;
use row_view::{RowBuf, RowView};
use std::alloc::Global;
use std::sync::Arc;
use vdiff::*;

/// The dump of `some_rows`.
const DUMP: &[u8] = b"table t\nx31\tx61\nx32\tN\nx3131\tx\ntable u\nx39\n";

/// The key of a row of a table, if it has one.
fn key<'b>(plan: &Plan, t: u8, row: &RowView<'b>) -> Option<KeyView<'b>> {
    if usize::from(t) >= plan.tables().len() || row.len() != plan.columns(t).len() {
        return None;
    }
    key_of(plan, t, row).ok()
}

/// Puts a row with its key behind the others.
fn push_row(alloc: Global, rows: &mut DumpRows, key: &KeyView<'_>, row: &RowView<'_>) -> bool {
    let Ok(key) = Key::from_view(alloc, key) else {
        return false;
    };
    let Ok(row) = RowBuf::from_view(alloc, row) else {
        return false;
    };
    rows.is_behind_all(&key) && rows.push(key, row).is_ok()
}

/// Puts a row of a table behind the others.
fn push(alloc: Global, plan: &Plan, rows: &mut DumpRows, t: u8, bytes: &[u8]) -> bool {
    let Ok(row) = RowView::read(bytes) else {
        return false;
    };
    match key(plan, t, &row) {
        Some(key) => push_row(alloc, rows, &key, &row),
        None => false,
    }
}

/// Rows 1 `a`, 2 NULL and 11 with the empty value of `t`, and 9 of `u`.
fn some_rows(alloc: Global, plan: &Plan) -> Option<DumpRows> {
    let mut rows = DumpRows::new(alloc);
    if push(alloc, plan, &mut rows, 0, b"\x0a\x02\x02\x02\x12\x021a")
        && push(alloc, plan, &mut rows, 0, b"\x0a\x02\x02\x01\x12\x012")
        && push(alloc, plan, &mut rows, 0, b"\x0a\x02\x04\x00\x12\x0211")
        && push(alloc, plan, &mut rows, 1, b"\x0a\x01\x02\x12\x019")
    {
        return Some(rows);
    }
    None
}

/// The plan of two tables, and these rows of it.
fn given(alloc: Global) -> Option<(Arc<Plan>, DumpRows)> {
    let plan = plan(alloc)?;
    let rows = some_rows(alloc, &plan)?;
    Some((plan, rows))
}

/// A writer that takes at most so many bytes a call, and fails once it has taken so many in all.
#[derive(Drop)]
struct Short {
    got: Vec<u8>,
    left: usize,
    most: usize,
    failures: u64,
}

impl Short {
    fn new(alloc: Global, left: usize, most: usize) -> Short {
        Short {
            got: Vec::new(alloc),
            left,
            most,
            failures: 0,
        }
    }
}

impl Out for Short {
    ghost written = { λ w. record { bytes = Some w.got.items; failures = w.failures } };

    fn write(&mut self, piece: &[u8]) -> Result<usize, OutFailed> {
        let count = piece.len().min(self.left).min(self.most);
        if (count == 0 && !piece.is_empty())
            || self.got.extend_from_slice(&piece[..count]).is_err()
        {
            self.failures = self.failures.wrapping_add(1);
            return Err(OutFailed);
        }
        self.left -= count;
        Ok(count)
    }
}

/// How many columns the row has that stands at the key of this row of `t`.
fn columns_at(plan: &Plan, rows: &DumpRows, bytes: &[u8]) -> Option<usize> {
    let Ok(row) = RowView::read(bytes) else {
        return None;
    };
    match key(plan, 0, &row) {
        Some(key) => match rows.get(&key) {
            Some(row) => Some(row.view().len()),
            None => None,
        },
        None => None,
    }
}

/// No row's key is behind all.
fn has_no_key_behind(rows: &DumpRows) -> bool {
    for pair in rows.as_slice() {
        if rows.is_behind_all(&pair.0) {
            return false;
        }
    }
    true
}

/// A copy of the rows has them all, each at its key, and room for more.
fn is_copied(alloc: Global, plan: &Plan, rows: &DumpRows) -> bool {
    let Ok(mut copy) = rows.try_clone(alloc) else {
        return false;
    };
    copy.reserve(1).is_ok()
        && copy.len() == 4
        && !copy.is_empty()
        && columns_at(plan, &copy, b"\x0a\x02\x02\x02\x12\x022b") == Some(2)
        && columns_at(plan, &copy, b"\x0a\x02\x02\x02\x12\x023b").is_none()
        && has_no_key_behind(&copy)
}

/// These rows are copied.
fn are_copied(alloc: Global) -> bool {
    match given(alloc) {
        Some((plan, rows)) => is_copied(alloc, &plan, &rows),
        None => false,
    }
}

#[test]
fn rows_by_rising_key(rt: HostRuntime) {
    assert!(rt; are_copied(rt.alloc()) && DumpRows::new(rt.alloc()).is_empty());
}

/// The dump of the rows is this, into a writer that takes so many bytes in all and a call.
fn is_dump(alloc: Global, plan: &Plan, rows: &DumpRows, most: [usize; 2], wanted: &[u8]) -> bool {
    let mut out = Short::new(alloc, most[0], most[1]);
    write_dump(&mut out, plan, rows).is_ok() && out.got.as_slice() == wanted
}

/// The dump of these rows and that of none, at once; and of these rows byte by byte.
fn are_dumped(alloc: Global) -> bool {
    match given(alloc) {
        Some((plan, rows)) => {
            is_dump(alloc, &plan, &rows, [1000, 1000], DUMP)
                && is_dump(alloc, &plan, &rows, [DUMP.len(), 1], DUMP)
                && is_dump(
                    alloc,
                    &plan,
                    &DumpRows::new(alloc),
                    [1000, 1000],
                    b"table t\ntable u\n",
                )
        }
        None => false,
    }
}

#[test]
fn dump_of_two_tables(rt: HostRuntime) {
    assert!(rt; are_dumped(rt.alloc()));
}

/// The rows are those of their dump.
fn is_read(alloc: Global, plan: &Plan, rows: &DumpRows) -> bool {
    match read_dump(alloc, plan, DUMP) {
        Ok(read) => {
            first_difference(rows, &read).is_none() && compare(rows, &read).matching == 4
        }
        Err(_) => false,
    }
}

/// A writer that fails after k bytes of their dump has got the first k of them.
fn is_cut_at(alloc: Global, plan: &Plan, rows: &DumpRows, k: usize) -> bool {
    let mut out = Short::new(alloc, k, 7);
    write_dump(&mut out, plan, rows).is_err()
        && out.failures == 1
        && out.got.len() == k
        && DUMP.starts_with(out.got.as_slice())
}

/// A writer may fail anywhere in their dump.
fn is_cut_anywhere(alloc: Global, plan: &Plan, rows: &DumpRows) -> bool {
    for k in 0..DUMP.len() {
        if !is_cut_at(alloc, plan, rows, k) {
            return false;
        }
    }
    true
}

/// A dump is read as the rows that it was written of, and cut where its writer fails.
fn are_read_and_cut(alloc: Global) -> bool {
    match given(alloc) {
        Some((plan, rows)) => {
            is_read(alloc, &plan, &rows) && is_cut_anywhere(alloc, &plan, &rows)
        }
        None => false,
    }
}

#[test]
fn dump_is_read_as_its_rows_and_cut_anywhere(rt: HostRuntime) {
    assert!(rt; are_read_and_cut(rt.alloc()));
}

/// Whether only the digits ab stand here.
fn are_ab(digits: &[u8]) -> bool {
    for pair in digits.chunks(2) {
        if pair != b"ab".as_slice() {
            return false;
        }
    }
    true
}

/// More text than waits at once: pieces of many sizes, and one that is longer than all that waits.
fn is_gathered(alloc: Global) -> bool {
    let mut out = Short::new(alloc, 100_000, 1000);
    let mut text = Gathered::new();
    let long = [0xabu8; 5000];
    if text.put(&mut out, &long).is_err()
        || text.put_hex(&mut out, &long).is_err()
        || out.got.len() >= 15_000
    {
        return false;
    }
    text.finish(&mut out).is_ok() && out.got.len() == 15_000 && are_ab(&out.got[5000..])
}

#[test]
fn gathers_long_texts(rt: HostRuntime) {
    assert!(rt; is_gathered(rt.alloc()));
}

/// A vector as any `io::Write`.
#[test]
fn writer_of_the_library(rt: HostRuntime) {
    let mut out = Writer::new(Vec::<u8>::new(rt.alloc()));
    assert!(rt; put_all(&mut out, DUMP).is_ok());
}
