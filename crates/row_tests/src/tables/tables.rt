//! Maps as they grow and shrink: keys that are slices, scans, copies, pages, what is replaced, and two maps as one.

use crate::tables::touching::{Group, are_keys, follow, holds, leaves, touch};
use std::alloc::{AllocError, Global};
use std::sync::Arc;
use std::test::*;
use target_tables::*;

/// Two rows of stream 0, a row of stream 1 at the key of one of them, and that the other is taken away.
const SLICES: &[Group<&[u8], &[u8]>] = &[
    Group {
        stream: 0,
        touches: &[(b"b", Some(b"1")), (b"a", Some(b"2"))],
        refused: None,
        left: &[(b"a", 0, b"2"), (b"b", 0, b"1")],
    },
    Group {
        stream: 1,
        touches: &[(b"a", Some(b"3"))],
        refused: Some((b"a", 0)),
        left: &[(b"a", 0, b"2"), (b"b", 0, b"1")],
    },
    Group {
        stream: 0,
        touches: &[(b"b", None)],
        refused: None,
        left: &[(b"a", 0, b"2")],
    },
];

/// The keys and the rows are slices, equal where their bytes are.
#[test]
fn stage_beside_foreign_row_with_borrowed_keys(rt: HostRuntime) -> Result<(), Fail> {
    assert!(rt; follow(rt.alloc(), SLICES)?);
    Ok(())
}

const FILLED: Group<&[u8], &[u8]> = Group {
    stream: 0,
    touches: &[
        (b"k3", Some(b"k1")),
        (b"k1", Some(b"k3")),
        (b"k2", Some(b"k2")),
    ],
    refused: None,
    left: &[(b"k1", 0, b"k3"), (b"k2", 0, b"k2"), (b"k3", 0, b"k1")],
};

const FILLED_AGAIN: Group<&[u8], &[u8]> = Group {
    stream: 0,
    touches: &[(b"k2", None), (b"k1", Some(b"k2"))],
    refused: None,
    left: &[(b"k1", 0, b"k2")],
};

/// Whether a map of slices has what it was filled with, and these keys past the first.
fn is_filled(
    alloc: Global,
    image: &mut Tables<&'static [u8], &'static [u8]>,
    group: &Group<&'static [u8], &'static [u8]>,
    past: &[&'static [u8]],
) -> Result<bool, AllocError> {
    let left = leaves(alloc, image, group)?;
    Ok(left && are_keys(image.scan_past(&b"k1".as_slice()), past))
}

/// Whether a map of slices, emptied and filled again, has what it was filled with each time.
fn is_filled_again(alloc: Global) -> Result<bool, AllocError> {
    let mut image = Tables::new(alloc);
    let filled = is_filled(alloc, &mut image, &FILLED, &[b"k2", b"k3"])?;
    image.clear();
    let emptied = image.len() == 0;
    Ok(filled && emptied && is_filled(alloc, &mut image, &FILLED_AGAIN, &[])?)
}

/// The keys and the rows are slices of what is read: an image is emptied and filled again.
#[test]
fn a_cleared_map_of_slices_is_filled_again(rt: HostRuntime) -> Result<(), Fail> {
    assert!(rt; is_filled_again(rt.alloc())?);
    Ok(())
}

/// Stream 0 has rows at 2 and 4.
fn two_rows(alloc: Global) -> Result<Tables<u64, u32>, AllocError> {
    let mut tables = Tables::new(alloc);
    touch(alloc, &mut tables, 0, &[(4, Some(40)), (2, Some(20))])?;
    Ok(tables)
}

/// Whether scans past a key leave it out.
fn leave_out(tables: &Tables<u64, u32>) -> bool {
    are_keys(tables.scan_past(&2), &[4])
        && are_keys(tables.scan_past(&1), &[2, 4])
        && are_keys(tables.scan_past(&4), &[])
}

#[test]
fn a_scan_past_a_key_leaves_it_out(rt: HostRuntime) -> Result<(), Fail> {
    assert!(rt; leave_out(&two_rows(rt.alloc())?));
    Ok(())
}

/// Whether a copy has the rows that its original gives up.
fn copy_stays(alloc: Global) -> Result<bool, AllocError> {
    let mut tables = two_rows(alloc)?;
    let copy = tables.try_clone(alloc)?;
    tables.clear();
    Ok(tables.is_empty() && holds(&tables, &[]) && holds(&copy, &[(2, 0, 20), (4, 0, 40)]))
}

#[test]
fn a_copy_stands_by_itself(rt: HostRuntime) -> Result<(), Fail> {
    assert!(rt; copy_stays(rt.alloc())?);
    Ok(())
}

/// Whether the keys from one on are those of even keys from 2 to 80.
fn scans_even_keys(alloc: Global) -> Result<bool, AllocError> {
    let mut tables: Tables<u64, u32> = Tables::new(alloc);
    for key in 0..40 {
        touch(alloc, &mut tables, 3, &[(80 - 2 * key, Some(0))])?;
    }
    Ok(are_keys(tables.scan(&76), &[76, 78, 80]) && are_keys(tables.scan(&77), &[78, 80]))
}

#[test]
fn scans_from_a_key_on(rt: HostRuntime) -> Result<(), Fail> {
    assert!(rt; scans_even_keys(rt.alloc())?);
    Ok(())
}

/// Puts a row at key 1, or takes it away. Whether the row is held twice until what was replaced is dropped, and
/// then so often.
fn is_freed_late(
    alloc: Global,
    tables: &mut Tables<u64, Arc<u32>>,
    row: &Arc<u32>,
    put: Option<Arc<u32>>,
    then: usize,
) -> Result<bool, AllocError> {
    match tables.apply(alloc, 0, vec![in alloc; (1, put)]?) {
        Err(_) => Err(AllocError),
        Ok(freed) => {
            let held = Arc::strong_count(row);
            drop(freed);
            Ok(held == 2 && Arc::strong_count(row) == then)
        }
    }
}

/// Whether a row that is taken away is there until whoever took it away drops it.
fn is_freed_by_the_caller(alloc: Global) -> Result<bool, AllocError> {
    let row = Arc::new(alloc, 7)?;
    let mut tables = Tables::new(alloc);
    let put = is_freed_late(alloc, &mut tables, &row, Some(Arc::clone(&row)?), 2)?;
    let taken = is_freed_late(alloc, &mut tables, &row, None, 1)?;
    Ok(put && taken && tables.is_empty())
}

#[test]
fn what_is_replaced_is_freed_by_the_caller(rt: HostRuntime) -> Result<(), Fail> {
    assert!(rt; is_freed_by_the_caller(rt.alloc())?);
    Ok(())
}

/// Touches of a stream at so many keys from the first on, one key at a time, with a row or with nothing.
struct KeyRun {
    stream: u8,
    first: u64,
    count: u64,
    row: Option<u32>,
}

/// Makes the touches.
fn touch_keys(
    alloc: Global,
    tables: &mut Tables<u64, u32>,
    run: &KeyRun,
) -> Result<(), AllocError> {
    for key in run.first..run.first.saturating_add(run.count) {
        touch(alloc, tables, run.stream, &[(key, run.row)])?;
    }
    Ok(())
}

/// Whether each page has so many entries.
fn has_pages(tables: &Tables<u64, u32>, lens: &[usize]) -> bool {
    let mut same = tables.pages() == lens.len();
    for (i, len) in lens.iter().enumerate() {
        same = same && i < tables.pages() && tables.page_len(i) == *len;
    }
    same
}

/// The first 128 keys fill a page, and the next begins one. A key before a full page's others splits it in halves.
/// A page leaves with its last entry.
const PAGES: &[(KeyRun, &[usize])] = &[
    (
        KeyRun {
            stream: 0,
            first: 1,
            count: 128,
            row: Some(0),
        },
        &[128],
    ),
    (
        KeyRun {
            stream: 0,
            first: 129,
            count: 1,
            row: Some(0),
        },
        &[128, 1],
    ),
    (
        KeyRun {
            stream: 0,
            first: 0,
            count: 1,
            row: Some(0),
        },
        &[65, 64, 1],
    ),
    (
        KeyRun {
            stream: 0,
            first: 0,
            count: 65,
            row: None,
        },
        &[64, 1],
    ),
    (
        KeyRun {
            stream: 0,
            first: 65,
            count: 65,
            row: None,
        },
        &[],
    ),
];

/// Groups of keys that rise before others: the page that both share is split between them, and those that rise leave
/// full pages behind.
const PAGES_BETWEEN: &[(KeyRun, &[usize])] = &[
    (
        KeyRun {
            stream: 0,
            first: 1001,
            count: 28,
            row: Some(0),
        },
        &[28],
    ),
    (
        KeyRun {
            stream: 0,
            first: 1,
            count: 100,
            row: Some(0),
        },
        &[128],
    ),
    (
        KeyRun {
            stream: 0,
            first: 101,
            count: 100,
            row: Some(0),
        },
        &[64, 128, 8, 28],
    ),
];

/// Makes the touches as one group.
fn touch_together(
    alloc: Global,
    tables: &mut Tables<u64, u32>,
    run: &KeyRun,
) -> Result<(), AllocError> {
    let mut touches = Vec::new(alloc);
    for key in run.first..run.first.saturating_add(run.count) {
        touches.push((key, run.row))?;
    }
    match tables.apply(alloc, run.stream, touches) {
        Ok(_) => Ok(()),
        Err(_) => Err(AllocError),
    }
}

/// Whether each run, a key a group, leaves pages of these lengths.
fn split_and_leave(alloc: Global) -> Result<bool, AllocError> {
    let mut tables = Tables::new(alloc);
    for (keys, lens) in PAGES {
        touch_keys(alloc, &mut tables, keys)?;
        if !has_pages(&tables, lens) {
            return Ok(false);
        }
    }
    Ok(true)
}

#[test]
fn pages_split_and_leave(rt: HostRuntime) -> Result<(), Fail> {
    assert!(rt; split_and_leave(rt.alloc())?);
    Ok(())
}

/// Whether each run, all of it a group, leaves pages of these lengths.
fn fill_between(alloc: Global) -> Result<bool, AllocError> {
    let mut tables = Tables::new(alloc);
    for (keys, lens) in PAGES_BETWEEN {
        touch_together(alloc, &mut tables, keys)?;
        if !has_pages(&tables, lens) {
            return Ok(false);
        }
    }
    Ok(true)
}

#[test]
fn rising_keys_fill_pages_before_others(rt: HostRuntime) -> Result<(), Fail> {
    assert!(rt; fill_between(rt.alloc())?);
    Ok(())
}

/// Stream 0 has 200 keys from 1 on, and stream 1 has 3 from 500 on.
const ONE: &[KeyRun] = &[
    KeyRun {
        stream: 0,
        first: 1,
        count: 200,
        row: Some(7),
    },
    KeyRun {
        stream: 1,
        first: 500,
        count: 3,
        row: Some(7),
    },
];

/// Stream 0 has 5 keys from 2 on, and stream 1 has 150 from 190 on.
const OTHER: &[KeyRun] = &[
    KeyRun {
        stream: 0,
        first: 2,
        count: 5,
        row: Some(7),
    },
    KeyRun {
        stream: 1,
        first: 190,
        count: 150,
        row: Some(7),
    },
];

/// A map of the rows that runs put.
fn map_of(alloc: Global, runs: &[KeyRun]) -> Result<Tables<u64, u32>, AllocError> {
    let mut tables = Tables::new(alloc);
    for keys in runs {
        touch_keys(alloc, &mut tables, keys)?;
    }
    Ok(tables)
}

/// How many keys have a row of stream 0 in the one map and of stream 1 in the other, of the first 1000 that both have.
fn met_by_0_and_1(one: &Tables<u64, u32>, other: &Tables<u64, u32>) -> u64 {
    let mut keys = one.common(other);
    let mut count = 0u64;
    for _ in 0..1000 {
        if let Some((_, 0, 1)) = keys.next_key() {
            count = count.saturating_add(1);
        }
    }
    count
}

/// Whether a map has the rows of stream 0 of the one map and those of stream 1 of the other.
fn is_merged(
    alloc: Global,
    one: Tables<u64, u32>,
    other: Tables<u64, u32>,
) -> Result<bool, AllocError> {
    let met = met_by_0_and_1(&one, &other);
    match merge(alloc, one, other, &[MergeSide::First, MergeSide::Second]) {
        Err(_) => Err(AllocError),
        Ok(both) => Ok(
            met == 11 && both.get(&339).is_some() && both.get(&500).is_none() && both.len() == 339,
        ),
    }
}

/// Stream 0's rows come from the first map and stream 1's from the second, over several pages.
fn become_one(alloc: Global) -> Result<bool, AllocError> {
    let one = map_of(alloc, ONE)?;
    let other = map_of(alloc, OTHER)?;
    is_merged(alloc, one, other)
}

#[test]
fn two_maps_become_one(rt: HostRuntime) -> Result<(), Fail> {
    assert!(rt; become_one(rt.alloc())?);
    Ok(())
}
