//! Two dumps compared.

use crate::dumps::two_tables::plan;
use dump::{DumpRows, read_dump};
use filter_rule::Plan;
use std::alloc::Global;
use vdiff::{Report, compare, first_difference};

/// Rows 1 `a`, 2 `b` and 3 `c` of `t`.
const SOURCE: &[u8] = b"table t\nx31\tx61\nx32\tx62\nx33\tx63\ntable u\n";

/// Rows 1 `a`, 2 `x` and 4 `d` of `t`.
const TARGET: &[u8] = b"table t\nx31\tx61\nx32\tx78\nx34\tx64\ntable u\n";

/// No row.
const NONE: &[u8] = b"table t\ntable u\n";

/// Row 1 of `t`, with the empty value.
const ONE: &[u8] = b"table t\nx31\tx\ntable u\n";

/// Two dumps, and one of a row with the least key at which they differ, or of none where they don't.
const DUMPS: [[&[u8]; 3]; 8] = [
    // Four keys: one is the same, one differs, one is in each alone.
    [SOURCE, TARGET, b"table t\nx32\tx\ntable u\n"],
    // A dump equals itself.
    [SOURCE, SOURCE, NONE],
    [NONE, NONE, NONE],
    // All keys are in one alone.
    [SOURCE, NONE, ONE],
    [NONE, SOURCE, ONE],
    // NULL and the empty value are told apart.
    [b"table t\nx31\tN\ntable u\n", ONE, ONE],
    // The same number with zeros before it is the same key, and another text.
    [
        b"table t\nx37\tx61\ntable u\nx32\n",
        b"table t\nx303037\tx61\ntable u\nx32\n",
        b"table t\nx37\tx\ntable u\n",
    ],
    // Tables come before keys.
    [
        b"table t\nx39\tx61\ntable u\nx31\n",
        b"table t\ntable u\nx31\nx32\n",
        b"table t\nx39\tx\ntable u\n",
    ],
];

/// What is counted of each two: keys processed, matching, mismatched, in the first alone and in the second alone.
const COUNTS: [[usize; 5]; 8] = [
    [4, 1, 1, 1, 1],
    [3, 3, 0, 0, 0],
    [0, 0, 0, 0, 0],
    [3, 0, 0, 3, 0],
    [3, 0, 0, 0, 3],
    [1, 0, 1, 0, 0],
    [2, 1, 1, 0, 0],
    [3, 1, 0, 1, 1],
];

/// The counts of a report, in that order.
fn counts_of(report: &Report) -> [usize; 5] {
    [
        report.processed,
        report.matching,
        report.mismatched,
        report.extra_source,
        report.extra_target,
    ]
}

/// The two differ first at the key of the only row of these, or nowhere where there is none.
fn differ_first_at(source: &DumpRows, target: &DumpRows, only: &DumpRows) -> bool {
    match (first_difference(source, target), only.as_slice()) {
        (Some(key), [row]) => *key == row.0,
        (None, []) => true,
        _ => false,
    }
}

/// The rows of the first dump, compared with those of the second, give these counts, and differ first at the
/// key of the third's only row.
fn is_compared(
    alloc: Global,
    plan: &Plan,
    [source, target, only]: &[&[u8]; 3],
    counts: &[usize; 5],
) -> bool {
    let Ok(source) = read_dump(alloc, plan, source) else {
        return false;
    };
    let Ok(target) = read_dump(alloc, plan, target) else {
        return false;
    };
    if counts_of(&compare(&source, &target)) != *counts {
        return false;
    }
    match read_dump(alloc, plan, only) {
        Ok(only) => differ_first_at(&source, &target, &only),
        Err(_) => false,
    }
}

/// All these dumps are compared so.
fn are_compared(alloc: Global) -> bool {
    let Some(plan) = plan(alloc) else {
        return false;
    };
    for (dumps, counts) in DUMPS.iter().zip(&COUNTS) {
        if !is_compared(alloc, &plan, dumps, counts) {
            return false;
        }
    }
    true
}

/// Two sets of rows against each other: nothing but counts where they are the same, else the least key at
/// which they differ, whichever has it.
#[test]
fn counts_and_the_first_difference(rt: HostRuntime) {
    assert!(rt; are_compared(rt.alloc()));
}
