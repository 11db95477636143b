//! Two dumps compared table by table, and the first keys at which they differ.

use crate::dumps::two_tables::plan;
use dump::{DumpRows, read_dump};
use filter_rule::Plan;
use printing::{Gathered, Out, Writer};
use std::alloc::Global;
use vdiff::{add_differences, add_tables, table_reports};

/// Rows 1 `a`, 2 NULL and 3 `c` of `t`, and 1 of `u`.
const SOURCE: &[u8] = b"table t\nx31\tx61\nx32\tN\nx33\tx63\ntable u\nx31\n";

/// Rows 1 `a`, 2 with the empty value and 4 `d` of `t`, and 1 and 2 of `u`.
const TARGET: &[u8] = b"table t\nx31\tx61\nx32\tx\nx34\tx64\ntable u\nx31\nx32\n";

/// What is counted of each table.
const TABLES: &str = "\
table t processed 4 matching 1 mismatched 1 extra source 1 extra target 1
table u processed 2 matching 1 mismatched 0 extra source 0 extra target 1
";

/// The same of one dump.
const SAME: &str = "\
table t processed 3 matching 3 mismatched 0 extra source 0 extra target 0
table u processed 1 matching 1 mismatched 0 extra source 0 extra target 0
";

/// The differences, of which the first two are two, by rising key.
const FIRST_TWO: &str = "\
differs table t key x32
source\tx32\tN
target\tx32\tx
differs table t key x33
source\tx33\tx63
";

/// And those behind them.
const OTHERS: &str = "\
differs table t key x34
target\tx34\tx64
differs table u key x32
target\tx32
";

/// The counts of the tables, and so many first differences, as text.
fn print<O: Out>(
    alloc: Global,
    out: &mut O,
    plan: &Plan,
    source: &DumpRows,
    target: &DumpRows,
    count: u32,
) -> bool {
    let mut text = Gathered::new();
    let Ok(reports) = table_reports(alloc, plan, source, target) else {
        return false;
    };
    add_tables(out, &mut text, &reports).is_ok()
        && add_differences(out, &mut text, plan.tables(), source, target, count).is_ok()
        && text.finish(out).is_ok()
}

/// This is printed of two dumps and so many first differences.
fn prints(alloc: Global, [source, target]: [&[u8]; 2], count: u32, wanted: [&str; 3]) -> bool {
    let Some(plan) = plan(alloc) else {
        return false;
    };
    let Ok(source) = read_dump(alloc, &plan, source) else {
        return false;
    };
    let Ok(target) = read_dump(alloc, &plan, target) else {
        return false;
    };
    let mut got = Vec::new(alloc);
    let printed = print(
        alloc,
        &mut Writer::new(&mut got),
        &plan,
        &source,
        &target,
        count,
    );
    printed && is_joined(&got, wanted)
}

/// These are the parts, one behind the other.
fn is_joined(got: &[u8], [one, two, three]: [&str; 3]) -> bool {
    let Some(rest) = got.strip_prefix(one.as_bytes()) else {
        return false;
    };
    match rest.strip_prefix(two.as_bytes()) {
        Some(rest) => rest == three.as_bytes(),
        None => false,
    }
}

/// Each table's counts in the plan's order, and the differences by rising key, as many as are asked for: with the rows
/// that stand there, NULL and the empty value told apart.
#[test]
fn tables_and_first_differences(rt: HostRuntime) {
    let dumps = [SOURCE, TARGET];
    assert!(rt; prints(rt.alloc(), dumps, 0, [TABLES, "", ""]));
    assert!(rt; prints(rt.alloc(), dumps, 2, [TABLES, FIRST_TWO, ""]));
    assert!(rt; prints(rt.alloc(), dumps, 1000, [TABLES, FIRST_TWO, OTHERS]));
    assert!(rt; prints(rt.alloc(), [SOURCE, SOURCE], 5, [SAME, "", ""]));
}
