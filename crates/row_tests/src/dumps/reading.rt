//! Dumps that are read, and texts that are none.

use crate::dumps::two_tables::plan;
use dump::{DumpFault, read_dump};
use filter_rule::Plan;
use std::alloc::Global;

/// Texts whose first line cannot stand.
const FIRST: [&[u8]; 4] = [
    // Nothing.
    b"",
    // A last line without its end.
    b"table t",
    // CR before LF.
    b"table t\r\ntable u\r\n",
    // Tables in another order.
    b"table u\ntable t\n",
];

/// Texts whose second line is the first that cannot stand, or is missing.
const SECOND: [&[u8]; 10] = [
    b"table t\n",
    // A last line without its end.
    b"table t\nx31\tx61",
    // A line of another width.
    b"table t\nx31\ntable u\n",
    b"table t\nx31\tx61\tx62\ntable u\n",
    b"table t\n\ntable u\n",
    // Cells: digits of upper case, one digit, another letter, a blank for the tab.
    b"table t\nx31\tx6A\ntable u\n",
    b"table t\nx31\tx6\ntable u\n",
    b"table t\nX31\tx61\ntable u\n",
    b"table t\nx31 x61\ntable u\n",
    // A key that is NULL.
    b"table t\nN\tx61\ntable u\n",
];

/// Texts whose third line is the first that cannot stand, or is missing.
const THIRD: [&[u8]; 6] = [
    b"table t\nx31\tx61\n",
    // A last line without its end.
    b"table t\ntable u\nx31",
    // Keys that don't rise: equal as texts, equal as numbers, and falling.
    b"table t\nx31\tx61\nx31\tx61\ntable u\n",
    b"table t\nx37\tx61\nx303037\tx62\ntable u\n",
    b"table t\nx32\tx61\nx31\tx61\ntable u\n",
    // A line behind the last.
    b"table t\ntable u\ntable u\n",
];

/// The text is refused by 121, and this line is named.
fn is_refused_at(alloc: Global, plan: &Plan, text: &[u8], wanted: usize) -> bool {
    let Err(fault) = read_dump(alloc, plan, text) else {
        return false;
    };
    fault == DumpFault::BadDump { line: wanted } && fault.number() == 121
}

/// All these texts are refused at this line.
fn are_refused_at(alloc: Global, texts: &[&[u8]], wanted: usize) -> bool {
    let Some(plan) = plan(alloc) else {
        return false;
    };
    for text in texts {
        if !is_refused_at(alloc, &plan, text, wanted) {
            return false;
        }
    }
    true
}

#[test]
fn first_line_that_cannot_stand(rt: HostRuntime) {
    assert!(rt; are_refused_at(rt.alloc(), &FIRST, 1));
    assert!(rt; are_refused_at(rt.alloc(), &SECOND, 2));
    assert!(rt; are_refused_at(rt.alloc(), &THIRD, 3));
}
