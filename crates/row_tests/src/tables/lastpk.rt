//! A key as a row and back.

use crate::tables::rows::WORKFLOW;
use filter_rule::Plan;
use pk_copy::*;
use row_view::RowView;
use std::alloc::{AllocError, Global};
use std::sync::Arc;
use std::test::Fail;

/// The key that a row of just the key columns is, or its fault; nothing where this is no such row.
fn last_key<'b>(plans: &[Arc<Plan>], row: &RowView<'b>) -> Option<Result<KeyView<'b>, KeyFault>> {
    let plan = plans.first()?;
    if plan.tables().is_empty() || row.len() != plan.key_columns(0).len() {
        return None;
    }
    Some(key_of_lastpk(plan, 0, row))
}

/// The number of the fault of bytes that are no key.
fn fault_of(plans: &[Arc<Plan>], bytes: &[u8]) -> Option<u8> {
    let row = RowView::read(bytes).ok()?;
    match last_key(plans, &row) {
        Some(Err(fault)) => Some(fault.number()),
        _ => None,
    }
}

/// Whether the row has the columns of a message, and is this key.
fn is_row_of(plans: &[Arc<Plan>], row: &RowView<'_>, message: &[u8], key: &KeyView<'_>) -> bool {
    let Ok(wanted) = RowView::read(message) else {
        return false;
    };
    match last_key(plans, row) {
        Some(Ok(own)) => own == *key && row.same(&wanted),
        _ => false,
    }
}

/// Whether a message's key, written as a row, has the columns of another message and is the same key again.
fn is_written(
    alloc: Global,
    plans: &[Arc<Plan>],
    message: &[u8],
    wanted: &[u8],
) -> Result<bool, AllocError> {
    let Ok(row) = RowView::read(message) else {
        return Ok(false);
    };
    let Some(Ok(key)) = last_key(plans, &row) else {
        return Ok(false);
    };
    let written = lastpk_of(alloc, &key)?;
    Ok(is_row_of(plans, &written.view(), wanted, &key))
}

/// The key of the number 007 and the text 8.
#[test]
fn lastpk_in_key_order(rt: HostRuntime) -> Result<(), Fail> {
    let plans = Plan::read_all(rt.alloc(), WORKFLOW)?;
    let wanted = b"\x0a\x02\x02\x02\x12\x0278";
    assert!(rt; is_written(rt.alloc(), &plans, b"\x0a\x02\x06\x02\x12\x040078", wanted)?);
    Ok(())
}

#[test]
fn lastpk_that_is_no_key(rt: HostRuntime) -> Result<(), Fail> {
    let plans = Plan::read_all(rt.alloc(), WORKFLOW)?;
    assert!(rt;
        fault_of(&plans, b"\x0a\x02\x02\x01\x12\x01x") == Some(61)
            && fault_of(&plans, b"\x0a\x02\x02\x02\x12\x02xy") == Some(62)
    );
    Ok(())
}

/// A workflow of a table whose key is its one column.
const ONE: &[u8] =
    br#"{"keyspace":"ks","tables":[{"name":"t","columns":[["b","VARBINARY"]],"key":["b"]}],"streams":[{"shard":"-80","filter":{"rules":[{"match":"/.*","filter":""}]}}]}"#;

/// The longest key that a row can have, of 16,777,206 bytes: its row has 2^24 as it is read, and the key as a row
/// has as many.
#[test]
fn lastpk_of_the_longest_key(rt: HostRuntime) -> Result<(), Fail> {
    let plans = Plan::read_all(rt.alloc(), ONE)?;
    let mut row = Vec::from_slice(rt.alloc(), b"\x08\xec\xff\xff\x0f\x12\xf6\xff\xff\x07")?;
    row.resize(1 << 24, b'x')?;
    assert!(rt; is_written(rt.alloc(), &plans, &row, &row)?);
    Ok(())
}
