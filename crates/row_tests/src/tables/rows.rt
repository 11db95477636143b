//! Rows of planned tables, and a table with the columns `v` (VARCHAR) and `id` (INT64) and the key (`id`, `v`).

use filter_rule::Plan;
use pk_copy::*;
use row_view::RowView;
use std::sync::Arc;

pub const WORKFLOW: &[u8] =
    br#"{"keyspace":"ks","tables":[{"name":"t","columns":[["v","VARCHAR"],["id","INT64"]],"key":["id","v"]}],"streams":[{"shard":"-80","filter":{"rules":[{"match":"/.*","filter":""}]}}]}"#;

/// The key of a row of table `t` of the first plan, or its fault; nothing where this is no row of it.
pub fn key<'b>(
    plans: &[Arc<Plan>],
    t: u8,
    bytes: &'b [u8],
) -> Option<Result<KeyView<'b>, KeyFault>> {
    let plan = plans.first()?;
    match RowView::read(bytes) {
        Ok(row) if usize::from(t) < plan.tables().len() && row.len() == plan.columns(t).len() => {
            Some(key_of(plan, t, &row))
        }
        _ => None,
    }
}
