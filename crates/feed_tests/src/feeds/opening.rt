//! Feeds under the first plan of a workflow.

use filter_rule::Plan;
use row_view::RowView;
use source_feed::{Feed, FeedFault, Prepared};
use std::alloc::Global;
use std::sync::Arc;

/// The table `t` with the key `id`, all of whose rows pass.
pub(crate) const EVERY_ROW: &[u8] =
    br#"{"keyspace":"ks","tables":[{"name":"t","columns":[["id","INT64"],["v","VARCHAR"]],"key":["id"],"vindex":["id","numeric"]}],"streams":[{"shard":"-80","filter":{"rules":[{"match":"/.*","filter":""}]}}]}"#;

/// The feed under the workflow's first plan, or why it is refused; want of memory where that is no workflow.
pub(crate) fn opened<'h>(
    alloc: Global,
    workflow: &[u8],
    feed: &'h [u8],
) -> Result<Feed<'h>, FeedFault> {
    let Ok(plans) = Plan::read_all(alloc, workflow) else {
        return Err(FeedFault::Memory);
    };
    match plans.first() {
        None => Err(FeedFault::Memory),
        Some(plan) => Feed::open(alloc, feed, plan),
    }
}

/// A group of the feed under that plan.
pub(crate) fn prepared<'h>(
    alloc: Global,
    workflow: &[u8],
    feed: &'h [u8],
    number: u32,
) -> Result<Arc<Prepared<'h>>, FeedFault> {
    let feed = opened(alloc, workflow, feed)?;
    feed.prepare(alloc, number)
}

/// The row is that of a message.
pub(crate) fn is_row(row: &RowView<'_>, message: &[u8]) -> bool {
    match RowView::read(message) {
        Ok(wanted) => row.same(&wanted),
        Err(_) => false,
    }
}
