//! Workflows over one table `t` of a number `id`, its key, and a text `v`, and feeds for them. A feed's group k
//! has the position 1-k of its server, and each group inserts rows.

use apply_core::{Board, ResumeFault, resume};
use filter_rule::Plan;
use source_feed::Feed;
use std::alloc::Global;
use std::sync::Arc;

/// One stream, all of whose rows pass.
pub(crate) const ONE: &[u8] =
    br#"{"keyspace":"ks","tables":[{"name":"t","columns":[["id","INT64"],["v","VARCHAR"]],"key":["id"],"vindex":["id","numeric"]}],"streams":[{"shard":"-80","filter":{"rules":[{"match":"/.*","filter":""}]}}]}"#;

/// Two such streams.
pub(crate) const TWO: &[u8] =
    br#"{"keyspace":"ks","tables":[{"name":"t","columns":[["id","INT64"],["v","VARCHAR"]],"key":["id"],"vindex":["id","numeric"]}],"streams":[{"shard":"-80","filter":{"rules":[{"match":"/.*","filter":""}]}},{"shard":"80-","filter":{"rules":[{"match":"/.*","filter":""}]}}]}"#;

/// One stream over another table.
pub(crate) const OTHER_TABLE: &[u8] =
    br#"{"keyspace":"ks","tables":[{"name":"u","columns":[["id","INT64"]],"key":["id"]}],"streams":[{"shard":"-80","filter":{"rules":[{"match":"/.*","filter":""}]}}]}"#;

/// (1, ab).
pub(crate) const ONE_ROW: &[u8] =
    b"l\n\x02\x08\x02\n\x18\x08\x0d2\x14\n\x01t\x12\x07\n\x02id\x10\x89\x02\x12\x06\n\x01v\x10\x950\n\x14\x08\x0c*\x10\n\x01t\x12\x0b\x12\x09\n\x02\x02\x04\x12\x031ab\n2\x08\x01\x1a.MySQL56/3e11fa47-71ca-11e1-9e33-c80aa9429562:1\n\x02\x08\x03";

/// (1, a), (2, b), (3, c) and (4, d), a group each.
pub(crate) const FOUR_GROUPS: &[u8] =
    b"k\n\x02\x08\x02\n\x18\x08\x0d2\x14\n\x01t\x12\x07\n\x02id\x10\x89\x02\x12\x06\n\x01v\x10\x950\n\x13\x08\x0c*\x0f\n\x01t\x12\n\x12\x08\n\x02\x02\x02\x12\x021a\n2\x08\x01\x1a.MySQL56/3e11fa47-71ca-11e1-9e33-c80aa9429562:1\n\x02\x08\x03m\n\x02\x08\x02\n\x18\x08\x0d2\x14\n\x01t\x12\x07\n\x02id\x10\x89\x02\x12\x06\n\x01v\x10\x950\n\x13\x08\x0c*\x0f\n\x01t\x12\n\x12\x08\n\x02\x02\x02\x12\x022b\n4\x08\x01\x1a0MySQL56/3e11fa47-71ca-11e1-9e33-c80aa9429562:1-2\n\x02\x08\x03m\n\x02\x08\x02\n\x18\x08\x0d2\x14\n\x01t\x12\x07\n\x02id\x10\x89\x02\x12\x06\n\x01v\x10\x950\n\x13\x08\x0c*\x0f\n\x01t\x12\n\x12\x08\n\x02\x02\x02\x12\x023c\n4\x08\x01\x1a0MySQL56/3e11fa47-71ca-11e1-9e33-c80aa9429562:1-3\n\x02\x08\x03m\n\x02\x08\x02\n\x18\x08\x0d2\x14\n\x01t\x12\x07\n\x02id\x10\x89\x02\x12\x06\n\x01v\x10\x950\n\x13\x08\x0c*\x0f\n\x01t\x12\n\x12\x08\n\x02\x02\x02\x12\x024d\n4\x08\x01\x1a0MySQL56/3e11fa47-71ca-11e1-9e33-c80aa9429562:1-4\n\x02\x08\x03";

/// (1, a) and (2, b) in one group, then (3, c).
pub(crate) const TWO_ROWS: &[u8] =
    b"\x80\x01\n\x02\x08\x02\n\x18\x08\x0d2\x14\n\x01t\x12\x07\n\x02id\x10\x89\x02\x12\x06\n\x01v\x10\x950\n\x13\x08\x0c*\x0f\n\x01t\x12\n\x12\x08\n\x02\x02\x02\x12\x021a\n\x13\x08\x0c*\x0f\n\x01t\x12\n\x12\x08\n\x02\x02\x02\x12\x022b\n2\x08\x01\x1a.MySQL56/3e11fa47-71ca-11e1-9e33-c80aa9429562:1\n\x02\x08\x03m\n\x02\x08\x02\n\x18\x08\x0d2\x14\n\x01t\x12\x07\n\x02id\x10\x89\x02\x12\x06\n\x01v\x10\x950\n\x13\x08\x0c*\x0f\n\x01t\x12\n\x12\x08\n\x02\x02\x02\x12\x023c\n4\x08\x01\x1a0MySQL56/3e11fa47-71ca-11e1-9e33-c80aa9429562:1-2\n\x02\x08\x03";

/// (1, a).
pub(crate) const LOWER: &[u8] =
    b"k\n\x02\x08\x02\n\x18\x08\x0d2\x14\n\x01t\x12\x07\n\x02id\x10\x89\x02\x12\x06\n\x01v\x10\x950\n\x13\x08\x0c*\x0f\n\x01t\x12\n\x12\x08\n\x02\x02\x02\x12\x021a\n2\x08\x01\x1a.MySQL56/3e11fa47-71ca-11e1-9e33-c80aa9429562:1\n\x02\x08\x03";

/// Another server: (2, b), then (1, c).
pub(crate) const UPPER: &[u8] =
    b"k\n\x02\x08\x02\n\x18\x08\x0d2\x14\n\x01t\x12\x07\n\x02id\x10\x89\x02\x12\x06\n\x01v\x10\x950\n\x13\x08\x0c*\x0f\n\x01t\x12\n\x12\x08\n\x02\x02\x02\x12\x022b\n2\x08\x01\x1a.MySQL56/3e11fa47-71ca-11e1-9e33-c80aa9429563:1\n\x02\x08\x03m\n\x02\x08\x02\n\x18\x08\x0d2\x14\n\x01t\x12\x07\n\x02id\x10\x89\x02\x12\x06\n\x01v\x10\x950\n\x13\x08\x0c*\x0f\n\x01t\x12\n\x12\x08\n\x02\x02\x02\x12\x021c\n4\x08\x01\x1a0MySQL56/3e11fa47-71ca-11e1-9e33-c80aa9429563:1-2\n\x02\x08\x03";

/// Another server: (2, b), then a row whose number is the text `x`, so that it has no key.
pub(crate) const UNSOUND: &[u8] =
    b"k\n\x02\x08\x02\n\x18\x08\x0d2\x14\n\x01t\x12\x07\n\x02id\x10\x89\x02\x12\x06\n\x01v\x10\x950\n\x13\x08\x0c*\x0f\n\x01t\x12\n\x12\x08\n\x02\x02\x02\x12\x022b\n2\x08\x01\x1a.MySQL56/3e11fa47-71ca-11e1-9e33-c80aa9429563:1\n\x02\x08\x03m\n\x02\x08\x02\n\x18\x08\x0d2\x14\n\x01t\x12\x07\n\x02id\x10\x89\x02\x12\x06\n\x01v\x10\x950\n\x13\x08\x0c*\x0f\n\x01t\x12\n\x12\x08\n\x02\x02\x02\x12\x02xc\n4\x08\x01\x1a0MySQL56/3e11fa47-71ca-11e1-9e33-c80aa9429563:1-2\n\x02\x08\x03";

/// The bytes of at most two feeds, the first stream's and the second one's.
pub(crate) type Feeds<'h> = (&'h [u8], &'h [u8]);

/// The plans of a workflow, if they can be read.
pub(crate) fn plans_of(alloc: Global, workflow: &[u8]) -> Option<Vec<Arc<Plan>>> {
    match Plan::read_all(alloc, workflow) {
        Ok(plans) => Some(plans),
        Err(_) => None,
    }
}

/// The bytes as a feed under a plan, if they are one.
fn opened<'h>(alloc: Global, bytes: &'h [u8], plan: &Arc<Plan>) -> Option<Feed<'h>> {
    match Feed::open(alloc, bytes, plan) {
        Ok(feed) => Some(feed),
        Err(_) => None,
    }
}

/// The bytes as feeds, each under the plan of its number.
pub(crate) fn opened_under<'h>(
    alloc: Global,
    plans: &[Arc<Plan>],
    (one, other): Feeds<'h>,
) -> Option<Vec<Feed<'h>>> {
    let mut feeds = Vec::new(alloc);
    for (plan, bytes) in plans.iter().zip([one, other]) {
        let feed = opened(alloc, bytes, plan)?;
        if feeds.push(feed).is_err() {
            return None;
        }
    }
    Some(feeds)
}

/// The feeds of a workflow's streams.
pub(crate) fn feeds_of<'h>(
    alloc: Global,
    workflow: &[u8],
    bytes: Feeds<'h>,
) -> Option<Vec<Feed<'h>>> {
    let plans = plans_of(alloc, workflow)?;
    opened_under(alloc, &plans, bytes)
}

/// What a checkpoint makes with feeds, under plans.
pub(crate) fn resumed<'h>(
    alloc: Global,
    plans: &[Arc<Plan>],
    feeds: &[Feed<'h>],
    bytes: &[u8],
) -> Option<Result<Board<'h>, ResumeFault>> {
    if plans.is_empty() || plans.len() > 64 {
        return None;
    }
    Some(resume(alloc, plans, feeds, bytes))
}
