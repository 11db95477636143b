//! Plans of workflows over the table `t` of `id` (INT64) and `v` (VARCHAR), feeds that are opened under them, and
//! boards. Where one can't be made there is none.

use crate::boards::feeds::{Source, bytes_of};
use apply_core::{Answer, Board, StepRefusal, run_schedule};
use filter_rule::Plan;
use source_feed::{Feed, Prepared};
use std::alloc::Global;
use std::sync::Arc;
use stream_core::Step;

/// One stream, all of whose rows pass.
pub(crate) const ONE: &[u8] =
    br#"{"keyspace":"ks","tables":[{"name":"t","columns":[["id","INT64"],["v","VARCHAR"]],"key":["id"],"vindex":["id","numeric"]}],"streams":[{"shard":"-80","filter":{"rules":[{"match":"/.*","filter":""}]}}]}"#;

/// Two such streams.
pub(crate) const TWO: &[u8] =
    br#"{"keyspace":"ks","tables":[{"name":"t","columns":[["id","INT64"],["v","VARCHAR"]],"key":["id"],"vindex":["id","numeric"]}],"streams":[{"shard":"-80","filter":{"rules":[{"match":"/.*","filter":""}]}},{"shard":"80-","filter":{"rules":[{"match":"/.*","filter":""}]}}]}"#;

/// Three streams, of which a row passes by the MD5 of `v`: the values `a` and `c` do, `b` doesn't.
pub(crate) const THREE: &[u8] =
    br#"{"keyspace":"ks","tables":[{"name":"t","columns":[["id","INT64"],["v","VARCHAR"]],"key":["id"]}],"streams":[{"shard":"-40","filter":{"rules":[{"match":"t","filter":"select * from t where in_keyrange(v, 'binary_md5', '-80')"}]}},{"shard":"40-80","filter":{"rules":[{"match":"t","filter":"select * from t where in_keyrange(v, 'binary_md5', '-80')"}]}},{"shard":"80-","filter":{"rules":[{"match":"t","filter":"select * from t where in_keyrange(v, 'binary_md5', '-80')"}]}}]}"#;

/// One stream of which a row passes by the MD5 of `v`.
pub(crate) const BY_VALUE: &[u8] =
    br#"{"keyspace":"ks","tables":[{"name":"t","columns":[["id","INT64"],["v","VARCHAR"]],"key":["id"],"vindex":["id","numeric"]}],"streams":[{"shard":"-80","filter":{"rules":[{"match":"t","filter":"select * from t where in_keyrange(v, 'binary_md5', '-80')"}]}}]}"#;

/// One stream over another table.
pub(crate) const OTHER_TABLE: &[u8] =
    br#"{"keyspace":"ks","tables":[{"name":"u","columns":[["id","INT64"]],"key":["id"]}],"streams":[{"shard":"-80","filter":{"rules":[{"match":"/.*","filter":""}]}}]}"#;

/// The board of a list of steps, and their replies.
pub(crate) type Ran<'h> = (Board<'h>, Vec<Result<Answer, StepRefusal>>);

/// The plans of a workflow.
pub(crate) fn plans_of(alloc: Global, workflow: &[u8]) -> Option<Vec<Arc<Plan>>> {
    match Plan::read_all(alloc, workflow) {
        Ok(plans) => Some(plans),
        Err(_) => None,
    }
}

/// The feeds of some sources.
pub(crate) fn made(alloc: Global, sources: &[Source<'_>]) -> Option<Vec<Vec<u8>>> {
    match bytes_of(alloc, sources) {
        Ok(all) => Some(all),
        Err(_) => None,
    }
}

/// The bytes as a feed under a plan.
fn opened<'h>(alloc: Global, bytes: &'h [u8], plan: &Arc<Plan>) -> Option<Feed<'h>> {
    match Feed::open(alloc, bytes, plan) {
        Ok(feed) => Some(feed),
        Err(_) => None,
    }
}

/// The bytes as feeds, each under the plan of its number.
fn opened_under<'h>(
    alloc: Global,
    plans: &[Arc<Plan>],
    bytes: &'h [Vec<u8>],
) -> Option<Vec<Feed<'h>>> {
    let mut feeds = Vec::new(alloc);
    for (plan, bytes) in plans.iter().zip(bytes) {
        let feed = opened(alloc, bytes, plan)?;
        if feeds.push(feed).is_err() {
            return None;
        }
    }
    Some(feeds)
}

/// The feeds of a workflow's streams.
pub(crate) fn feeds_of<'h>(
    alloc: Global,
    workflow: &[u8],
    bytes: &'h [Vec<u8>],
) -> Option<Vec<Feed<'h>>> {
    let plans = plans_of(alloc, workflow)?;
    opened_under(alloc, &plans, bytes)
}

/// A group of a feed.
pub(crate) fn group_of<'h>(
    alloc: Global,
    feed: &Feed<'h>,
    number: u32,
) -> Option<Arc<Prepared<'h>>> {
    match feed.prepare(alloc, number) {
        Ok(group) => Some(group),
        Err(_) => None,
    }
}

/// The board of a workflow's plans, of which nothing is read.
pub(crate) fn board_of<'h>(alloc: Global, workflow: &[u8]) -> Option<Board<'h>> {
    let plans = plans_of(alloc, workflow)?;
    if plans.is_empty() || plans.len() > 64 {
        return None;
    }
    match Board::new(alloc, plans) {
        Ok(board) => Some(board),
        Err(_) => None,
    }
}

/// What a step of a stream answers, or the number that it is refused with.
pub(crate) fn take<'h>(
    alloc: Global,
    board: &mut Board<'h>,
    feeds: &[Feed<'h>],
    s: u8,
    step: Step,
) -> Result<Answer, u8> {
    match board.take_step(alloc, feeds, s, step) {
        Ok(answer) => Ok(answer),
        Err(refusal) => Err(refusal.number()),
    }
}

/// Takes steps; whether none is refused.
pub(crate) fn take_all<'h>(
    alloc: Global,
    board: &mut Board<'h>,
    feeds: &[Feed<'h>],
    steps: &[(u8, Step)],
) -> bool {
    for (s, step) in steps {
        if take(alloc, board, feeds, *s, *step).is_err() {
            return false;
        }
    }
    true
}

/// The board of a workflow behind steps over these bytes, none of which is refused.
pub(crate) fn board_behind<'h>(
    alloc: Global,
    workflow: &[u8],
    bytes: &'h [Vec<u8>],
    steps: &[(u8, Step)],
) -> Option<Board<'h>> {
    let feeds = feeds_of(alloc, workflow, bytes)?;
    let mut board = board_of(alloc, workflow)?;
    if take_all(alloc, &mut board, &feeds, steps) {
        Some(board)
    } else {
        None
    }
}

/// Takes a list of steps from the board of a workflow's plans of which nothing is read; the number that it is
/// refused with, 0 where a part of it can't be made.
pub(crate) fn run<'h>(
    alloc: Global,
    workflow: &[u8],
    feeds: &[Feed<'h>],
    steps: &[(u8, Step)],
) -> Result<Ran<'h>, u8> {
    let Some(plans) = plans_of(alloc, workflow) else {
        return Err(0);
    };
    if plans.is_empty() || plans.len() > 64 {
        return Err(0);
    }
    match run_schedule(alloc, plans, feeds, steps) {
        Ok(ran) => Ok(ran),
        Err(refusal) => Err(refusal.number()),
    }
}
