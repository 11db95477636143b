//! Feeds of texts.

use feed_text::{FeedTextError, feed_of_text, feed_of_text_under};
use filter_rule::Plan;
use std::alloc::Global;

/// The table `t` of the keyspace `ks`, of two shards.
const WORKFLOW: &[u8] =
    br#"{"keyspace":"ks","tables":[{"name":"t","columns":[["id","INT64"],["v","VARCHAR"]],"key":["id"],"vindex":["id","numeric"]}],"streams":[{"shard":"-80","filter":{"rules":[{"match":"/.*","filter":""}]}},{"shard":"80-","filter":{"rules":[{"match":"/.*","filter":""}]}}]}"#;

/// Two rows; then one changed, one gone, and a row of a table that the workflow lacks; then a position alone.
const TEXT: &[u8] =
    b"group 1 3e11fa47-71ca-11e1-9e33-c80aa9429562:1\n+ t\tx31\tx61\n+ t\tx32\tN\ngroup 2 3e11fa47-71ca-11e1-9e33-c80aa9429562:1-2\n- t\tx31\tx61\n+ t\tx31\tx62\n- t\tx32\tN\n+ ks.other\tx\ngroup 3 3e11fa47-71ca-11e1-9e33-c80aa9429562:1-3\n";

/// The feed of the second shard.
const FEED: &[u8] =
    b"\x84\x01\x0a\x02\x08\x02\x0a\x18\x08\x0d\x32\x14\x0a\x01\x74\x12\x07\x0a\x02\x69\x64\x10\x89\x02\x12\x06\x0a\x01\x76\x10\x95\x30\x0a\x13\x08\x0c\x2a\x0f\x0a\x01\x74\x12\x0a\x12\x08\x0a\x02\x02\x02\x12\x02\x31\x61\x0a\x12\x08\x0c\x2a\x0e\x0a\x01\x74\x12\x09\x12\x07\x0a\x02\x02\x01\x12\x01\x32\x0a\x37\x08\x0f\x3a\x33\x0a\x31\x0a\x02\x6b\x73\x12\x03\x38\x30\x2d\x1a\x26\x33\x65\x31\x31\x66\x61\x34\x37\x2d\x37\x31\x63\x61\x2d\x31\x31\x65\x31\x2d\x39\x65\x33\x33\x2d\x63\x38\x30\x61\x61\x39\x34\x32\x39\x35\x36\x32\x3a\x31\x0a\x02\x08\x03\xab\x01\x0a\x02\x08\x02\x0a\x1d\x08\x0c\x2a\x19\x0a\x01\x74\x12\x14\x0a\x08\x0a\x02\x02\x02\x12\x02\x31\x61\x12\x08\x0a\x02\x02\x02\x12\x02\x31\x62\x0a\x12\x08\x0c\x2a\x0e\x0a\x01\x74\x12\x09\x0a\x07\x0a\x02\x02\x01\x12\x01\x32\x0a\x19\x08\x0d\x32\x15\x0a\x0b\x6b\x73\x2e\x6b\x73\x2e\x6f\x74\x68\x65\x72\x12\x06\x0a\x01\x30\x10\x96\x50\x0a\x18\x08\x0c\x2a\x14\x0a\x0b\x6b\x73\x2e\x6b\x73\x2e\x6f\x74\x68\x65\x72\x12\x05\x12\x03\x0a\x01\x00\x0a\x39\x08\x0f\x3a\x35\x0a\x33\x0a\x02\x6b\x73\x12\x03\x38\x30\x2d\x1a\x28\x33\x65\x31\x31\x66\x61\x34\x37\x2d\x37\x31\x63\x61\x2d\x31\x31\x65\x31\x2d\x39\x65\x33\x33\x2d\x63\x38\x30\x61\x61\x39\x34\x32\x39\x35\x36\x32\x3a\x31\x2d\x32\x0a\x02\x08\x03\x3b\x0a\x39\x08\x0f\x3a\x35\x0a\x33\x0a\x02\x6b\x73\x12\x03\x38\x30\x2d\x1a\x28\x33\x65\x31\x31\x66\x61\x34\x37\x2d\x37\x31\x63\x61\x2d\x31\x31\x65\x31\x2d\x39\x65\x33\x33\x2d\x63\x38\x30\x61\x61\x39\x34\x32\x39\x35\x36\x32\x3a\x31\x2d\x33";

/// The feed of the second shard, where the text is one's.
fn fed(alloc: Global, text: &[u8]) -> Option<Vec<u8>> {
    let plans = Plan::read_all(alloc, WORKFLOW).ok()?;
    let plan = plans.get(1)?;
    feed_of_text_under(alloc, text, plan).ok()
}

/// The line and the byte of it at which a text is refused.
fn refused(alloc: Global, text: &[u8]) -> Option<(u64, u64)> {
    match feed_of_text(alloc, text, "", "") {
        Err(FeedTextError::Fault(fault)) => Some((fault.line, fault.column)),
        _ => None,
    }
}

#[test]
fn the_feed_of_a_text_under_a_plan(rt: HostRuntime) {
    match fed(rt.alloc(), TEXT) {
        Some(feed) => assert!(rt; feed.as_slice() == FEED),
        None => assert!(rt; false),
    }
}

#[test]
fn a_text_is_refused_where_no_feed_is_shown_so(rt: HostRuntime) {
    let alloc = rt.alloc();
    assert!(rt; refused(alloc, TEXT).is_none());
    assert!(rt; refused(alloc, b"").is_none());
    assert!(rt; refused(alloc, b"+ t\tx31\n") == Some((1, 1)));
    assert!(rt;
        refused(
            alloc,
            b"group 1 3e11fa47-71ca-11e1-9e33-c80aa9429562:1\n+ t\tx31\tx6A\n"
        ) == Some((2, 11))
    );
    assert!(rt;
        refused(
            alloc,
            b"group 1 3e11fa47-71ca-11e1-9e33-c80aa9429562:1\n+ t\tx31\tx6\n"
        ) == Some((2, 11))
    );
    assert!(rt;
        refused(
            alloc,
            b"group 1 3e11fa47-71ca-11e1-9e33-c80aa9429562:1\ngroup 3 3e11fa47-71ca-11e1-9e33-c80aa9429562:1-2\n"
        ) == Some((2, 7))
    );
    assert!(rt;
        refused(
            alloc,
            b"group 1 3e11fa47-71ca-11e1-9e33-c80aa9429562:1\ngroup 2 3e11fa47-71ca-11e1-9e33-c80aa9429562:2\n"
        ) == Some((2, 9))
    );
    assert!(rt;
        refused(alloc, b"group 1 3E11FA47-71CA-11E1-9E33-C80AA9429562:1\n") == Some((1, 10))
    );
    assert!(rt;
        refused(
            alloc,
            b"group 1 3e11fa47-71ca-11e1-9e33-c80aa9429562:1\n+ t\tx31"
        ) == Some((2, 8))
    );
}
