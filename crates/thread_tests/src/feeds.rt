//! Feeds of groups of one new row each, each read under its plan.

use filter_rule::Plan;
use source_feed::Feed;
use std::alloc::{AllocError, Global};
use std::sync::Arc;

/// The table `t` of `id` (INT64) and `v` (VARCHAR), read by two streams, all of whose rows pass.
pub(crate) const WORKFLOW: &[u8] =
    br#"{"keyspace":"ks","tables":[{"name":"t","columns":[["id","INT64"],["v","VARCHAR"]],"key":["id"],"vindex":["id","numeric"]}],"streams":[{"shard":"-80","filter":{"rules":[{"match":"/.*","filter":""}]}},{"shard":"80-","filter":{"rules":[{"match":"/.*","filter":""}]}}]}"#;

/// The same table, read by four streams.
pub(crate) const OF_FOUR: &[u8] =
    br#"{"keyspace":"ks","tables":[{"name":"t","columns":[["id","INT64"],["v","VARCHAR"]],"key":["id"]}],"streams":[{"shard":"-40","filter":{"rules":[{"match":"/.*","filter":""}]}},{"shard":"40-80","filter":{"rules":[{"match":"/.*","filter":""}]}},{"shard":"80-c0","filter":{"rules":[{"match":"/.*","filter":""}]}},{"shard":"c0-","filter":{"rules":[{"match":"/.*","filter":""}]}}]}"#;

/// Rows 1 `a` and 2 `b`, one message a group.
pub(crate) const LOWER: &[u8] = b"\
    k\n\x02\x08\x02\
    \n\x18\x08\r2\x14\n\x01t\x12\x07\n\x02id\x10\x89\x02\x12\x06\n\x01v\x10\x950\
    \n\x13\x08\x0c*\x0f\n\x01t\x12\n\x12\x08\n\x02\x02\x02\x12\x021a\
    \n2\x08\x01\x1a.MySQL56/3e11fa47-71ca-11e1-9e33-c80aa9429562:1\
    \n\x02\x08\x03\
    m\n\x02\x08\x02\
    \n\x18\x08\r2\x14\n\x01t\x12\x07\n\x02id\x10\x89\x02\x12\x06\n\x01v\x10\x950\
    \n\x13\x08\x0c*\x0f\n\x01t\x12\n\x12\x08\n\x02\x02\x02\x12\x022b\
    \n4\x08\x01\x1a0MySQL56/3e11fa47-71ca-11e1-9e33-c80aa9429562:1-2\
    \n\x02\x08\x03";

/// Rows 1 `a`, 2 `b`, 3 `c` and 4 `d`, one message a group.
pub(crate) const FOUR: &[u8] = b"\
    k\n\x02\x08\x02\
    \n\x18\x08\r2\x14\n\x01t\x12\x07\n\x02id\x10\x89\x02\x12\x06\n\x01v\x10\x950\
    \n\x13\x08\x0c*\x0f\n\x01t\x12\n\x12\x08\n\x02\x02\x02\x12\x021a\
    \n2\x08\x01\x1a.MySQL56/3e11fa47-71ca-11e1-9e33-c80aa9429562:1\
    \n\x02\x08\x03\
    m\n\x02\x08\x02\
    \n\x18\x08\r2\x14\n\x01t\x12\x07\n\x02id\x10\x89\x02\x12\x06\n\x01v\x10\x950\
    \n\x13\x08\x0c*\x0f\n\x01t\x12\n\x12\x08\n\x02\x02\x02\x12\x022b\
    \n4\x08\x01\x1a0MySQL56/3e11fa47-71ca-11e1-9e33-c80aa9429562:1-2\
    \n\x02\x08\x03\
    m\n\x02\x08\x02\
    \n\x18\x08\r2\x14\n\x01t\x12\x07\n\x02id\x10\x89\x02\x12\x06\n\x01v\x10\x950\
    \n\x13\x08\x0c*\x0f\n\x01t\x12\n\x12\x08\n\x02\x02\x02\x12\x023c\
    \n4\x08\x01\x1a0MySQL56/3e11fa47-71ca-11e1-9e33-c80aa9429562:1-3\
    \n\x02\x08\x03\
    m\n\x02\x08\x02\
    \n\x18\x08\r2\x14\n\x01t\x12\x07\n\x02id\x10\x89\x02\x12\x06\n\x01v\x10\x950\
    \n\x13\x08\x0c*\x0f\n\x01t\x12\n\x12\x08\n\x02\x02\x02\x12\x024d\
    \n4\x08\x01\x1a0MySQL56/3e11fa47-71ca-11e1-9e33-c80aa9429562:1-4\
    \n\x02\x08\x03";

/// A group that may stand behind those of `FOUR`, whose row's number is none: x.
pub(crate) const UNSOUND: &[u8] = b"\
    m\n\x02\x08\x02\
    \n\x18\x08\r2\x14\n\x01t\x12\x07\n\x02id\x10\x89\x02\x12\x06\n\x01v\x10\x950\
    \n\x13\x08\x0c*\x0f\n\x01t\x12\n\x12\x08\n\x02\x02\x02\x12\x02xe\
    \n4\x08\x01\x1a0MySQL56/3e11fa47-71ca-11e1-9e33-c80aa9429562:1-5\
    \n\x02\x08\x03";

/// Row 4 `z`, at another server's position.
pub(crate) const FOURTH_KEY: &[u8] = b"\
    k\n\x02\x08\x02\
    \n\x18\x08\r2\x14\n\x01t\x12\x07\n\x02id\x10\x89\x02\x12\x06\n\x01v\x10\x950\
    \n\x13\x08\x0c*\x0f\n\x01t\x12\n\x12\x08\n\x02\x02\x02\x12\x024z\
    \n2\x08\x01\x1a.MySQL56/3e11fa47-71ca-11e1-9e33-c80aa9429563:1\
    \n\x02\x08\x03";

/// Rows 11 `k` and 12 `l`, one message a group, at another server's positions.
pub(crate) const UPPER: &[u8] = b"\
    l\n\x02\x08\x02\
    \n\x18\x08\r2\x14\n\x01t\x12\x07\n\x02id\x10\x89\x02\x12\x06\n\x01v\x10\x950\
    \n\x14\x08\x0c*\x10\n\x01t\x12\x0b\x12\t\n\x02\x04\x02\x12\x0311k\
    \n2\x08\x01\x1a.MySQL56/3e11fa47-71ca-11e1-9e33-c80aa9429563:1\
    \n\x02\x08\x03\
    n\n\x02\x08\x02\
    \n\x18\x08\r2\x14\n\x01t\x12\x07\n\x02id\x10\x89\x02\x12\x06\n\x01v\x10\x950\
    \n\x14\x08\x0c*\x10\n\x01t\x12\x0b\x12\t\n\x02\x04\x02\x12\x0312l\
    \n4\x08\x01\x1a0MySQL56/3e11fa47-71ca-11e1-9e33-c80aa9429563:1-2\
    \n\x02\x08\x03";

/// Row 1 `z`.
pub(crate) const SAME_KEY: &[u8] = b"\
    k\n\x02\x08\x02\
    \n\x18\x08\r2\x14\n\x01t\x12\x07\n\x02id\x10\x89\x02\x12\x06\n\x01v\x10\x950\
    \n\x13\x08\x0c*\x0f\n\x01t\x12\n\x12\x08\n\x02\x02\x02\x12\x021z\
    \n2\x08\x01\x1a.MySQL56/3e11fa47-71ca-11e1-9e33-c80aa9429563:1\
    \n\x02\x08\x03";

/// Rows 11, 12 and 13, all `a`.
pub(crate) const TENS: &[u8] = b"\
    \x04\n\x02\x08\x02\x1a\n\x18\x08\r2\x14\n\x01t\x12\x07\n\x02id\x10\x89\x02\x12\x06\n\x01v\x10\x950\
    \x16\n\x14\x08\x0c*\x10\n\x01t\x12\x0b\x12\t\n\x02\x04\x02\x12\x0311a\
    .\n,\x08\x01\x1a(3e11fa47-71ca-11e1-9e33-c80aa9429562:1-1\x04\n\x02\x08\x03\
    \x04\n\x02\x08\x02\x1a\n\x18\x08\r2\x14\n\x01t\x12\x07\n\x02id\x10\x89\x02\x12\x06\n\x01v\x10\x950\
    \x16\n\x14\x08\x0c*\x10\n\x01t\x12\x0b\x12\t\n\x02\x04\x02\x12\x0312a\
    .\n,\x08\x01\x1a(3e11fa47-71ca-11e1-9e33-c80aa9429562:1-2\x04\n\x02\x08\x03\
    \x04\n\x02\x08\x02\x1a\n\x18\x08\r2\x14\n\x01t\x12\x07\n\x02id\x10\x89\x02\x12\x06\n\x01v\x10\x950\
    \x16\n\x14\x08\x0c*\x10\n\x01t\x12\x0b\x12\t\n\x02\x04\x02\x12\x0313a\
    .\n,\x08\x01\x1a(3e11fa47-71ca-11e1-9e33-c80aa9429562:1-3\x04\n\x02\x08\x03";

/// Rows 21, 22 and 23, all `a`.
pub(crate) const TWENTIES: &[u8] = b"\
    \x04\n\x02\x08\x02\x1a\n\x18\x08\r2\x14\n\x01t\x12\x07\n\x02id\x10\x89\x02\x12\x06\n\x01v\x10\x950\
    \x16\n\x14\x08\x0c*\x10\n\x01t\x12\x0b\x12\t\n\x02\x04\x02\x12\x0321a\
    .\n,\x08\x01\x1a(3e11fa47-71ca-11e1-9e33-c80aa9429562:1-1\x04\n\x02\x08\x03\
    \x04\n\x02\x08\x02\x1a\n\x18\x08\r2\x14\n\x01t\x12\x07\n\x02id\x10\x89\x02\x12\x06\n\x01v\x10\x950\
    \x16\n\x14\x08\x0c*\x10\n\x01t\x12\x0b\x12\t\n\x02\x04\x02\x12\x0322a\
    .\n,\x08\x01\x1a(3e11fa47-71ca-11e1-9e33-c80aa9429562:1-2\x04\n\x02\x08\x03\
    \x04\n\x02\x08\x02\x1a\n\x18\x08\r2\x14\n\x01t\x12\x07\n\x02id\x10\x89\x02\x12\x06\n\x01v\x10\x950\
    \x16\n\x14\x08\x0c*\x10\n\x01t\x12\x0b\x12\t\n\x02\x04\x02\x12\x0323a\
    .\n,\x08\x01\x1a(3e11fa47-71ca-11e1-9e33-c80aa9429562:1-3\x04\n\x02\x08\x03";

/// Rows whose numbers are none: x1, x2 and x3.
pub(crate) const XS: &[u8] = b"\
    \x04\n\x02\x08\x02\x1a\n\x18\x08\r2\x14\n\x01t\x12\x07\n\x02id\x10\x89\x02\x12\x06\n\x01v\x10\x950\
    \x16\n\x14\x08\x0c*\x10\n\x01t\x12\x0b\x12\t\n\x02\x04\x02\x12\x03x1a\
    .\n,\x08\x01\x1a(3e11fa47-71ca-11e1-9e33-c80aa9429562:1-1\x04\n\x02\x08\x03\
    \x04\n\x02\x08\x02\x1a\n\x18\x08\r2\x14\n\x01t\x12\x07\n\x02id\x10\x89\x02\x12\x06\n\x01v\x10\x950\
    \x16\n\x14\x08\x0c*\x10\n\x01t\x12\x0b\x12\t\n\x02\x04\x02\x12\x03x2a\
    .\n,\x08\x01\x1a(3e11fa47-71ca-11e1-9e33-c80aa9429562:1-2\x04\n\x02\x08\x03\
    \x04\n\x02\x08\x02\x1a\n\x18\x08\r2\x14\n\x01t\x12\x07\n\x02id\x10\x89\x02\x12\x06\n\x01v\x10\x950\
    \x16\n\x14\x08\x0c*\x10\n\x01t\x12\x0b\x12\t\n\x02\x04\x02\x12\x03x3a\
    .\n,\x08\x01\x1a(3e11fa47-71ca-11e1-9e33-c80aa9429562:1-3\x04\n\x02\x08\x03";

/// Rows whose numbers are none: y1, y2 and y3.
pub(crate) const YS: &[u8] = b"\
    \x04\n\x02\x08\x02\x1a\n\x18\x08\r2\x14\n\x01t\x12\x07\n\x02id\x10\x89\x02\x12\x06\n\x01v\x10\x950\
    \x16\n\x14\x08\x0c*\x10\n\x01t\x12\x0b\x12\t\n\x02\x04\x02\x12\x03y1a\
    .\n,\x08\x01\x1a(3e11fa47-71ca-11e1-9e33-c80aa9429562:1-1\x04\n\x02\x08\x03\
    \x04\n\x02\x08\x02\x1a\n\x18\x08\r2\x14\n\x01t\x12\x07\n\x02id\x10\x89\x02\x12\x06\n\x01v\x10\x950\
    \x16\n\x14\x08\x0c*\x10\n\x01t\x12\x0b\x12\t\n\x02\x04\x02\x12\x03y2a\
    .\n,\x08\x01\x1a(3e11fa47-71ca-11e1-9e33-c80aa9429562:1-2\x04\n\x02\x08\x03\
    \x04\n\x02\x08\x02\x1a\n\x18\x08\r2\x14\n\x01t\x12\x07\n\x02id\x10\x89\x02\x12\x06\n\x01v\x10\x950\
    \x16\n\x14\x08\x0c*\x10\n\x01t\x12\x0b\x12\t\n\x02\x04\x02\x12\x03y3a\
    .\n,\x08\x01\x1a(3e11fa47-71ca-11e1-9e33-c80aa9429562:1-3\x04\n\x02\x08\x03";

/// The plans' feeds over these bytes.
pub(crate) fn open_feeds<'h>(
    alloc: Global,
    plans: &[Arc<Plan>],
    bytes: &[&'h [u8]],
) -> Option<Vec<Feed<'h>>> {
    let mut feeds = Vec::new(alloc);
    for (plan, feed) in plans.iter().zip(bytes) {
        let Ok(feed) = Feed::open(alloc, *feed, plan) else {
            return None;
        };
        if feeds.push(feed).is_err() {
            return None;
        }
    }
    Some(feeds)
}

/// The streams of the second workflow.
const STREAMS: u8 = 64;

/// A stream's name of two letters.
fn name_of(stream: u8) -> [u8; 2] {
    [b'1' + (stream / 8) % 8, b'1' + stream % 8]
}

/// The stream of a number, behind others.
fn push_stream(text: &mut Vec<u8>, stream: u8) -> Result<(), AllocError> {
    text.extend_from_slice(br#",{"shard":""#)?;
    text.extend_from_slice(&name_of(stream))?;
    text.extend_from_slice(br#"","filter":{"rules":[{"match":"/.*","filter":""}]}}"#)
}

/// A workflow of 64 streams over the table.
pub(crate) fn many_streams(alloc: Global) -> Result<Vec<u8>, AllocError> {
    let mut text = Vec::from_slice(
        alloc,
        br#"{"keyspace":"ks","tables":[{"name":"t","columns":[["id","INT64"],["v","VARCHAR"]],"key":["id"]}],"streams":[{"shard":"11","filter":{"rules":[{"match":"/.*","filter":""}]}}"#,
    )?;
    for stream in 1..STREAMS {
        push_stream(&mut text, stream)?;
    }
    text.extend_from_slice(b"]}")?;
    Ok(text)
}

/// What stands in a group before the number of its row, which has three digits.
const BEFORE_ITS_ROW: &[u8] = b"\
    \x04\n\x02\x08\x02\x1a\n\x18\x08\r2\x14\n\x01t\x12\x07\n\x02id\x10\x89\x02\x12\x06\n\x01v\x10\x950\
    \x17\n\x15\x08\x0c*\x11\n\x01t\x12\x0c\x12\n\n\x02\x06\x02\x12\x04";

/// What stands between the row and the last digit of the position.
const BEFORE_ITS_DIGIT: &[u8] = b".\n,\x08\x01\x1a(3e11fa47-71ca-11e1-9e33-c80aa9429562:1-";

/// The length of a feed of three such groups.
pub(crate) const MANY_BYTES: usize = 324;

/// A group: a row of this number and value, and the end of its position.
fn push_group(
    feeds: &mut Vec<u8>,
    [high, low]: [u8; 2],
    digit: u8,
    value: u8,
) -> Result<(), AllocError> {
    feeds.extend_from_slice(BEFORE_ITS_ROW)?;
    feeds.extend_from_slice(&[high, low, digit, value])?;
    feeds.extend_from_slice(BEFORE_ITS_DIGIT)?;
    feeds.extend_from_slice(&[digit, 4, b'\n', 2, 8, 3])
}

/// A stream's feed of three groups.
fn push_feed(feeds: &mut Vec<u8>, stream: u8) -> Result<(), AllocError> {
    push_group(feeds, name_of(stream), b'1', b'a')?;
    push_group(feeds, name_of(stream), b'2', b'b')?;
    push_group(feeds, name_of(stream), b'3', b'c')
}

/// The feeds of all 64 streams, one behind the other.
pub(crate) fn many_feeds(alloc: Global) -> Result<Vec<u8>, AllocError> {
    let mut feeds = Vec::new(alloc);
    for stream in 0..STREAMS {
        push_feed(&mut feeds, stream)?;
    }
    Ok(feeds)
}

/// What stands between the row of a group and the last two digits of its position.
const BEFORE_ITS_DIGITS: &[u8] = b"/\n-\x08\x01\x1a)3e11fa47-71ca-11e1-9e33-c80aa9429562:1-";

/// A group: a row of this number and value, at a position whose last transaction has these digits.
fn push_row(
    feed: &mut Vec<u8>,
    [hundreds, tens, ones]: [u8; 3],
    value: u8,
    digits: [u8; 2],
) -> Result<(), AllocError> {
    feed.extend_from_slice(BEFORE_ITS_ROW)?;
    feed.extend_from_slice(&[hundreds, tens, ones, value])?;
    feed.extend_from_slice(BEFORE_ITS_DIGITS)?;
    feed.extend_from_slice(&digits)?;
    feed.extend_from_slice(&[4, b'\n', 2, 8, 3])
}

/// A feed of 70 groups of one new row each, all `a`, whose numbers begin with this digit: as 100 to 169.
pub(crate) fn seventy(alloc: Global, hundreds: u8) -> Result<Vec<u8>, AllocError> {
    let mut feed = Vec::new(alloc);
    for group in 0..70u8 {
        let (tens, ones) = (group / 10, group % 10);
        push_row(
            &mut feed,
            [hundreds, b'0' + tens, b'0' + ones],
            b'a',
            [b'1' + tens, b'0' + ones],
        )?;
    }
    Ok(feed)
}

/// A feed of three groups: the row that a group of the 70 puts whose numbers begin with 1, as `z`; and rows 201 `z` and
/// 202 `z`.
pub(crate) fn meeting(alloc: Global, group: u8) -> Result<Vec<u8>, AllocError> {
    let mut feed = Vec::new(alloc);
    let before = group.saturating_sub(1) % 70;
    let met = [b'1', b'0' + before / 10, b'0' + before % 10];
    push_row(&mut feed, met, b'z', [b'1', b'1'])?;
    push_row(&mut feed, *b"201", b'z', [b'1', b'2'])?;
    push_row(&mut feed, *b"202", b'z', [b'1', b'3'])?;
    Ok(feed)
}
