//! Feeds up to positions.

use crate::feeds::feeds::push_group;
use crate::feeds::opening::{EVERY_ROW, opened};
use feed_ends::{EndFault, end_feeds};
use gtid_set::GtidFault;
use source_feed::FeedFault;
use std::alloc::{AllocError, Global};
use std::test::*;
use vrepl_choices::Until;

/// Groups at the numbers 2, 4 and 6, without changes.
fn three_groups(alloc: Global) -> Result<Vec<u8>, AllocError> {
    let mut bytes = Vec::new(alloc);
    for digit in [b'2', b'4', b'6'] {
        push_group(&mut bytes, digit, &[])?;
    }
    Ok(bytes)
}

/// What is left of two such feeds behind `end_feeds`: how many groups each has, or why there are none.
fn left(
    alloc: Global,
    untils: &[Until<'_>],
) -> Result<Result<(usize, usize), EndFault>, FeedFault> {
    let bytes = three_groups(alloc)?;
    let one = opened(alloc, EVERY_ROW, &bytes)?;
    let other = opened(alloc, EVERY_ROW, &bytes)?;
    let mut feeds = [one, other];
    match end_feeds(alloc, &mut feeds, untils) {
        Ok(()) => Ok(Ok((feeds[0].len(), feeds[1].len()))),
        Err(EndFault::Memory) => Err(FeedFault::Memory),
        Err(fault) => Ok(Err(fault)),
    }
}

/// A position for each feed.
fn all(position: &str) -> Until<'_> {
    Until {
        stream: None,
        position,
    }
}

/// A position for the feed of a stream.
fn only(stream: u8, position: &str) -> Until<'_> {
    Until {
        stream: Some(stream),
        position,
    }
}

#[test]
fn one_position_for_all(rt: HostRuntime) -> Result<(), Fail> {
    let alloc = rt.alloc();
    assert!(rt; left(alloc, &[])? == Ok((3, 3)));
    assert!(rt; left(alloc, &[all("3e11fa47-71ca-11e1-9e33-c80aa9429562:1-4")])? == Ok((2, 2)));
    assert!(rt; left(alloc, &[all("3e11fa47-71ca-11e1-9e33-c80aa9429562:1-3")])? == Ok((1, 1)));
    assert!(rt; left(alloc, &[all("")])? == Ok((0, 0)));
    assert!(rt; left(alloc, &[all("3e11fa47-71ca-11e1-9e33-c80aa9429562:2-6")])? == Ok((0, 0)));
    Ok(())
}

#[test]
fn a_position_for_a_stream(rt: HostRuntime) -> Result<(), Fail> {
    let alloc = rt.alloc();
    let four = "3e11fa47-71ca-11e1-9e33-c80aa9429562:1-4";
    let two = "3e11fa47-71ca-11e1-9e33-c80aa9429562:1-2";
    assert!(rt; left(alloc, &[only(1, four)])? == Ok((3, 2)));
    assert!(rt; left(alloc, &[only(0, two), only(1, four)])? == Ok((1, 2)));
    assert!(rt; left(alloc, &[all(four), only(1, two)])? == Ok((2, 1)));
    assert!(rt; left(alloc, &[only(1, two), all(four)])? == Ok((2, 2)));
    Ok(())
}

#[test]
fn refusals(rt: HostRuntime) -> Result<(), Fail> {
    let alloc = rt.alloc();
    let seven = "3e11fa47-71ca-11e1-9e33-c80aa9429562:1-7";
    assert!(rt; left(alloc, &[only(2, "x"), only(1, seven)])? == Err(EndFault::NoStream));
    let none = left(alloc, &[only(1, seven), all("x")])?;
    assert!(rt; none == Err(EndFault::BadPosition(GtidFault::BadUuid)));
    assert!(rt; left(alloc, &[only(1, seven)])? == Err(EndFault::NotReached { stream: 1 }));
    assert!(rt; left(alloc, &[all(seven)])? == Err(EndFault::NotReached { stream: 0 }));
    Ok(())
}
