//! Where a feed is cut: behind the last event of a group.

ghost use Rattle.std.specs.Prelude.{◌≡◌, ◌<◌, ◌⊎◌, List, [], length, MatchOption, IfSome, IfNone, IfOk, Ok};
ghost use Rattle.proto_wire.specs.Frame.{frames_of};
ghost use Rattle.source_feed.specs.GroupValue.{GroupValue};
ghost use Rattle.source_feed.specs.Groups.{groups};
ghost use Rattle.feed_bytes.specs.Cut.{IsCutBehind};
ghost use Rattle.feed_bytes.specs.Private.Search.{IsNextMessage};

use crate::course::Course;
use crate::fields::FieldBytes;
use crate::place::Source;
use crate::set_laws::set_laws;
use proto_wire::{Parts, varint_of};
use std::alloc::{AllocError, Global};

/// A feed in two, behind the last event of a group.
#[derive(Drop)]
pub struct Cut<'h> {
    /// The FIELDs that are in force there, the earliest first.
    pub fields: Vec<FieldBytes<'h>>,
    /// An event before it that carries the group's position.
    pub place: &'h [u8],
    /// The events behind it of the message that it stands in.
    pub others: Parts<'h>,
    /// All bytes behind that message.
    pub rest: &'h [u8],
}

/// The first message of some bytes, and the bytes behind it.
fn next_message(bytes: &[u8]) -> Option<(&[u8], &[u8])>
    ensures some { IfSome result (λ parts. IsNextMessage bytes.now parts.0.now parts.1.now) }
    ensures none { IfNone result ((frames_of bytes.now).items ≡ []) }
{
    let Ok((size, rest)) = varint_of(bytes) else {
        return None;
    };
    if size > rest.len() as u64 {
        return None;
    }
    Some(rest.split_at(size as usize))
}

/// Cuts a feed behind its group of a number, from 1, wherever that ends, also inside a message. `None` where the feed has
/// no such group, or doesn't open.
///
/// Reads each event before the cut once, and takes memory for the FIELDs in force alone; an error is want of it.
pub fn cut_behind<'h>(
    alloc: Global,
    feed: &'h [u8],
    source: &Source<'_>,
    number: u32,
) -> Result<Option<Cut<'h>>, AllocError>
    // Of a feed that opens there is a cut exactly where there is the group.
    ensures { IfOk result (λ found. (all : List GroupValue) → groups feed.now source.now ≡ Ok all
        → MatchOption found ((number ≡ 0) ⊎ (length all < number))
        (λ cut. IsCutBehind feed.now source.now number cut.fields.items cut.place.now cut.others cut.rest.now)) }
{
    if number == 0 {
        return Ok(None);
    }
    set_laws();
    let mut course = Course::new(alloc, number);
    let mut rest = feed;
    while let Some((message, behind)) = next_message(rest) {
        rest = behind;
        let mut others = Parts::new(message, 1);
        course.see_message(alloc, source, &mut others)?;
        if course.left() == 0 {
            let (place, fields) = course.into_parts();
            return Ok(Some(Cut {
                fields,
                place,
                others,
                rest,
            }));
        }
    }
    Ok(None)
}
