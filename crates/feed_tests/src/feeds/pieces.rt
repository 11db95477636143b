//! Feeds that come in pieces: cut at random, byte by byte, and pieces that aren't taken.

use crate::feeds::groups::ONE_ROW;
use crate::feeds::prepared::THREE_GROUPS;
use source_feed::{FeedBuilder, FeedFault};
use std::alloc::Global;

/// A piece, and what is so far behind it: the answer, the bytes of the whole messages and those of the rest.
type Pushed = (&'static [u8], Result<u32, FeedFault>, usize, usize);

/// Each piece of a feed is answered as wanted.
fn are_pushed(alloc: Global, pieces: &[Pushed]) -> bool {
    let mut feed = FeedBuilder::new(alloc);
    for (piece, answer, whole, rest) in pieces {
        let pushed = feed.push(alloc, piece);
        if pushed != *answer || feed.whole().len() != *whole || feed.rest().len() != *rest {
            return false;
        }
    }
    true
}

/// The first byte of a feed, the next 107, and its last one.
#[test]
fn feed_in_three_pieces(rt: HostRuntime) {
    let (first, more) = ONE_ROW.split_at(1);
    let (middle, last) = more.split_at(107);
    let pieces = [
        (first, Ok(0), 0, 1),
        (middle, Ok(0), 0, 108),
        (last, Ok(1), 109, 0),
    ];
    assert!(rt; are_pushed(rt.alloc(), &pieces));
}

/// Nine bytes of a length that is begun, and a tenth above 1, which isn't taken; a tenth of 1 is.
const A_LENGTH_CUT: &[Pushed] = &[
    (b"\xff\xff\xff\xff\xff\xff\xff\xff\xff", Ok(0), 0, 9),
    (b"\x02", Err(FeedFault::Frame), 0, 9),
    (b"", Ok(0), 0, 9),
    (b"\x01", Ok(0), 0, 10),
];

#[test]
fn length_cut_then_broken(rt: HostRuntime) {
    assert!(rt; are_pushed(rt.alloc(), A_LENGTH_CUT));
}

/// A piece of whole messages with a broken length behind them isn't taken, not even its messages.
const A_WHOLE_PIECE_REFUSED: &[Pushed] = &[
    (b"\x01a\x02b", Ok(1), 2, 2),
    (
        b"c\x00\x80\x80\x80\x80\x80\x80\x80\x80\x80\x02",
        Err(FeedFault::Frame),
        2,
        2,
    ),
    (b"c\x00", Ok(3), 6, 0),
    (b"\x83\x00abc", Ok(4), 11, 0),
];

#[test]
fn refused_piece_is_not_taken(rt: HostRuntime) {
    assert!(rt; are_pushed(rt.alloc(), A_WHOLE_PIECE_REFUSED));
}

/// The next of some numbers that look random.
fn next(seed: u32) -> u32 {
    seed.wrapping_mul(1_664_525).wrapping_add(1_013_904_223)
}

/// A feed pushed in pieces of 0 to 2 * `most` bytes, or of one byte each where `most` is 0, is this feed with
/// three messages and no rest.
fn is_put_together(alloc: Global, feed: &[u8], most: u32, first: u32) -> Result<bool, FeedFault> {
    let mut pieces = FeedBuilder::new(alloc);
    let mut rest = feed;
    let mut seed = first;
    for _turn in 0..10_000u32 {
        if rest.is_empty() {
            break;
        }
        seed = next(seed);
        let size = if most == 0 {
            1
        } else {
            (seed >> 16) % (2 * most.min(1_000) + 1)
        };
        let (piece, behind) = rest.split_at(rest.len().min(size as usize));
        pieces.push(alloc, piece)?;
        rest = behind;
    }
    let messages = pieces.push(alloc, b"")?;
    Ok(messages == 3 && pieces.whole() == feed && pieces.rest().is_empty())
}

#[test]
fn feed_byte_by_byte(rt: HostRuntime) {
    assert!(rt; matches!(is_put_together(rt.alloc(), THREE_GROUPS, 0, 1), Ok(true)));
}

/// The feed is the same one however it is cut.
fn is_one_however_cut(alloc: Global) -> Result<bool, FeedFault> {
    for seed in 0..40 {
        if !is_put_together(alloc, THREE_GROUPS, 1 + seed % 20, seed)? {
            return Ok(false);
        }
    }
    Ok(true)
}

#[test]
fn feed_in_random_pieces(rt: HostRuntime) {
    assert!(rt; matches!(is_one_however_cut(rt.alloc()), Ok(true)));
}
