//! The feed of a board's stream grows by a further piece.

ghost use Rattle.std.specs.Prelude.{◌≡◌, IfOk, IfErr, IfSome, OnErr, slice_get};
ghost use Rattle.source_feed.specs.Growing.{AreOfOneFeed};
ghost use Rattle.apply_core.specs.Growing.{GrowsAt, IsRefusedGrow};

use crate::grow_refusal::GrowRefusal;
use source_feed::{Feed, FeedEnd};
use std::alloc::Global;

/// The feed of stream `s` grows by a further piece: how many of its bytes are taken.
pub(crate) fn grow_in<'h>(
    alloc: Global,
    feeds: &mut [Feed<'h>],
    s: u8,
    end: &mut FeedEnd<'h>,
    piece: &'h [u8],
) -> Result<u32, GrowRefusal>
    requires { IfSome (slice_get feeds.old s) (λ feed. AreOfOneFeed feed end.old) }
    ensures grown { IfOk result (λ taken. GrowsAt s piece.now taken feeds.old feeds.new end.old end.new) }
    ensures refused { IfErr result (IsRefusedGrow s piece.now feeds.old end.old) }
    ensures left { OnErr result ((feeds.new ≡ feeds.old) × (end.new ≡ end.old)) }
{
    if s as usize >= feeds.len() {
        return Err(GrowRefusal::NoStream);
    }
    let feed = &mut feeds[s as usize];
    match end.grow(alloc, feed, piece) {
        Ok(taken) => {
            // (for its contract: what is true of every feed)
            feed.plan();
            Ok(taken)
        },
        Err(fault) => Err(GrowRefusal::Piece(fault)),
    }
}
