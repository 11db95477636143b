//! The feed of a board's stream grows, and so does its source.

ghost use Rattle.std.specs.Prelude.{◌≡◌, ◌+◌, ◌≤◌, ◌++◌, IfOk, IfErr, IsSomeAnd, OnErr, length, map, take, slice_get};
ghost use Rattle.source_feed.specs.Growing.{IsRefusedFor};
ghost use Rattle.apply_core.specs.Growing.{GrowsAt, IsRefusedGrow};
ghost use Rattle.live_core.specs.Live.{AreOfSources, IsRefusedPiece, TakesPiece};
ghost use Rattle.live_core.specs.Private.Grown.{IsAsBefore, SourceTakes};
ghost use Rattle.live_core.specs.Source.{IsOfSource, bytes_of};

use crate::source::{Source, front};
use apply_core::{FedBoard, GrowRefusal};
use source_feed::FeedFault;
use std::alloc::Global;

/// The feed of stream `s`, whose source this is, grows by a further piece: how many of its bytes are taken.
fn grow_one<'h>(
    alloc: Global,
    fed: &mut FedBoard<'h>,
    source: &mut Source<'h>,
    s: u8,
    piece: &'h [u8],
) -> Result<u32, GrowRefusal>
    requires { IsSomeAnd (slice_get fed.old.feeds s) (λ feed. IsOfSource feed source.old) }
    ensures grown { IfOk result (λ taken. SourceTakes s piece.now taken fed.old.feeds fed.new.feeds source.old source.new) }
    ensures refused { IfErr result (IsRefusedGrow s piece.now fed.old.feeds source.old.end) }
    ensures left { OnErr result ((fed.new.feeds ≡ fed.old.feeds) × IsAsBefore source.old source.new) }
    ensures board { fed.new.board ≡ fed.old.board }
{
    if source.pieces.reserve(1).is_err() {
        return Err(GrowRefusal::Piece(FeedFault::Memory));
    }
    let taken = fed.grow(alloc, s, &mut source.end, piece)?;
    let bytes = front(piece, taken as usize);
    source.put(bytes);
    Ok(bytes.len() as u32)
}

/// The feed of stream `s` grows by a further piece, and so does its source: how many of its bytes are taken.
pub(crate) fn grow_in<'h>(
    alloc: Global,
    fed: &mut FedBoard<'h>,
    sources: &mut [Source<'h>],
    s: u8,
    piece: &'h [u8],
) -> Result<u32, GrowRefusal>
    requires count { length sources.old ≡ length fed.old.feeds }
    requires known { AreOfSources fed.old.feeds sources.old }
    ensures count { length sources.new ≡ length fed.new.feeds }
    ensures known { AreOfSources fed.new.feeds sources.new }
    ensures taken { IfOk result (λ taken. TakesPiece s piece.now taken fed.old.feeds fed.new.feeds (map bytes_of sources.old) (map bytes_of sources.new)) }
    ensures refused { IfErr result (IsRefusedPiece s piece.now fed.old.feeds (map bytes_of sources.old)) }
    ensures left { OnErr result ((fed.new.feeds ≡ fed.old.feeds) × (map bytes_of sources.new ≡ map bytes_of sources.old)) }
    ensures board { fed.new.board ≡ fed.old.board }
{
    if s as usize >= sources.len() {
        return Err(GrowRefusal::NoStream);
    }
    let source = &mut sources[s as usize];
    grow_one(alloc, fed, source, s, piece)
}
