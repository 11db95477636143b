//! The bytes of a feed that grows.

ghost use Rattle.std.specs.Prelude.{◌≡◌, ◌+◌, ◌^◌, ◌<◌, ◌≤◌, ◌++◌, List, ℕ, None, IfOk, IfErr, IfSome, OnErr, OnOk, drop, length, take, vec_len, vec_capacity};
ghost use Rattle.std.specs.Arc.{arc_value};
ghost use Rattle.source_feed.specs.FaultNumber.{meant_of};
ghost use Rattle.source_feed.specs.Growing.{IsRefusedFor, IsSettledFront, fault_so_far};
ghost use Rattle.live_core.specs.Source.{IsOfSource, bytes_of};

use filter_rule::Plan;
use source_feed::{Feed, FeedEnd, FeedFault};
use std::alloc::Global;
use std::sync::Arc;

/// The bytes of a feed so far, as the pieces in which they came, and where they end. They are lent as long as the
/// feed's groups.
#[derive(Drop)]
pub struct Source<'h> {
    pub(crate) pieces: Vec<&'h [u8]>,
    pub(crate) taken: u64,
    pub(crate) end: FeedEnd<'h>,
}

/// The first so many bytes, or all.
#[tactic(auto, using(list_laws::proofs::Fronts::front_within))]
pub(crate) fn front(bytes: &[u8], most: usize) -> &[u8]
    ensures { result.now ≡ take most bytes.now }
{
    &bytes[..bytes.len().min(most)]
}

impl<'h> Source<'h> {
    /// A feed under a plan, of the bytes that have come of it, and its source: those up to the last message behind which
    /// no transaction is open are taken, and the rest is given again with more behind it. Refused as `FeedEnd::grow`.
    pub fn begin(
        alloc: Global,
        bytes: &'h [u8],
        plan: &Arc<Plan>,
    ) -> Result<(Feed<'h>, Source<'h>), FeedFault>
        ensures feed { IfOk result (λ begun. IsOfSource begun.0 begun.1) }
        ensures plan { IfOk result (λ begun. begun.0.plan ≡ arc_value plan.now) }
        ensures taken { IfOk result (λ begun. (rest : List ℕ) × IsSettledFront bytes.now (bytes_of begun.1) rest) }
        ensures sound { IfOk result (λ _. fault_so_far (arc_value plan.now) bytes.now ≡ None) }
        ensures refused { IfErr result (λ fault. IfSome (meant_of fault) (IsRefusedFor (arc_value plan.now) bytes.now)) }
    {
        let (mut feed, end) = FeedEnd::begin(alloc, plan)?;
        let pieces = Vec::new(alloc);
        let mut source = Source {
            pieces,
            taken: 0,
            end,
        };
        source.grow(alloc, &mut feed, bytes)?;
        Ok((feed, source))
    }

    /// How many bytes of the feed are taken.
    pub fn taken(&self) -> u64
        ensures { result ≡ self.now.taken }
    {
        self.taken
    }

    /// Puts bytes behind the others. There is room for a piece.
    pub(crate) fn put(&mut self, bytes: &'h [u8])
        requires room { vec_len self.old.pieces < vec_capacity self.old.pieces }
        requires few { self.old.taken + length bytes.now < 2 ^ 64 }
        ensures bytes { bytes_of self.new ≡ bytes_of self.old ++ bytes.now }
        ensures taken { self.new.taken ≡ self.old.taken + length bytes.now }
        ensures end { self.new.end ≡ self.old.end }
    {
        if !bytes.is_empty() {
            self.pieces.push_reserved(bytes);
            self.taken += bytes.len() as u64;
        }
    }

    /// Grows a feed, before it is a board's, by a further piece, as `FeedEnd::grow` does: how many of its bytes are taken.
    /// The rest is given again with more behind it.
    pub fn grow(
        &mut self,
        alloc: Global,
        feed: &mut Feed<'h>,
        piece: &'h [u8],
    ) -> Result<u32, FeedFault>
        requires { IsOfSource feed.old self.old }
        ensures feed { IsOfSource feed.new self.new }
        ensures bytes { IfOk result (λ taken. bytes_of self.new ≡ bytes_of self.old ++ take taken piece.now) }
        ensures within { IfOk result (λ taken. taken ≤ length piece.now) }
        ensures taken { IfOk result (λ taken. IsSettledFront (bytes_of self.old ++ piece.now) (bytes_of self.new) (drop taken piece.now)) }
        ensures longer { OnOk result (take (length feed.old.groups) feed.new.groups ≡ feed.old.groups) }
        ensures plan { feed.new.plan ≡ feed.old.plan }
        // Nothing of what has come is at fault, what isn't taken included.
        ensures sound { OnOk result (fault_so_far feed.old.plan (bytes_of self.old ++ piece.now) ≡ None) }
        ensures refused { IfErr result (λ fault. IfSome (meant_of fault) (IsRefusedFor feed.old.plan (bytes_of self.old ++ piece.now))) }
        ensures left { OnErr result ((bytes_of self.new ≡ bytes_of self.old) × (feed.new ≡ feed.old)) }
    {
        self.pieces.reserve(1)?;
        let taken = self.end.grow(alloc, feed, piece)?;
        let bytes = front(piece, taken as usize);
        self.put(bytes);
        Ok(taken)
    }
}
