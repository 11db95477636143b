//! What the thread of a stream works with.

ghost use Rattle.std.specs.Prelude.{◌≡◌, ◌<◌, Some, IfSome, length, slice_get};
ghost use Rattle.std.specs.Option.{option_map};
ghost use Rattle.std.specs.List.{AllByRecursion};
ghost use Rattle.worker_rounds.specs.Private.OnRound.{IsReady};

use crate::began::Began;
use crate::going::Going;
use crate::ready::Ready;
use apply_core::Puts;
use pk_copy::CopyState;
use source_feed::Feed;
use std::alloc::{AllocError, Global};
use std::sync::{Mutex, Wait};

/// How many groups are offered and applied in one hold of the board at most.
const TURN: u32 = 16;

/// What the thread of a stream works with, beside others: it reads and applies the groups of its feed, in turns on the
/// board that they share.
#[derive(Drop)]
pub(crate) struct Place<'a, 'h, R, J: Began> {
    rt: &'a R,
    alloc: Global,
    going: &'a Mutex<Going<'h, J>>,
    feeds: &'a [Feed<'h>],
    stream: u8,
    most: u32,
    applied: u32,
    marks: CopyState,
    ghost of_feeds: { feeds.now ≡ J.fed.feeds },
    ghost there: { stream < length J.fed.feeds },
    ghost up_to: { most ≡ J.most },
    ghost of_marks: { option_map (λ state. state.marks) (slice_get J.fed.board.streams stream) ≡ Some marks },
}

impl<'a, 'h, R: Wait, J: Began> Place<'a, 'h, R, J> {
    /// The place of stream `stream` on the board that is shared. An error is want of memory.
    pub(crate) fn of(
        rt: &'a R,
        alloc: Global,
        going: &'a Mutex<Going<'h, J>>,
        feeds: &'a [Feed<'h>],
        stream: u8,
        most: u32,
    ) -> Result<Place<'a, 'h, R, J>, AllocError>
        requires feeds { feeds.now ≡ J.fed.feeds }
        requires there { stream < length feeds.now }
        requires most { most ≡ J.most }
    {
        let (applied, marks) = going.lock(rt).begin(alloc, stream)?;
        Ok(Place {
            rt,
            alloc,
            going,
            feeds,
            stream,
            most,
            applied,
            marks,
        })
    }

    /// Whether the stream's feed had groups at first that it hadn't applied.
    pub(crate) fn has_more(&self) -> bool {
        (self.applied as usize) < self.feeds[self.stream as usize].len()
    }

    /// Group `number` of the stream's feed, with what it puts, if it can be prepared.
    fn ready(&self, number: u32) -> Option<Ready<'h>>
        ensures { IfSome result (IsReady J.fed self.now.stream) }
    {
        let feed = &self.feeds[self.stream as usize];
        let Ok(group) = feed.prepare(self.alloc, number) else {
            return None;
        };
        let Ok(puts) = Puts::of_group(self.alloc, &self.marks, &group) else {
            return None;
        };
        Some(Ready { group, puts })
    }

    /// The number behind the last group of a turn that begins with this one: it takes sixteen at most, and none that the
    /// stream mayn't apply.
    fn behind(&self, number: u32) -> u32 {
        let last = self.applied.saturating_add(self.most);
        number.saturating_add(TURN).min(last.saturating_add(1))
    }

    /// The groups of the stream's feed from `number` on, as many as a turn takes, up to the first that can't be prepared.
    fn readies(&self, number: u32) -> Vec<Ready<'h>>
        ensures { AllByRecursion (IsReady J.fed self.now.stream) result.items }
    {
        let mut readies = Vec::new(self.alloc);
        for n in number..self.behind(number) {
            let Some(ready) = self.ready(n) else {
                return readies;
            };
            let Ok(()) = readies.push(ready) else {
                return readies;
            };
        }
        readies
    }

    /// A turn of the stream, of groups from `number` on, which are prepared before the board is taken. What they replace is
    /// dropped once it is given back.
    fn turn(&self, number: u32) -> Option<u32> {
        let readies = self.readies(number);
        let mut freed = Vec::new(self.alloc);
        let _ = freed.reserve(readies.len());
        self.going.lock(self.rt).turn(
            self.alloc,
            self.feeds,
            self.stream,
            self.most,
            readies,
            &mut freed,
        )
    }

    /// The stream goes on, turn after turn, as far as it can.
    pub(crate) fn work(&self) {
        let mut number = self.applied.saturating_add(1);
        for _ in 0..self.most {
            match self.turn(number) {
                None => return,
                Some(next) => number = next,
            }
        }
    }
}
