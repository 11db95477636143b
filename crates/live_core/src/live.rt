//! A board that goes on with its feeds.

ghost use Rattle.std.specs.Prelude.{◌≡◌, None, Some, IfOk, IfErr, OnErr, OnOk, length, map, slice_get};
ghost use Rattle.std.specs.Option.{option_map_or};
ghost use Rattle.change_laws.specs.Changes.{LeadOn, changes_in};
ghost use Rattle.change_laws.specs.Since.{HasMoved};
ghost use Rattle.checkpoint_laws.specs.Written.{checkpoint_of};
ghost use Rattle.live_core.specs.Live.{AreApplied, AreCounted, AreOfSources, AreRunning, HaveEndedAs, IsLive, IsRefusedPiece, IsToldExactly, TakesPiece, told_rows};
ghost use Rattle.live_core.specs.Source.{bytes_of};
ghost use Rattle.worker_rounds.specs.Rounds.{ApplyUpTo, AreAnswers};

use crate::growing::grow_in;
use crate::source::Source;
use crate::told::{Told, applied_on};
use crate::touched::touched_since;
use apply_core::{FedBoard, GrowRefusal, StepRefusal, save};
use change_laws::{ChangedKeys, changes_lead_on, streams_go_on};
use std::alloc::{AllocError, Global};
use std::marker::Model;
use std::mem::replace;
use std::sync::Wait;
use std::thread::Threads;
use vrepl_choices::Threading;
use worker_rounds::run_round;

/// A board that goes on with its feeds: all tables of its streams are copied, the feeds grow, and the streams read and
/// apply their groups. It knows the bytes of which the feeds are, and what was told of its rows, so that it can be told
/// what changed since. At every time its streams show their sources.
#[derive(Drop)]
pub struct Live<'h> {
    fed: FedBoard<'h>,
    sources: Vec<Source<'h>>,
    told: Option<Told<'h>>,
}

impl<'h> Model for Live<'h> {
    ghost use Rattle.std.specs.Prelude.{map};
    ghost use Rattle.live_core.specs.Live.{LiveValue};
    ghost use Rattle.live_core.specs.Private.Kept.{IsKept};
    ghost use Rattle.live_core.specs.Source.{bytes_of};

    ghost Value = { LiveValue };

    ghost view = { λ l. record { fed = l.fed; bytes = map bytes_of l.sources.items; told = l.told } };

    ghost invariant = { λ l. IsKept l.fed.feeds l.fed.board l.sources.items l.told };
}

impl<'h> Live<'h> {
    /// A board of which nothing was told, with the sources of its feeds. Takes no memory.
    pub fn new(fed: FedBoard<'h>, sources: Vec<Source<'h>>) -> Live<'h>
        requires count { length sources.items ≡ length fed.feeds }
        requires sources { AreOfSources fed.feeds sources.items }
        requires running { AreRunning fed.board }
        ensures { result ≡ record { fed = fed.entry; bytes = map bytes_of sources.entry.items; told = None } }
    {
        Live {
            fed,
            sources,
            told: None,
        }
    }

    /// It shows its sources: a fact for contracts. Takes no memory.
    pub fn is_live(&self)
        ensures { IsLive self.now }
    {
        let _ = &self.sources;
        self.fed.shows();
    }

    /// The board with its feeds. Takes no memory.
    pub fn fed(&self) -> &FedBoard<'h>
        ensures fed { result.now ≡ self.now.fed }
        ensures live { IsLive self.now }
    {
        self.is_live();
        &self.fed
    }

    /// How many bytes of the feed of stream `s` are taken; 0 where there is no such stream. Takes no memory.
    pub fn taken(&self, s: u8) -> u64
        ensures taken { result ≡ option_map_or (λ bytes. length bytes) (slice_get self.now.bytes s) 0 }
        ensures live { IsLive self.now }
    {
        self.is_live();
        match self.sources.get(s as usize) {
            None => 0,
            Some(source) => source.taken(),
        }
    }

    /// The feed of stream `s` grows by a further piece of its bytes, which is lent as long as the feed's groups: how many
    /// bytes are taken, those up to the last message behind which no transaction is open. The rest is given again with more
    /// behind it. No stream reads or applies a group by it.
    ///
    /// Refused 115 where there is no such stream, else as `FeedEnd::grow`; then all is as it was.
    pub fn grow(&mut self, alloc: Global, s: u8, piece: &'h [u8]) -> Result<u32, GrowRefusal>
        // The bytes that are taken stand behind those of the stream's feed, which has their groups.
        ensures taken { IfOk result (λ taken. TakesPiece s piece.now taken self.old.fed.feeds self.new.fed.feeds self.old.bytes self.new.bytes) }
        ensures refused { IfErr result (IsRefusedPiece s piece.now self.old.fed.feeds self.old.bytes) }
        ensures left { OnErr result (self.new ≡ self.old) }
        ensures board { self.new.fed.board ≡ self.old.fed.board }
        ensures told { self.new.told ≡ self.old.told }
        ensures live { IsLive self.new }
    {
        let taken = grow_in(alloc, &mut self.fed, &mut self.sources, s, piece);
        self.is_live();
        taken
    }

    /// Each stream applies groups of its feed, in a thread beside others or one stream after another: up to `most` of them,
    /// and to the feed's end where there are fewer. The answer is of each stream whether it has come to its feed's end, or
    /// why it was refused: what was applied until then stays, and the others go on. An error is want of memory before any
    /// goes on; then nothing is done. May wait: streams that go on in threads wait for their board.
    pub fn more<R: Threads + Wait + Sync>(
        &mut self,
        rt: &R,
        alloc: Global,
        threading: Threading,
        most: u32,
    ) -> Result<Vec<Result<bool, StepRefusal>>, AllocError>
        // It is a list of steps that read groups and apply them.
        ensures moved { HasMoved self.old.fed.feeds self.old.fed.board self.new.fed.board }
        ensures kept { OnErr result (self.new.fed.board ≡ self.old.fed.board) }
        // Each stream has applied all groups of its feed, or so many more, or was stopped by this refusal.
        ensures answers { IfOk result (λ answers. AreAnswers most self.old.fed.feeds self.old.fed.board answers.items self.new.fed.board) }
        // None has applied more.
        ensures up_to { ApplyUpTo most self.old.fed.board self.new.fed.board }
        ensures ended { IfOk result (λ ended. HaveEndedAs ended.items self.new.fed.feeds self.new.fed.board) }
        ensures feeds { self.new.fed.feeds ≡ self.old.fed.feeds }
        ensures bytes { self.new.bytes ≡ self.old.bytes }
        ensures told { self.new.told ≡ self.old.told }
        ensures live { IsLive self.new }
    {
        streams_go_on();
        self.fed.is_fed();
        let answers = run_round(rt, alloc, threading, &mut self.fed, most);
        self.is_live();
        answers
    }

    /// Which keys have changed since the last board that was told: those that the streams' groups have touched since,
    /// and where none was told all rows. An error is want of memory.
    pub fn changed(&self, alloc: Global) -> Result<ChangedKeys, AllocError>
        // Who makes these changes to the rows that were told has the rows that are there.
        ensures lead { IfOk result (λ changed. LeadOn (told_rows self.now.told) (changes_in self.now.fed.board.rows changed) self.now.fed.board.rows) }
        // They are of just the keys that were touched.
        ensures exact { IfOk result (IsToldExactly self.now.told self.now.fed.board) }
        ensures live { IsLive self.now }
    {
        changes_lead_on();
        self.is_live();
        self.fed.is_fed();
        match &self.told {
            None => Ok(ChangedKeys::All),
            Some(told) => {
                let keys = touched_since(alloc, self.fed.board(), told)?;
                // (for the contract: that they rise)
                keys.len();
                Ok(ChangedKeys::Touched(keys))
            }
        }
    }

    /// How many keys have changed since the last board that was told: of all that `changed` gives. An error is want of
    /// memory.
    pub fn count(&self, alloc: Global) -> Result<u64, AllocError>
        ensures counted { IfOk result (λ count. AreCounted count self.now.told self.now.fed.board) }
        ensures live { IsLive self.now }
    {
        match self.changed(alloc)? {
            ChangedKeys::All => Ok(self.fed.board().target().len() as u64),
            ChangedKeys::Touched(keys) => Ok(keys.len() as u64),
        }
    }

    /// What `tell_as` keeps of the board as it stands: of each stream how many groups are applied. An error is want of
    /// memory.
    pub fn to_tell(&self, alloc: Global) -> Result<Vec<u32>, AllocError>
        ensures applied { IfOk result (λ applied. AreApplied applied.items self.now.fed.board) }
        ensures live { IsLive self.now }
    {
        self.is_live();
        applied_on(alloc, self.fed.board())
    }

    /// The board is told as it stands, by what `to_tell` gave of it. Takes no memory: so an answer can be made and written
    /// first, and then what was in it is told.
    pub fn tell_as(&mut self, applied: Vec<u32>)
        requires { AreApplied applied.items self.old.fed.board }
        ensures told { self.new.told ≡ Some self.new.fed.board }
        ensures fed { self.new.fed ≡ self.old.fed }
        ensures bytes { self.new.bytes ≡ self.old.bytes }
        ensures live { IsLive self.new }
    {
        streams_go_on();
        self.fed.is_fed();
        let told = Told::of(applied, self.fed.board());
        let _ = replace(&mut self.told, Some(told));
        self.is_live();
    }

    /// The board is told as it stands. An error is want of memory, and then what was told before still is.
    pub fn tell(&mut self, alloc: Global) -> Result<(), AllocError>
        ensures told { OnOk result (self.new.told ≡ Some self.new.fed.board) }
        ensures left { OnErr result (self.new.told ≡ self.old.told) }
        ensures fed { self.new.fed ≡ self.old.fed }
        ensures bytes { self.new.bytes ≡ self.old.bytes }
        ensures live { IsLive self.new }
    {
        let applied = self.to_tell(alloc)?;
        self.tell_as(applied);
        Ok(())
    }

    /// The bytes of the board's checkpoint, as `save` writes it. An error is want of memory.
    pub fn checkpoint(&self, alloc: Global) -> Result<Vec<u8>, AllocError>
        ensures checkpoint { IfOk result (λ bytes. bytes.items ≡ checkpoint_of self.now.fed.board) }
        ensures live { IsLive self.now }
    {
        self.is_live();
        save(alloc, self.fed.board())
    }
}
