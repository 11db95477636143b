//! A feed that grows by further pieces.

ghost use Rattle.std.specs.Prelude.{◌≡◌, ◌||◌, ◌+◌, ◌^◌, ◌<◌, ◌≤◌, ◌++◌, ℕ, List, false, None, length, take, drop, option_copied, Err, OnOk, OnErr, IfOk, IfErr, IfSome};
ghost use Rattle.std.specs.List.{list_any};
ghost use Rattle.list_laws.specs.Outcome.{Gives};
ghost use Rattle.proto_wire.specs.Field.{bytes_at, sized_at};
ghost use Rattle.source_feed.specs.FaultNumber.{meant_of};
ghost use Rattle.source_feed.specs.declared.fault.FeedFault.TheVariants.{FeedTooLong};
ghost use Rattle.source_feed.specs.GroupValue.{GroupValue};
ghost use Rattle.source_feed.specs.PastEvents.{PastEvents, is_open};
ghost use Rattle.source_feed.specs.Planned.{differs_from};
ghost use Rattle.source_feed.specs.TakesMemory.{WantsFrom};
ghost use Rattle.source_feed.specs.Growing.{IsSettledFront, IsRefusedFor, IsEndOf, AreOfOneFeed, events_so_far, fault_so_far};
ghost use Rattle.source_feed.specs.Private.EventByEvent.{past_behind};
ghost use Rattle.source_feed.specs.Private.FeedTables.{AreNumbered};
ghost use Rattle.source_feed.specs.Private.ReaderState.{IsBehind, TakesEvents, count_of};
ghost use Rattle.source_feed.specs.Private.ReadOn.{IsReadOn, IsFoundIn, IsSettledRead};

use crate::fault::FeedFault;
use crate::feed::Feed;
use crate::feed_end::FeedEnd;
use crate::field_check::FieldCheck;
use crate::group_reader::GroupReader;
use crate::groups::{FEED_BYTES, put_message};
use crate::kept::KeptGroups;
use crate::pieces::is_no_length;
use crate::planned::planned_of_tables;
use crate::set_laws::set_laws;
use crate::source::Source;
use proto_wire::{WireFault, varint_of};
use std::alloc::Global;

/// The first `size` bytes, and those after them.
fn bytes_of(size: u64, bytes: &[u8]) -> Result<(&[u8], &[u8]), WireFault>
    ensures { Gives (λ x. (x.0.now, x.1.now)) result (bytes_at size bytes.now) }
{
    if (bytes.len() as u64) < size {
        return Err(WireFault::Truncated);
    }
    Ok(bytes.split_at(size as usize))
}

/// The message at the front, and the bytes after it.
#[tactic(auto, unfolding(proto_wire::specs::Field::sized_at))]
fn message_of(bytes: &[u8]) -> Result<(&[u8], &[u8]), WireFault>
    ensures { Gives (λ x. (x.0.now, x.1.now)) result (sized_at bytes.now) }
{
    let (size, rest) = varint_of(bytes)?;
    bytes_of(size, rest)
}

/// Takes the messages of a piece, up to one that is cut short. Gives what stands behind the last message behind
/// which no transaction is open.
fn put_piece<'h>(
    alloc: Global,
    reader: &mut GroupReader<'h>,
    source: &Source<'_>,
    field_check: &mut FieldCheck<'_>,
    piece: &'h [u8],
) -> Result<&'h [u8], FeedFault>
    requires few { count_of reader.old + length piece.now < 2 ^ 32 }
    requires behind { (base : List GroupValue) × (earlier : PastEvents) × IsBehind base source.now earlier reader.old }
    ensures meaning { (base : List GroupValue) (earlier : PastEvents) → IsBehind base source.now earlier reader.old →
        TakesEvents base source.now (past_behind source.now earlier (events_so_far piece.now).items (events_so_far piece.now).fault) result reader.new }
    ensures due { (base : List GroupValue) (earlier : PastEvents) → IsBehind base source.now earlier reader.old → is_open earlier ≡ false →
        IfOk result (λ due. (front : List ℕ) × IsSettledFront piece.now front due.now) }
    ensures grows { OnOk result (count_of reader.new ≤ count_of reader.old + length piece.now) }
    ensures numbers { OnOk result (AreNumbered (option_copied field_check.old.plan) reader.old.tables → AreNumbered (option_copied field_check.old.plan) reader.new.tables) }
    ensures plan { option_copied field_check.new.plan ≡ option_copied field_check.old.plan }
    ensures seen { OnOk result (field_check.new.differs ≡ (field_check.old.differs || list_any (differs_from (option_copied field_check.old.plan)) (events_so_far piece.now).items)) }
    ensures memory { (base : List GroupValue) (earlier : PastEvents) → IsBehind base source.now earlier reader.old → result ≡ Err FeedFault.Memory → WantsFrom source.now earlier (events_so_far piece.now).items }
{
    let mut rest = piece;
    let mut due = piece;
    loop {
        match message_of(rest) {
            Ok((message, behind)) => {
                put_message(alloc, reader, source, field_check, message)?;
                rest = behind;
                if !reader.is_open() {
                    due = behind;
                }
            }
            Err(cause) if is_no_length(cause) => return Err(FeedFault::Frame),
            Err(_) => return Ok(due),
        }
    }
}

/// Reads a piece behind a feed's end, and how many of its bytes are settled.
fn read_piece<'h>(
    alloc: Global,
    end: &FeedEnd<'h>,
    feed: &Feed<'h>,
    piece: &'h [u8],
) -> Result<(GroupReader<'h>, usize), FeedFault>
    requires one { AreOfOneFeed feed.now end.now }
    requires short { end.now.length + length piece.now < 2 ^ 31 }
    ensures read { (bytes : List ℕ) → IsEndOf bytes feed.now end.now → IfOk result (λ read. IsReadOn bytes feed.now piece.now read.0 read.1) }
    ensures refused { (bytes : List ℕ) → IsEndOf bytes feed.now end.now → IfErr result (λ fault. IfSome (meant_of fault) (IsFoundIn bytes feed.now piece.now)) }
{
    let plan = feed.plan();
    let source = Source {
        keyspace: plan.keyspace(),
        shard: plan.shard(),
    };
    let mut field_check = FieldCheck::new(Some(plan));
    let mut reader = GroupReader::behind(alloc, feed.start()?, end.tables.copy()?);
    let due = put_piece(alloc, &mut reader, &source, &mut field_check, piece)?;
    if field_check.differs {
        return Err(FeedFault::FieldsDiffer);
    }
    Ok((reader, piece.len() - due.len()))
}

/// Reads the settled bytes of a piece, where nothing of the whole piece is at fault.
fn read_settled<'h>(
    alloc: Global,
    end: &FeedEnd<'h>,
    feed: &Feed<'h>,
    piece: &'h [u8],
) -> Result<(GroupReader<'h>, usize), FeedFault>
    requires one { AreOfOneFeed feed.now end.now }
    requires short { end.now.length + length piece.now < 2 ^ 31 }
    ensures read { (bytes : List ℕ) → IsEndOf bytes feed.now end.now → IfOk result (λ read. IsSettledRead bytes feed.now piece.now read.0 read.1) }
    ensures refused { (bytes : List ℕ) → IsEndOf bytes feed.now end.now → IfErr result (λ fault. IfSome (meant_of fault) (IsFoundIn bytes feed.now piece.now)) }
{
    let (reader, taken) = read_piece(alloc, end, feed, piece)?;
    if taken == piece.len() {
        return Ok((reader, taken));
    }
    let (reader, _) = read_piece(alloc, end, feed, &piece[..taken])?;
    Ok((reader, taken))
}

impl<'h> FeedEnd<'h> {
    /// Grows the feed by a further piece, of which it borrows: takes the piece's bytes up to the last message behind
    /// which no transaction is open, and answers how many these are. The rest is given again with more behind it. The
    /// groups that were there stay the first ones. Copies nothing of the piece. Takes time linear in the piece's bytes
    /// and in the feed's tables.
    ///
    /// Refused, and then nothing is taken: `FeedTooLong` where all bytes so far would be more than 2^31 - 1, before
    /// all else; then as a feed of all these bytes is refused, but that a message that is cut short and a transaction
    /// that is open at their end are no fault; and `Memory`.
    pub fn grow(
        &mut self,
        alloc: Global,
        feed: &mut Feed<'h>,
        piece: &'h [u8],
    ) -> Result<u32, FeedFault>
        requires { AreOfOneFeed feed.old self.old }
        // Feed and end stay those of one feed, also after a refusal, so a caller can go on with both.
        ensures one { AreOfOneFeed feed.new self.new }
        ensures within { IfOk result (λ taken. taken ≤ length piece.now) }
        // What is taken ends with the last message behind which no transaction is open.
        ensures taken { (bytes : List ℕ) → IsEndOf bytes feed.old self.old →
            IfOk result (λ taken. IsSettledFront (bytes ++ piece.now) (bytes ++ take taken piece.now) (drop taken piece.now)) }
        // The feed then has the groups of all bytes so far.
        ensures groups { (bytes : List ℕ) → IsEndOf bytes feed.old self.old → IfOk result (λ taken. IsEndOf (bytes ++ take taken piece.now) feed.new self.new) }
        // The groups that were there are the first of them, under the same plan.
        ensures longer { OnOk result (take (length feed.old.groups) feed.new.groups ≡ feed.old.groups) }
        ensures plan { feed.new.plan ≡ feed.old.plan }
        // What a refusal says stands in all bytes, those of the piece behind those so far.
        ensures refused { (bytes : List ℕ) → IsEndOf bytes feed.old self.old → IfErr result (λ fault. IfSome (meant_of fault) (IsRefusedFor feed.old.plan (bytes ++ piece.now))) }
        // Nothing of what has come is at fault, what isn't taken included.
        ensures sound { (bytes : List ℕ) → IsEndOf bytes feed.old self.old → OnOk result (fault_so_far feed.old.plan (bytes ++ piece.now) ≡ None) }
        // Too many bytes are found before all else.
        ensures too_long { (bytes : List ℕ) → IsEndOf bytes feed.old self.old → 2 ^ 31 ≤ length (bytes ++ piece.now) → result ≡ Err FeedTooLong }
        // After a refusal feed and end are as they were.
        ensures left { OnErr result ((self.new ≡ self.old) × (feed.new ≡ feed.old)) }
    {
        if piece.len() > FEED_BYTES - self.length {
            return Err(FeedFault::FeedTooLong);
        }
        // (for their contracts: what is true of every feed, and of sets)
        feed.plan();
        set_laws();
        let (reader, taken) = read_settled(alloc, self, feed, piece)?;
        let KeptGroups { tables, groups } = reader.end()?;
        feed.put_behind(planned_of_tables(alloc, &tables, groups)?)?;
        self.tables = tables;
        self.length += taken;
        Ok(taken as u32)
    }
}
