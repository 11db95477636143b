//! The groups of a feed.

ghost use Rattle.std.specs.Prelude.{List, ◌≡◌, ◌||◌, ◌+◌, ◌^◌, ◌<◌, ◌≤◌, [], length, reverse, option_copied, Err, OnOk, IfOk, IfErr, IfSome};
ghost use Rattle.std.specs.List.{list_any};
ghost use Rattle.vevent.specs.Response.{response_of};
ghost use Rattle.list_laws.specs.Outcome.{GivesUnless, Refuses};
ghost use Rattle.source_feed.specs.FaultNumber.{meant_of};
ghost use Rattle.source_feed.specs.EventList.{end_of_message, events_of_feed};
ghost use Rattle.source_feed.specs.PastEvents.{PastEvents};
ghost use Rattle.source_feed.specs.declared.fault.FeedFault.TheVariants.{FeedTooLong};
ghost use Rattle.source_feed.specs.GroupValue.{GroupValue};
ghost use Rattle.source_feed.specs.GroupOrder.{AreInOrder};
ghost use Rattle.source_feed.specs.Grammar.{blocks};
ghost use Rattle.source_feed.specs.Groups.{groups};
ghost use Rattle.source_feed.specs.KeptBlocks.{AreGroupsOf};
ghost use Rattle.source_feed.specs.FirstFault.{StandsIn};
ghost use Rattle.source_feed.specs.TakesMemory.{WantsFrom, WantsMemory};
ghost use Rattle.source_feed.specs.Private.EventByEvent.{past_behind};
ghost use Rattle.source_feed.specs.Planned.{differs_from};
ghost use Rattle.source_feed.specs.Private.FeedTables.{AreNumbered, names_in};
ghost use Rattle.source_feed.specs.Private.KeptGroups.{AreOfTables};
ghost use Rattle.source_feed.specs.Private.NamedGroups.{all_named};
ghost use Rattle.source_feed.specs.Private.ReaderState.{IsBehind, TakesEvents, count_of};

use crate::all_groups::Groups;
use crate::fault::FeedFault;
use crate::field_check::FieldCheck;
use crate::group_reader::GroupReader;
use crate::kept::KeptGroups;
use crate::laws::groups_are_the_kept_blocks;
use crate::set_laws::set_laws;
use crate::source::Source;
use proto_wire::Frames;
use std::alloc::Global;
use vevent::Response;

/// The most bytes that a feed may have (this profile's limit).
pub const FEED_BYTES: usize = 2_147_483_647;

/// Takes the events of one message.
pub(crate) fn put_message<'h>(
    alloc: Global,
    reader: &mut GroupReader<'h>,
    source: &Source<'_>,
    field_check: &mut FieldCheck<'_>,
    message: &'h [u8],
) -> Result<(), FeedFault>
    requires { count_of reader.old + length (response_of message.now).items < 2 ^ 32 }
    ensures meaning { (base : List GroupValue) (earlier : PastEvents) → IsBehind base source.now earlier reader.old →
        TakesEvents base source.now (past_behind source.now earlier (response_of message.now).items (end_of_message (response_of message.now).fault)) result reader.new }
    ensures grows { OnOk result (count_of reader.new ≤ count_of reader.old + length (response_of message.now).items) }
    ensures numbers { OnOk result (AreNumbered (option_copied field_check.old.plan) reader.old.tables → AreNumbered (option_copied field_check.old.plan) reader.new.tables) }
    ensures plan { option_copied field_check.new.plan ≡ option_copied field_check.old.plan }
    ensures seen { OnOk result (field_check.new.differs ≡ (field_check.old.differs || list_any (differs_from (option_copied field_check.old.plan)) (response_of message.now).items)) }
    ensures memory { (base : List GroupValue) (earlier : PastEvents) → IsBehind base source.now earlier reader.old → result ≡ Err FeedFault.Memory → WantsFrom source.now earlier (response_of message.now).items }
{
    let mut events = Response::new(message);
    while let Some(event) = events.next_event()? {
        field_check.see(&event);
        reader.put(alloc, source, field_check, event)?;
    }
    Ok(())
}

/// Takes the events of all messages.
fn put_feed<'h>(
    alloc: Global,
    source: &Source<'_>,
    field_check: &mut FieldCheck<'_>,
    feed: &'h [u8],
) -> Result<GroupReader<'h>, FeedFault>
    requires { length feed.now < 2 ^ 31 }
    ensures ok { IfOk result (λ reader. TakesEvents [] source.now (past_behind source.now [] (events_of_feed feed.now).items (events_of_feed feed.now).fault) result reader) }
    ensures few { IfOk result (λ reader. count_of reader < 2 ^ 31) }
    ensures numbers { IfOk result (λ reader. AreNumbered (option_copied field_check.old.plan) reader.tables) }
    ensures err { IfErr result (λ fault. Refuses meant_of fault (past_behind source.now [] (events_of_feed feed.now).items (events_of_feed feed.now).fault)) }
    ensures seen { OnOk result (field_check.new.differs ≡ (field_check.old.differs || list_any (differs_from (option_copied field_check.old.plan)) (events_of_feed feed.now).items)) }
    ensures memory { result ≡ Err FeedFault.Memory → WantsMemory feed.now source.now }
{
    let mut reader = GroupReader::new(alloc);
    let mut frames = Frames::new(feed);
    while let Some(message) = frames.next_frame()? {
        put_message(alloc, &mut reader, source, field_check, message)?;
    }
    Ok(reader)
}

/// The groups of a feed with its tables, or its fault; each event is checked against the plan, where there is
/// one.
pub(crate) fn read<'h>(
    alloc: Global,
    feed: &'h [u8],
    source: &Source<'_>,
    field_check: &mut FieldCheck<'_>,
) -> Result<KeptGroups<'h>, FeedFault>
    ensures groups { GivesUnless meant_of all_named result (groups feed.now source.now) }
    ensures order { IfOk result (λ all. AreInOrder (λ (g : GroupValue). g.number) (λ (g : GroupValue). g.position) (all_named all)) }
    ensures few { IfOk result (λ all. length (all_named all) < 2 ^ 31) }
    ensures tables { IfOk result (λ all. AreOfTables (names_in all.tables) all.groups.items) }
    ensures numbers { IfOk result (λ all. AreNumbered (option_copied field_check.old.plan) all.tables) }
    ensures seen { OnOk result (field_check.new.differs ≡ (field_check.old.differs || list_any (differs_from (option_copied field_check.old.plan)) (events_of_feed feed.now).items)) }
    ensures too_long { 2 ^ 31 ≤ length feed.now → result ≡ Err FeedTooLong }
    ensures memory { result ≡ Err FeedFault.Memory → WantsMemory feed.now source.now }
{
    if feed.len() > FEED_BYTES {
        return Err(FeedFault::FeedTooLong);
    }
    set_laws();
    let reader = put_feed(alloc, source, field_check, feed)?;
    reader.end()
}

/// The groups of a feed that was recorded from a shard: the changes that are applied together, each
/// with the source's position after it, numbered from 1. A group whose position was seen is a repeat
/// and is skipped. Copies nothing of the feed. Takes time linear in the feed's bytes, also in those of a
/// hostile feed: each event is read once, and each position is laid once along the last kept one, where
/// an interval takes at most the logarithm of the kept intervals.
///
/// Refused: `FeedTooLong` for more than 2^31 - 1 bytes, before all else; then what stands first from
/// the left: `Frame` at a broken message's first byte; at an event first `Event`, then by its type
/// `Misplaced` (BEGIN), `Misplaced`, `NoFields`, `ColumnCount` (ROW), `ShardMissing`, `BadPosition`,
/// `Diverged` (GTID and VGTID), `NoPosition`, `Diverged` (COMMIT); `OpenAtEnd` at the feed's end; and
/// `Memory`.
pub fn read_groups<'h>(
    alloc: Global,
    feed: &'h [u8],
    keyspace: &str,
    shard: &str,
) -> Result<Groups<'h>, FeedFault>
    // The groups are given exactly where they are defined, and else the fault.
    ensures exact { GivesUnless meant_of (λ all. all.items) result (groups feed.now (record { keyspace = keyspace.now; shard = shard.now })) }
    // They are numbered 1, 2, .., their positions grow from the empty set, and they are fewer than 2^31.
    ensures order { IfOk result (λ all. AreInOrder (λ (g : GroupValue). g.number) (λ (g : GroupValue). g.position) all.items) }
    ensures few { IfOk result (λ all. length all.items < 2 ^ 31) }
    // They are the blocks of the feed's events that are kept, block by block.
    ensures kept { IfOk result (λ all. AreGroupsOf (blocks (record { keyspace = keyspace.now; shard = shard.now }) (reverse (events_of_feed feed.now).items)) all.items) }
    // A feed above the limit is refused for that, before all else.
    ensures too_long { 2 ^ 31 ≤ length feed.now → result ≡ Err FeedTooLong }
    // What a refusal says stands in the feed, and nothing is at fault before it.
    ensures first { IfErr result (λ fault. IfSome (meant_of fault) (StandsIn feed.now (record { keyspace = keyspace.now; shard = shard.now }))) }
    // Memory is wanted only where an event that takes memory is read, and nothing before it is at fault.
    ensures memory { result ≡ Err FeedFault.Memory → WantsMemory feed.now (record { keyspace = keyspace.now; shard = shard.now }) }
{
    groups_are_the_kept_blocks();
    let source = Source { keyspace, shard };
    let kept = read(alloc, feed, &source, &mut FieldCheck::new(None))?;
    Ok(Groups::new(kept))
}
