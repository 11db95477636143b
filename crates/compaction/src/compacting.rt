//! A feed whose first groups are compacted.

ghost use Rattle.std.specs.Prelude.{◌≡◌, ◌⊎◌, IfErr, IfOk, Ok, Err};
ghost use Rattle.source_feed.specs.Planned.{groups_under};
ghost use Rattle.compaction.specs.Compacting.{HasGroup, IsCause, IsCompaction, IsOver};
ghost use Rattle.compaction.specs.Private.Limits.{IsOverBy};
ghost use Rattle.compaction.specs.Private.Written.{AreNamed, IsWrittenOver};

use crate::base::{push_rows, write_end, write_fields, write_others};
use crate::compacted_feed::CompactedFeed;
use crate::cut::{UnknownTables, cut};
use crate::fault::{CompactFault, WriteFault};
use crate::left_rows::{LeftRows, rows_up_to};
use compaction_laws::{bytes_are_compacted, left_rows_have_columns};
use event_laws::messages_are_read_again;
use feed_bytes::Cut;
use pace::Meter;
use source_feed::Feed;
use std::alloc::Global;

/// A compacted feed.
#[derive(Drop)]
pub struct Compaction<'h> {
    /// Its bytes: the base's messages, and what stands behind the replaced events.
    pub feed: CompactedFeed<'h>,
    /// How many groups the base is in the place of, from 1.
    pub groups: u32,
    /// How many rows the base has.
    pub rows: usize,
}

/// Puts a base in the place of a feed's groups up to the one of a number, from 1, wherever that ends, also inside a message.
/// The base is one group at that group's position; it has the FIELDs in force there and the rows that the groups leave,
/// whether or not these pass the filter. The other events of the message that the group ends in follow as a message of their
/// own; what is behind stays byte for byte. That these are the feed's bytes is the caller's.
///
/// Takes time in the bytes, with a search of a key for each touch before the cut, and memory for the rows that are left;
/// with `UnknownTables::Refused`, where the feed has a FIELD of a table that the plan lacks, for the feed's groups once more,
/// before that. A group is a part of the work for each time that it is looked at. The new feed lends its rows, and what stands
/// behind the base, from the bytes.
///
/// Refused in this order: `NoCut` where the feed has no such group, whatever memory there is; `UnknownTable` where changes of tables that the plan
/// lacks would be lost and aren't to be left out; `Unsound` for the first of the groups that isn't sound; `TooLong` where
/// what would be written is beyond the limits. Any other error is want of memory.
pub fn compact<'h, M: Meter>(
    alloc: Global,
    bytes: &'h [u8],
    feed: &Feed<'h>,
    number: u32,
    unknown: UnknownTables,
    meter: &M,
) -> Result<Compaction<'h>, CompactFault>
    requires { groups_under bytes.now feed.now.plan ≡ Ok feed.now.groups }
    // The new feed opens under the feed's plan as the compacted one, up to just the group of the number.
    ensures compacted { IfOk result (λ made. IsCompaction feed.now bytes.now unknown made.groups made.rows made.feed) }
    ensures exact { IfOk result (λ made. made.groups ≡ number) }
    // What a refusal says stands in the feed, and what an earlier one says doesn't.
    ensures cause { IfErr result (IsCause feed.now bytes.now unknown number) }
    // That the feed has no such group is told whatever memory there is.
    ensures none { (result ≡ Err CompactFault.NoCut) ⊎ HasGroup feed.now number }
{
    bytes_are_compacted();
    left_rows_have_columns();
    messages_are_read_again();
    feed.plan();
    let cut = cut(alloc, bytes, feed, number, unknown, meter)?;
    let rows = rows_up_to(alloc, feed, number, meter)?;
    let new = with_base(alloc, feed, &rows, cut)?;
    Ok(Compaction {
        feed: new,
        groups: number,
        rows: rows.len(),
    })
}

/// The base of a cut feed, and behind it the rest as it stands.
fn with_base<'h>(
    alloc: Global,
    feed: &Feed<'h>,
    rows: &LeftRows<'h>,
    cut: Cut<'h>,
) -> Result<CompactedFeed<'h>, WriteFault>
    requires { AreNamed feed.now.plan cut.fields.items rows.now }
    ensures over { IfOk result (λ new. IsWrittenOver feed.now.plan cut.entry.fields.items rows.now cut.entry.place.now cut.entry.others cut.entry.rest.now new) }
    ensures long { IfErr result (IsOverBy (IsOver feed.now.plan cut.entry.fields.items rows.now cut.entry.place.now cut.entry.others cut.entry.rest.now)) }
{
    let mut head = Vec::new(alloc);
    write_fields(alloc, &mut head, &cut.fields)?;
    let mut portions = Vec::new(alloc);
    push_rows(alloc, &mut portions, feed.plan(), &cut.fields, rows)?;
    let mut tail = Vec::new(alloc);
    write_end(alloc, &mut tail, cut.place)?;
    write_others(alloc, &mut tail, cut.others)?;
    let new = CompactedFeed::new(head, portions, tail, cut.rest)?;
    Ok(new)
}
