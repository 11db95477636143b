//! Laws of compaction, each the contract of a function without a body.

ghost use Rattle.compaction_laws.specs.Laws.{BasesKeepHistories, LeftRowsAreABase, FeedsStayWhatTheyWere, CompactedBytesOpen, CheckpointsGoOn, BoardsGoOn, AddedTablesGoOn, LeftRowsHaveColumns, PortionsAreABase, BytesAreCompacted, BytesAreCompactedUnderAll, LeftRowsAreOfAllDecisions, BasesAreOfAllDecisions};

use checkpoint_laws::{extended_boards_are_resumed, saved_boards_are_said_of_more};
use event_laws::{changes_have_columns, feeds_are_compacted};
use pk_copy::keys_tie_where_they_are_equal;

/// From a base on a history stays what it was: what stands at each key, what of it passes and is kept, and the positions.
pub fn bases_keep_histories()
    ensures { BasesKeepHistories }
{}

/// The rows that the first groups of a history leave, inserted by one group at the last one's position, are a base for them.
pub fn left_rows_are_a_base()
    ensures { LeftRowsAreABase }
{
    keys_tie_where_they_are_equal();
}

/// A feed of whose events a base stands for the front is a compacted feed: it opens under the feed's plan, its sound groups
/// are a base and the old ones behind it, and from the base on it says what the feed says.
pub fn feeds_stay_what_they_were()
    ensures { FeedsStayWhatTheyWere }
{
    feeds_are_compacted();
    keys_tie_where_they_are_equal();
}

/// Bytes that are messages with the events of a compacted feed open as that feed, where they aren't too many.
pub fn compacted_bytes_open()
    ensures { CompactedBytesOpen }
{}

/// A stream of a checkpoint at a position that a compacted feed still has goes on over it, with the same marks and rows.
pub fn checkpoints_go_on()
    ensures { CheckpointsGoOn }
{
    keys_tie_where_they_are_equal();
}

/// A checkpoint makes the same board over compacted feeds, where its streams stand at positions that these still have: with
/// the same rows, and of each stream with the same plan and marks.
pub fn boards_go_on()
    ensures { BoardsGoOn }
{
    keys_tie_where_they_are_equal();
}

/// A checkpoint makes over compacted feeds, under plans with tables appended, the board to which these tables are added over
/// the whole ones: with the same rows, and of each stream with the same plan and marks.
pub fn added_tables_go_on()
    ensures { AddedTablesGoOn }
{
    saved_boards_are_said_of_more();
    extended_boards_are_resumed();
    boards_go_on();
}

/// The rows that the front of a feed leaves are of tables whose columns the front says, and have these columns.
pub fn left_rows_have_columns()
    ensures { LeftRowsHaveColumns }
{
    changes_have_columns();
    keys_tie_where_they_are_equal();
}

/// The FIELDs in force behind a group's last event, and portions of the rows that are left there, are a base for all before.
pub fn portions_are_a_base()
    ensures { PortionsAreABase }
{}

/// Bytes that open as a feed, with other messages in the place of its first events, open under its plan as the compacted feed:
/// where those have the FIELDs in force, the rows that are left, and the position of the last group that they replace.
pub fn bytes_are_compacted()
    ensures { BytesAreCompacted }
{
    feeds_stay_what_they_were();
    left_rows_have_columns();
}

/// So do they under each plan over the same tables under which the replaced groups are sound.
pub fn bytes_are_compacted_under_all()
    ensures { BytesAreCompactedUnderAll }
{
    bytes_are_compacted();
}

/// The rows that a feed's first groups leave are the same under each plan over the same tables under which they are sound.
pub fn left_rows_are_of_all_decisions()
    ensures { LeftRowsAreOfAllDecisions }
{}

/// A base for the front of a feed under a plan is one under each plan over the same tables under which the front is sound.
pub fn bases_are_of_all_decisions()
    ensures { BasesAreOfAllDecisions }
{}
