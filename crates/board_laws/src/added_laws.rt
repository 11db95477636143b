//! Laws of added tables, each the contract of a function without a body: they hold of the values that
//! contracts see boards as.

ghost use Rattle.board_laws.specs.AddedLaws.{ExtendedStatesAreSound, ExtendedBoardsAreLawful, ExtendedBoardsReadTheirFeeds, CutsStay, PositionsStay, AddedTablesAreBare, AddedTablesAreToCopy, FeedsThatGoOnArentStopped};

use pk_copy::keys_tie_where_they_are_equal;

/// A stream to which tables are added is sound, and stands at the position at which it stood.
pub fn extended_streams_are_sound()
    ensures sound { ExtendedStatesAreSound }
    ensures positions { PositionsStay }
{}

/// A lawful board to which tables are added is lawful and its streams read the new feeds. Each stream's rows
/// are due where they were.
pub fn extended_boards_are_lawful()
    ensures lawful { ExtendedBoardsAreLawful }
    ensures reads { ExtendedBoardsReadTheirFeeds }
    ensures cuts { CutsStay }
{
    keys_tie_where_they_are_equal();
}

/// No row of an added table stands in the target, and each stream has to copy them, also one that was
/// Running.
pub fn added_tables_are_to_copy()
    ensures bare { AddedTablesAreBare }
    ensures copying { AddedTablesAreToCopy }
{}

/// A feed that goes on has no group up to the applied one that is unsound or another.
pub fn feeds_go_on_or_stop()
    ensures { FeedsThatGoOnArentStopped }
{}
