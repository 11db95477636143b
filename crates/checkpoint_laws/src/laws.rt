//! Laws of checkpoints, each the contract of a function without a body: they hold of the values that
//! contracts see boards as.

ghost use Rattle.checkpoint_laws.specs.Added.{SavedBoardsAreSaidOfMore, ExtendedBoardsAreResumed};
ghost use Rattle.checkpoint_laws.specs.Laws.{CheckpointsAreReadAgain, CheckpointsSayOneThing, ResumedBoardsAreLawful, RestartedBoardsAreResumed, SavedBoardsAreSaid};

use gtid_set::printed_text_reads_back;
use pk_copy::{keys_are_those_of_kept_columns, keys_tie_where_they_are_equal};
use vevent::stream_parts_are_read_again;

/// Parts of streams that are written as a checkpoint are read as these parts, where they are within the
/// limits.
pub fn checkpoints_are_read_again()
    ensures { CheckpointsAreReadAgain }
{
    stream_parts_are_read_again();
}

/// Bytes say one thing at most, under well-formed plans.
pub fn checkpoints_say_one_thing()
    ensures { CheckpointsSayOneThing }
{
    keys_tie_where_they_are_equal();
}

/// What is kept of a board within the limits is what its checkpoint says, under well-formed plans.
pub fn saved_boards_are_said()
    ensures { SavedBoardsAreSaid }
{
    keys_are_those_of_kept_columns();
    stream_parts_are_read_again();
    printed_text_reads_back();
    keys_tie_where_they_are_equal();
}

/// Whatever the bytes, a board that they and the feeds make is lawful, and has the positions, marks and
/// rows that they say.
pub fn resumed_boards_are_lawful()
    ensures { ResumedBoardsAreLawful }
{
    keys_tie_where_they_are_equal();
}

/// Feeds that begin with the applied groups and what is kept of a board make the board after a restart of
/// each stream, and no other.
pub fn restarted_boards_are_resumed()
    ensures { RestartedBoardsAreResumed }
{
    keys_tie_where_they_are_equal();
}

/// What is kept of a board within the limits is what its checkpoint says under plans with tables appended, and
/// that these wait.
pub fn saved_boards_are_said_of_more()
    ensures { SavedBoardsAreSaidOfMore }
{
    keys_are_those_of_kept_columns();
    stream_parts_are_read_again();
    printed_text_reads_back();
    keys_tie_where_they_are_equal();
}

/// Feeds that go on from a board, under plans with tables appended, and its checkpoint make the board to which
/// the tables are added, and no other.
pub fn extended_boards_are_resumed()
    ensures { ExtendedBoardsAreResumed }
{
    keys_tie_where_they_are_equal();
}
