//! Laws of boards, each the contract of a function without a body: they hold of the values that contracts
//! see a board as.

ghost use Rattle.board_laws.specs.Laws.{TouchesAreSteps, StillSteps, ClashesAreOfTheCut, StatesStaySound, ReadListsAreShort, PassedRowsAreOneList, FirstGroupsKeep, ChunksAreLeft, OneMoreTells, FreshBoardsAreLawful};

use pk_copy::{keys_read_are_table_keys, keys_tie_where_they_are_equal};

/// A step that nothing in the stream's own state is against keeps the board lawful where its touches are
/// made; whoever is in the way of its touches is in the way of the stream's new cut.
pub fn steps_keep_boards_lawful()
    ensures touches { TouchesAreSteps }
    ensures still { StillSteps }
    ensures clashes { ClashesAreOfTheCut }
    ensures sound { StatesStaySound }
    ensures short { ReadListsAreShort }
{
    keys_tie_where_they_are_equal();
    keys_read_are_table_keys();
}

/// The rows that some groups keep are one list, and the first groups of a history say it.
pub fn kept_rows_are_one_list()
    ensures list { PassedRowsAreOneList }
    ensures first_groups { FirstGroupsKeep }
{
    keys_tie_where_they_are_equal();
}

/// A chunk is of the rows that are left, and one row more than it takes tells whether it takes them all.
pub fn chunks_are_of_the_rows_left()
    ensures left { ChunksAreLeft }
    ensures one_more { OneMoreTells }
{}

/// A board of which nothing is read is lawful.
pub fn fresh_boards_are_lawful()
    ensures { FreshBoardsAreLawful }
{}
