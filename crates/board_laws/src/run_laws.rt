//! Laws of schedules, each the contract of a function without a body.

ghost use Rattle.board_laws.specs.RunLaws.{StreamsFollowTheirOwnSteps, RunsStayLawful, StatesSayTheRows, RunsAreDetermined, StreamsAreIsolated, AloneWithTheSameRows, AloneBoardsExist, StreamsReadTheirFeeds, DisjointFeedsNeverClash, RowsAreReplayed, BoardsShowTheirSources, FedBoardsShowAll, FedBoardsStayFed, FedBoardsRunFed, FedBoardsMayGrow};

use pk_copy::keys_tie_where_they_are_equal;

/// After any list of steps each stream's state is the one behind its own steps that weren't refused, by its
/// feed alone, and the target's rows are those of the states. So two lists in which each stream took the
/// same steps end in the same board.
pub fn streams_follow_their_own_steps()
    ensures follow { StreamsFollowTheirOwnSteps }
    ensures lawful { RunsStayLawful }
    ensures rows { StatesSayTheRows }
{
    keys_tie_where_they_are_equal();
}

/// A list of steps has one list of answers and refusals on a lawful board and leaves one board, where
/// memory isn't wanted.
pub fn runs_are_determined()
    ensures { RunsAreDetermined }
{
    keys_tie_where_they_are_equal();
}

/// A stream doesn't notice the others: those of its own steps that no row of another stream and no want of
/// memory hindered have the same answers and refusals on a board where no other stream has a row, and leave
/// the stream the same state and the same rows.
pub fn streams_are_isolated()
    ensures isolated { StreamsAreIsolated }
    ensures rows { AloneWithTheSameRows }
    ensures alone { AloneBoardsExist }
{}

/// Each stream's read list stays a beginning of its feed's groups. Where no key is touched in two feeds
/// before their first unsound group, no step is refused since another stream's row stands at a key.
pub fn streams_read_their_feeds()
    ensures reads { StreamsReadTheirFeeds }
    ensures disjoint { DisjointFeedsNeverClash }
{}

/// Each stream's rows in the target are exactly the rows that replaying its applied groups from empty tables
/// leaves, that pass its filter and lie within its copied keys.
pub fn rows_are_replayed()
    ensures { RowsAreReplayed }
{}

/// Each stream of a board that reads its feed shows its source: a row stands for it at a key exactly where the
/// groups of its feed up to its recorded position leave it there, it passes the filter, and its key is copied.
pub fn boards_show_their_sources()
    ensures { BoardsShowTheirSources }
{}

/// A board with its feeds shows all their sources: each stream's rows are what the groups of its feed up to its recorded
/// position leave, filtered and copied, and there are no other rows. Any steps leave it so, and so does a feed that grows.
pub fn fed_boards_show_all()
    ensures show { FedBoardsShowAll }
    ensures step { FedBoardsStayFed }
    ensures run { FedBoardsRunFed }
    ensures grow { FedBoardsMayGrow }
{}
