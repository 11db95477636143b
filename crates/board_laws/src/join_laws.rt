//! Laws of joins, each the contract of a function without a body: they hold of the values that contracts
//! see boards as.

ghost use Rattle.board_laws.specs.JoinLaws.{StatesAreOrdered, StatesThatTieAreEqual, RunningStatesByWhatIsRead, StatesApartAreLawful, BoardsAreOfTheirStates, JoinsAreLawful, JoinsCommute, JoinsWithItself, JoinsAssociate, RunningJoinsByWhatIsRead, DisjointFeedsCanBeJoined, CompatibleBoardsAreJoined};

use pk_copy::keys_tie_where_they_are_equal;

/// The order of a stream's states is total, and states of one plan and one history that it holds equal are
/// equal. Where all tables are copied it is the order by what is applied, then by what is read.
pub fn states_are_ordered()
    ensures total { StatesAreOrdered }
    ensures tie { StatesThatTieAreEqual }
    ensures running { RunningStatesByWhatIsRead }
{
    keys_tie_where_they_are_equal();
}

/// The joined board of two lawful boards is lawful: so are any states whose cuts share no key, with the rows
/// of their cuts, and each lawful board is such a one.
pub fn joined_boards_are_lawful()
    ensures states { StatesApartAreLawful }
    ensures one { BoardsAreOfTheirStates }
    ensures boards { JoinsAreLawful }
{
    keys_tie_where_they_are_equal();
}

/// Two boards are joined to the same either way round, a board with itself to itself, and three of which
/// each two can be joined to the same in either grouping, which can be. Where all tables are copied only what
/// is applied and read decides.
pub fn joins_are_a_greatest_board()
    ensures commute { JoinsCommute }
    ensures itself { JoinsWithItself }
    ensures associate { JoinsAssociate }
    ensures running { RunningJoinsByWhatIsRead }
{
    keys_tie_where_they_are_equal();
}

/// Boards that read the same feeds, which share no key, can always be joined, also while they copy; and boards that can be joined
/// are refused for want of memory alone.
pub fn boards_can_be_joined()
    ensures disjoint { DisjointFeedsCanBeJoined }
    ensures joined { CompatibleBoardsAreJoined }
{
    keys_tie_where_they_are_equal();
}
