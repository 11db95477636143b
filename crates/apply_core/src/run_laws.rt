//! Laws of boards whose streams have ended, and of feeds that grow, each the contract of a function without a body.

ghost use Rattle.apply_core.specs.Ended.{EndedBoardsHaveTheUnion, EndedFeedsAreSound, UnionsAreOne};
ghost use Rattle.apply_core.specs.Growing.{LongerFeedsHaveGrown};

use pk_copy::keys_tie_where_they_are_equal;

/// Where all streams of a board have ended, all groups of their feeds are sound, the rows of its target are the union
/// of what the feeds keep, and there is one such list of rows. So two runs over the same feeds that answer, alone or in
/// threads and by whatever policies, have the same rows, and the same dump.
pub fn ended_boards_have_the_union()
    ensures rows { EndedBoardsHaveTheUnion }
    ensures sound { EndedFeedsAreSound }
    ensures one { UnionsAreOne }
{
    keys_tie_where_they_are_equal();
}

/// A feed of the same plan that begins with all groups that it had has grown, as `FedBoard::put_grown` asks: those that
/// were sound come first among its sound groups.
pub fn longer_feeds_have_grown()
    ensures { LongerFeedsHaveGrown }
{}
