//! Laws of two lists of steps that agree, each the contract of a function without a body.

ghost use Rattle.board_laws.specs.Agreement.{SameStepsSameBoard, DisjointRunsShowAlike, LoneRunsShowAlike};

use pk_copy::keys_tie_where_they_are_equal;

/// Two lists of steps in which each stream took the same steps end in the same board, in whatever order the
/// streams' steps stood. Where no key is touched in two feeds, a stream with the same feed, state and steps
/// in two runs has the same replies, state and rows, whatever the other streams do, want of memory aside. So
/// has a stream whose own steps are taken again where no other stream has a row, but for those that a row of
/// another stream or want of memory hindered.
pub fn agreeing_runs_show_alike()
    ensures same { SameStepsSameBoard }
    ensures disjoint { DisjointRunsShowAlike }
    ensures lone { LoneRunsShowAlike }
{
    keys_tie_where_they_are_equal();
}
