//! Laws of changes, each the contract of a function without a body: they hold of the values that contracts see
//! boards as.

ghost use Rattle.change_laws.specs.Laws.{AllRowsLeadOn, BoardsGoOnAndOn, BoardsStandStill, ChangesLeadOn, MovesAddUp, MovesGoOn, StepsAreMoves, StepsAreOfOneStream, UntouchedKeysStand};

use pk_copy::keys_tie_where_they_are_equal;

/// Steps that read groups and apply them are moves, one after another too, and the streams of a board go on by them.
pub fn streams_go_on()
    ensures still { BoardsStandStill }
    ensures one { StepsAreMoves }
    ensures own { StepsAreOfOneStream }
    ensures more { MovesAddUp }
    ensures moved { MovesGoOn }
    ensures again { BoardsGoOnAndOn }
{}

/// Where the streams of a board have gone on, a key that none of them has touched since stands as it stood.
pub fn untouched_keys_stand()
    ensures { UntouchedKeysStand }
{}

/// What stands now at the keys that were touched leads from the rows that stood to those that stand; and all rows
/// lead from none.
pub fn changes_lead_on()
    ensures touched { ChangesLeadOn }
    ensures all { AllRowsLeadOn }
{
    keys_tie_where_they_are_equal();
}
