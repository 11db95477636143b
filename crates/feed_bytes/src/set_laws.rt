//! What is used of sets of pairs.

ghost use Rattle.source_feed.specs.Private.SetLaws.{SetLaws};

use gtid_set::{positions_are_canonical, union_with_a_superset_is_the_superset, within_is_subset};

/// What the laws of sets say, together.
pub(crate) fn set_laws()
    ensures { SetLaws }
{
    within_is_subset();
    union_with_a_superset_is_the_superset();
    positions_are_canonical();
}
