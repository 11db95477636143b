//! Laws of positions.

ghost use Rattle.log_places.specs.Place.{PositionsRise};

use gtid_set::{union_is_the_least_set_over_both, within_is_subset};

/// Behind a transaction the position has all that it had, and more.
pub fn positions_rise()
    ensures { PositionsRise }
{
    within_is_subset();
    union_is_the_least_set_over_both();
}
