//! The least of several positions.

ghost use Rattle.std.specs.Prelude.{◌≡◌, map};
ghost use Rattle.std.specs.Option.{option_map};
ghost use Rattle.checkpoint_places.specs.Least.{is_least, least_of};

use gtid_set::GtidSet;

/// Whether a position lies within all of these.
fn is_least(positions: &[&GtidSet], position: &GtidSet) -> bool
    ensures { result ≡ is_least (map (λ one. one.now) positions.now) position.now }
{
    for other in positions {
        if !position.is_within(other) {
            return false;
        }
    }
    true
}

/// The first of some positions that lies within all of them, if one does. Takes no memory.
pub fn least_of<'p>(positions: &[&'p GtidSet]) -> Option<&'p GtidSet>
    ensures { option_map (λ one. one.now) result ≡ least_of (map (λ one. one.now) positions.now) }
{
    for position in positions {
        if is_least(positions, position) {
            return Some(position);
        }
    }
    None
}
