//! Laws of the group up to which a feed is compacted, each the contract of a function without a body.

ghost use Rattle.compact_limit.specs.Laws.{LimitsAreOne, LimitsArentRefused};

use checkpoint_laws::checkpoints_say_one_thing;

/// There is one such group at most, and where there is one nothing is refused.
pub fn limits_are_one()
    ensures one { LimitsAreOne }
    ensures or_refused { LimitsArentRefused }
{
    checkpoints_say_one_thing();
}
