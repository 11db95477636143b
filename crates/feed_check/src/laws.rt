//! Laws of what is told.

ghost use Rattle.std.specs.Prelude.{◌≡◌, ◌↔◌, List, [], reverse};
ghost use Rattle.feed_check.specs.Base.{BasesAreTold};
ghost use Rattle.feed_check.specs.Clean.{FaultlessFeedsNeverClash, TellsUnlessClean, WarnsUnlessFaultless};
ghost use Rattle.feed_check.specs.KeyedChanges.{KeyedChangeValue};
ghost use Rattle.feed_check.specs.Checked.{CheckedValue};
ghost use Rattle.feed_check.specs.Findings.{findings_of, AreTrue};
ghost use Rattle.feed_check.specs.Report.{all_notes, all_warnings, has_some};
ghost use Rattle.feed_check.specs.Shared.{histories_of, shared_of, IsTold};

use board_laws::streams_read_their_feeds;
use pk_copy::keys_tie_where_they_are_equal;

/// Nothing is told of changes exactly where each of them is true of the rows that those before it leave.
pub fn nothing_is_found_where_all_are_true()
    ensures { (changes : List KeyedChangeValue) → (findings_of changes ≡ []) ↔ AreTrue (reverse changes) }
{}

/// So many rows are told of the group that a feed begins with exactly where it is a base of so many: no change of it to the
/// plan's tables has a row before, and so many have a row after.
pub fn bases_are_told()
    ensures { BasesAreTold }
{}

/// Nothing is told of keys that two feeds touch exactly where there is none; else the least of them, and two streams
/// whose feeds touch it.
pub fn the_least_key_of_two_feeds_is_told()
    ensures { (checks : List CheckedValue) → IsTold (histories_of checks) (shared_of checks) }
{
    keys_tie_where_they_are_equal();
}

/// Checks of feeds warn of nothing exactly where the feeds are without a fault: each has groups, all sound; each change is
/// to a table of the plan and true of the rows before it; no event is passed over; and no key is touched in two of them.
/// They note nothing either exactly where beside that each feed begins at the start of its source, each table has a row
/// that passes, and each change leaves its row at its key.
pub fn checks_warn_unless_feeds_are_faultless()
    ensures faultless { (checks : List CheckedValue) → WarnsUnlessFaultless checks (has_some (all_warnings checks)) }
    ensures clean { (checks : List CheckedValue) → TellsUnlessClean checks (has_some (all_warnings checks)) (has_some (all_notes checks)) }
{
    keys_tie_where_they_are_equal();
}

/// Where streams read feeds without a fault no step of any schedule is refused 71, since another stream's row stands at a
/// key.
pub fn faultless_feeds_never_clash()
    ensures { FaultlessFeedsNeverClash }
{
    streams_read_their_feeds();
}
