//! Laws of groups, each the contract of a function without a body: they hold of the words that the
//! contracts of `read_groups` and `Feed::prepare` are written in.

ghost use Rattle.std.specs.Prelude.{ℕ, List};
ghost use Rattle.filter_rule.specs.PlanValue.{PlanValue};
ghost use Rattle.source_feed.specs.Planned.{PlannedChangeValue};
ghost use Rattle.source_feed.specs.Sound.{TouchesByChange};
ghost use Rattle.source_feed.specs.SourceValue.{SourceValue};
ghost use Rattle.source_feed.specs.PastEvents.{PastEvents};
ghost use Rattle.source_feed.specs.Grammar.{BlockGrammar};
ghost use Rattle.source_feed.specs.KeptBlocks.{AreKeptBlocks};
ghost use Rattle.source_feed.specs.Pieces.{WholeByBytes};

/// The blocks of a feed's events are a grammar: BEGIN body COMMIT is a block with the body's last
/// position and its changes in order, BEGIN body ROLLBACK is none, a position outside is a block
/// without changes, and what is ignored is nothing. Columns stay as they were but for a FIELD.
pub fn blocks_are_a_grammar()
    ensures { (source : SourceValue) → BlockGrammar source }
{}

/// The touches of a group are those of its changes, one change after another: what the row before leaves,
/// and behind it what the row after puts. A group that isn't sound is refused by the first change whose
/// row has no key or no answer of the filter, every change before it being sound, and in this change by
/// the first cause: the row before has no key, the row after has none, the filter has no answer.
pub fn touches_are_those_of_the_changes()
    ensures { (plan : PlanValue) (group : ℕ) (changes : List PlannedChangeValue) → TouchesByChange plan group changes }
{}

/// The groups are the blocks that are kept, block by block: a block is a group exactly where its
/// position isn't within the union of the positions of the blocks before it, and its number is 1 plus
/// the number of kept blocks before it.
pub fn groups_are_the_kept_blocks()
    ensures { (source : SourceValue) (past : PastEvents) → AreKeptBlocks source past }
{}

/// What of a feed's pieces is whole messages depends on their bytes alone, and not on where they were cut:
/// there is one longest beginning of whole messages, and it has the messages that begin all of the bytes.
pub fn whole_is_said_by_the_bytes()
    ensures { (bytes : List ℕ) → WholeByBytes bytes }
{}
