//! What the crates below read is what the relations say, each the contract of a function without a body. Together they tie
//! what `run` writes, by the exact functions, to `RunIsRight`.

ghost use Rattle.run_says.specs.Laws.{RowsSayTheirColumns, BytesSayTheirEvent, FeedsHaveTheirEvents, TextsSayTheirPosition, TextsSayTheirFilter, WorkflowsSayTheirPlans, FeedsSayTheirTouches, RunsAreRight};

/// A row message that can be read says its columns.
pub fn rows_say_their_columns()
    ensures { RowsSayTheirColumns }
{}

/// The bytes of an event that can be read say it.
pub fn bytes_say_their_event()
    ensures { BytesSayTheirEvent }
{}

/// A feed that can be read to its end is messages with its events.
pub fn feeds_have_their_events()
    ensures { FeedsHaveTheirEvents }
{}

/// The text of a position that can be read says it.
pub fn texts_say_their_position()
    ensures { TextsSayTheirPosition }
{}

/// The text of a rule's filter that can be read says it.
pub fn texts_say_their_filter()
    ensures { TextsSayTheirFilter }
{}

/// A workflow file that can be read says its plans.
pub fn workflows_say_their_plans()
    ensures { WorkflowsSayTheirPlans }
{}

/// A feed that can be opened, all groups of which are sound, says which keys its changes touch, and with what.
pub fn feeds_say_their_touches()
    ensures { FeedsSayTheirTouches }
{}

/// The dump of the rows that the feeds of a workflow's plans keep, under the first plan, is what a run is to write.
pub fn runs_are_right()
    ensures { RunsAreRight }
{}
