//! A law of boards that have ended, the contract of a function without a body.

ghost use Rattle.live_core.specs.Live.{EndedBoardsRun};

/// A board whose streams have all come to their feeds' ends, as a run ensures, has copied all tables: it can go on.
pub fn boards_at_their_ends_run()
    ensures { EndedBoardsRun }
{}
