//! Laws of a log's first bytes.

ghost use Rattle.log_events.specs.Cuts.{CutsAreLogs, LogsAreCut, NextIsCut};

/// The bytes of a log up to the end of any of its events are a log of the events so far, whatever stands behind them.
pub fn cuts_are_logs()
    ensures { CutsAreLogs }
{}

/// A log's first bytes that are a log without a fault end where one of its events does, and have its first events.
pub fn logs_are_cut()
    ensures { LogsAreCut }
{}

/// With one event more a log's first bytes end behind the event that stands there.
pub fn next_is_cut()
    ensures { NextIsCut }
{}
