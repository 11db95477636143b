//! What status 0 of `check` says of a run.

ghost use Rattle.vrepl_check.specs.Clean.{CleanIsFaultless, FaultlessRunsAreNotRefused};

/// Where `check` ends with status 0, the same workflow and feeds open for a `run`, and no run of them is refused for anything
/// that stands in them: not 71, since another stream's row stands at a key, and not since a group isn't sound; for want of
/// memory (72) alone.
pub fn faultless_runs_are_not_refused()
    ensures { FaultlessRunsAreNotRefused }
{}

/// Where `check --strict` ends with status 0, `check` does.
pub fn what_is_clean_is_faultless()
    ensures { CleanIsFaultless }
{}
