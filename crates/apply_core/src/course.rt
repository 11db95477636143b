//! The course of a stream to its feed's end, step by step.

ghost use Rattle.std.specs.Prelude.{◌≡◌, ◌≢◌, ℕ, ◌≤◌, Some, None, MatchOption};
ghost use Rattle.stream_core.specs.declared.phase.Phase as phases;
ghost use Rattle.stream_core.specs.Standing.{Standing, IsSound, phase_of};
ghost use Rattle.apply_core.specs.Courses.{LeadsOn, IsAtEnd};

use crate::policy::Policy;
use stream_core::{Cursor, Phase, Step};

/// How far a stream is in its portions: how many groups it still reads before it opens a snapshot, and how
/// many chunks it still copies before it closes the one that is open.
#[derive(Drop)]
pub struct Course {
    to_read: u32,
    to_copy: u32,
}

impl Course {
    /// Before the first step.
    pub fn new(policy: &Policy) -> Course {
        Course {
            to_read: policy.ahead,
            to_copy: policy.chunks,
        }
    }

    /// The next step of a stream that stands so, whose feed has so many groups; none at the end.
    pub fn next(&mut self, policy: &Policy, at: &Cursor, groups: u32) -> Option<Step>
        requires sound { IsSound at.now }
        requires within { at.now.read ≤ groups }
        ensures { MatchOption result (IsAtEnd at.now groups) (LeadsOn at.now groups self.old.to_copy self.new.to_copy) }
    {
        match at.phase() {
            Phase::Running => running(at, groups),
            Phase::CatchUp => Some(self.catch_up(policy, at, groups)),
            Phase::FastForward => Some(Step::Advance),
            Phase::Copy => Some(self.copy(policy)),
        }
    }

    /// Up to `ahead` groups are read, and a snapshot is opened at the last one.
    fn catch_up(&mut self, policy: &Policy, at: &Cursor, groups: u32) -> Step
        requires none_open { at.now.snapshot ≡ None }
        requires copying { at.now.done ≢ at.now.tables }
        requires within { at.now.read ≤ groups }
        ensures { LeadsOn at.now groups self.old.to_copy self.new.to_copy result }
    {
        let read = at.read();
        if self.to_read > 0 && read < groups {
            self.to_read -= 1;
            return Step::Offer(read + 1);
        }
        self.to_copy = policy.chunks;
        Step::OpenAt(read)
    }

    /// Up to `chunks` chunks of `rows` are copied, and the snapshot is closed.
    fn copy(&mut self, policy: &Policy) -> Step
        ensures { (at : Standing) (groups : ℕ) → at.snapshot ≡ Some at.applied → LeadsOn at groups self.old.to_copy self.new.to_copy result }
    {
        self.to_read = policy.ahead;
        if self.to_copy == 0 {
            return Step::Close;
        }
        self.to_copy -= 1;
        Step::CopyRows(policy.rows)
    }
}

/// One group is read, and applied, up to the feed's end.
fn running(at: &Cursor, groups: u32) -> Option<Step>
    requires running { phase_of at.now ≡ phases.Phase.Running }
    requires sound { IsSound at.now }
    requires within { at.now.read ≤ groups }
    ensures { (chunks : ℕ) → MatchOption result (IsAtEnd at.now groups) (LeadsOn at.now groups chunks chunks) }
{
    if at.applied() < at.read() {
        return Some(Step::Advance);
    }
    if at.read() < groups {
        return Some(Step::Offer(at.read() + 1));
    }
    None
}
