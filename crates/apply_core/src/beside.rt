//! The streams of two boards side by side: what a join asks of them, and which of two states is further on.

ghost use Rattle.std.specs.Prelude.{◌≡◌, ◌↔◌, ◌≤◌, length, map, IsTrue, MatchOption};
ghost use Rattle.std.specs.Ordering.{is_lt};
ghost use Rattle.std.specs.Arc.{arc_value};
ghost use Rattle.board_laws.specs.StateOrder.{state_cmp};
ghost use Rattle.board_laws.specs.Compatible.{OfEachStream, AreOfOneHistory};
ghost use Rattle.board_laws.specs.RefusedJoin.{IsFirstNot};
ghost use Rattle.apply_core.specs.Private.Beside.{AreSameGroups, Premise, Passes};

use crate::stream::Stream;
use source_feed::Prepared;
use std::cmp::Ordering;
use std::sync::Arc;

/// What is asked of the two states of each stream.
#[derive(Clone, Copy)]
pub(crate) enum Test {
    /// They are of one plan.
    OnePlan,
    /// One read list is a beginning of the other.
    OneHistory,
    /// The second isn't further on than the first.
    NoFurther,
}

/// The first groups of a list are the same as all of another one, by number, position and touches.
fn begins(front: &[Arc<Prepared<'_>>], whole: &[Arc<Prepared<'_>>]) -> bool
    ensures { IsTrue result ↔ AreSameGroups (map arc_value front.now) (map arc_value whole.now) }
{
    if front.len() > whole.len() {
        return false;
    }
    let mut i = 0;
    while i < front.len() {
        if !front[i].same(&whole[i]) {
            return false;
        }
        i += 1;
    }
    true
}

impl<'h> Stream<'h> {
    /// The other stream is of the same plan. Takes no memory.
    fn has_plan_of(&self, other: &Stream<'_>) -> bool
        ensures { IsTrue result ↔ (self.now.plan ≡ other.now.plan) }
    {
        self.plan.same(&other.plan)
    }

    /// How far on the stream is beside another state of it. Takes no memory.
    fn cmp_progress(&self, other: &Stream<'_>) -> Ordering
        requires { self.now.plan ≡ other.now.plan }
        ensures { result ≡ state_cmp self.now other.now }
    {
        self.is_sound();
        other.is_sound();
        let copied = self.marks.further(&other.marks);
        let read = self.list.len().cmp(&other.list.len());
        let open = self.cursor.snapshot().cmp(&other.cursor.snapshot());
        self.cursor
            .applied()
            .cmp(&other.cursor.applied())
            .then(copied.then(read.then(open)))
    }

    /// The other state of this stream is further on: by the groups that are applied, then by what is copied,
    /// then by the groups that are read, then by the open snapshot. Takes no memory.
    pub(crate) fn is_behind(&self, other: &Stream<'_>) -> bool
        requires { self.now.plan ≡ other.now.plan }
        ensures { result ≡ is_lt (state_cmp self.now other.now) }
    {
        self.cmp_progress(other).is_lt()
    }

    /// One of the two read lists is a beginning of the other. Takes no memory.
    fn shares_history_with(&self, other: &Stream<'_>) -> bool
        requires { self.now.plan ≡ other.now.plan }
        ensures { IsTrue result ↔ AreOfOneHistory self.now other.now }
    {
        self.is_sound();
        other.is_sound();
        begins(&self.list, &other.list) || begins(&other.list, &self.list)
    }
}

/// Whether two states of a stream pass a test. Takes no memory.
fn passes(test: Test, x: &Stream<'_>, y: &Stream<'_>) -> bool
    requires { Premise test x.now y.now }
    ensures { IsTrue result ↔ Passes test x.now y.now }
{
    match test {
        Test::OnePlan => x.has_plan_of(y),
        Test::OneHistory => x.shares_history_with(y),
        Test::NoFurther => !x.is_behind(y),
    }
}

/// The first stream whose two states don't pass a test, if any. Takes no memory.
pub(crate) fn first_not(test: Test, a: &[Stream<'_>], b: &[Stream<'_>]) -> Option<u8>
    requires few { length a.now ≤ 64 }
    requires both { length a.now ≡ length b.now }
    requires premise { OfEachStream (Premise test) a.now b.now }
    ensures { MatchOption result (OfEachStream (Passes test) a.now b.now) (IsFirstNot (Passes test) a.now b.now) }
{
    let mut s = 0;
    while s < a.len() {
        if !passes(test, &a[s], &b[s]) {
            return Some(s as u8);
        }
        s += 1;
    }
    None
}
