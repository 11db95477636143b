//! How far streams are, told while they run.

use crate::drawing::{Page, push_clock};
use std::alloc::AllocError;
use std::sync::Wait;
use std::sync::atomic::{AtomicU64, Ordering};
use std::time::Instant;
use stream_worker::Gate;
use vrepl_main::{Followed, Progress, Untold};
use vrepl_words::commands::run::Run;

/// What tells how far streams are, and where they stand at the end.
pub(crate) trait Report: Progress {
    /// Tells where the streams of a checkpoint stand that was moved on.
    fn followed(&self, followed: &Followed<'_>);
}

impl Report for Untold {
    fn followed(&self, _followed: &Followed<'_>) {}
}

/// How far a stream is.
#[derive(Drop)]
struct Way {
    /// The number of its last group that passed, or that was read before.
    passed: AtomicU64,
    /// That of the group from behind which it runs.
    stood: AtomicU64,
    /// How many groups its feed has.
    groups: AtomicU64,
}

/// Tells on standard error, while groups pass, how far all streams are: on a terminal by a line that is drawn anew, and
/// taken away at the end, elsewhere by a line a minute.
#[derive(Drop)]
pub(crate) struct Reporter<'r> {
    rt: &'r HostRuntime,
    page: Page,
    /// When it was made, unless the clock can't be read.
    made: Option<Instant>,
    /// The milliseconds until the streams began to run.
    begun: AtomicU64,
    /// In which of the times between two lines since it was made it told last.
    told: AtomicU64,
    ways: Vec<Way>,
}

impl<'r> Reporter<'r> {
    /// One for the streams of a run, where the words ask for it: on a terminal unless they ask for quiet, elsewhere where
    /// they ask for progress. An error is want of memory.
    pub(crate) fn asked(
        rt: &'r HostRuntime,
        run: &Run<'_>,
    ) -> Result<Option<Reporter<'r>>, AllocError> {
        match Page::asked(rt, run.telling) {
            None => Ok(None),
            Some(page) => Ok(Some(Reporter::new(rt, run.feeds.len(), page)?)),
        }
    }

    /// Nothing has passed of any stream. An error is want of memory.
    fn new(rt: &'r HostRuntime, streams: usize, page: Page) -> Result<Reporter<'r>, AllocError> {
        let mut ways = Vec::new(rt.alloc());
        for _ in 0..streams {
            ways.push(Way {
                passed: AtomicU64::new(0),
                stood: AtomicU64::new(0),
                groups: AtomicU64::new(0),
            })?;
        }
        Ok(Reporter {
            rt,
            page,
            made: Instant::now(rt).ok(),
            begun: AtomicU64::new(0),
            told: AtomicU64::new(0),
            ways,
        })
    }

    /// The milliseconds since it was made, if the clock can be read.
    fn gone(&self) -> Option<u64> {
        let since = self.made.as_ref()?.elapsed(self.rt).ok()?;
        u64::try_from(since.as_millis()).ok()
    }

    /// Group `number` of a stream passed: where nothing was told for long enough it is told how far all are.
    fn pass(&self, stream: usize, number: u32) {
        if let Some(way) = self.ways.get(stream) {
            way.passed.store(u64::from(number), Ordering::SeqCst);
        }
        let Some(gone) = self.gone() else {
            return;
        };
        if self.is_due(gone) {
            let _told = self.tell(gone);
        }
    }

    /// Whether a time between two lines has begun in which nothing was told yet. It is so for one call in each.
    fn is_due(&self, gone: u64) -> bool {
        let (told, now) = (self.told.load(Ordering::SeqCst), self.page.turn(gone));
        told < now
            && self
                .told
                .compare_exchange(told, now, Ordering::SeqCst, Ordering::SeqCst)
                .is_ok()
    }

    /// Tells how far all streams are. An error is want of memory, and nothing is told.
    fn tell(&self, gone: u64) -> Result<(), AllocError> {
        let line = self.line(gone)?;
        self.page.tell(self.rt, line.as_str())
    }

    /// How far all streams are, after so many milliseconds.
    fn line(&self, gone: u64) -> Result<String, AllocError> {
        let alloc = self.rt.alloc();
        let (done, all) = self.groups();
        let percent = 100u64.saturating_mul(done).checked_div(all).unwrap_or(100);
        let mut line = format!(in alloc; "{percent} %, {done} of {all} groups")?;
        let run = gone.saturating_sub(self.begun.load(Ordering::SeqCst));
        let second = 1000u64.saturating_mul(done).checked_div(run).unwrap_or(0);
        let said = format!(in alloc; ", {second} groups a second, ")?;
        line.push_str(said.as_str())?;
        push_clock(alloc, &mut line, gone)?;
        line.push_str(" gone")?;
        let left = run.saturating_mul(all.saturating_sub(done));
        if let Some(left) = left.checked_div(done) {
            line.push_str(", ")?;
            push_clock(alloc, &mut line, left)?;
            line.push_str(" to come")?;
        }
        Ok(line)
    }

    /// How many groups of all streams have passed, and how many there are to pass.
    fn groups(&self) -> (u64, u64) {
        let (mut done, mut all) = (0u64, 0u64);
        for way in &self.ways {
            let stood = way.stood.load(Ordering::SeqCst);
            let passed = way.passed.load(Ordering::SeqCst);
            let groups = way.groups.load(Ordering::SeqCst);
            done = done.saturating_add(passed.saturating_sub(stood));
            all = all.saturating_add(groups.saturating_sub(stood));
        }
        (done, all)
    }

    /// The line of a checkpoint that was moved on.
    fn last_line(&self, followed: &Followed<'_>) -> Result<String, AllocError> {
        let (alloc, board) = (self.rt.alloc(), followed.board());
        let (mut groups, mut places) = (0u64, String::new(alloc));
        for s in 0..64u8 {
            let (Ok(at), Ok(position)) = (board.state(s), board.position(s)) else {
                break;
            };
            groups = groups.saturating_add(u64::from(at.applied()));
            let place = match position {
                Some(set) => format!(in alloc; ", at {set}")?,
                None => format!(in alloc; ", at -")?,
            };
            places.push_str(place.as_str())?;
        }
        let (streams, rows) = (board.len(), board.target().len());
        format!(in alloc; "followed {streams} streams: {groups} groups, {rows} rows{places}\n")
    }
}

impl Gate for Reporter<'_> {
    fn passed<R: Wait>(&self, _rt: &R, stream: u8, number: u32) {
        self.pass(usize::from(stream), number);
    }
}

impl Progress for Reporter<'_> {
    fn is_told(&self) -> bool {
        true
    }

    fn begins(&self, stream: usize, read: u32, groups: usize) {
        self.begun.store(self.gone().unwrap_or(0), Ordering::SeqCst);
        if let Some(way) = self.ways.get(stream) {
            way.stood.store(u64::from(read), Ordering::SeqCst);
            way.passed.store(u64::from(read), Ordering::SeqCst);
            way.groups.store(groups as u64, Ordering::SeqCst);
        }
    }

    fn reads(&self, stream: usize, number: u32) {
        self.pass(stream, number);
    }

    fn ends(&self) {
        if self.told.load(Ordering::SeqCst) > 0 {
            self.page.clear(self.rt);
        }
    }
}

impl Report for Reporter<'_> {
    fn followed(&self, followed: &Followed<'_>) {
        if let Ok(line) = self.last_line(followed) {
            let _told = self.rt.eprint(line);
        }
    }
}
