//! How far a command's work is, by the parts of it that are told of.

use crate::drawing::push_clock;
use std::alloc::{AllocError, Global};
use std::sync::atomic::{AtomicU64, Ordering};

/// What the parts of a work are.
#[derive(Clone, Copy)]
pub(crate) enum Parts {
    /// Many, of this name: it is told how many are done in a second.
    Many(&'static str),
    /// Few: it is told how many of them are done.
    Few,
}

/// How far a work is.
#[derive(Drop)]
pub(crate) struct Way {
    parts: Parts,
    /// How many parts it has.
    all: AtomicU64,
    /// How many of them are done.
    done: AtomicU64,
    /// The milliseconds until the first ones began.
    waited: AtomicU64,
}

impl Way {
    /// That of a work of which no part has begun.
    pub(crate) fn new(parts: Parts) -> Way {
        Way {
            parts,
            all: AtomicU64::new(0),
            done: AtomicU64::new(0),
            waited: AtomicU64::new(0),
        }
    }

    /// So many parts more are to be done, after so many milliseconds.
    pub(crate) fn begins(&self, parts: usize, gone: u64) {
        if !self.has_begun() {
            self.waited.store(gone, Ordering::SeqCst);
        }
        self.all.fetch_add(parts as u64, Ordering::SeqCst);
    }

    /// So many parts more are done.
    pub(crate) fn has_done(&self, parts: usize) {
        self.done.fetch_add(parts as u64, Ordering::SeqCst);
    }

    /// Whether some have begun.
    pub(crate) fn has_begun(&self) -> bool {
        self.all.load(Ordering::SeqCst) > 0
    }

    /// How far it is, after so many milliseconds, and how long the rest will take at the pace since its parts began. An error
    /// is want of memory.
    pub(crate) fn line(&self, alloc: Global, name: &str, gone: u64) -> Result<String, AllocError> {
        // (in this order: parts begin before they are done)
        let done = self.done.load(Ordering::SeqCst);
        let all = self.all.load(Ordering::SeqCst);
        let worked = gone.saturating_sub(self.waited.load(Ordering::SeqCst));
        let percent = 100u64
            .saturating_mul(done)
            .checked_div(all)
            .unwrap_or(0)
            .min(100);
        let mut line = format!(in alloc; "{name} {percent} %, ")?;
        push_parts(alloc, &mut line, self.parts, done, all, worked)?;
        push_clock(alloc, &mut line, gone)?;
        line.push_str(" gone")?;
        let left = worked.saturating_mul(all.saturating_sub(done));
        if let Some(left) = left.checked_div(done) {
            line.push_str(", ")?;
            push_clock(alloc, &mut line, left)?;
            line.push_str(" to come")?;
        }
        Ok(line)
    }
}

/// Adds how many parts were done in a second of so many milliseconds, or how many of all were.
fn push_parts(
    alloc: Global,
    line: &mut String,
    parts: Parts,
    done: u64,
    all: u64,
    worked: u64,
) -> Result<(), AllocError> {
    let said = match parts {
        Parts::Many(name) => {
            let second = 1000u64
                .saturating_mul(done)
                .checked_div(worked)
                .unwrap_or(0);
            format!(in alloc; "{second} {name} a second, ")?
        }
        Parts::Few => format!(in alloc; "{done} of {all} parts, ")?,
    };
    line.push_str(said.as_str())
}
