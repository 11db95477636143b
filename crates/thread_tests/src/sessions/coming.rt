//! A session over one feed that comes in parts.

use crate::sessions::feeds::{FEED, ONE};
use apply_core::Policy;
use hex::FromHexError;
use live_opening::open;
use live_session::{ArrivalFault, Arrivals, Arrived, SaveFault, Session};
use printing::Writer;
use std::alloc::{AllocError, Global};
use std::io::Cursor;
use std::sync::Wait;
use std::thread::Threads;
use vrepl_choices::Threading;

/// The bytes of a feed up to there are given, and so many more have come.
#[derive(Clone, Copy)]
pub struct Look {
    pub given: usize,
    pub waiting: u64,
}

/// All bytes that have come are given.
pub fn whole(come: usize) -> Look {
    Look {
        given: come,
        waiting: 0,
    }
}

/// A feed of which so many bytes have come at each look.
#[derive(Drop)]
struct Coming<'h> {
    feed: &'h [u8],
    seen: &'h [Look],
    looks: usize,
    kept: bool,
}

impl<'h> Arrivals<'h> for Coming<'h> {
    fn behind<R: Wait>(
        &mut self,
        _rt: &R,
        _s: u8,
        taken: u64,
    ) -> Result<Arrived<'h>, ArrivalFault> {
        let Some(seen) = self.seen.get(self.looks) else {
            return Ok(Arrived {
                piece: &[],
                waiting: 0,
            });
        };
        self.looks += 1;
        match self.feed.get(taken as usize..seen.given) {
            Some(piece) => Ok(Arrived {
                piece,
                waiting: seen.waiting,
            }),
            None => Err(ArrivalFault::OtherFile),
        }
    }

    fn save(&mut self, _checkpoint: &[u8]) -> Result<(), SaveFault> {
        if self.kept {
            return Err(SaveFault::Changed);
        }
        self.kept = true;
        Ok(())
    }
}

/// The bytes of the feed.
fn feed_bytes(alloc: Global) -> Result<Vec<u8>, AllocError> {
    match hex::decode(alloc, FEED.as_bytes()) {
        Ok(bytes) => Ok(bytes),
        Err(FromHexError::OutOfMemory) => Err(AllocError),
        Err(_) => Ok(Vec::new(alloc)),
    }
}

/// These lines are printed, and nothing behind them, into memory that was zero before.
fn are_printed(printed: &[u8], lines: &[&str]) -> bool {
    let mut rest = printed;
    for line in lines {
        let Some(behind) = rest.strip_prefix(line.as_bytes()) else {
            return false;
        };
        let Some(behind) = behind.strip_prefix(b"\n".as_slice()) else {
            return false;
        };
        rest = behind;
    }
    matches!(rest.first(), None | Some(0))
}

/// Whether a session over these bytes, the first of which had come, answers so.
fn answers_over<'h, R: Threads + Wait + Sync>(
    rt: &R,
    alloc: Global,
    feed: &'h [u8],
    come: &'h [Vec<u8>],
    seen: &'h [Look],
    requests: &[u8],
    wanted: &[&str],
) -> Result<bool, AllocError> {
    let Some(policy) = Policy::new(1_000, 100, 4) else {
        return Ok(false);
    };
    let live = match open(alloc, &policy, ONE, None, come) {
        Ok(live) => live,
        Err(unopened) if unopened.number() == 72 => return Err(AllocError),
        Err(_) => return Ok(false),
    };
    let mut session = Session::new(alloc, live, come)?;
    let mut coming = Coming {
        feed,
        seen,
        looks: 0,
        kept: false,
    };
    let mut room = [0u8; 4096];
    let mut out = Writer::new(Cursor::new(&mut room[..]));
    let mut input = requests;
    let ended = session.serve(
        rt,
        alloc,
        Threading::Parallel,
        &mut coming,
        &mut input,
        &mut out,
    );
    Ok(ended.is_ok() && are_printed(&room, wanted))
}

/// Whether a session answers so, over a feed of which `first` bytes had come, and so many at
/// each further look.
pub fn answers<R: Threads + Wait + Sync>(
    rt: &R,
    alloc: Global,
    first: usize,
    seen: &[Look],
    requests: &[u8],
    wanted: &[&str],
) -> Result<bool, AllocError> {
    let feed = feed_bytes(alloc)?;
    let mut come = Vec::new(alloc);
    come.push(Vec::from_slice(alloc, feed.get(..first).unwrap_or(&[]))?)?;
    answers_over(rt, alloc, &feed, &come, seen, requests, wanted)
}
