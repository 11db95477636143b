//! Gates of the tests.

use std::hint::spin_loop;
use std::sync::Wait;
use std::sync::atomic::{AtomicBool, AtomicU64, Ordering};
use std::thread::Parker;
use std::time::Duration;
use stream_worker::Gate;

/// How often a call looks for the other stream.
const TURNS: u64 = 100_000_000;

/// How long a thread sleeps between two looks, in microseconds.
const NAP: u64 = 100;

/// How often a thread looks for what comes in any run that is right: for three seconds at least.
pub(crate) const LONG: u32 = 30_000;

/// How often it looks for what doesn't: for some 50 milliseconds.
pub(crate) const SHORT: u32 = 500;

/// The thread sleeps until the next look.
pub(crate) fn nap<R: Wait>(rt: &R) {
    Parker::new().park_timeout(rt, Duration::from_micros(NAP));
}

/// A gate that does nothing.
#[derive(Drop)]
pub(crate) struct Open;

impl Gate for Open {
    fn passed<R: Wait>(&self, _rt: &R, _stream: u8, _number: u32) {}
}

/// A gate at which each of two streams is held with its group 1 until the other is there with its own, or until
/// it has looked for it too often.
#[derive(Drop)]
pub(crate) struct Meeting {
    first: AtomicBool,
    second: AtomicBool,
    missed: AtomicBool,
}

impl Meeting {
    pub(crate) fn new() -> Meeting {
        Meeting {
            first: AtomicBool::new(false),
            second: AtomicBool::new(false),
            missed: AtomicBool::new(false),
        }
    }

    /// Whether both streams came, and neither missed the other.
    pub(crate) fn has_met(&self) -> bool {
        self.first.load(Ordering::SeqCst)
            && self.second.load(Ordering::SeqCst)
            && !self.missed.load(Ordering::SeqCst)
    }

    /// Waits for a flag.
    fn wait_for(&self, other: &AtomicBool) {
        for _ in 0..TURNS {
            if other.load(Ordering::SeqCst) {
                return;
            }
            spin_loop();
        }
        self.missed.store(true, Ordering::SeqCst);
    }
}

impl Gate for Meeting {
    fn passed<R: Wait>(&self, _rt: &R, stream: u8, number: u32) {
        if number != 1 {
            return;
        }
        let (mine, other) = if stream == 0 {
            (&self.first, &self.second)
        } else {
            (&self.second, &self.first)
        };
        mine.store(true, Ordering::SeqCst);
        self.wait_for(other);
    }
}

/// A gate that counts its calls, and adds up the numbers of the groups: 1,000,000 for each group of stream 1,
/// 1,000 for each of stream 0, and its number.
#[derive(Drop)]
pub(crate) struct Counting {
    total: AtomicU64,
}

impl Counting {
    pub(crate) fn new() -> Counting {
        Counting {
            total: AtomicU64::new(0),
        }
    }

    pub(crate) fn total(&self) -> u64 {
        self.total.load(Ordering::SeqCst)
    }
}

impl Gate for Counting {
    fn passed<R: Wait>(&self, _rt: &R, stream: u8, number: u32) {
        let of_stream = if stream == 0 { 1_000 } else { 1_000_000 };
        self.total
            .fetch_add(of_stream + u64::from(number), Ordering::SeqCst);
    }
}

/// A gate that keeps the last number of each of two streams' groups, and at which stream 1 is held with its group 1
/// until group 2 of stream 0 has come, or until it has looked for that too often.
#[derive(Drop)]
pub(crate) struct Turns {
    first: AtomicU64,
    second: AtomicU64,
    missed: AtomicBool,
}

impl Turns {
    pub(crate) fn new() -> Turns {
        Turns {
            first: AtomicU64::new(0),
            second: AtomicU64::new(0),
            missed: AtomicBool::new(false),
        }
    }

    /// The number of each stream's last group, if the groups of both came one after another and stream 1 didn't
    /// miss the other.
    pub(crate) fn told(&self) -> Option<[u64; 2]> {
        if self.missed.load(Ordering::SeqCst) {
            return None;
        }
        Some([
            self.first.load(Ordering::SeqCst),
            self.second.load(Ordering::SeqCst),
        ])
    }

    /// Waits for group 2 of stream 0.
    fn wait_for_first(&self) {
        for _ in 0..TURNS {
            if self.first.load(Ordering::SeqCst) >= 2 {
                return;
            }
            spin_loop();
        }
        self.missed.store(true, Ordering::SeqCst);
    }

    /// Keeps the number of a stream's group.
    fn keep(&self, last: &AtomicU64, number: u32) {
        if last.swap(u64::from(number), Ordering::SeqCst) >= u64::from(number) {
            self.missed.store(true, Ordering::SeqCst);
        }
    }
}

impl Gate for Turns {
    fn passed<R: Wait>(&self, _rt: &R, stream: u8, number: u32) {
        if stream == 0 {
            self.keep(&self.first, number);
            return;
        }
        self.keep(&self.second, number);
        self.wait_for_first();
    }
}

/// A gate of two streams that have a row in common. Stream 1 is held with its group 1 until stream 0 comes with the
/// group of a number; and stream 0 with that group until stream 1 has put its first rows and comes with group 3, or
/// until it has looked for that so often.
#[derive(Drop)]
pub(crate) struct Crossing {
    number: u32,
    looks: u32,
    first: AtomicBool,
    second: AtomicBool,
}

impl Crossing {
    pub(crate) fn new(number: u32, looks: u32) -> Crossing {
        Crossing {
            number,
            looks,
            first: AtomicBool::new(false),
            second: AtomicBool::new(false),
        }
    }
}

/// Waits for a flag, with so many looks at most.
fn wait_for<R: Wait>(rt: &R, flag: &AtomicBool, looks: u32) {
    for _ in 0..looks {
        if flag.load(Ordering::SeqCst) {
            return;
        }
        nap(rt);
    }
}

impl Gate for Crossing {
    fn passed<R: Wait>(&self, rt: &R, stream: u8, number: u32) {
        if stream == 0 && number == self.number {
            self.first.store(true, Ordering::SeqCst);
            wait_for(rt, &self.second, self.looks);
        }
        if stream == 1 && number == 1 {
            wait_for(rt, &self.first, LONG);
        }
        if stream == 1 && number == 3 {
            self.second.store(true, Ordering::SeqCst);
        }
    }
}
