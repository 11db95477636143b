//! The lock: a channel of one place, in which the board lies under a rule.

ghost use Rattle.std.specs.Prelude.{◌≡◌, [], true, false, IfOk, IsSome};
ghost use Rattle.crossbeam_channel.specs.Claims.{view, IsSeatAt};
ghost use Rattle.crossbeam_channel.specs.Ends.{sends_on, receives_on};
ghost use Rattle.stream_worker.specs.Knowing.{first_view, copy_of, joined_knowing};
ghost use Rattle.stream_worker.specs.Rule.{IsBoardTaken, MayPut, IsBoardPut};

use crate::deal::Deal;
use crossbeam_channel::protocol::{Join, Lesson, Outcome, Protocol, Split};
use crossbeam_channel::{Pass, RuledReceiver, RuledSender, bounded_with};
use std::alloc::{AllocError, Global};
use std::hint::spin_loop;
use std::marker::Model;
use std::sync::Wait;

/// How often a receive is tried before the thread sleeps, where up to four streams share the board: some 0.2 ms.
const TRIES: usize = 250;

/// How many spins lie between two tries, so that the threads that wait leave the channel to the one that puts the board
/// back.
const PAUSE: usize = 16;

/// Spins for a while.
fn pause() {
    for _ in 0..PAUSE {
        spin_loop();
    }
}

/// What a pass knows: the numbers of its streams, whether it holds the board, and the board as its last
/// step left it. It exists in proofs alone: no value of it is made.
#[derive(Drop)]
pub struct Known {
    nothing: (),
}

impl Model for Known {
    ghost use Rattle.stream_worker.specs.Knowing.{Knows, first_view};

    ghost Value = { Knows };

    ghost view = { λ k. first_view };
}

/// The rule of the lock.
pub struct LockRule;

impl<'h> Protocol<Deal<'h>, Known> for LockRule {
    ghost use Rattle.stream_worker.specs.Knowing.{first_view};
    ghost use Rattle.stream_worker.specs.Rule.{OneBoard};

    ghost holds = { OneBoard };

    ghost first = { first_view };
}

/// The board is taken.
pub(crate) struct Take;

impl<'h> Outcome<Deal<'h>, Known> for Take {
    ghost use Rattle.stream_worker.specs.Rule.{IsBoardTaken};

    ghost then = { λ v x w. IsBoardTaken v x w };
}

impl<'h> Lesson<Deal<'h>, Known> for Take {
    ghost use Rattle.std.specs.Prelude.{⊤};

    ghost fact = { λ v items. ⊤ };
}

/// The board is put back.
pub(crate) struct PutBack;

impl<'h> Outcome<Deal<'h>, Known> for PutBack {
    ghost use Rattle.stream_worker.specs.Rule.{IsBoardPut};

    ghost then = { λ v x w. IsBoardPut v x w };
}

impl<'h> Lesson<Deal<'h>, Known> for PutBack {
    ghost use Rattle.std.specs.Prelude.{⊤};

    ghost fact = { λ v items. ⊤ };
}

/// How passes are made and joined.
pub(crate) struct Passing;

impl Split<Known> for Passing {
    ghost use Rattle.stream_worker.specs.Knowing.{copy_of};

    ghost left = { λ v. v };

    ghost right = { λ v. copy_of v };
}

impl Join<Known> for Passing {
    ghost use Rattle.stream_worker.specs.Knowing.{joined_knowing, spent_view};

    ghost both = { λ v w. joined_knowing v w };

    ghost spent = { spent_view };
}

/// A pass of the lock.
pub type LockPass<'h> = Pass<Deal<'h>, Known>;

/// The two ends of the lock's channel.
#[derive(Drop)]
pub struct Lock<'h> {
    /// how often a receive is tried before the thread sleeps
    tries: usize,
    sender: RuledSender<Deal<'h>, Known, LockRule>,
    receiver: RuledReceiver<Deal<'h>, Known, LockRule>,
    ghost one: { receives_on receiver ≡ sends_on sender },
}

impl<'h> Lock<'h> {
    /// A lock of a board of so many streams, with the opener's pass, which is to put the board in first. The more streams
    /// wait for it, the sooner their threads sleep. An error is want of memory.
    pub(crate) fn new(alloc: Global, streams: usize) -> Result<(Lock<'h>, LockPass<'h>), AllocError>
        ensures { IfOk result (λ r. IsSeatAt (sends_on r.0.sender) r.1 × (view r.1 ≡ first_view)) }
    {
        let (sender, receiver, pass) = bounded_with::<Deal<'h>, Known, LockRule, Global>(alloc, 1)?;
        let tries = if streams > 4 {
            4 * TRIES / streams
        } else {
            TRIES
        };
        Ok((
            Lock {
                tries,
                sender,
                receiver,
            },
            pass,
        ))
    }

    /// Takes the board, when no other pass holds it. A receive is tried for a while before the thread
    /// sleeps, and tried again until it succeeds.
    pub(crate) fn take<R: Wait>(&self, rt: &R, pass: &mut LockPass<'h>) -> Deal<'h>
        requires { IsSeatAt (sends_on self.now.sender) pass.old }
        ensures pass { IsSeatAt (sends_on self.now.sender) pass.new }
        ensures taken { IsBoardTaken (view pass.old) result (view pass.new) }
    {
        let mut tries = 0;
        for _ in rt.forever() {
            if tries < self.tries {
                if let Ok(deal) = self.receiver.try_recv_as::<Take, R>(rt, pass) {
                    return deal;
                }
                pause();
                tries += 1;
            } else if let Ok(deal) = self.receiver.recv_as::<Take, R>(rt, pass) {
                return deal;
            }
        }
        unreachable!()
    }

    /// Puts back the board, which the pass holds. It is tried again until it succeeds.
    pub(crate) fn put_back<R: Wait>(&self, rt: &R, pass: &mut LockPass<'h>, mut deal: Deal<'h>)
        requires pass { IsSeatAt (sends_on self.now.sender) pass.old }
        requires holds { (view pass.old).holds ≡ true }
        requires may { MayPut (view pass.old) deal }
        ensures pass { IsSeatAt (sends_on self.now.sender) pass.new }
        ensures put { IsBoardPut (view pass.old) deal.entry (view pass.new) }
    {
        for _ in rt.forever() {
            match self.sender.try_send_as::<PutBack, R>(rt, pass, deal) {
                Ok(()) => return,
                Err(refused) => deal = refused.into_inner(),
            }
            spin_loop();
        }
        unreachable!()
    }

    /// A new pass, without a stream.
    pub(crate) fn pass(&self, opener: &mut LockPass<'h>) -> LockPass<'h>
        requires pass { IsSeatAt (sends_on self.now.sender) opener.old }
        requires streams { (view opener.old).streams ≡ [] }
        ensures passes { IsSeatAt (sends_on self.now.sender) opener.new × IsSeatAt (sends_on self.now.sender) result }
        ensures views { (view opener.new ≡ view opener.old) × (view result ≡ copy_of (view opener.old)) }
    {
        self.sender.another::<Passing>(opener)
    }

    /// A pass takes the streams of another one, with their states.
    pub(crate) fn join(&self, pass: &mut LockPass<'h>, other: LockPass<'h>)
        requires passes { IsSeatAt (sends_on self.now.sender) pass.old × IsSeatAt (sends_on self.now.sender) other }
        requires mine { ((view pass.old).holds ≡ false) × IsSome (view pass.old).seen }
        requires theirs { ((view other).holds ≡ false) × IsSome (view other).seen }
        ensures pass { IsSeatAt (sends_on self.now.sender) pass.new }
        ensures view { view pass.new ≡ joined_knowing (view pass.old) (view other.entry) }
    {
        self.sender.absorb::<Passing>(pass, other)
    }
}
