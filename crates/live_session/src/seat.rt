//! What a session knows of a stream's feed, beside its bytes and groups.

ghost use Rattle.std.specs.Prelude.{◌≡◌, false};
ghost use Rattle.std.specs.Option.{option_map_or};
ghost use Rattle.live_session.specs.Stops.{lasts, fresh_seat};

use crate::arrivals::{ArrivalFault, Arrived};
use board_laws::StepRefusal;
use source_feed::FeedFault;

/// Why a stream's feed doesn't grow.
#[derive(Drop)]
pub enum Stopped {
    /// Its bytes don't come.
    File(ArrivalFault),
    /// They aren't taken.
    Bytes(FeedFault),
}

/// What a session knows of a stream's feed, beside its bytes and groups.
#[derive(Drop)]
pub struct Seat<'h> {
    /// what has come and wanted memory, to be taken before any other
    pub(crate) kept: Option<Arrived<'h>>,
    /// how many bytes have come and aren't taken
    pub(crate) tail: u64,
    /// why the feed doesn't grow
    pub(crate) stopped: Option<Stopped>,
    /// why the stream's last step was refused
    pub(crate) step: Option<StepRefusal>,
}

impl Stopped {
    /// Whether it is for good: another file, or bytes at fault. Else it is tried again.
    pub(crate) fn lasts(&self) -> bool
        ensures { result ≡ lasts self.now }
    {
        match self {
            Stopped::File(fault) => matches!(fault, ArrivalFault::OtherFile),
            Stopped::Bytes(fault) => !matches!(fault, FeedFault::Memory),
        }
    }
}

impl<'h> Seat<'h> {
    /// Of a feed of which so many bytes have come and aren't taken.
    pub(crate) fn new(tail: u64) -> Seat<'h>
        ensures { result ≡ fresh_seat tail }
    {
        Seat {
            kept: None,
            tail,
            stopped: None,
            step: None,
        }
    }

    /// Whether its feed doesn't grow any more.
    pub(crate) fn is_closed(&self) -> bool
        ensures { result ≡ option_map_or lasts self.now.stopped false }
    {
        match &self.stopped {
            None => false,
            Some(stopped) => stopped.lasts(),
        }
    }
}
