//! A feed that comes in pieces.

ghost use Rattle.std.specs.Prelude.{◌≡◌, ◌^◌, ◌<◌, ◌≤◌, ℕ, List, [], ◌++◌, length, take, Some, None, Err, IfOk, IfErr, OnOk, OnErr};
ghost use Rattle.list_laws.specs.Outcome.{GivesUnless};
ghost use Rattle.proto_wire.specs.Frame.{frames_of};
ghost use Rattle.source_feed.specs.FaultNumber.{meant_of};
ghost use Rattle.source_feed.specs.Pieces.{IsLongestWhole, IsWholeFront, is_no_length, broken_by, messages_in};
ghost use Rattle.source_feed.specs.declared.fault.FeedFault.TheVariants.{FeedTooLong};

use crate::fault::FeedFault;
use crate::groups::FEED_BYTES;
use crate::laws::whole_is_said_by_the_bytes;
use proto_wire::{Frames, WireFault};
use std::alloc::Global;
use std::marker::Model;

/// The pieces of a feed, put together as they come. Seen in contracts as their bytes, so nothing that is
/// said of them depends on where they were cut.
#[derive(Drop)]
pub struct FeedBuilder {
    bytes: Vec<u8>,
    /// how many of the bytes are whole messages
    end: usize,
    /// how many messages these are
    messages: u32,
}

impl Model for FeedBuilder {
    ghost use Rattle.std.specs.Prelude.{◌≡◌, ℕ, List, Ok};
    ghost use Rattle.source_feed.specs.Pieces.{IsWholeFront, messages_in};

    ghost Value = { List ℕ };

    ghost view = { λ b. b.bytes.items };

    // what is taken is within the limit and no length in it is broken, and so many messages end there
    ghost invariant = { λ b. IsWholeFront b.bytes.items b.end × (messages_in b.bytes.items ≡ Ok b.messages) };
}

/// Where the whole messages at the front end, and how many they are.
#[derive(Drop)]
struct Front {
    end: usize,
    messages: u32,
}

/// Whether no further byte makes a length of it.
pub(crate) fn is_no_length(cause: WireFault) -> bool
    ensures { result ≡ is_no_length cause }
{
    matches!(cause, WireFault::VarintTooLong)
}

/// The whole messages at the front. Refused where what stands behind them is a length that is no varint.
fn front_of(bytes: &[u8]) -> Result<Front, FeedFault>
    requires { length bytes.now < 2 ^ 31 }
    ensures front { IfOk result (λ front. IsWholeFront bytes.now front.end) }
    ensures messages { IfOk result (λ front. front.messages ≡ length (frames_of bytes.now).items) }
    ensures sound { OnOk result (broken_by (frames_of bytes.now).fault ≡ None) }
    ensures refused { IfErr result (λ fault. broken_by (frames_of bytes.now).fault ≡ Some fault) }
{
    let mut frames = Frames::new(bytes);
    let mut messages: u32 = 0;
    loop {
        match frames.next_frame() {
            Ok(Some(_)) => messages += 1,
            Ok(None) => {
                return Ok(Front {
                    end: bytes.len(),
                    messages,
                });
            }
            Err(fault) if is_no_length(fault.cause) => return Err(FeedFault::Frame),
            Err(fault) => {
                return Ok(Front {
                    end: fault.place,
                    messages,
                });
            }
        }
    }
}

impl FeedBuilder {
    /// No piece has come. Takes no memory.
    pub fn new(alloc: Global) -> FeedBuilder
        ensures { result ≡ [] }
    {
        FeedBuilder {
            bytes: Vec::new(alloc),
            end: 0,
            messages: 0,
        }
    }

    /// Takes one more piece, and answers how many whole messages all pieces begin with. Looks again at no
    /// whole message, and at most at ten bytes of a length that is begun; the pieces' room doubles as it
    /// grows. So all pieces together take time linear in their bytes and their number.
    ///
    /// Refused: `FeedTooLong` where all pieces would have more than 2^31 - 1 bytes, before all else and
    /// without taking memory; `Memory` where a growth is refused; `Frame` where what stands behind the whole
    /// messages is a length that is no varint. A refused piece isn't taken.
    pub fn push(&mut self, alloc: Global, piece: &[u8]) -> Result<u32, FeedFault>
        // The number is given exactly where all pieces together are taken, and else what stands in them.
        ensures exact { GivesUnless meant_of (λ messages. messages) result (messages_in (self.old ++ piece.now)) }
        ensures taken { OnOk result (self.new ≡ self.old ++ piece.now) }
        ensures kept { OnErr result (self.new ≡ self.old) }
        // Too many bytes are found before any growth.
        ensures too_long { 2 ^ 31 ≤ length (self.old ++ piece.now) → result ≡ Err FeedTooLong }
    {
        let before = self.bytes.len();
        if piece.len() > FEED_BYTES - before {
            return Err(FeedFault::FeedTooLong);
        }
        self.bytes.extend_from_slice(piece)?;
        match front_of(&self.bytes[self.end..]) {
            Ok(front) => {
                self.end += front.end;
                self.messages += front.messages;
                Ok(self.messages)
            }
            Err(fault) => {
                self.bytes.truncate(before);
                Err(fault)
            }
        }
    }

    /// The longest beginning of the pieces that is whole messages. Takes no memory.
    pub fn whole(&self) -> &[u8]
        ensures longest { IsLongestWhole self.now result.now }
        // There is no other, wherever the pieces were cut.
        ensures one { (whole : List ℕ) → IsLongestWhole self.now whole → whole ≡ result.now }
        // Its messages are all that the pieces begin with.
        ensures messages { (frames_of result.now).items ≡ (frames_of self.now).items }
    {
        whole_is_said_by_the_bytes();
        &self.bytes[..self.end]
    }

    /// What stands behind the whole messages: together with them it is the pieces so far. Takes no memory.
    pub fn rest(&self) -> &[u8]
        ensures { (whole : List ℕ) → IsLongestWhole self.now whole → self.now ≡ whole ++ result.now }
    {
        &self.bytes[self.end..]
    }
}
