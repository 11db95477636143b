//! Events that the reader passes over though they may change rows.

ghost use Rattle.std.specs.Prelude.{◌≡◌, ◌++◌, IfOk, OnOk};
ghost use Rattle.proto_wire.specs.Frame.{frames_of};
ghost use Rattle.feed_check.specs.Skipped.{is_skipped, skipped_at, skipped_in, skipped_of};

use proto_wire::{Frames, Parts, last_text, last_varint};
use std::alloc::{AllocError, Global};
use std::marker::Model;

/// An event that the reader passes over: the number of its message in the feed, from 1, the number of its
/// type, and its statement, empty where it has none. The statement is lent from the feed's buffer.
#[derive(Drop)]
pub struct Skipped<'h> {
    message: usize,
    kind: u64,
    statement: &'h [u8],
}

impl<'h> Model for Skipped<'h> {
    ghost use Rattle.feed_check.specs.Skipped.{SkippedValue};

    ghost Value = { SkippedValue };

    ghost view = { λ s. record { message = s.message; kind = s.kind; statement = s.statement.now } };
}

impl<'h> Skipped<'h> {
    /// The number of the event's message in the feed, from 1.
    pub fn message(&self) -> usize
        ensures { result ≡ self.now.message }
    {
        self.message
    }

    /// The number of the event's type.
    pub fn kind(&self) -> u64
        ensures { result ≡ self.now.kind }
    {
        self.kind
    }

    /// The event's statement, empty where it has none.
    pub fn statement(&self) -> &'h [u8]
        ensures { result.now ≡ self.now.statement }
    {
        self.statement
    }
}

/// A message of a feed, lent from its buffer.
#[derive(Drop)]
struct Message<'h> {
    bytes: &'h [u8],
}

impl<'h> Model for Message<'h> {
    ghost use Rattle.std.specs.Prelude.{ℕ, List};

    ghost Value = { List ℕ };

    ghost view = { λ m. m.bytes.now };
}

/// Whether an event of this type is passed over.
fn is_skipped(kind: u64) -> bool
    ensures { result ≡ is_skipped kind }
{
    kind == 5 || kind == 11 || kind == 19
}

/// Puts an event behind the others, if it is passed over.
fn push_if<'h>(
    message: usize,
    event: &'h [u8],
    skipped: &mut Vec<Skipped<'h>>,
) -> Result<(), AllocError>
    ensures { OnOk result (skipped.new.items ≡ skipped.old.items ++ skipped_at message event.entry.now) }
{
    let kind = last_varint(event, 1);
    if is_skipped(kind) {
        let statement = last_text(event, 4);
        skipped.push(Skipped {
            message,
            kind,
            statement,
        })?;
    }
    Ok(())
}

/// Puts those of a message behind the others.
fn push_message<'h>(
    number: usize,
    message: &'h [u8],
    skipped: &mut Vec<Skipped<'h>>,
) -> Result<(), AllocError>
    ensures { OnOk result (skipped.new.items ≡ skipped.old.items ++ skipped_in number message.entry.now) }
{
    for event in Parts::new(message, 1) {
        push_if(number, event, skipped)?;
    }
    Ok(())
}

/// The messages of a feed, up to its end or to what is none.
fn messages_of<'h>(alloc: Global, feed: &'h [u8]) -> Result<Vec<Message<'h>>, AllocError>
    ensures { IfOk result (λ messages. messages.items ≡ (frames_of feed.entry.now).items) }
{
    let mut messages = Vec::new(alloc);
    let mut frames = Frames::new(feed);
    while let Ok(Some(bytes)) = frames.next_frame() {
        messages.push(Message { bytes })?;
    }
    Ok(messages)
}

/// The events of a feed that the reader passes over though they may change rows without saying which, in
/// order: statements that change the schema, others, and savepoints. An error is want of memory.
pub fn skipped_of<'h>(alloc: Global, feed: &'h [u8]) -> Result<Vec<Skipped<'h>>, AllocError>
    ensures { IfOk result (λ skipped. skipped.items ≡ skipped_of feed.entry.now) }
{
    let messages = messages_of(alloc, feed)?;
    let mut skipped = Vec::new(alloc);
    for i in 0..messages.len() {
        push_message(i + 1, messages[i].bytes, &mut skipped)?;
    }
    Ok(skipped)
}
