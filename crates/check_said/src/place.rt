//! The place of a feed's fault, in words.

ghost use Rattle.std.specs.Prelude.{◌≡◌, IfOk, IfErr};
ghost use Rattle.std.specs.Option.{option_map};
ghost use Rattle.std.specs.String.{string_bytes};
ghost use Rattle.check_said.specs.Front.{whole_groups};
ghost use Rattle.check_said.specs.Place.{field_text, groups_text, message_text, IsPlace};
ghost use Rattle.source_feed.specs.Planned.{source_of};
ghost use Rattle.source_feed.specs.declared.fault.FeedFault.TheVariants.{Memory};
ghost use Rattle.check_said.specs.Messages.{unread_message};

use crate::column::differing_text;
use crate::field::first_field;
use crate::messages::{byte_of, messages_of, unread_message, whole_groups};
use filter_rule::Plan;
use source_feed::FeedFault;
use std::alloc::Global;

/// How many whole groups stand in some messages; nothing where they are refused themselves.
fn groups_text(alloc: Global, plan: &Plan, front: &[u8]) -> Result<String, FeedFault>
    ensures ok { IfOk result (λ text. string_bytes text ≡ groups_text (whole_groups front.now (source_of plan.now))) }
    ensures err { IfErr result (λ fault. fault ≡ Memory) }
{
    match whole_groups(alloc, front, plan) {
        Ok(groups) => {
            let text = format!(in alloc; " behind group {groups}")?;
            Ok(text)
        }
        Err(FeedFault::Memory) => Err(FeedFault::Memory),
        Err(_) => Ok(String::new(alloc)),
    }
}

/// The place of a message: its number, from 1, its first byte, from 0, and how many whole groups stand in the
/// messages before it.
fn message_text(alloc: Global, plan: &Plan, feed: &[u8], number: usize) -> Result<String, FeedFault>
    ensures ok { IfOk result (λ text. string_bytes text ≡ message_text plan.now feed.now number) }
    ensures err { IfErr result (λ fault. fault ≡ Memory) }
{
    let byte = byte_of(feed, number);
    let groups = groups_text(alloc, plan, &feed[..byte])?;
    let text = format!(in alloc; "message {number} byte {byte}{groups}")?;
    Ok(text)
}

/// The place of the first message that isn't read, or else of what is no message.
fn unread_text(alloc: Global, plan: &Plan, feed: &[u8]) -> Result<String, FeedFault>
    ensures ok { IfOk result (λ text. string_bytes text ≡ message_text plan.now feed.now (unread_message feed.now)) }
    ensures err { IfErr result (λ fault. fault ≡ Memory) }
{
    let number = unread_message(alloc, feed)?;
    message_text(alloc, plan, feed, number)
}

/// The place of the first FIELD event that differs, and the column in which it does.
fn field_text(alloc: Global, plan: &Plan, feed: &[u8]) -> Result<Option<String>, FeedFault>
    ensures ok { IfOk result (λ place. option_map string_bytes place ≡ field_text plan.now feed.now) }
    ensures err { IfErr result (λ fault. fault ≡ Memory) }
{
    let messages = messages_of(alloc, feed)?;
    let Some((number, found)) = first_field(plan, &messages) else {
        return Ok(None);
    };
    let message = message_text(alloc, plan, feed, number)?;
    let column = differing_text(alloc, plan, &found)?;
    let text = format!(in alloc; "{message} {column}")?;
    Ok(Some(text))
}

/// The place of the fault for which a feed is refused under a plan, in words, where it is a broken message, an
/// event that isn't read, or a FIELD that differs. An error is want of memory.
pub fn place_of(
    alloc: Global,
    plan: &Plan,
    feed: &[u8],
    fault: FeedFault,
) -> Result<Option<String>, FeedFault>
    ensures place { IfOk result (λ place. IsPlace plan.now feed.now fault (option_map string_bytes place)) }
    ensures memory { IfErr result (λ fault. fault ≡ Memory) }
{
    match fault {
        FeedFault::Frame | FeedFault::Event(_) => Ok(Some(unread_text(alloc, plan, feed)?)),
        FeedFault::FieldsDiffer => field_text(alloc, plan, feed),
        _ => Ok(None),
    }
}
