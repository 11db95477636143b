//! Messages of a feed.

ghost use Rattle.std.specs.Prelude.{◌≡◌, ◌++◌, ◌∷◌, [], map, string_bytes, IfOk, OnOk};
ghost use Rattle.list_laws.specs.Outcome.{GivesUnless};
ghost use Rattle.gtid_set.specs.Printed.{printed_position};
ghost use Rattle.vevent.specs.EventValue.{Begin, Commit};
ghost use Rattle.vevent.specs.WrittenEvent.{written_event};
ghost use Rattle.event_laws.specs.WrittenMessages.{written_response, framed};
ghost use Rattle.log_laws.specs.Transcript.{place_told};
ghost use Rattle.log_transcribe.specs.Private.Bytes.{tell_meant, event_bytes, transaction_bytes, events_put, last_put};

use crate::fault::TellError;
use feed_bytes::write_message;
use gtid_set::GtidSet;
use log_feed::position_event;
use log_laws::TellFault;
use std::alloc::{AllocError, Global};

/// How many bytes the text of a position may have in a feed.
const LIMIT: usize = 1 << 20;

/// How many bytes the text of a position of one interval has at most: a uuid, a colon, two numbers and a hyphen.
const ONE: usize = 80;

/// The printed text of a position.
fn text_of(alloc: Global, position: &GtidSet) -> Result<String, AllocError>
    ensures { IfOk result (λ text. string_bytes text ≡ printed_position position.now) }
{
    let mut text = String::with_capacity(alloc, ONE)?;
    write!(text, "{position}")?;
    Ok(text)
}

/// The event that says a position.
fn place_event(
    alloc: Global,
    keyspace: &str,
    shard: &str,
    position: &GtidSet,
) -> Result<Vec<u8>, TellError>
    ensures { GivesUnless tell_meant (λ event. event.items) result (event_bytes (place_told keyspace.now shard.now position.now)) }
{
    let text = text_of(alloc, position)?;
    if text.len() > LIMIT {
        return Err(TellError::Is(TellFault::Position));
    }
    let event = position_event(alloc, keyspace, shard, &text)?;
    Ok(event)
}

/// Events with one before them and two behind them.
fn around<'e>(
    alloc: Global,
    begin: &'e [u8],
    events: &'e [Vec<u8>],
    place: &'e [u8],
    commit: &'e [u8],
) -> Result<Vec<&'e [u8]>, AllocError>
    ensures { IfOk result (λ all. map (λ e. e.now) all.items ≡ begin.entry.now ∷ (map (λ e. e.items) events.entry.now ++ (place.entry.now ∷ commit.entry.now ∷ []))) }
{
    let mut all = Vec::with_capacity(alloc, events.len().saturating_add(3))?;
    all.push(begin)?;
    for event in events {
        all.push(event.as_slice())?;
    }
    all.push(place)?;
    all.push(commit)?;
    Ok(all)
}

/// A BEGIN as its bytes.
fn begin_bytes() -> [u8; 2]
    ensures { result ≡ written_event Begin }
{
    [8, 2]
}

/// A COMMIT as its bytes.
fn commit_bytes() -> [u8; 2]
    ensures { result ≡ written_event Commit }
{
    [8, 3]
}

/// Appends the message of a transaction's events and of the position behind it.
fn put_transaction(
    alloc: Global,
    out: &mut Vec<u8>,
    events: &[Vec<u8>],
    place: &[u8],
) -> Result<(), AllocError>
    ensures { OnOk result (out.new.items ≡ out.old.items ++ transaction_bytes (map (λ e. e.items) events.now) place.now) }
{
    let (begin, commit) = (begin_bytes(), commit_bytes());
    let all = around(alloc, &begin, events, place, &commit)?;
    write_message(out, &all)
}

/// Appends the message of a transaction, where it has events, and answers whether it has.
pub(crate) fn put_events(
    alloc: Global,
    out: &mut Vec<u8>,
    keyspace: &str,
    shard: &str,
    position: &GtidSet,
    events: &[Vec<u8>],
) -> Result<bool, TellError>
    ensures { GivesUnless tell_meant (λ said. (out.new.items, said)) result (events_put keyspace.now shard.now position.now (map (λ e. e.items) events.now) out.old.items) }
{
    if events.is_empty() {
        return Ok(false);
    }
    let place = place_event(alloc, keyspace, shard, position)?;
    put_transaction(alloc, out, events, &place)?;
    Ok(true)
}

/// Appends the message of a position alone.
fn put_alone(out: &mut Vec<u8>, place: &[u8]) -> Result<(), AllocError>
    ensures { OnOk result (out.new.items ≡ out.old.items ++ framed (written_response (place.now ∷ []))) }
{
    write_message(out, &[place])
}

/// Appends the message of a position, where it isn't said.
pub(crate) fn put_last(
    alloc: Global,
    out: &mut Vec<u8>,
    keyspace: &str,
    shard: &str,
    position: &GtidSet,
    said: bool,
) -> Result<(), TellError>
    ensures { GivesUnless tell_meant (λ x. out.new.items) result (last_put keyspace.now shard.now position.now said out.old.items) }
{
    if said {
        return Ok(());
    }
    let place = place_event(alloc, keyspace, shard, position)?;
    put_alone(out, &place)?;
    Ok(())
}
