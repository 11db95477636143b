//! What a command's refusal tells behind its number.

ghost use Rattle.std.specs.Prelude.{◌≡◌, [], ◌∷◌, codes, option_map};
ghost use Rattle.source_feed.specs.FaultNumber.{cause_of};
ghost use Rattle.refusal_json.specs.Details.{detail_value, details_value};
ghost use Rattle.vrepl_refusal.specs.Told.{cause_told, column_told, feed_place_told, feed_told, named, numbered, told_of, workflow_told};

use filter_rule::PlanFault;
use refusal_json::{Detail, Details, Told};
use source_feed::FeedFault;
use vevent::EventFault;
use vrepl_main::CommandRefusal;

/// A number by a word.
fn numbered(word: &str, number: u64) -> Detail<'_>
    ensures { detail_value result ≡ numbered word.entry.now number }
{
    Detail {
        word,
        told: Told::Number(number),
    }
}

/// A text by a word.
fn named<'d>(word: &'d str, text: &'d str) -> Detail<'d>
    ensures { detail_value result ≡ named word.entry.now text.entry.now }
{
    Detail {
        word,
        told: Told::Text(text),
    }
}

/// Nothing.
fn nothing<'d>() -> Details<'d>
    ensures { details_value result ≡ [] }
{
    Details {
        first: None,
        second: None,
    }
}

/// One thing.
fn one(detail: Detail<'_>) -> Details<'_>
    ensures { details_value result ≡ detail_value detail.entry ∷ [] }
{
    Details {
        first: Some(detail),
        second: None,
    }
}

/// Two things, one behind the other.
fn both<'d>(first: Detail<'d>, second: Detail<'d>) -> Details<'d>
    ensures { details_value result ≡ detail_value first.entry ∷ detail_value second.entry ∷ [] }
{
    Details {
        first: Some(first),
        second: Some(second),
    }
}

/// The number of a fault's cause, where it has one.
fn cause_of<'d>(fault: &FeedFault) -> Option<Detail<'d>>
    ensures { option_map detail_value result ≡ option_map cause_told (cause_of fault.now) }
{
    match fault.cause() {
        None => None,
        Some(cause) => Some(numbered("cause", u64::from(cause))),
    }
}

/// The type of an event that isn't read, or the number that a group would have had.
fn place_of<'d>(fault: &FeedFault) -> Option<Detail<'d>>
    ensures { option_map detail_value result ≡ feed_place_told fault.now }
{
    match fault {
        FeedFault::Event(EventFault::BadType(kind)) => Some(numbered("type", *kind)),
        FeedFault::Diverged(group) => Some(numbered("group", u64::from(*group))),
        _ => None,
    }
}

/// What a refused feed's line says behind the number.
fn feed_details<'d>(fault: &FeedFault) -> Details<'d>
    ensures { details_value result ≡ feed_told fault.now }
{
    Details {
        first: cause_of(fault),
        second: place_of(fault),
    }
}

/// A column of a table.
fn column<'d>(table: &'d str, column: &'d str) -> Details<'d>
    ensures { details_value result ≡ column_told table.entry.now column.entry.now }
{
    both(named("table", table), named("column", column))
}

/// What a refused workflow's line says behind the number.
fn workflow_details(fault: &PlanFault) -> Details<'_>
    ensures { details_value result ≡ workflow_told fault.entry.now }
{
    match fault {
        PlanFault::NoSuchColumn {
            table,
            column: name,
        }
        | PlanFault::KeyType {
            table,
            column: name,
        } => column(table.as_str(), name.as_str()),
        PlanFault::BadRule { stream, rule } => both(
            numbered("stream", *stream as u64),
            numbered("rule", *rule as u64),
        ),
        PlanFault::ColumnsDiffer { table } => one(named("table", table.as_str())),
        _ => nothing(),
    }
}

/// What stands behind the number of a refusal, word by word.
pub fn details_of<'d>(refusal: &'d CommandRefusal<'_>) -> Details<'d>
    ensures { details_value result ≡ told_of refusal.entry.now }
{
    match refusal {
        CommandRefusal::Changed { file }
        | CommandRefusal::CannotRead { file }
        | CommandRefusal::CannotWrite { file } => one(named("file", *file)),
        CommandRefusal::Workflow(fault) => workflow_details(fault),
        CommandRefusal::Feed(fault) => feed_details(fault),
        CommandRefusal::NotReached { stream } => one(numbered("stream", *stream as u64)),
        CommandRefusal::BadScript { line } | CommandRefusal::BadDump { line } => {
            one(numbered("line", *line as u64))
        }
        CommandRefusal::Memory
        | CommandRefusal::NoStream
        | CommandRefusal::FeedCount
        | CommandRefusal::BadHex => nothing(),
    }
}
