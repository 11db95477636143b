//! Whether the texts that an event's type uses are UTF-8.

ghost use Rattle.std.specs.Prelude.{◌≡◌, ℕ, List};
ghost use Rattle.std.specs.List.{list_all};
ghost use Rattle.std.specs.Str.{is_utf8};
ghost use Rattle.proto_wire.specs.Parts.{text, parts};
ghost use Rattle.vevent.specs.Fault.{are_entry_texts, are_texts};
ghost use Rattle.vevent.specs.Private.EventParts.{AreAllParts};

use crate::event_parts::EventParts;
use crate::kind::EventKind;
use crate::messages::Messages;
use crate::text::is_text;
use proto_wire::last_text;

/// The names of all columns of a field event.
fn are_names(field_event: &[u8]) -> bool
    ensures { result ≡ list_all (λ field. is_utf8 (text 1 field)) (parts 2 field_event.now) }
{
    for field in Messages::new(field_event, 2) {
        if !is_text(last_text(field, 1)) {
            return false;
        }
    }
    true
}

/// The three texts of an entry of a VGTID.
fn are_texts_of_entry(entry: &[u8]) -> bool
    ensures { result ≡ are_entry_texts entry.now }
{
    is_text(last_text(entry, 1)) && is_text(last_text(entry, 2)) && is_text(last_text(entry, 3))
}

/// The texts of all entries of a VGTID.
fn are_texts_of_entries(vgtid: &[u8]) -> bool
    ensures { result ≡ list_all are_entry_texts (parts 1 vgtid.now) }
{
    for entry in Messages::new(vgtid, 1) {
        if !are_texts_of_entry(entry) {
            return false;
        }
    }
    true
}

/// The texts that an event of this type uses.
pub(crate) fn are_used_texts(kind: EventKind, parts: &EventParts<'_>) -> bool
    ensures { (bytes : List ℕ) → AreAllParts bytes parts.now → result ≡ are_texts kind bytes }
{
    match kind {
        EventKind::Gtid => is_text(parts.gtid),
        EventKind::Row => is_text(parts.rows.table_name),
        EventKind::Field => {
            let field_event = parts.field_event.message();
            is_text(last_text(field_event, 1)) && are_names(field_event)
        }
        EventKind::Vgtid => are_texts_of_entries(parts.vgtid.message()),
        EventKind::Begin | EventKind::Commit | EventKind::Rollback | EventKind::Ignored(_) => true,
    }
}
