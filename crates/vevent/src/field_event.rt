//! Field events: the columns of one table.

ghost use Rattle.std.specs.Prelude.{◌≡◌, true, map};
ghost use Rattle.std.specs.Iterator.{YieldsFirstBy, item_count};
ghost use Rattle.std.specs.List.{list_all};
ghost use Rattle.std.specs.Str.{is_utf8};
ghost use Rattle.proto_wire.specs.Parts.{text, parts};
ghost use Rattle.vevent.specs.Message.{column_field_of, column_fields_of};
ghost use Rattle.vevent.specs.ColumnView.{field_value};

use crate::messages::Messages;
use crate::text::text_of;
use proto_wire::{last_text, last_varint};
use std::marker::Model;

/// A field event (`binlogdata.proto`, FieldEvent). Seen in contracts as the table's name and the
/// list of its columns. It is made by reading an event alone, so each name is a text.
#[derive(Drop)]
pub struct FieldEvent<'b> {
    table_name: &'b str,
    message: &'b [u8],
}

impl<'b> Model for FieldEvent<'b> {
    ghost use Rattle.std.specs.Prelude.{◌≡◌, true};
    ghost use Rattle.std.specs.List.{list_all};
    ghost use Rattle.std.specs.Str.{is_utf8};
    ghost use Rattle.vevent.specs.EventValue.{FieldEventValue};
    ghost use Rattle.proto_wire.specs.Parts.{text, parts};
    ghost use Rattle.vevent.specs.Message.{column_fields_of};

    ghost Value = { FieldEventValue };

    ghost view = { λ a. record { table_name = a.table_name.now; fields = column_fields_of a.message.now } };

    ghost invariant = { λ a. list_all (λ field. is_utf8 (text 1 field)) (parts 2 a.message.now) ≡ true };
}

impl<'b> FieldEvent<'b> {
    /// The field event of a message whose names are texts.
    pub(crate) fn new(table_name: &'b str, message: &'b [u8]) -> FieldEvent<'b>
        requires { list_all (λ field. is_utf8 (text 1 field)) (parts 2 message.now) ≡ true }
        ensures name { result.table_name ≡ table_name.now }
        ensures fields { result.fields ≡ column_fields_of message.now }
    {
        FieldEvent {
            table_name,
            message,
        }
    }

    /// The name of the table whose columns these are.
    pub fn table_name(&self) -> &'b str
        ensures { result.now ≡ self.now.table_name }
    {
        self.table_name
    }

    /// The columns, in the order of the bytes. Takes no memory.
    pub fn fields(&self) -> ColumnFields<'b>
        ensures { result ≡ self.now.fields }
    {
        ColumnFields {
            messages: Messages::new(self.message, 2),
        }
    }
}

/// The columns of a field event that are still to come. Seen in contracts as the list of them.
#[derive(Drop)]
pub struct ColumnFields<'b> {
    messages: Messages<'b>,
}

impl<'b> Model for ColumnFields<'b> {
    ghost use Rattle.std.specs.Prelude.{◌≡◌, true, List, map};
    ghost use Rattle.std.specs.List.{list_all};
    ghost use Rattle.std.specs.Str.{is_utf8};
    ghost use Rattle.row_view.specs.FieldValue.{FieldValue};
    ghost use Rattle.proto_wire.specs.Parts.{text};
    ghost use Rattle.vevent.specs.Message.{column_field_of};

    ghost Value = { List FieldValue };

    ghost view = { λ a. map column_field_of a.messages.items };

    ghost invariant = { λ a. list_all (λ field. is_utf8 (text 1 field)) a.messages.items ≡ true };
}

impl<'b> ColumnFields<'b> {
    /// The columns under a number of a message, whose names are texts.
    pub(crate) fn under(message: &'b [u8], number: u32) -> ColumnFields<'b>
        requires { list_all (λ field. is_utf8 (text 1 field)) (parts number message.now) ≡ true }
        ensures { result ≡ map column_field_of (parts number message.now) }
    {
        ColumnFields {
            messages: Messages::new(message, number),
        }
    }
}

impl<'b> Iterator for ColumnFields<'b> {
    type Item = ColumnField<'b>;

    ghost next_gives = { YieldsFirstBy field_value (λ rest. rest) };

    ghost remaining = { item_count (λ rest. rest) };

    fn next(&mut self) -> Option<ColumnField<'b>> {
        let field = self.messages.next()?;
        Some(ColumnField {
            name: text_of(last_text(field, 1)),
            type_number: last_varint(field, 2),
        })
    }
}

/// A column (`query.proto`, Field).
#[derive(Clone, Copy)]
pub struct ColumnField<'b> {
    pub name: &'b str,
    /// The number of its type, the whole varint.
    pub type_number: u64,
}
