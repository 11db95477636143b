//! What a message holds under a field number.

ghost use Rattle.std.specs.Prelude.{◌≡◌, [], ◌∷◌, None, IfSome, option_copied};
ghost use Rattle.std.specs.Iterator.{YieldsFirstBy, item_count};
ghost use Rattle.proto_wire.specs.Reading.{Next};
ghost use Rattle.proto_wire.specs.Field.{Bytes, wire_field, fields_of};
ghost use Rattle.proto_wire.specs.Parts.{part_in, count_in, parts, parts_left, single, text, scalar};

use crate::fault::WireFault;
use crate::field::{Field, Payload};
use crate::fields::Fields;
use std::marker::Model;

impl<'b> Field<'b> {
    /// The bytes of a text, of bytes or of an embedded message, if the field has the number. Takes no
    /// memory.
    #[inline(always)]
    pub fn part(&self, number: u32) -> Option<&'b [u8]>
        ensures { option_copied result ≡ part_in number (wire_field self.now) }
    {
        match self.payload {
            Payload::Bytes(part) if self.number == number => Some(part),
            _ => None,
        }
    }

    /// The value of a varint, if the field has the number. Takes no memory.
    #[inline(always)]
    pub fn varint(&self, number: u32) -> Option<u64>
        ensures { result ≡ count_in number (wire_field self.now) }
    {
        match self.payload {
            Payload::Varint(value) if self.number == number => Some(value),
            _ => None,
        }
    }
}

impl<'b> Fields<'b> {
    /// The next bytes under the number, or `None` at the end; fields before them are skipped. After
    /// the end the end is answered again, and after a fault the same fault. Takes no memory.
    #[inline(always)]
    pub fn next_part(&mut self, number: u32) -> Result<Option<&'b [u8]>, WireFault>
        ensures { Next (λ p. p.now) (parts_left number self.old) result (parts_left number self.new) }
    {
        while let Some(field) = self.next_field()? {
            if let Some(part) = field.part(number) {
                return Ok(Some(part));
            }
        }
        Ok(None)
    }
}

/// The bytes that a message holds under one number, in order, up to the message's end or to what is
/// no field. Seen in contracts as the list of those that are still to come. Takes no memory.
#[derive(Debug, Drop)]
pub struct Parts<'b> {
    number: u32,
    fields: Fields<'b>,
}

impl<'b> Model for Parts<'b> {
    ghost use Rattle.std.specs.Prelude.{ℕ, List};
    ghost use Rattle.proto_wire.specs.Parts.{parts_left};

    ghost Value = { List (List ℕ) };

    ghost view = { λ a. (parts_left a.number a.fields).items };
}

impl<'b> Parts<'b> {
    /// All that the message holds under the number. Nothing is read yet.
    pub fn new(message: &'b [u8], number: u32) -> Parts<'b>
        ensures { result ≡ parts number message.now }
    {
        Parts {
            number,
            fields: Fields::new(message),
        }
    }
}

impl<'b> Iterator for Parts<'b> {
    type Item = &'b [u8];

    ghost next_gives = { YieldsFirstBy (λ p. p.now) (λ rest. rest) };

    ghost remaining = { item_count (λ rest. rest) };

    #[inline(always)]
    fn next(&mut self) -> Option<&'b [u8]> {
        match self.fields.next_part(self.number) {
            Ok(part) => part,
            Err(_) => None,
        }
    }
}

/// The embedded message under the number, the first of several, or none. Takes no memory.
#[inline(always)]
pub fn single_of(message: &[u8], number: u32) -> Option<&[u8]>
    ensures { option_copied result ≡ single number message.now }
{
    Parts::new(message, number).next()
}

/// The text or the bytes under the number: of several the last, of none the empty one. Takes no
/// memory.
pub fn last_text(message: &[u8], number: u32) -> &[u8]
    ensures { result.now ≡ text number message.now }
{
    let mut last: &[u8] = &[];
    for part in Parts::new(message, number) {
        last = part;
    }
    last
}

/// The varint under the number: of several the last, of none 0. Takes no memory.
pub fn last_varint(message: &[u8], number: u32) -> u64
    ensures { result ≡ scalar number message.now }
{
    let mut last = 0;
    let mut fields = Fields::new(message);
    while let Ok(Some(field)) = fields.next_field() {
        if let Some(value) = field.varint(number) {
            last = value;
        }
    }
    last
}

/// The bytes under two numbers where the message holds these two fields alone, one behind the other, and there is no
/// fault: most messages of two fields are written so. `None` of any other message. Takes no memory.
#[inline(always)]
pub fn pair_of(message: &[u8], first: u32, second: u32) -> Option<(&[u8], &[u8])>
    ensures { IfSome result (λ pair. fields_of message.now ≡ record {
      items = record { number = first; value = Bytes pair.0.now } ∷ record { number = second; value = Bytes pair.1.now } ∷ [];
      fault = None;
    }) }
{
    let mut fields = Fields::new(message);
    let front = field_under(&mut fields, first)?;
    let behind = field_under(&mut fields, second)?;
    match fields.next_field() {
        Ok(None) => Some((front, behind)),
        _ => None,
    }
}

/// The bytes of the next field, if it has the number and holds bytes.
#[inline(always)]
fn field_under<'b>(fields: &mut Fields<'b>, number: u32) -> Option<&'b [u8]>
    ensures { IfSome result (λ part. fields.old ≡ record {
      items = record { number = number; value = Bytes part.now } ∷ fields.new.items;
      fault = fields.new.fault;
    }) }
{
    match fields.next_field() {
        Ok(Some(field)) => field.part(number),
        _ => None,
    }
}
