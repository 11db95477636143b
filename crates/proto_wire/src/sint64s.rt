//! The numbers of a `repeated sint64` field, packed or not.

ghost use Rattle.std.specs.Prelude.{◌≡◌, ℤ, List};
ghost use Rattle.std.specs.Iterator.{YieldsFirst, item_count};
ghost use Rattle.proto_wire.specs.Sint64s.{sint64s, sint64s_left};

use crate::field::Payload;
use crate::fields::Fields;
use crate::sint64::unzigzag;
use crate::varints::Varints;
use std::marker::Model;

/// The numbers that a message holds under the number of a `repeated sint64` field and that are still
/// to come, in the order of the bytes. Seen in contracts as that list. A fault of the wire ends them,
/// so a caller has looked for faults before. Takes no memory.
#[derive(Drop)]
pub struct Sint64s<'b> {
    number: u32,
    fields: Fields<'b>,
    /// what is left of the packed part that was entered last
    packed: Varints<'b>,
}

impl<'b> Model for Sint64s<'b> {
    ghost use Rattle.std.specs.Prelude.{ℤ, List, ◌++◌, map};
    ghost use Rattle.proto_wire.specs.Zigzag.{unzigzag_of};
    ghost use Rattle.proto_wire.specs.Sint64s.{sint64s_of};

    ghost Value = { List ℤ };

    ghost view = { λ a. map unzigzag_of a.packed.items ++ sint64s_of a.number a.fields.items };
}

impl<'b> Sint64s<'b> {
    /// All that the message holds under the number. Nothing is read yet.
    pub fn new(message: &'b [u8], number: u32) -> Sint64s<'b>
        ensures { result ≡ sint64s number message.now }
    {
        Sint64s {
            number,
            fields: Fields::new(message),
            packed: Varints::new(&[]),
        }
    }

    /// What is left of a packed part, and what the fields behind it hold under the number. Nothing is
    /// read yet.
    pub fn behind(packed: &'b [u8], fields: &'b [u8], number: u32) -> Sint64s<'b>
        ensures { result ≡ sint64s_left number packed.now fields.now }
    {
        Sint64s {
            number,
            fields: Fields::new(fields),
            packed: Varints::new(packed),
        }
    }
}

impl<'b> Iterator for Sint64s<'b> {
    type Item = i64;

    ghost next_gives = { YieldsFirst (λ rest. rest) };

    ghost remaining = { item_count (λ rest. rest) };

    #[inline(always)]
    fn next(&mut self) -> Option<i64> {
        loop {
            if let Ok(Some(number)) = self.packed.next_varint() {
                return Some(unzigzag(number));
            }
            let Ok(Some(field)) = self.fields.next_field() else {
                return None;
            };
            if field.number == self.number {
                match field.payload {
                    Payload::Varint(number) => return Some(unzigzag(number)),
                    Payload::Bytes(packed) => self.packed = Varints::new(packed),
                    _ => {}
                }
            }
        }
    }
}
