//! VGTID events: the positions of shards.

ghost use Rattle.std.specs.Prelude.{◌≡◌, true};
ghost use Rattle.std.specs.Iterator.{YieldsFirstBy, item_count};
ghost use Rattle.std.specs.List.{list_all};
ghost use Rattle.proto_wire.specs.Parts.{parts};
ghost use Rattle.vevent.specs.Fault.{are_entry_texts};
ghost use Rattle.vevent.specs.Message.{shard_gtids_of};
ghost use Rattle.vevent.specs.ShardGtidView.{shard_gtid_value};

use crate::messages::Messages;
use crate::text::text_of;
use proto_wire::last_text;
use std::marker::Model;

/// The position of each shard of a stream (`binlogdata.proto`, VGtid). Seen in contracts as the list
/// of its entries. It is made by reading an event alone, so each text is one.
#[derive(Drop)]
pub struct VGtid<'b> {
    message: &'b [u8],
}

impl<'b> Model for VGtid<'b> {
    ghost use Rattle.std.specs.Prelude.{◌≡◌, true, List};
    ghost use Rattle.std.specs.List.{list_all};
    ghost use Rattle.vevent.specs.EventValue.{ShardGtidValue};
    ghost use Rattle.proto_wire.specs.Parts.{parts};
    ghost use Rattle.vevent.specs.Fault.{are_entry_texts};
    ghost use Rattle.vevent.specs.Message.{shard_gtids_of};

    ghost Value = { List ShardGtidValue };

    ghost view = { λ a. shard_gtids_of a.message.now };

    ghost invariant = { λ a. list_all are_entry_texts (parts 1 a.message.now) ≡ true };
}

impl<'b> VGtid<'b> {
    /// The VGTID of a message whose texts are ones.
    pub(crate) fn new(message: &'b [u8]) -> VGtid<'b>
        requires { list_all are_entry_texts (parts 1 message.now) ≡ true }
        ensures { result ≡ shard_gtids_of message.now }
    {
        VGtid { message }
    }

    /// The entries, in the order of the bytes. Takes no memory.
    pub fn entries(&self) -> ShardGtids<'b>
        ensures { result ≡ self.now }
    {
        ShardGtids {
            messages: Messages::new(self.message, 1),
        }
    }
}

/// The entries of a VGTID that are still to come. Seen in contracts as the list of them.
#[derive(Drop)]
pub struct ShardGtids<'b> {
    messages: Messages<'b>,
}

impl<'b> Model for ShardGtids<'b> {
    ghost use Rattle.std.specs.Prelude.{◌≡◌, true, List, map};
    ghost use Rattle.std.specs.List.{list_all};
    ghost use Rattle.vevent.specs.EventValue.{ShardGtidValue};
    ghost use Rattle.vevent.specs.Fault.{are_entry_texts};
    ghost use Rattle.vevent.specs.Message.{shard_gtid_of};

    ghost Value = { List ShardGtidValue };

    ghost view = { λ a. map shard_gtid_of a.messages.items };

    ghost invariant = { λ a. list_all are_entry_texts a.messages.items ≡ true };
}

impl<'b> Iterator for ShardGtids<'b> {
    type Item = ShardGtid<'b>;

    ghost next_gives = { YieldsFirstBy shard_gtid_value (λ rest. rest) };

    ghost remaining = { item_count (λ rest. rest) };

    fn next(&mut self) -> Option<ShardGtid<'b>> {
        let entry = self.messages.next()?;
        Some(ShardGtid {
            keyspace: text_of(last_text(entry, 1)),
            shard: text_of(last_text(entry, 2)),
            gtid: text_of(last_text(entry, 3)),
        })
    }
}

/// The position of one shard (`binlogdata.proto`, ShardGtid).
#[derive(Clone, Copy)]
pub struct ShardGtid<'b> {
    pub keyspace: &'b str,
    pub shard: &'b str,
    pub gtid: &'b str,
}
