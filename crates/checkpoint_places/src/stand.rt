//! Where a checkpoint's streams stand.

use gtid_set::GtidSet;
use std::marker::Model;
use vevent::TableMark;

/// How far a table of a stream is copied.
#[derive(Drop)]
pub struct TableStand<'b> {
    /// The bytes of its name, none in a checkpoint of version 1. They needn't be UTF-8.
    pub name: &'b [u8],
    /// Not at all, up to a key or wholly.
    pub mark: TableMark,
    /// How many rows of it the checkpoint has.
    pub rows: u64,
}

impl<'b> Model for TableStand<'b> {
    ghost use Rattle.checkpoint_places.specs.Stands.{TableStandValue};

    ghost Value = { TableStandValue };

    ghost view = { λ t. record { name = t.name.now; mark = t.mark; rows = t.rows } };
}

/// Where a stream stands: its position, and how far each of its tables is copied.
#[derive(Drop)]
pub struct StreamStand<'b> {
    /// The source shard's name.
    pub shard: &'b str,
    /// The position of the last group that is applied.
    pub position: GtidSet,
    /// Its tables, in the workflow's order: at least one.
    pub tables: Vec<TableStand<'b>>,
}

impl<'b> Model for StreamStand<'b> {
    ghost use Rattle.checkpoint_places.specs.Stands.{StreamStandValue};

    ghost Value = { StreamStandValue };

    ghost view = { λ s. record { shard = s.shard.now; position = s.position; tables = s.tables.items } };
}

/// Where the streams of a checkpoint stand.
#[derive(Drop)]
pub struct CheckpointStand<'b> {
    /// The version of the format: 1 or 2.
    pub version: u8,
    /// The streams, in the workflow's order.
    pub streams: Vec<StreamStand<'b>>,
}

impl<'b> Model for CheckpointStand<'b> {
    ghost use Rattle.checkpoint_places.specs.Stands.{CheckpointStandValue};

    ghost Value = { CheckpointStandValue };

    ghost view = { λ c. record { version = c.version; streams = c.streams.items } };
}
