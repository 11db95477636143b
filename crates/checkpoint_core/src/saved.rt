//! What a checkpoint says of a stream.

ghost use Rattle.std.specs.Prelude.{◌≡◌};

use gtid_set::GtidSet;
use pk_copy::{CopyState, Key};
use row_view::RowBytes;
use std::marker::Model;

/// What a checkpoint says of a stream: the position up to which groups are applied, how far the tables are
/// copied, and the stream's rows by rising key, which are lent from the checkpoint's bytes.
#[derive(Drop)]
pub struct ReadStream<'b> {
    pub(crate) position: GtidSet,
    pub(crate) marks: CopyState,
    pub(crate) rows: Vec<(Key, RowBytes<'b>)>,
}

impl<'b> Model for ReadStream<'b> {
    ghost use Rattle.checkpoint_laws.specs.Saved.{SavedStream};

    ghost Value = { SavedStream };

    ghost view = { λ s. record { position = s.position; marks = s.marks; rows = s.rows.items } };
}

impl<'b> ReadStream<'b> {
    /// The position up to which groups are applied. Takes no memory.
    pub fn position(&self) -> &GtidSet
        ensures { result.now ≡ self.now.position }
    {
        &self.position
    }

    /// How far the tables are copied. Takes no memory.
    pub fn marks(&self) -> &CopyState
        ensures { result.now ≡ self.now.marks }
    {
        &self.marks
    }

    /// The stream's rows with their keys, by rising key. Takes no memory.
    pub fn rows(&self) -> &[(Key, RowBytes<'b>)]
        ensures { result.now ≡ self.now.rows }
    {
        self.rows.as_slice()
    }

    /// The stream's rows with their keys, by rising key, to be taken out. Takes no memory.
    pub fn into_rows(self) -> Vec<(Key, RowBytes<'b>)>
        ensures { result.items ≡ self.entry.rows }
    {
        self.rows
    }
}
