//! Keyspace ids.

ghost use Rattle.std.specs.Prelude.{◌≡◌};
ghost use Rattle.vindex.specs.KeyspaceId.{id_bytes};

/// The keyspace id of a column's value: a byte string, borrowed from the column where it can be.
#[derive(Clone, Copy, Debug)]
pub enum Id<'b> {
    /// The column's own bytes.
    Slice(&'b [u8]),
    /// A number, or 64 bits enciphered, high byte first.
    Eight([u8; 8]),
    /// An MD5 digest.
    Sixteen([u8; 16]),
}

impl<'b> Id<'b> {
    /// The id's bytes. Takes no memory.
    pub fn bytes(&self) -> &[u8]
        ensures { result.now ≡ id_bytes self.now }
    {
        match self {
            Id::Slice(bytes) => bytes,
            Id::Eight(bytes) => bytes,
            Id::Sixteen(bytes) => bytes,
        }
    }
}
