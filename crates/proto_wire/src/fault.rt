//! Why bytes aren't a list of fields, of messages or of varints.

ghost use Rattle.std.specs.Prelude.{◌≡◌};
ghost use Rattle.proto_wire.specs.FaultNumber.{number_of};

use thiserror::Error;

/// What stands in the place of a field or of a varint.
#[derive(Clone, Copy, Debug, PartialEq, Eq, Error)]
pub enum WireFault {
    /// The bytes end inside a tag or a payload.
    #[error("the bytes end inside a field")]
    Truncated,
    /// A varint whose tenth byte is above 1, as of more than ten bytes.
    #[error("a varint has more than 64 bits")]
    VarintTooLong,
    /// A field of wire type 3 or 4, the groups that protobuf no longer has.
    #[error("a field has the wire type of a group")]
    GroupWireType,
    /// A field of wire type 6 or 7, which protobuf doesn't have.
    #[error("a field has a wire type that is not known")]
    BadWireType,
    /// A field whose number is 0 or above 2^29 - 1.
    #[error("a field has a number out of range")]
    BadFieldNumber,
}

impl WireFault {
    /// The refusal's number: 1 to 5.
    pub fn number(self) -> u8
        ensures { result ≡ number_of self }
    {
        match self {
            WireFault::Truncated => 1,
            WireFault::VarintTooLong => 2,
            WireFault::GroupWireType => 3,
            WireFault::BadWireType => 4,
            WireFault::BadFieldNumber => 5,
        }
    }
}

/// A message that is cut short, or whose length is no varint.
#[derive(Clone, Copy, Debug, PartialEq, Eq, Error)]
#[error("a message is broken at byte {place}: {cause}")]
pub struct FrameFault {
    /// Where the message's first byte, that of its length, stands in the buffer: bytes from its start.
    pub place: usize,
    /// `Truncated` for one that is cut short, in its length too, and `VarintTooLong` for a length
    /// that is no varint.
    pub cause: WireFault,
}
