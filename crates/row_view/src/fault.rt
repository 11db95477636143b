//! Why bytes aren't a row.

ghost use Rattle.std.specs.Prelude.{◌≡◌};
ghost use Rattle.row_view.specs.FaultNumber.{number_of, cause_of};

use proto_wire::WireFault;
use thiserror::Error;

/// Why a message is refused as a row. Of several the first one below counts.
#[derive(Clone, Copy, Debug, PartialEq, Eq, Error)]
pub enum RowFault {
    /// The message has more than 2^24 bytes (this profile's limit).
    #[error("a row message has more than 16777216 bytes")]
    RowTooLong,
    /// The message isn't a list of fields, or a packed part of its lengths isn't a list of varints
    /// (protobuf encoding guide). Of several the one further left in the bytes.
    #[error("a row message is broken: {0}")]
    Wire(WireFault),
    /// The message has more than 256 columns (this profile's limit).
    #[error("a row has more than 256 columns")]
    TooManyColumns,
    /// The lengths that aren't negative add up to more bytes than there are values (`query.proto`,
    /// Row).
    #[error("the lengths of a row are more than its values")]
    LengthsPastValues,
}

impl RowFault {
    /// The refusal's number: 11 to 14.
    pub fn number(self) -> u8
        ensures { result ≡ number_of self }
    {
        match self {
            RowFault::RowTooLong => 14,
            RowFault::Wire(_) => 11,
            RowFault::TooManyColumns => 13,
            RowFault::LengthsPastValues => 12,
        }
    }

    /// The number of the innermost fault: the wire's, 1 to 5, for `Wire`, else the row's own.
    pub fn cause(self) -> u8
        ensures { result ≡ cause_of self }
    {
        match self {
            RowFault::Wire(fault) => fault.number(),
            other => other.number(),
        }
    }
}
