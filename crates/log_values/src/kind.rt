//! How the values of a column stand in the log.

use crate::comma::Comma;
use log_events::Size;

/// How many digits a time has behind the point.
#[derive(Clone, Copy, Debug, PartialEq, Eq)]
pub enum Fraction {
    Whole,
    One,
    Two,
    Three,
    Four,
    Five,
    Six,
}

/// How the values of a column are written, and what they are.
#[derive(Clone, Copy, Debug, PartialEq, Eq)]
pub enum Kind {
    /// A whole number with a sign, of so many bytes.
    Signed(Size),
    /// A whole number without a sign, of so many bytes.
    Unsigned(Size),
    /// Bytes behind a count of so many bytes: VARCHAR, VARBINARY, CHAR, TEXT and BLOB.
    Counted(Size),
    /// Bytes behind a count of so many bytes, which are filled up with 00 to so many: BINARY.
    Padded(Size, u16),
    /// So many whole bytes: BIT.
    Bits(u8),
    /// The precision and the scale.
    Decimal(u8, u8),
    Date,
    Year,
    DateTime(Fraction),
    Time(Fraction),
    Timestamp(Fraction),
    /// The number of a label, of so many bytes: ENUM.
    Label(Size),
    /// A bit for each label, of so many bytes, and what parts their text: SET.
    Labels(Size, Comma),
}
