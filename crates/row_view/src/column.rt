/// The value of one column of a row, lent from the row message's bytes.
#[derive(Clone, Copy, Debug, PartialEq, Eq)]
pub enum Column<'b> {
    /// NULL, which takes no bytes of the message.
    Null,
    /// The bytes of the value, possibly none.
    Bytes(&'b [u8]),
}
