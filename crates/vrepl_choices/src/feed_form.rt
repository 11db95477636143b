//! How feeds are given.

/// How the bytes of feeds are given.
#[derive(Clone, Copy)]
pub enum FeedForm {
    /// They are given themselves.
    Bytes,
    /// They are spelled by hexadecimal text.
    Hex,
}
