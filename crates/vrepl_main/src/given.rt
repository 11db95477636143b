//! Feeds as they are given: bytes, or hexadecimal text.

ghost use Rattle.std.specs.Prelude.{◌≡◌, IfOk, IsErr, IsSome, map};
ghost use Rattle.std.specs.Option.{option_map};
ghost use Rattle.vrepl_main.specs.Given.{given_value};
ghost use Rattle.vrepl_main.specs.HexText.{feed_bytes, hex_bytes};

use crate::hex_text::{HexFault, bytes_of_hex};
use std::alloc::{AllocError, Global};
use vrepl_choices::FeedForm;

/// The bytes of a feed.
#[derive(Drop)]
pub enum GivenFeed<'f> {
    /// They were given themselves.
    Bytes(&'f [u8]),
    /// They were given as hexadecimal text.
    Decoded(Vec<u8>),
    /// What was given as hexadecimal text is none.
    BadHex,
}

impl GivenFeed<'_> {
    /// The bytes; none where what was given as hexadecimal text is none. Takes no memory.
    pub fn bytes(&self) -> Option<&[u8]>
        ensures { option_map (λ bytes. bytes.now) result ≡ given_value self.now }
    {
        match self {
            GivenFeed::Bytes(bytes) => Some(bytes),
            GivenFeed::Decoded(bytes) => Some(bytes.as_slice()),
            GivenFeed::BadHex => None,
        }
    }
}

/// The bytes of each feed, all given in one form. An error is want of memory.
pub fn given_feeds<'f>(
    alloc: Global,
    form: FeedForm,
    feeds: &'f [Vec<u8>],
) -> Result<Vec<GivenFeed<'f>>, AllocError>
    ensures { IfOk result (λ given. map given_value given.items ≡ map (λ feed. feed_bytes form feed.items) feeds.now) }
{
    let mut given = Vec::with_capacity(alloc, feeds.len())?;
    for feed in feeds {
        given.push(given_feed(alloc, form, feed.as_slice())?)?;
    }
    Ok(given)
}

/// The bytes of a feed. An error is want of memory, which is taken for hexadecimal text alone.
fn given_feed<'f>(
    alloc: Global,
    form: FeedForm,
    feed: &'f [u8],
) -> Result<GivenFeed<'f>, AllocError>
    ensures given { IfOk result (λ given. given_value given ≡ feed_bytes form feed.entry.now) }
    ensures memory { IsErr result → (form ≡ FeedForm.Hex) × IsSome (hex_bytes feed.entry.now) }
{
    match form {
        FeedForm::Bytes => Ok(GivenFeed::Bytes(feed)),
        FeedForm::Hex => decoded(alloc, feed),
    }
}

/// The bytes of a feed that is given as hexadecimal text. An error is want of memory, told of hexadecimal text alone.
fn decoded<'f>(alloc: Global, feed: &[u8]) -> Result<GivenFeed<'f>, AllocError>
    ensures given { IfOk result (λ given. given_value given ≡ hex_bytes feed.now) }
    ensures memory { IsErr result → IsSome (hex_bytes feed.now) }
{
    match bytes_of_hex(alloc, feed) {
        Ok(bytes) => Ok(GivenFeed::Decoded(bytes)),
        Err(HexFault::BadHex) => Ok(GivenFeed::BadHex),
        Err(HexFault::Memory) => Err(AllocError),
    }
}
