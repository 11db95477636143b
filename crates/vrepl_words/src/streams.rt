//! The streams that `follow` is told to run alone, and the one whose feed `compact` is given or `feed` writes.

ghost use Rattle.std.specs.Prelude.{◌≡◌, IfOk, is_some, option_map};
ghost use Rattle.clap.specs.Words.{found_of, rows_of};
ghost use Rattle.vrepl_words.specs.Arguments.{are_streams, gives_streams, stream_given, stream_number_of, streams_given, streams_of};

use crate::given::text_if;
use clap::ArgMatches;
use std::alloc::{AllocError, Global};
use vindex::natural_of;

/// Whether what was given are streams, if something was.
pub(crate) fn gives_streams(given: &ArgMatches<'_>, name: &str) -> bool
    ensures { result ≡ gives_streams name.now (rows_of (found_of given.now)) }
{
    match text_if(given, name) {
        None => true,
        Some(text) => are_streams(text),
    }
}

/// The streams that were given, if some were. An error is want of memory.
pub(crate) fn streams_given(
    alloc: Global,
    given: &ArgMatches<'_>,
    name: &str,
) -> Result<Option<Vec<u8>>, AllocError>
    ensures { IfOk result (λ streams. option_map (λ streams. streams.items) streams ≡ streams_given name.now (rows_of (found_of given.now))) }
{
    match text_if(given, name) {
        None => Ok(None),
        Some(text) => {
            let streams = streams_of(alloc, text)?;
            Ok(Some(streams))
        }
    }
}

/// The stream that was given, or the first one. None where what was given is none.
pub(crate) fn stream_given(given: &ArgMatches<'_>, name: &str) -> Option<u8>
    ensures { result ≡ stream_given name.now (rows_of (found_of given.now)) }
{
    match text_if(given, name) {
        None => Some(0),
        Some(text) => stream_number_of(text.as_bytes()),
    }
}

/// The number of 0 to 63 that digits spell.
pub(crate) fn stream_number_of(text: &[u8]) -> Option<u8>
    ensures { result ≡ stream_number_of text.now }
{
    let number = natural_of(text)?;
    if number < 64 {
        Some(number as u8)
    } else {
        None
    }
}

/// Whether all parts of a text are streams.
fn are_streams(text: &str) -> bool
    ensures { result ≡ are_streams text.now }
{
    text.as_bytes()
        .split(|b| *b == b',')
        .all(|part| stream_number_of(part).is_some())
}

/// The parts of a text that are streams. An error is want of memory.
fn streams_of(alloc: Global, text: &str) -> Result<Vec<u8>, AllocError>
    ensures { IfOk result (λ streams. streams.items ≡ streams_of text.now) }
{
    text.as_bytes()
        .split(|b| *b == b',')
        .filter_map(|part| stream_number_of(part))
        .collect(alloc)
}
