//! Up to which positions feeds are read, as `--until` gives them.

ghost use Rattle.std.specs.Prelude.{◌≡◌, IfOk, is_some, map, option_map};
ghost use Rattle.std.specs.List.{filter_map, list_all};
ghost use Rattle.clap.specs.Words.{found_of, rows_of};
ghost use Rattle.vrepl_choices.specs.UntilValue.{until_value};
ghost use Rattle.vrepl_words.specs.Arguments.{stream_number_of};
ghost use Rattle.vrepl_words.specs.Untils.{gives_untils, of_stream, until_of, untils_given};

use crate::given::texts;
use crate::streams::stream_number_of;
use clap::ArgMatches;
use std::alloc::{AllocError, Global};
use vrepl_choices::Until;

/// Whether each text that was given is a position, or a stream and its position.
pub(crate) fn gives_untils(given: &ArgMatches<'_>, name: &str) -> bool
    ensures { result ≡ gives_untils name.now (rows_of (found_of given.now)) }
{
    match given.get_strs(name) {
        None => true,
        Some(texts) => are_untils(texts),
    }
}

fn are_untils(texts: &[&str]) -> bool
    ensures { result ≡ list_all (λ text. is_some (until_of text)) (map (λ text. text.now) texts.now) }
{
    for text in texts {
        if until_of(*text).is_none() {
            return false;
        }
    }
    true
}

/// Those that were given. An error is want of memory.
pub(crate) fn untils_given<'w>(
    alloc: Global,
    given: &ArgMatches<'w>,
    name: &str,
) -> Result<Vec<Until<'w>>, AllocError>
    ensures { IfOk result (λ untils. map until_value untils.items ≡ untils_given name.now (rows_of (found_of given.now))) }
{
    let texts = texts(alloc, given, name)?;
    let untils = untils_of(alloc, &texts)?;
    Ok(untils)
}

/// Those texts that are a position, or a stream and its position. An error is want of memory.
fn untils_of<'w>(alloc: Global, texts: &[&'w str]) -> Result<Vec<Until<'w>>, AllocError>
    ensures { IfOk result (λ untils. map until_value untils.items ≡ filter_map until_of (map (λ text. text.now) texts.now)) }
{
    let mut untils = Vec::with_capacity(alloc, texts.len())?;
    for text in texts {
        if let Some(until) = until_of(*text) {
            untils.push(until)?;
        }
    }
    Ok(untils)
}

/// The text of a position, or of a stream and its position. None where what stands before the first `=` is no stream.
fn until_of<'w>(text: &'w str) -> Option<Until<'w>>
    ensures { option_map until_value result ≡ until_of text.entry.now }
{
    match text.split_once('=') {
        None => Some(Until {
            stream: None,
            position: text,
        }),
        Some((stream, position)) => until_by(stream, position),
    }
}

/// The position of the stream that digits spell.
fn until_by<'w>(stream: &str, position: &'w str) -> Option<Until<'w>>
    ensures { option_map until_value result ≡ option_map (of_stream position.entry.now) (stream_number_of stream.now) }
{
    let number = stream_number_of(stream.as_bytes())?;
    Some(Until {
        stream: Some(number),
        position,
    })
}
