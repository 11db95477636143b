//! Numbers among the words, and what is told of one that can't stand where it does.

ghost use Rattle.std.specs.Prelude.{◌∷◌, ◌≡◌, [], IfOk, Some, option_map};
ghost use Rattle.clap.specs.Words.{HasKind, found_of, kind_of, rows_of};
ghost use Rattle.clap.specs.declared.error.kind.ErrorKind.TheVariants.{ValueValidation};
ghost use Rattle.vrepl_words.specs.Arguments.{count_given, explained_number, portion_of, refusal_given};
ghost use Rattle.vrepl_words.specs.Portions.{bad_portion};

use crate::given::{portion, portion_of};
use clap::error::ErrorKind;
use clap::{ArgMatches, Command, Error};
use refusal_words::texts::has_text;
use std::alloc::AllocError;
use vindex::natural_of;

/// What is told of a portion that is none.
const ROWS: &str = "--rows is a number of 1 to 1000000";

const AHEAD: &str = "--ahead is a number of 1 to 1000000";

const CHUNKS: &str = "--chunks is a number of 1 to 1000000";

/// What is told of a stream that is none.
pub(crate) const STREAM: &str = "--stream is a number of 0 to 63";

/// The number of a refusal that was given, if one was. None where what was given is none.
pub(crate) fn refusal_given(given: &ArgMatches<'_>, name: &str) -> Option<Option<u64>>
    ensures { result ≡ refusal_given name.now (rows_of (found_of given.now)) }
{
    match given.get_str(name) {
        None => Some(None),
        Some(text) => refusal_of(text),
    }
}

/// The number of 1 to 1,000,000 that was given, if one was. None where what was given is none.
pub(crate) fn count_given(given: &ArgMatches<'_>, name: &str) -> Option<Option<u32>>
    ensures { result ≡ count_given name.now (rows_of (found_of given.now)) }
{
    match given.get_str(name) {
        None => Some(None),
        Some(text) => count_of(text),
    }
}

/// The number of 1 to 1,000,000 that digits spell.
fn count_of(text: &str) -> Option<Option<u32>>
    ensures { result ≡ option_map Some (portion_of text.now) }
{
    let count = portion_of(text)?;
    Some(Some(count))
}

/// The number that digits spell, if a refusal has it.
fn refusal_of(text: &str) -> Option<Option<u64>>
    ensures { result ≡ option_map Some (explained_number text.now) }
{
    let number = natural_of(text.as_bytes())?;
    if has_text(number) {
        Some(Some(number))
    } else {
        None
    }
}

/// The fault of usage of a number that can't stand where it does, with its subcommand's usage, or want of memory.
pub(crate) fn bad_number(
    command: Result<Command<'_>, AllocError>,
    name: &str,
    message: &str,
) -> Error
    ensures { HasKind (ValueValidation ∷ []) result }
{
    match usage_fault(command, name, message) {
        Ok(fault) => fault,
        Err(fault) => Error::from(fault),
    }
}

/// A fault of usage of a subcommand.
fn usage_fault(
    command: Result<Command<'_>, AllocError>,
    name: &str,
    message: &str,
) -> Result<Error, AllocError>
    ensures { IfOk result (λ fault. kind_of fault ≡ ValueValidation) }
{
    let mut command = command?.bin_name(name)?;
    command.error(ErrorKind::ValueValidation, message)
}

/// What is told of the first portion that is none.
pub(crate) fn bad_portion(given: &ArgMatches<'_>) -> &'static str
    ensures { result.now ≡ bad_portion (rows_of (found_of given.now)) }
{
    if portion(given, "rows", 1000).is_none() {
        ROWS
    } else if portion(given, "ahead", 100).is_none() {
        AHEAD
    } else {
        CHUNKS
    }
}
