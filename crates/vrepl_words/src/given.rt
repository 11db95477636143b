//! What was given to the arguments of a subcommand.

ghost use Rattle.std.specs.Prelude.{◌≡◌, ◌≤◌, IfOk, IfSome, map, option_map};
ghost use Rattle.clap.specs.Words.{first_of, found_of, rows_of};
ghost use Rattle.vrepl_words.specs.Arguments.{is_given, portion_given, portion_of, text_given, texts_given};
ghost use Rattle.vrepl_words.specs.Portions.{portions_given, portions_value};

use crate::portions::Portions;
use clap::ArgMatches;
use std::alloc::{AllocError, Global};
use vindex::natural_of;

/// A flag was given.
pub(crate) fn has_flag(given: &ArgMatches<'_>, name: &str) -> bool
    ensures { result ≡ is_given name.now (rows_of (found_of given.now)) }
{
    given.get_one::<bool>(name).unwrap_or(false)
}

/// The text that was given, if one was.
pub(crate) fn text_if<'w>(given: &ArgMatches<'w>, name: &str) -> Option<&'w str>
    ensures { option_map (λ text. text.now) result ≡ first_of name.now (rows_of (found_of given.now)) }
{
    given.get_str(name)
}

/// The text that was given, or the empty one.
pub(crate) fn text<'w>(given: &ArgMatches<'w>, name: &str) -> &'w str
    ensures { result.now ≡ text_given name.now (rows_of (found_of given.now)) }
{
    given.get_str(name).unwrap_or("")
}

/// The texts that were given. An error is want of memory.
pub(crate) fn texts<'w>(
    alloc: Global,
    given: &ArgMatches<'w>,
    name: &str,
) -> Result<Vec<&'w str>, AllocError>
    ensures { IfOk result (λ texts. map (λ text. text.now) texts.items ≡ texts_given name.now (rows_of (found_of given.now))) }
{
    match given.get_strs(name) {
        Some(texts) => copies(alloc, texts),
        None => Ok(Vec::new(alloc)),
    }
}

/// The same texts, in a vector. An error is want of memory.
fn copies<'w>(alloc: Global, texts: &[&'w str]) -> Result<Vec<&'w str>, AllocError>
    ensures { IfOk result (λ copies. map (λ text. text.now) copies.items ≡ map (λ text. text.now) texts.now) }
{
    let mut copies = Vec::with_capacity(alloc, texts.len())?;
    for text in texts {
        copies.push(*text)?;
    }
    Ok(copies)
}

/// The portions that were given, or the usual ones.
pub(crate) fn given_portions(given: &ArgMatches<'_>) -> Option<Portions>
    ensures { option_map portions_value result ≡ portions_given (rows_of (found_of given.now)) }
{
    let rows = portion(given, "rows", 1000)?;
    let ahead = portion(given, "ahead", 100)?;
    let chunks = portion(given, "chunks", 4)?;
    Some(Portions {
        rows,
        ahead,
        chunks,
    })
}

/// The portion that was given, or the usual one.
pub(crate) fn portion(given: &ArgMatches<'_>, name: &str, usual: u32) -> Option<u32>
    requires { 1 ≤ usual }
    ensures given { result ≡ portion_given usual name.now (rows_of (found_of given.now)) }
    ensures some { IfSome result (λ portion. 1 ≤ portion) }
{
    match given.get_str(name) {
        None => Some(usual),
        Some(text) => portion_of(text),
    }
}

/// The number of 1 to 1,000,000 that digits spell.
pub(crate) fn portion_of(text: &str) -> Option<u32>
    ensures portion { result ≡ portion_of text.now }
    ensures some { IfSome result (λ portion. 1 ≤ portion) }
{
    let number = natural_of(text.as_bytes())?;
    if number >= 1 && number <= 1_000_000 {
        Some(number as u32)
    } else {
        None
    }
}
