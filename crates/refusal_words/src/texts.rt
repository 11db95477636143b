//! The texts, by their numbers.

ghost use Rattle.std.specs.Prelude.{◌≡◌, option_map};
ghost use Rattle.refusal_words.specs.Texts.{explained, has_text, text_of_number, text_of_others};

use crate::list::LIST;
use crate::{feed, files, logs, position, steps, target, wire, workflow};

/// The text of a number that isn't of a server's logs.
fn text_of_others(number: u64) -> Option<&'static str>
    ensures { option_map (λ text. text.now) result ≡ text_of_others number }
{
    wire::text_of(number)
        .or(position::text_of(number))
        .or(workflow::text_of(number))
        .or(target::text_of(number))
        .or(feed::text_of(number))
        .or(steps::text_of(number))
        .or(files::text_of(number))
}

/// What is said of a number: its line in `LIST`, an empty line, what it means, the usual causes and what to
/// do next. Each line ends with LF and has at most 80 bytes. None for any other number.
pub fn text_of(number: u64) -> Option<&'static str>
    ensures { option_map (λ text. text.now) result ≡ text_of_number number }
{
    text_of_others(number).or(logs::text_of(number))
}

/// Whether something is said of a number.
pub fn has_text(number: u64) -> bool
    ensures { result ≡ has_text number }
{
    text_of(number).is_some()
}

/// What is said of a number, nothing where it has no text, and `LIST` where none is asked for.
pub fn explained(number: Option<u64>) -> &'static str
    ensures { result.now ≡ explained number }
{
    match number {
        None => LIST,
        Some(number) => text_of(number).unwrap_or(""),
    }
}
