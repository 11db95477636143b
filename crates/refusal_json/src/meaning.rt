//! What a number means, in a line.

ghost use Rattle.std.specs.Prelude.{◌≡◌, ◌==◌};
ghost use Rattle.std.specs.List.{after_first, before_first};
ghost use Rattle.refusal_json.specs.Refusal.{meaning_in, meaning_of};

use refusal_words::texts::explained;

/// The first line of a text.
fn first_line(text: &str) -> &str
    ensures { result.now ≡ before_first (λ b. b == 10) text.entry.now }
{
    match text.split_once('\n') {
        Some((line, _)) => line,
        None => text,
    }
}

/// What stands behind the first space.
fn behind_space(line: &str) -> &str
    ensures { result.now ≡ after_first (λ b. b == 32) line.entry.now }
{
    match line.split_once(' ') {
        Some((_, words)) => words,
        None => "",
    }
}

/// The words in the first line of a number's text, behind the number.
fn meaning_in(text: &str) -> &str
    ensures { result.now ≡ meaning_in text.entry.now }
{
    behind_space(first_line(text)).trim()
}

/// What a refusal's number means, in a line; nothing of a number that no refusal has.
pub fn meaning_of(number: u64) -> &'static str
    ensures { result.now ≡ meaning_of number }
{
    meaning_in(explained(Some(number)))
}
