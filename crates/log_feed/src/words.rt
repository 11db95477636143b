//! Names and words in the text of a statement.

ghost use Rattle.std.specs.Prelude.{◌≡◌, option_copied};
ghost use Rattle.std.specs.List.{list_all};
ghost use Rattle.std.specs.Str.{str_eq_ignore_ascii_case};
ghost use Rattle.log_feed.specs.Words.{is_plain_byte, is_name_byte, is_plain_name, ends_name, begins_with, begins_by_word, stands_here, has_word, is_blank, without_blanks, behind_words, behind_plain, behind_quoted, behind_name};

use log_events::behind;

/// Whether a name may have a byte without quotes, of ASCII.
fn is_plain_byte(byte: u8) -> bool
    ensures { result ≡ is_plain_byte byte }
{
    65 <= byte && byte <= 90
        || 97 <= byte && byte <= 122
        || 48 <= byte && byte <= 57
        || byte == b'_'
        || byte == b'$'
}

/// Whether a name may have a byte without quotes.
fn is_name_byte(byte: u8) -> bool
    ensures { result ≡ is_name_byte byte }
{
    is_plain_byte(byte) || 128 <= byte
}

/// Whether a name is of ASCII's letters, digits, `_` and `$` alone, one at least. Takes no memory.
#[tactic(auto, unfolding(crate::specs::Words::is_plain_name))]
pub fn is_plain_name(name: &[u8]) -> bool
    ensures { result ≡ is_plain_name name.now }
{
    !name.is_empty() && are_plain(name)
}

/// Whether all bytes are such.
fn are_plain(name: &[u8]) -> bool
    ensures { result ≡ list_all is_plain_byte name.now }
{
    for byte in name {
        if !is_plain_byte(*byte) {
            return false;
        }
    }
    true
}

/// Whether no byte of a name stands in front.
fn ends_name(text: &[u8]) -> bool
    ensures { result ≡ ends_name text.now }
{
    match text.split_first() {
        Some((byte, _)) => !is_name_byte(*byte),
        None => true,
    }
}

/// Whether a text begins by these bytes.
#[tactic(auto, unfolding(crate::specs::Words::begins_with))]
pub(crate) fn begins_with(front: &[u8], text: &[u8]) -> bool
    ensures { result ≡ begins_with front.now text.now }
{
    front.len() <= text.len() && text.split_at(front.len()).0 == front
}

/// Whether two texts are the same but for the case of ASCII letters.
fn same_letters(one: &[u8], other: &[u8]) -> bool
    ensures { result ≡ str_eq_ignore_ascii_case one.now other.now }
{
    one.eq_ignore_ascii_case(other)
}

/// Whether a text begins by this word, in letters of either case.
#[tactic(auto, unfolding(crate::specs::Words::begins_by_word))]
pub(crate) fn begins_by_word(word: &[u8], text: &[u8]) -> bool
    ensures { result ≡ begins_by_word word.now text.now }
{
    if text.len() < word.len() {
        return false;
    }
    let (front, rest) = text.split_at(word.len());
    same_letters(front, word) && ends_name(rest)
}

/// Whether a text that doesn't stand inside of a word begins by this one.
fn stands_here(inside: bool, word: &[u8], text: &[u8]) -> bool
    ensures { result ≡ stands_here inside word.now text.now }
{
    !inside && begins_by_word(word, text)
}

/// Whether a text has this word, in letters of either case.
pub(crate) fn has_word(word: &[u8], text: &[u8]) -> bool
    ensures { result ≡ has_word word.now text.now }
{
    let mut inside = false;
    let mut left = text;
    while let Some((byte, rest)) = left.split_first() {
        if stands_here(inside, word, left) {
            return true;
        }
        inside = is_name_byte(*byte);
        left = rest;
    }
    false
}

/// Whether a byte is a blank, or ends a line.
fn is_blank(byte: u8) -> bool
    ensures { result ≡ is_blank byte }
{
    byte == 32 || byte == 9 || byte == 10 || byte == 13
}

/// A text without the blanks in front.
fn without_blanks(text: &[u8]) -> &[u8]
    ensures { result.now ≡ without_blanks text.now }
{
    let mut left = text;
    while let Some((byte, rest)) = left.split_first() {
        if !is_blank(*byte) {
            return left;
        }
        left = rest;
    }
    left
}

/// What stands behind words in letters of either case, and the blanks after them.
pub(crate) fn behind_words<'b>(words: &[u8], text: &'b [u8]) -> Option<&'b [u8]>
    ensures { option_copied result ≡ behind_words words.now text.now }
{
    if begins_by_word(words, text) {
        Some(without_blanks(behind(text, words.len())))
    } else {
        None
    }
}

/// What stands behind a name without quotes.
fn behind_plain<'b>(name: &[u8], text: &'b [u8]) -> Option<&'b [u8]>
    ensures { option_copied result ≡ behind_plain name.now text.now }
{
    let rest = behind(text, name.len());
    if begins_with(name, text) && ends_name(rest) {
        Some(rest)
    } else {
        None
    }
}

/// What stands behind a name in quotes.
fn behind_quoted<'b>(name: &[u8], text: &'b [u8]) -> Option<&'b [u8]>
    ensures { option_copied result ≡ behind_quoted name.now text.now }
{
    let inside = behind(text, 1);
    let rest = behind(inside, name.len());
    if begins_with(b"`", text) && begins_with(name, inside) && begins_with(b"`", rest) {
        Some(behind(rest, 1))
    } else {
        None
    }
}

/// What stands behind a name.
#[tactic(auto, unfolding(crate::specs::Words::behind_name))]
pub(crate) fn behind_name<'b>(name: &[u8], text: &'b [u8]) -> Option<&'b [u8]>
    ensures { option_copied result ≡ behind_name name.now text.now }
{
    match behind_quoted(name, text) {
        Some(rest) => Some(rest),
        None => behind_plain(name, text),
    }
}
