//! Cutting a filter's text into its tokens.

ghost use Rattle.std.specs.Prelude.{◌≡◌, false, ◌==◌, ◌<◌, ◌≤◌, Some, IfSome, IfNone, IsTrue, not, ◌∷◌, slice_index, length, take, drop, map, position, option_map, option_and_then};
ghost use Rattle.filter_text.specs.Lexemes.{is_blank, is_word_byte, is_mark};
ghost use Rattle.filter_text.specs.Tokens.{tokens_of, until, as_name, as_quoted, begins_in_word, after_blanks, word_in_front, first_word};
ghost use Rattle.filter_text.specs.Views.{lexeme};
ghost use Rattle.filter_text.specs.Private.Cutting.{IsCut, IsUntil, begins_in_blank, front_len};
ghost use Rattle.filter_text.specs.Private.Listing.{IsNext};

use crate::token::Token;
use arrayvec::ArrayVec;

/// The most that stand behind the `from` of a selection: `t where in_keyrange(c, 'v', 'r')`.
const MOST_TOKENS: usize = 10;

fn is_blank(b: u8) -> bool
    ensures { result ≡ is_blank b }
{
    b == b' ' || b == b'\t' || b == b'\r' || b == b'\n'
}

fn is_word_byte(b: u8) -> bool
    ensures { result ≡ is_word_byte b }
{
    b.is_ascii_alphanumeric() || b == b'_' || b == b'$'
}

fn is_mark(b: u8) -> bool
    ensures { result ≡ is_mark b }
{
    b == b'*' || b == b'(' || b == b')' || b == b','
}

fn past_blanks(bytes: &[u8]) -> Option<usize>
    ensures { result ≡ position (λ b. not (is_blank b)) bytes.now }
{
    bytes.iter().position(|b| !is_blank(*b))
}

fn blank_len(bytes: &[u8]) -> usize
    ensures { result ≡ front_len is_blank bytes.now }
{
    match past_blanks(bytes) {
        Some(len) => len,
        None => bytes.len(),
    }
}

fn past_word(bytes: &[u8]) -> Option<usize>
    ensures { result ≡ position (λ b. not (is_word_byte b)) bytes.now }
{
    bytes.iter().position(|b| !is_word_byte(*b))
}

fn word_len(bytes: &[u8]) -> usize
    ensures { result ≡ front_len is_word_byte bytes.now }
{
    match past_word(bytes) {
        Some(len) => len,
        None => bytes.len(),
    }
}

/// The text without the blanks, tabs, CR and LF that it begins with.
fn skip_blanks(text: &str) -> &str
    ensures value { result.now ≡ after_blanks text.now }
    ensures same { tokens_of result.now ≡ tokens_of text.now }
    ensures shown { begins_in_blank result.now ≡ false }
    ensures within { length result.now ≤ length text.now }
{
    text.split_at(blank_len(text.as_bytes())).1
}

/// The word that a text begins with, and what follows it.
fn split_word(text: &str) -> (&str, &str)
    ensures value { result.0.now ≡ word_in_front text.now }
    ensures word { result.0.now ≡ take (front_len is_word_byte text.now) text.now }
    ensures rest { result.1.now ≡ drop (front_len is_word_byte text.now) text.now }
{
    text.split_at(word_len(text.as_bytes()))
}

/// The word that a text begins with, behind blanks; no bytes, where it begins with none.
pub(crate) fn first_word(text: &str) -> &str
    ensures { result.now ≡ first_word text.now }
{
    split_word(skip_blanks(text)).0
}

/// What stands before the first quote, and behind it.
fn split_at_quote(text: &str, quote: char) -> Option<(&str, &str)>
    requires { quote < 128 }
    ensures cut { IsUntil quote text.now result }
    ensures shorter { IfSome result (λ p. length p.1.now ≤ length text.now) }
{
    text.split_once(quote)
}

/// The name that ends at the next backquote.
fn name(text: &str) -> Option<(Token<'_>, &str)>
    ensures cut { IsCut (option_and_then as_name (until 96 text.now)) result }
    ensures shorter { IfSome result (λ p. length p.1.now ≤ length text.now) }
{
    let (name, rest) = split_at_quote(text, '`')?;
    if name.is_empty() {
        return None;
    }
    Some((Token::Name(name), rest))
}

/// The text that ends at the next quote.
fn quoted(text: &str) -> Option<(Token<'_>, &str)>
    ensures cut { IsCut (option_map as_quoted (until 39 text.now)) result }
    ensures shorter { IfSome result (λ p. length p.1.now ≤ length text.now) }
{
    let (text, rest) = split_at_quote(text, '\'')?;
    Some((Token::Quoted(text), rest))
}

fn word(text: &str) -> (Token<'_>, &str)
    requires { IsTrue (begins_in_word text.now) }
    ensures cut { IsCut (tokens_of text.now) (Some result) }
    ensures shorter { length result.1.now < length text.now }
{
    let (word, rest) = split_word(text);
    (Token::Word(word), rest)
}

/// The text without its first character, which is ASCII.
fn behind_first(text: &str) -> &str
    requires some { 0 < length text.now }
    requires ascii { slice_index text.now 0 < 128 }
    ensures { text.now ≡ slice_index text.now 0 ∷ result.now }
{
    text.split_at(1).1
}

/// The token that a text begins with, and what follows it.
fn first_token(text: &str) -> Option<(Token<'_>, &str)>
    requires shown { begins_in_blank text.now ≡ false }
    requires some { 0 < length text.now }
    ensures cut { IsCut (tokens_of text.now) result }
    ensures shorter { IfSome result (λ p. length p.1.now < length text.now) }
{
    let first = text.as_bytes()[0];
    if first == b'`' {
        name(behind_first(text))
    } else if first == b'\'' {
        quoted(behind_first(text))
    } else if is_mark(first) {
        Some((Token::Mark(first), behind_first(text)))
    } else if is_word_byte(first) {
        Some(word(text))
    } else {
        None
    }
}

/// The token that a text begins with, behind blanks, and what follows it; `None`, where none stands there.
pub(crate) fn next_token(text: &str) -> Option<(Token<'_>, &str)>
    ensures next { IsNext (tokens_of text.now) result }
    ensures shorter { IfSome result (λ p. length p.1.now < length text.now) }
{
    let text = skip_blanks(text);
    if text.is_empty() {
        return None;
    }
    first_token(text)
}

/// The tokens of a text. `None` is for a text that has none, or more than any selection has behind
/// its `from`. Takes no memory.
pub(crate) fn tokens_of<'t>(text: &'t str) -> Option<ArrayVec<Token<'t>, MOST_TOKENS>>
    ensures some { IfSome result (λ tokens. tokens_of text.now ≡ Some (map lexeme tokens.items)) }
    ensures none { IfNone result (IfSome (tokens_of text.now) (λ tokens. 10 < length tokens)) }
{
    let mut tokens = ArrayVec::new();
    let mut rest = skip_blanks(text);
    while !rest.is_empty() {
        let (token, behind) = first_token(rest)?;
        if tokens.try_push(token).is_err() {
            return None;
        }
        rest = skip_blanks(behind);
    }
    Some(tokens)
}
