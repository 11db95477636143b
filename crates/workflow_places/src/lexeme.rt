//! What stands at the front of a filter's text.

ghost use Rattle.std.specs.Prelude.{◌≤◌, length};

/// What a token is.
#[derive(Clone, Copy, PartialEq, Eq)]
pub(crate) enum Kind {
    /// There is no more.
    End,
    /// Letters, digits, `_` and `$`.
    Word,
    /// Something between two backquotes.
    Name,
    /// Something between two quotes.
    Quoted,
    /// Any other byte, or a quote that isn't closed.
    Mark,
}

/// A token at the front of a text, behind its blanks.
#[derive(Clone, Copy)]
pub(crate) struct Token<'t> {
    pub(crate) kind: Kind,
    /// What it says, without its quotes.
    pub(crate) said: &'t [u8],
    /// The text from the token on.
    pub(crate) here: &'t [u8],
    /// The text behind the token.
    pub(crate) behind: &'t [u8],
}

fn is_blank(b: u8) -> bool {
    b == b' ' || b == b'\t' || b == b'\r' || b == b'\n'
}

fn is_word_byte(b: u8) -> bool {
    b.is_ascii_alphanumeric() || b == b'_' || b == b'$'
}

/// How many blanks stand in front.
fn blanks(text: &[u8]) -> usize
    ensures { result ≤ length text.now }
{
    text.iter()
        .position(|b| !is_blank(*b))
        .unwrap_or(text.len())
        .min(text.len())
}

/// How many bytes of a word stand in front.
fn word_bytes(text: &[u8]) -> usize
    ensures { result ≤ length text.now }
{
    text.iter()
        .position(|b| !is_word_byte(*b))
        .unwrap_or(text.len())
        .min(text.len())
}

/// How many bytes stand before a quote; none where it isn't there.
fn before_quote(text: &[u8], quote: u8) -> Option<usize> {
    text.iter().position(|b| *b == quote)
}

/// What stands behind the first byte, nothing where there is none.
fn behind_first(text: &[u8]) -> &[u8] {
    match text.split_first() {
        None => text,
        Some((_first, behind)) => behind,
    }
}

/// A byte that is no word, or something between quotes.
fn marked<'t>(here: &'t [u8], quote: u8, behind: &'t [u8]) -> Token<'t> {
    if quote == b'`' || quote == b'\'' {
        if let Some(count) = before_quote(behind, quote) {
            let (said, closed) = behind.split_at(count.min(behind.len()));
            let kind = if quote == b'`' {
                Kind::Name
            } else {
                Kind::Quoted
            };
            return Token {
                kind,
                said,
                here,
                behind: behind_first(closed),
            };
        }
    }
    let (said, _) = here.split_at(here.len() - behind.len().min(here.len()));
    Token {
        kind: Kind::Mark,
        said,
        here,
        behind,
    }
}

/// The token at the front of a text.
pub(crate) fn front(text: &[u8]) -> Token<'_> {
    let (_, here) = text.split_at(blanks(text));
    match here.split_first() {
        None => Token {
            kind: Kind::End,
            said: here,
            here,
            behind: here,
        },
        Some((first, behind)) => {
            if is_word_byte(*first) {
                let (said, behind) = here.split_at(word_bytes(here));
                return Token {
                    kind: Kind::Word,
                    said,
                    here,
                    behind,
                };
            }
            marked(here, *first, behind)
        }
    }
}

impl<'t> Token<'t> {
    /// Whether it is this key word, in any case.
    pub(crate) fn is_key(&self, key: &str) -> bool {
        self.kind == Kind::Word && self.said.eq_ignore_ascii_case(key.as_bytes())
    }

    /// Whether it is this mark.
    pub(crate) fn is_mark(&self, mark: u8) -> bool {
        self.kind == Kind::Mark && self.said.first() == Some(&mark)
    }

    /// Whether it is a name, with or without backquotes.
    pub(crate) fn is_name(&self) -> bool {
        self.kind == Kind::Word || self.kind == Kind::Name
    }
}
