//! A token of a filter's text.

ghost use Rattle.std.specs.Prelude.{◌≡◌, option_map};
ghost use Rattle.filter_text.specs.Lexemes.{is_key, is_this_mark, named, text_in_quotes};
ghost use Rattle.filter_text.specs.Views.{lexeme};

/// A token, lent from the text.
#[derive(Clone, Copy, Debug, PartialEq, Eq)]
pub(crate) enum Token<'t> {
    /// Letters, digits, `_` and `$`, as many as stand together: a key word or a plain name.
    Word(&'t str),
    /// What stands between two backquotes, at least one byte: a name, never a key word.
    Name(&'t str),
    /// What stands between two quotes.
    Quoted(&'t str),
    /// One of `*`, `(`, `)` and `,`.
    Mark(u8),
}

impl<'t> Default for Token<'t> {
    fn default() -> Token<'t> {
        Token::Mark(0)
    }
}

impl<'t> Token<'t> {
    /// Whether it is this key word, in any case.
    pub(crate) fn is_key(&self, key: &str) -> bool
        ensures { result ≡ is_key key.now (lexeme self.now) }
    {
        match self {
            Token::Word(word) => word.eq_ignore_ascii_case(key),
            _ => false,
        }
    }

    /// Whether it is this mark.
    pub(crate) fn is_mark(&self, mark: u8) -> bool
        ensures { result ≡ is_this_mark mark (lexeme self.now) }
    {
        match self {
            Token::Mark(found) => *found == mark,
            _ => false,
        }
    }

    /// The name that it is, with or without backquotes.
    pub(crate) fn name(&self) -> Option<&'t str>
        ensures { option_map (λ t. t.now) result ≡ named (lexeme self.now) }
    {
        match self {
            Token::Word(name) | Token::Name(name) => Some(name),
            _ => None,
        }
    }

    /// What stands between its quotes.
    pub(crate) fn quoted(&self) -> Option<&'t str>
        ensures { option_map (λ t. t.now) result ≡ text_in_quotes (lexeme self.now) }
    {
        match self {
            Token::Quoted(text) => Some(text),
            _ => None,
        }
    }
}
