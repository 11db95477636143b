//! What a statement of the log is.

ghost use Rattle.std.specs.Prelude.{◌≡◌, nat_le};
ghost use Rattle.std.specs.List.{list_any};
ghost use Rattle.std.specs.Str.{str_eq_ignore_ascii_case};
ghost use Rattle.log_groups.specs.Statement.{begins_by, ends_by, is_letter, ends_word, has_words, is_quoted, is_named, alters, creates_and_begins, of_rights, of_upkeep, of_server, is_harmless, by_words, of_xa, of_savepoints, statement_of, saved_name, back_name};

use log_events::behind;

/// What a statement of the log is.
#[derive(Clone, Copy, Debug, PartialEq, Eq)]
pub enum Statement {
    /// A transaction begins.
    Begins,
    /// It is committed.
    Commits,
    /// It is rolled back.
    RollsBack,
    /// A savepoint is made.
    Saves,
    /// What stands behind a savepoint is taken back.
    BacksTo,
    /// An XA transaction that was prepared is committed.
    XaCommits,
    /// An XA transaction that was prepared is rolled back.
    XaRollsBack,
    /// Tables, or the columns of some, change.
    Alters,
    /// A table is made, and a transaction begins that fills it.
    AltersAndBegins,
    /// Neither rows nor the columns of a table change.
    Harmless,
    /// Nothing to the transaction in which it stands.
    Passes,
    /// It may change rows.
    Unknown,
}

/// Whether two texts are the same but for the case of ASCII letters.
pub(crate) fn same_letters(one: &[u8], other: &[u8]) -> bool
    ensures { result ≡ str_eq_ignore_ascii_case one.now other.now }
{
    one.eq_ignore_ascii_case(other)
}

/// Whether a text begins by another.
#[tactic(auto, unfolding(crate::specs::Statement::begins_by))]
fn begins_by(front: &[u8], text: &[u8]) -> bool
    ensures { result ≡ begins_by front.now text.now }
{
    front.len() <= text.len() && text.split_at(front.len()).0 == front
}

/// Whether a text ends by another.
#[tactic(auto, unfolding(crate::specs::Statement::ends_by))]
fn ends_by(end: &[u8], text: &[u8]) -> bool
    ensures { result ≡ ends_by end.now text.now }
{
    end.len() <= text.len() && text.split_at(text.len() - end.len()).1 == end
}

/// Whether a byte is a letter of ASCII.
fn is_letter(byte: u8) -> bool
    ensures { result ≡ is_letter byte }
{
    65 <= byte && byte <= 90 || 97 <= byte && byte <= 122
}

/// Whether no letter stands in front.
fn ends_word(text: &[u8]) -> bool
    ensures { result ≡ ends_word text.now }
{
    match text.split_first() {
        Some((byte, _)) => !is_letter(*byte),
        None => true,
    }
}

/// Whether a text begins by these words, in letters of either case.
#[tactic(auto, unfolding(crate::specs::Statement::has_words))]
fn has_words(words: &[u8], text: &[u8]) -> bool
    ensures { result ≡ has_words words.now text.now }
{
    if text.len() < words.len() {
        return false;
    }
    let (front, rest) = text.split_at(words.len());
    same_letters(front, words) && ends_word(rest)
}

/// Whether a byte isn't ASCII.
fn has_other_than_ascii(text: &[u8]) -> bool
    ensures { result ≡ list_any (λ b. nat_le 128 b) text.now }
{
    for byte in text {
        if *byte >= 128 {
            return true;
        }
    }
    false
}

/// Whether a text is a name as the server quotes it, of ASCII alone.
#[tactic(auto, unfolding(crate::specs::Statement::is_quoted))]
fn is_quoted(text: &[u8]) -> bool
    ensures { result ≡ is_quoted text.now }
{
    text.len() >= 2 && begins_by(b"`", text) && ends_by(b"`", text) && !has_other_than_ascii(text)
}

/// Whether a text is this beginning and a quoted name.
#[tactic(auto, unfolding(crate::specs::Statement::is_named))]
fn is_named(front: &[u8], text: &[u8]) -> bool
    ensures { result ≡ is_named front.now text.now }
{
    begins_by(front, text) && is_quoted(behind(text, front.len()))
}

/// Whether a statement changes tables, or the columns of some.
fn alters(text: &[u8]) -> bool
    ensures { result ≡ alters text.now }
{
    has_words(b"CREATE", text)
        || has_words(b"ALTER", text)
        || has_words(b"DROP", text)
        || has_words(b"RENAME", text)
        || has_words(b"TRUNCATE", text)
}

/// Whether a statement makes a table that the transaction behind it fills.
fn creates_and_begins(text: &[u8]) -> bool
    ensures { result ≡ creates_and_begins text.now }
{
    has_words(b"CREATE", text) && ends_by(b" START TRANSACTION", text)
}

/// Whether a statement changes rights alone.
fn of_rights(text: &[u8]) -> bool
    ensures { result ≡ of_rights text.now }
{
    has_words(b"GRANT", text)
        || has_words(b"REVOKE", text)
        || has_words(b"SET PASSWORD", text)
        || has_words(b"SET DEFAULT", text)
}

/// Whether a statement is upkeep of tables.
fn of_upkeep(text: &[u8]) -> bool
    ensures { result ≡ of_upkeep text.now }
{
    has_words(b"FLUSH", text)
        || has_words(b"ANALYZE TABLE", text)
        || has_words(b"OPTIMIZE", text)
        || has_words(b"REPAIR", text)
        || has_words(b"CHECK", text)
}

/// Whether a statement is of the server itself.
fn of_server(text: &[u8]) -> bool
    ensures { result ≡ of_server text.now }
{
    has_words(b"RESET", text)
        || has_words(b"PURGE", text)
        || has_words(b"INSTALL", text)
        || has_words(b"UNINSTALL", text)
}

/// Whether a statement changes neither rows nor the columns of a table.
fn is_harmless(text: &[u8]) -> bool
    ensures { result ≡ is_harmless text.now }
{
    of_rights(text) || of_upkeep(text) || of_server(text)
}

/// What a statement is by its first words.
#[tactic(auto, unfolding(crate::specs::Statement::by_words))]
fn by_words(text: &[u8]) -> Statement
    ensures { result ≡ by_words text.now }
{
    if creates_and_begins(text) {
        Statement::AltersAndBegins
    } else if alters(text) {
        Statement::Alters
    } else if is_harmless(text) {
        Statement::Harmless
    } else {
        Statement::Unknown
    }
}

/// What a statement of an XA transaction is; of another one, by its first words.
#[tactic(auto, unfolding(crate::specs::Statement::of_xa))]
fn of_xa(text: &[u8]) -> Statement
    ensures { result ≡ of_xa text.now }
{
    if begins_by(b"XA START ", text) {
        Statement::Begins
    } else if begins_by(b"XA END ", text) {
        Statement::Passes
    } else if begins_by(b"XA COMMIT ", text) {
        Statement::XaCommits
    } else if begins_by(b"XA ROLLBACK ", text) {
        Statement::XaRollsBack
    } else {
        by_words(text)
    }
}

/// What a statement of savepoints is; of another one, as above.
#[tactic(auto, unfolding(crate::specs::Statement::of_savepoints))]
fn of_savepoints(text: &[u8]) -> Statement
    ensures { result ≡ of_savepoints text.now }
{
    if is_named(b"SAVEPOINT ", text) {
        Statement::Saves
    } else if is_named(b"ROLLBACK TO ", text) {
        Statement::BacksTo
    } else if is_named(b"RELEASE SAVEPOINT ", text) {
        Statement::Passes
    } else {
        of_xa(text)
    }
}

/// What a statement of the log is, by its text: the server's own texts around a transaction by the whole of them, any
/// other one by its first words. Takes no memory.
#[tactic(auto, unfolding(crate::specs::Statement::statement_of))]
pub fn statement_of(text: &[u8]) -> Statement
    ensures { result ≡ statement_of text.now }
{
    if text == b"BEGIN".as_slice() {
        Statement::Begins
    } else if text == b"COMMIT".as_slice() {
        Statement::Commits
    } else if text == b"ROLLBACK".as_slice() {
        Statement::RollsBack
    } else {
        of_savepoints(text)
    }
}

/// The quoted name of the savepoint that a statement makes.
pub(crate) fn saved_name(text: &[u8]) -> &[u8]
    ensures { result.now ≡ saved_name text.now }
{
    behind(text, 10)
}

/// The quoted name of the savepoint to which a statement goes back.
pub(crate) fn back_name(text: &[u8]) -> &[u8]
    ensures { result.now ≡ back_name text.now }
{
    behind(text, 12)
}
