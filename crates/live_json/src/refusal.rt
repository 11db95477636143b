//! Refusals.

ghost use Rattle.std.specs.Prelude.{◌≡◌};
ghost use Rattle.std.specs.Option.{option_copied, option_map};
ghost use Rattle.json_pieces.specs.Telling.{Tells, at};
ghost use Rattle.printing.specs.Printing.{Prints};
ghost use Rattle.serde_json.specs.Data.{string};
ghost use Rattle.serde_json.specs.Written.{compact_text};
ghost use Rattle.live_json.specs.Answers.{count_data, key_data, or_null, plain_refusal, refusal_data, refused_line};
ghost use Rattle.live_json.specs.Private.Parts.{before_text, behind_text, first_texts, last_texts, refusal_value};

use crate::cells::{put_count, put_key, put_name};
use crate::line::{begun, end};
use json_pieces::Line;
use pk_copy::Key;
use printing::{Out, OutFailed};

/// Why a request or a stream is refused, as it is told: by its number, in words, and what else its line has.
#[derive(Clone, Copy)]
pub struct RefusalTold<'r> {
    /// the refusal's number
    pub number: u64,
    /// what it means
    pub words: &'r str,
    /// the number of its cause
    pub cause: Option<u64>,
    /// the name of a file
    pub file: Option<&'r str>,
    /// the number of a group
    pub group: Option<u64>,
    /// a key of a table
    pub key: Option<&'r Key>,
    /// the stream that owns the row there
    pub owner: Option<u64>,
    /// a stream
    pub stream: Option<u64>,
    /// the name of a table
    pub table: Option<&'r str>,
    /// the number of a column's type
    pub column_type: Option<u64>,
}

impl<'r> RefusalTold<'r> {
    /// A refusal of which nothing else is said.
    pub fn of(number: u64, words: &'r str) -> RefusalTold<'r>
        ensures { refusal_value result ≡ plain_refusal number words.entry.now }
    {
        RefusalTold {
            number,
            words,
            cause: None,
            file: None,
            group: None,
            key: None,
            owner: None,
            stream: None,
            table: None,
            column_type: None,
        }
    }
}

/// Puts a number by its name and a comma, where there is one.
fn put_count_before<O: Out>(out: &mut O, line: &mut Line, name: &str, count: Option<u64>)
    ensures { Tells (at (O.written out.old) line.old) (at (O.written out.new) line.new) (before_text name.now count_data count) }
{
    if let Some(count) = count {
        put_name(out, line, name);
        line.put(out, b":");
        put_count(out, line, count);
        line.put(out, b",");
    }
}

/// The same of a text.
fn put_name_before<O: Out>(out: &mut O, line: &mut Line, name: &str, text: Option<&str>)
    ensures { Tells (at (O.written out.old) line.old) (at (O.written out.new) line.new) (before_text name.now string (option_map (λ text. text.now) text.entry)) }
{
    if let Some(text) = text {
        put_name(out, line, name);
        line.put(out, b":");
        put_name(out, line, text);
        line.put(out, b",");
    }
}

/// The same of a key.
fn put_key_before<O: Out>(out: &mut O, line: &mut Line, name: &str, key: Option<&Key>)
    ensures { Tells (at (O.written out.old) line.old) (at (O.written out.new) line.new) (before_text name.now key_data (option_copied key.entry)) }
{
    if let Some(key) = key {
        put_name(out, line, name);
        line.put(out, b":");
        put_key(out, line, key);
        line.put(out, b",");
    }
}

/// Puts a number by its name behind a comma, where there is one.
fn put_count_behind<O: Out>(out: &mut O, line: &mut Line, name: &str, count: Option<u64>)
    ensures { Tells (at (O.written out.old) line.old) (at (O.written out.new) line.new) (behind_text name.now count_data count) }
{
    if let Some(count) = count {
        line.put(out, b",");
        put_name(out, line, name);
        line.put(out, b":");
        put_count(out, line, count);
    }
}

/// The same of a text.
fn put_name_behind<O: Out>(out: &mut O, line: &mut Line, name: &str, text: Option<&str>)
    ensures { Tells (at (O.written out.old) line.old) (at (O.written out.new) line.new) (behind_text name.now string (option_map (λ text. text.now) text.entry)) }
{
    if let Some(text) = text {
        line.put(out, b",");
        put_name(out, line, name);
        line.put(out, b":");
        put_name(out, line, text);
    }
}

/// Puts what stands before the number.
fn put_first<O: Out>(out: &mut O, line: &mut Line, refusal: &RefusalTold<'_>)
    ensures { Tells (at (O.written out.old) line.old) (at (O.written out.new) line.new) (first_texts (refusal_value refusal.now)) }
{
    put_count_before(out, line, "cause", refusal.cause);
    put_name_before(out, line, "file", refusal.file);
    put_count_before(out, line, "group", refusal.group);
    put_key_before(out, line, "key", refusal.key);
}

/// Puts what stands behind the number and before the words.
fn put_last<O: Out>(out: &mut O, line: &mut Line, refusal: &RefusalTold<'_>)
    ensures { Tells (at (O.written out.old) line.old) (at (O.written out.new) line.new) (last_texts (refusal_value refusal.now)) }
{
    put_count_behind(out, line, "owner", refusal.owner);
    put_count_behind(out, line, "stream", refusal.stream);
    put_name_behind(out, line, "table", refusal.table);
    put_count_behind(out, line, "type", refusal.column_type);
}

/// Puts a refusal.
pub(crate) fn put_refusal<O: Out>(out: &mut O, line: &mut Line, refusal: &RefusalTold<'_>)
    ensures { Tells (at (O.written out.old) line.old) (at (O.written out.new) line.new) (compact_text (refusal_data (refusal_value refusal.now))) }
{
    line.put(out, b"{");
    put_first(out, line, refusal);
    line.put(out, b"\"number\":");
    put_count(out, line, refusal.number);
    put_last(out, line, refusal);
    line.put(out, b",\"words\":");
    put_name(out, line, refusal.words);
    line.put(out, b"}");
}

/// Puts a refusal, or null.
pub(crate) fn put_refusal_or_null<O: Out>(
    out: &mut O,
    line: &mut Line,
    refusal: Option<&RefusalTold<'_>>,
)
    ensures { Tells (at (O.written out.old) line.old) (at (O.written out.new) line.new) (compact_text (or_null refusal_data (option_map refusal_value (option_copied refusal.entry)))) }
{
    match refusal {
        None => line.put(out, b"null"),
        Some(refusal) => put_refusal(out, line, refusal),
    }
}

/// Prints that a request is refused, and why. Takes no memory. After a fault what was written is a beginning of it.
pub fn print_refused<O: Out>(out: &mut O, refusal: &RefusalTold<'_>) -> Result<(), OutFailed>
    ensures { Prints result (O.written out.old) (O.written out.new) (refused_line (refusal_value refusal.now)) }
{
    let mut line = begun(out, b"{\"refused\":");
    put_refusal(out, &mut line, refusal);
    end(out, line)
}
