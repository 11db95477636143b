//! Where a filter's text isn't one of the forms, and what would be.

ghost use Rattle.std.specs.Prelude.{◌≡◌, IfOk, is_some, not};
ghost use Rattle.filter_text.specs.FilterText.{filter_of};

use crate::lexeme::{Kind, Token, front};
use filter_text::{Filter, FilterFault};
use shown_text::shown;
use std::alloc::{AllocError, Global};
use std::str;
use vindex::{KeyRange, Vindex};

/// What is wanted in the place of a token.
#[derive(Clone, Copy)]
struct Wanted<'t> {
    token: Token<'t>,
    words: &'static str,
}

const START: &str = "wanted is nothing, a key range as -80, or `select`";

const NO_EXCLUDE: &str = "`exclude` isn't supported: a table that no rule matches passes no row";

const COLUMN: &str = "wanted is `*` or a column's name";

const NO_FUNCTION: &str =
    "functions aren't supported: wanted is `*` or columns, as they stand in the source";

const MORE: &str = "wanted is `,` and a further column, or `from`";

const NO_ALIAS: &str =
    "other names for columns aren't supported: wanted is `,` and a further column, or `from`";

const FROM: &str = "wanted is `from`";

const TABLE: &str = "wanted is the table's name";

const NO_KEYSPACE: &str = "wanted is the table's name alone, without a keyspace before it";

const WHERE: &str = "wanted is the end, or `where in_keyrange(..)`";

const NO_CONDITION: &str =
    "no other condition is supported than `in_keyrange('-80')` or `in_keyrange(column, 'vindex', '-80')`";

const OPEN: &str = "wanted is `(`";

const ARGUMENT: &str = "wanted is a key range in quotes, as '-80', or a column's name";

const COMMA: &str = "wanted is `,`";

const VINDEX: &str = "wanted is 'numeric', 'reverse_bits', 'binary', 'binary_md5' or 'hash'";

const RANGE: &str = "wanted is a key range in quotes, as '-80', '40-80' or '80-'";

const CLOSE: &str = "wanted is `)`";

const END: &str = "wanted is the end";

const TWICE: &str = "wanted is a list in which no column stands twice";

const NO_DOUBLE: &str =
    "double quotes aren't supported: names stand between backquotes, texts between single quotes";

/// What is wanted in the place of a token; double quotes are told as such.
fn wants<'t>(token: Token<'t>, words: &'static str) -> Wanted<'t> {
    if token.is_mark(b'"') {
        return Wanted {
            token,
            words: NO_DOUBLE,
        };
    }
    Wanted { token, words }
}

/// Whether a text is a key range.
fn is_range(alloc: Global, text: &[u8]) -> bool {
    match str::from_utf8(text) {
        Ok(text) => KeyRange::parse(alloc, text).is_ok(),
        Err(_) => false,
    }
}

/// Whether a text is a vindex's name.
fn is_vindex(text: &[u8]) -> bool {
    match str::from_utf8(text) {
        Ok(text) => Vindex::parse(text).is_ok(),
        Err(_) => false,
    }
}

/// A range in quotes, the bracket and the end.
fn in_range<'t>(alloc: Global, range: Token<'t>) -> Wanted<'t> {
    if range.kind != Kind::Quoted || !is_range(alloc, range.said) {
        return wants(range, RANGE);
    }
    let close = front(range.behind);
    if !close.is_mark(b')') {
        return wants(close, CLOSE);
    }
    wants(front(close.behind), END)
}

/// A vindex in quotes and a range, behind a column.
fn in_vindex<'t>(alloc: Global, column: Token<'t>) -> Wanted<'t> {
    let first = front(column.behind);
    if !first.is_mark(b',') {
        return wants(first, COMMA);
    }
    let vindex = front(first.behind);
    if vindex.kind != Kind::Quoted || !is_vindex(vindex.said) {
        return wants(vindex, VINDEX);
    }
    let second = front(vindex.behind);
    if !second.is_mark(b',') {
        return wants(second, COMMA);
    }
    in_range(alloc, front(second.behind))
}

/// What stands behind `where`.
fn condition(alloc: Global, text: &[u8]) -> Wanted<'_> {
    let call = front(text);
    if !call.is_key("in_keyrange") {
        return wants(call, NO_CONDITION);
    }
    let open = front(call.behind);
    if !open.is_mark(b'(') {
        return wants(open, OPEN);
    }
    let argument = front(open.behind);
    if argument.kind == Kind::Quoted {
        return in_range(alloc, argument);
    }
    if argument.is_name() {
        return in_vindex(alloc, argument);
    }
    wants(argument, ARGUMENT)
}

/// What stands behind `from`.
fn table(alloc: Global, text: &[u8]) -> Wanted<'_> {
    let name = front(text);
    if !name.is_name() {
        return wants(name, TABLE);
    }
    let next = front(name.behind);
    if next.kind == Kind::End {
        return wants(next, TWICE);
    }
    if next.is_mark(b'.') {
        return wants(name, NO_KEYSPACE);
    }
    if next.is_key("where") {
        return condition(alloc, next.behind);
    }
    wants(next, WHERE)
}

/// A list of columns.
fn columns(alloc: Global, text: &[u8]) -> Wanted<'_> {
    let mut rest = text;
    for _ in 0..text.len() {
        let name = front(rest);
        if !name.is_name() || name.is_key("from") {
            return wants(name, COLUMN);
        }
        let next = front(name.behind);
        if next.is_mark(b'(') {
            return wants(name, NO_FUNCTION);
        }
        if next.is_key("from") {
            return table(alloc, next.behind);
        }
        if next.is_key("as") {
            return wants(next, NO_ALIAS);
        }
        if !next.is_mark(b',') {
            return wants(next, MORE);
        }
        rest = next.behind;
    }
    wants(front(rest), COLUMN)
}

/// What is wanted of a text that isn't one of the forms.
fn form(alloc: Global, text: &[u8]) -> Wanted<'_> {
    let first = front(text);
    if first.is_key("exclude") {
        return wants(first, NO_EXCLUDE);
    }
    if !first.is_key("select") {
        return wants(first, START);
    }
    let star = front(first.behind);
    if !star.is_mark(b'*') {
        return columns(alloc, first.behind);
    }
    let from = front(star.behind);
    if !from.is_key("from") {
        return wants(from, FROM);
    }
    table(alloc, from.behind)
}

/// A token, where it stands, and what is wanted.
fn wanted_text(alloc: Global, text: &[u8], found: Wanted<'_>) -> Result<String, AllocError> {
    let at = text.len().saturating_sub(found.token.here.len());
    let words = found.words;
    if found.token.kind == Kind::End {
        return format!(in alloc; "the end at byte {at}: {words}");
    }
    let count = found
        .token
        .here
        .len()
        .saturating_sub(found.token.behind.len());
    let (token, _) = found.token.here.split_at(count.min(found.token.here.len()));
    let token = shown(alloc, token)?;
    format!(in alloc; "{token} at byte {at}: {words}")
}

/// Of a filter's text that isn't one of the forms the token at which it isn't, the byte from 0 at which that one begins, and
/// what is wanted there; nothing of any other text. An error is want of memory.
pub fn form_text(alloc: Global, text: &str) -> Result<Option<String>, AllocError>
    ensures { IfOk result (λ told. is_some told ≡ not (is_some (filter_of text.now))) }
{
    match Filter::parse(alloc, text) {
        Ok(_) => Ok(None),
        Err(FilterFault::Memory) => Err(AllocError),
        Err(FilterFault::BadForm) => {
            let bytes = text.as_bytes();
            let told = wanted_text(alloc, bytes, form(alloc, bytes))?;
            Ok(Some(told))
        }
    }
}
