//! The forms of a filter by its tokens.

ghost use Rattle.std.specs.Prelude.{◌≡◌, None, map, option_and_then, IfSome, IfNone};
ghost use Rattle.vindex.specs.RangeText.{key_range_of_text};
ghost use Rattle.filter_text.specs.FilterText.{range_in, vindex_in, rows_of_own_range, named_rows, are_between, arguments_of, opens_condition, rows_of, from_table, table_rows, all_of, listed_rows, behind_select, selection_of};
ghost use Rattle.filter_text.specs.ColumnList.{list_of};
ghost use Rattle.filter_text.specs.Lexemes.{named};
ghost use Rattle.filter_text.specs.Private.Listing.{IsListBefore, IsAllBefore};
ghost use Rattle.filter_text.specs.Tokens.{tokens_of};
ghost use Rattle.filter_text.specs.Views.{Reads, lexeme, rows_said, meaning};

use crate::column::behind_list;
use crate::fault::FilterFault;
use crate::filter::{Filter, Rows};
use crate::list::ColumnList;
use crate::token::Token;
use crate::tokens::{next_token, tokens_of};
use std::alloc::Global;
use vindex::{KeyRange, Vindex, VindexFault};

/// The key range that a text writes.
pub(crate) fn key_range(alloc: Global, text: &str) -> Result<KeyRange, FilterFault>
    ensures { Reads (λ range. range) result (key_range_of_text text.now) }
{
    match KeyRange::parse(alloc, text) {
        Ok(range) => Ok(range),
        Err(VindexFault::Memory) => Err(FilterFault::Memory),
        Err(_) => Err(FilterFault::BadForm),
    }
}

/// The key range between quotes.
fn range_in(alloc: Global, token: &Token<'_>) -> Result<KeyRange, FilterFault>
    ensures { Reads (λ range. range) result (range_in (lexeme token.now)) }
{
    let Some(text) = token.quoted() else {
        return Err(FilterFault::BadForm);
    };
    key_range(alloc, text)
}

/// The vindex between quotes.
fn vindex_in(token: &Token<'_>) -> Option<Vindex>
    ensures { result ≡ vindex_in (lexeme token.now) }
{
    Vindex::parse(token.quoted()?).ok()
}

/// `'range')`.
fn own_rows<'t>(
    alloc: Global,
    range: &Token<'t>,
    close: &Token<'t>,
) -> Result<Rows<'t>, FilterFault>
    ensures { Reads rows_said result (rows_of_own_range (lexeme range.now) (lexeme close.now)) }
{
    if !close.is_mark(b')') {
        return Err(FilterFault::BadForm);
    }
    let range = range_in(alloc, range)?;
    Ok(Rows::OwnVindex { range })
}

/// A column, a vindex and a range, with commas between.
fn named_rows<'t>(
    alloc: Global,
    column: &Token<'t>,
    vindex: &Token<'t>,
    range: &Token<'t>,
) -> Result<Rows<'t>, FilterFault>
    ensures { Reads rows_said result (named_rows (lexeme column.now) (lexeme vindex.now) (lexeme range.now)) }
{
    let (Some(column), Some(vindex)) = (column.name(), vindex_in(vindex)) else {
        return Err(FilterFault::BadForm);
    };
    let range = range_in(alloc, range)?;
    Ok(Rows::Named {
        column,
        vindex,
        range,
    })
}

/// Whether these are the commas and the bracket of a column, a vindex and a range.
fn are_between(comma: &Token<'_>, second: &Token<'_>, close: &Token<'_>) -> bool
    ensures { result ≡ are_between (lexeme comma.now) (lexeme second.now) (lexeme close.now) }
{
    comma.is_mark(b',') && second.is_mark(b',') && close.is_mark(b')')
}

/// The arguments of `in_keyrange`, behind its bracket.
fn arguments<'t>(alloc: Global, tokens: &[Token<'t>]) -> Result<Rows<'t>, FilterFault>
    ensures { Reads rows_said result (arguments_of (map lexeme tokens.now)) }
{
    match tokens {
        [range, close] => own_rows(alloc, range, close),
        [column, comma, vindex, second, range, close] => {
            if are_between(comma, second, close) {
                named_rows(alloc, column, vindex, range)
            } else {
                Err(FilterFault::BadForm)
            }
        }
        _ => Err(FilterFault::BadForm),
    }
}

/// Whether these are `where in_keyrange(`.
fn opens_condition(first: &Token<'_>, call: &Token<'_>, bracket: &Token<'_>) -> bool
    ensures { result ≡ opens_condition (lexeme first.now) (lexeme call.now) (lexeme bracket.now) }
{
    first.is_key("where") && call.is_key("in_keyrange") && bracket.is_mark(b'(')
}

/// What stands behind the table: nothing, or `where in_keyrange` and its arguments.
fn condition<'t>(alloc: Global, tokens: &[Token<'t>]) -> Result<Rows<'t>, FilterFault>
    ensures { Reads rows_said result (rows_of (map lexeme tokens.now)) }
{
    match tokens {
        [] => Ok(Rows::EveryRow),
        [first, call, bracket, rest @ ..] => {
            if opens_condition(first, call, bracket) {
                arguments(alloc, rest)
            } else {
                Err(FilterFault::BadForm)
            }
        }
        _ => Err(FilterFault::BadForm),
    }
}

/// A table, and a condition, for these columns.
fn from_table<'t>(
    alloc: Global,
    columns: Option<ColumnList<'t>>,
    table: &Token<'t>,
    tokens: &[Token<'t>],
) -> Result<Filter<'t>, FilterFault>
    ensures { Reads meaning result (from_table columns.entry (lexeme table.now) (map lexeme tokens.now)) }
{
    let Some(table) = table.name() else {
        return Err(FilterFault::BadForm);
    };
    let rows = condition(alloc, tokens)?;
    Ok(Filter {
        table: Some(table),
        columns,
        rows,
    })
}

/// What stands behind `from`, for these columns.
fn table_rows<'t>(
    alloc: Global,
    columns: Option<ColumnList<'t>>,
    tokens: &[Token<'t>],
) -> Result<Filter<'t>, FilterFault>
    ensures { Reads meaning result (table_rows columns.entry (map lexeme tokens.now)) }
{
    match tokens {
        [table, rest @ ..] => from_table(alloc, columns, table, rest),
        [] => Err(FilterFault::BadForm),
    }
}

/// The text behind `* from`.
fn behind_all(text: &str) -> Option<&str>
    ensures some { IfSome result (λ rest. IsAllBefore text.now rest.now) }
    ensures none { IfNone result (option_and_then all_of (tokens_of text.now) ≡ None) }
{
    let (star, behind) = next_token(text)?;
    let (from, behind) = next_token(behind)?;
    if star.is_mark(b'*') && from.is_key("from") {
        Some(behind)
    } else {
        None
    }
}

/// The table and the condition of `rest`, for the columns of the list that `list` begins with and that
/// ends before `rest`.
fn listed_rows<'t>(alloc: Global, list: &'t str, rest: &'t str) -> Result<Filter<'t>, FilterFault>
    requires { IsListBefore list.now rest.now }
    ensures { Reads meaning result (option_and_then listed_rows (list_of list.now)) }
{
    let Some(tokens) = tokens_of(rest) else {
        return Err(FilterFault::BadForm);
    };
    let columns = ColumnList::new(list);
    if columns.has_twice(alloc) {
        return Err(FilterFault::BadForm);
    }
    table_rows(alloc, Some(columns), tokens.as_slice())
}

/// What a text says behind its `select`.
fn behind_select(alloc: Global, text: &str) -> Result<Filter<'_>, FilterFault>
    ensures { Reads meaning result (option_and_then (λ tokens. behind_select tokens (all_of tokens)) (tokens_of text.now)) }
{
    if let Some(rest) = behind_all(text) {
        let Some(tokens) = tokens_of(rest) else {
            return Err(FilterFault::BadForm);
        };
        return table_rows(alloc, None, tokens.as_slice());
    }
    match behind_list(text) {
        Some(rest) => listed_rows(alloc, text, rest),
        None => Err(FilterFault::BadForm),
    }
}

/// The selection that a text writes.
pub(crate) fn selection(alloc: Global, text: &str) -> Result<Filter<'_>, FilterFault>
    ensures { Reads meaning result (option_and_then selection_of (tokens_of text.now)) }
{
    match next_token(text) {
        Some((first, behind)) if first.is_key("select") => behind_select(alloc, behind),
        _ => Err(FilterFault::BadForm),
    }
}
