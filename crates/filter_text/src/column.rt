//! Cutting a column off the front of a list.

ghost use Rattle.std.specs.Prelude.{◌≡◌, ◌<◌, None, length, option_map, IfSome, IfNone};
ghost use Rattle.filter_text.specs.ColumnList.{column_of, list_of};
ghost use Rattle.filter_text.specs.Private.Listing.{IsFirstColumn, IsListBefore};
ghost use Rattle.filter_text.specs.Views.{lexeme};

use crate::token::Token;
use crate::tokens::next_token;

/// A column of a list and what follows it.
#[derive(Drop)]
pub(crate) struct Column<'t> {
    pub(crate) name: &'t str,
    /// Whether `from` follows the name, and not a comma.
    pub(crate) is_last: bool,
    /// The text behind the `from` or the comma.
    pub(crate) behind: &'t str,
}

/// The name of a column, where the token isn't the key word `from`.
fn column_of<'t>(token: &Token<'t>) -> Option<&'t str>
    ensures { option_map (λ t. t.now) result ≡ column_of (lexeme token.now) }
{
    if token.is_key("from") {
        return None;
    }
    token.name()
}

/// The column that a text begins with, if it begins with a list.
pub(crate) fn first_column(text: &str) -> Option<Column<'_>>
    ensures column { IsFirstColumn text.now result }
    ensures shorter { IfSome result (λ column. length column.behind.now < length text.now) }
{
    let (column, behind) = next_token(text)?;
    let name = column_of(&column)?;
    let (next, behind) = next_token(behind)?;
    let is_last = next.is_key("from");
    if is_last || next.is_mark(b',') {
        return Some(Column {
            name,
            is_last,
            behind,
        });
    }
    None
}

/// The text behind the `from` of the list that a text begins with.
pub(crate) fn behind_list(text: &str) -> Option<&str>
    ensures some { IfSome result (λ rest. IsListBefore text.now rest.now) }
    ensures none { IfNone result (list_of text.now ≡ None) }
{
    let mut left = text;
    while let Some(column) = first_column(left) {
        if column.is_last {
            return Some(column.behind);
        }
        left = column.behind;
    }
    None
}
