//! The columns that a rule lists, in words.

ghost use Rattle.std.specs.Prelude.{◌≡◌, ◌++◌, IfOk, OnOk};
ghost use Rattle.std.specs.String.{string_bytes};
ghost use Rattle.workflow_check.specs.Passing.{more_columns, parted, columns_text};

use filter_text::ColumnList;
use std::alloc::{AllocError, Global};

/// Puts columns behind a text, each behind a comma.
fn push_more(columns: &ColumnList<'_>, text: &mut String) -> Result<(), AllocError>
    ensures { OnOk result (string_bytes text.new ≡ string_bytes text.old ++ more_columns columns.now) }
{
    let mut left = columns.again();
    while let Some(column) = left.next_column() {
        text.push_str(",")?;
        text.push_str(column)?;
    }
    Ok(())
}

/// Columns parted by commas.
fn parted(alloc: Global, columns: &ColumnList<'_>) -> Result<String, AllocError>
    ensures { IfOk result (λ text. string_bytes text ≡ parted columns.now) }
{
    let mut left = columns.again();
    let Some(first) = left.next_column() else {
        return Ok(String::new(alloc));
    };
    let mut text = String::from_str(alloc, first)?;
    push_more(&left, &mut text)?;
    Ok(text)
}

/// The columns that a filter lists, where it lists any, with a blank behind them.
pub(crate) fn columns_text(
    alloc: Global,
    columns: &Option<ColumnList<'_>>,
) -> Result<String, AllocError>
    ensures { IfOk result (λ text. string_bytes text ≡ columns_text columns.now) }
{
    let Some(columns) = columns else {
        return Ok(String::new(alloc));
    };
    let listed = parted(alloc, columns)?;
    let mut text = String::from_str(alloc, "columns ")?;
    text.push_str(&listed)?;
    text.push_str(" ")?;
    Ok(text)
}
