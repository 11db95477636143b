//! A key as a row.

ghost use Rattle.std.specs.Prelude.{◌≡◌, Some, map, IfOk};
ghost use Rattle.row_view.specs.ColumnValue.{column_value};
ghost use Rattle.pk_copy.specs.PartValue.{part_value};
ghost use Rattle.pk_copy.specs.PartTextValue.{text_value};
ghost use Rattle.pk_copy.specs.Lastpk.{part_text, lastpk_of};

use crate::part::KeyPart;
use crate::view::KeyView;
use itoa::Buffer;
use row_view::{Column, RowBuf};
use std::alloc::{AllocError, Global};

/// The text of a part.
#[derive(Drop)]
enum PartText<'b> {
    Lent(&'b [u8]),
    Written(Vec<u8>),
}

impl<'b> PartText<'b> {
    /// The bytes of the text.
    fn bytes(&self) -> &[u8]
        ensures { result.now ≡ text_value self.now }
    {
        match self {
            PartText::Lent(text) => text,
            PartText::Written(text) => text.as_slice(),
        }
    }
}

/// The text of a part: a number's shortest decimal text, or the bytes.
fn text_of<'b>(alloc: Global, part: &KeyPart<'b>) -> Result<PartText<'b>, AllocError>
    ensures { IfOk result (λ text. text_value text ≡ part_text (part_value part.now)) }
{
    match part {
        KeyPart::Number(value) => {
            let mut buffer = Buffer::new();
            let text = buffer.format(*value);
            Ok(PartText::Written(Vec::from_slice(alloc, text.as_bytes())?))
        }
        KeyPart::Bytes(text) => Ok(PartText::Lent(text)),
    }
}

/// The texts of parts.
fn texts_of<'b>(alloc: Global, parts: &[KeyPart<'b>]) -> Result<Vec<PartText<'b>>, AllocError>
    ensures { IfOk result (λ texts. map text_value texts.items ≡ map part_text (map part_value parts.now)) }
{
    let mut texts = Vec::new(alloc);
    for part in parts {
        texts.push(text_of(alloc, part)?)?;
    }
    Ok(texts)
}

/// The columns of these texts.
fn columns_of<'t>(alloc: Global, texts: &'t [PartText<'_>]) -> Result<Vec<Column<'t>>, AllocError>
    ensures { IfOk result (λ columns. map column_value columns.items ≡ map (λ text. Some (text_value text)) texts.now) }
{
    let mut columns = Vec::new(alloc);
    for text in texts {
        columns.push(Column::Bytes(text.bytes()))?;
    }
    Ok(columns)
}

/// The key as a row of just its parts, in key order: numbers in shortest decimal text, other parts as
/// their bytes. An error is want of memory, or a row beyond the limits, which no key of a row is.
pub fn lastpk_of(alloc: Global, key: &KeyView<'_>) -> Result<RowBuf, AllocError>
    ensures { IfOk result (λ row. row ≡ lastpk_of key.now) }
{
    let texts = texts_of(alloc, key.parts())?;
    let columns = columns_of(alloc, texts.as_slice())?;
    let made = RowBuf::of_columns(alloc, columns.as_slice())?;
    match made {
        Some(row) => Ok(row),
        None => Err(AllocError),
    }
}
