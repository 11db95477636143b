//! Types of columns (`query.proto`, Type).

ghost use Rattle.std.specs.Prelude.{◌≡◌};
ghost use Rattle.filter_rule.specs.TypeNumbers.{type_of_name, is_whole_number, is_short_text, is_long_text};

/// The number of a type that has a name here.
pub(crate) fn type_named(name: &str) -> Option<u32>
    ensures { result ≡ type_of_name name.now }
{
    match name {
        "INT8" => Some(257),
        "INT16" => Some(259),
        "INT24" => Some(261),
        "INT32" => Some(263),
        "INT64" => Some(265),
        "UINT8" => Some(770),
        "UINT16" => Some(772),
        "UINT24" => Some(774),
        "UINT32" => Some(776),
        "UINT64" => Some(778),
        "TEXT" => Some(6163),
        "VARCHAR" => Some(6165),
        "CHAR" => Some(6167),
        "BLOB" => Some(10260),
        "VARBINARY" => Some(10262),
        "BINARY" => Some(10264),
        _ => None,
    }
}

/// Whether a column of this type holds whole numbers, which travel as decimal text.
pub fn is_whole_number(type_number: u32) -> bool
    ensures { result ≡ is_whole_number type_number }
{
    matches!(
        type_number,
        257 | 259 | 261 | 263 | 265 | 770 | 772 | 774 | 776 | 778
    )
}

/// Whether the type is VARCHAR, CHAR, VARBINARY or BINARY.
pub(crate) fn is_short_text(type_number: u32) -> bool
    ensures { result ≡ is_short_text type_number }
{
    matches!(type_number, 6165 | 6167 | 10262 | 10264)
}

/// Whether the type is TEXT or BLOB.
pub(crate) fn is_long_text(type_number: u32) -> bool
    ensures { result ≡ is_long_text type_number }
{
    matches!(type_number, 6163 | 10260)
}
