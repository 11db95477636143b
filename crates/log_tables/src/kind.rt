//! How the values of a column are written.

ghost use Rattle.std.specs.Prelude.{◌≡◌, ◌≤◌};
ghost use Rattle.log_tables.specs.Kind.{metadata_size, whole_kind, number_kind, fraction_of, time_kind, count_size, blob_size, label_size, labels_size, labels_kind, char_kind, string_kind, decimal_kind, bit_kind, text_kind, kind_of};

use log_events::Size;
use log_values::{Comma, Fraction, Kind};

/// How many bytes of metadata a type has.
pub(crate) fn metadata_size(log_type: u8) -> u8
    ensures { result ≡ metadata_size log_type }
{
    if log_type == 15 || log_type == 16 || log_type == 246 || log_type == 254 {
        2
    } else if log_type == 17 || log_type == 18 || log_type == 19 || log_type == 252 {
        1
    } else {
        0
    }
}

/// A whole number of so many bytes, if the workflow has one of these types.
fn whole_kind(wanted: u32, signed: u32, unsigned: u32, size: Size) -> Option<Kind>
    ensures { result ≡ whole_kind wanted signed unsigned size }
{
    if wanted == signed {
        Some(Kind::Signed(size))
    } else if wanted == unsigned {
        Some(Kind::Unsigned(size))
    } else {
        None
    }
}

/// The kind of a column of whole numbers.
fn number_kind(wanted: u32, log_type: u8) -> Option<Kind>
    ensures { result ≡ number_kind wanted log_type }
{
    if log_type == 1 {
        whole_kind(wanted, 257, 770, Size::One)
    } else if log_type == 2 {
        whole_kind(wanted, 259, 772, Size::Two)
    } else if log_type == 9 {
        whole_kind(wanted, 261, 774, Size::Three)
    } else if log_type == 3 {
        whole_kind(wanted, 263, 776, Size::Four)
    } else if log_type == 8 {
        whole_kind(wanted, 265, 778, Size::Eight)
    } else {
        None
    }
}

/// How many digits stand behind the point.
fn fraction_of(digits: u16) -> Option<Fraction>
    ensures { result ≡ fraction_of digits }
{
    if digits == 0 {
        Some(Fraction::Whole)
    } else if digits == 1 {
        Some(Fraction::One)
    } else if digits == 2 {
        Some(Fraction::Two)
    } else if digits == 3 {
        Some(Fraction::Three)
    } else if digits == 4 {
        Some(Fraction::Four)
    } else if digits == 5 {
        Some(Fraction::Five)
    } else if digits == 6 {
        Some(Fraction::Six)
    } else {
        None
    }
}

/// The kind of a column of days or times.
fn time_kind(wanted: u32, log_type: u8, meta: u16) -> Option<Kind>
    ensures { result ≡ time_kind wanted log_type meta }
{
    if log_type == 10 && wanted == 2062 {
        return Some(Kind::Date);
    }
    if log_type == 13 && wanted == 785 {
        return Some(Kind::Year);
    }
    if log_type == 17 && wanted == 2061 {
        return Some(Kind::Timestamp(fraction_of(meta)?));
    }
    if log_type == 18 && wanted == 2064 {
        return Some(Kind::DateTime(fraction_of(meta)?));
    }
    if log_type == 19 && wanted == 2063 {
        return Some(Kind::Time(fraction_of(meta)?));
    }
    None
}

/// How many bytes the count of a text has that may have so many.
fn count_size(most: u16) -> Size
    ensures { result ≡ count_size most }
{
    if 255 < most { Size::Two } else { Size::One }
}

/// How many bytes the count of a TEXT or a BLOB has.
fn blob_size(size: u16) -> Option<Size>
    ensures { result ≡ blob_size size }
{
    if size == 1 {
        Some(Size::One)
    } else if size == 2 {
        Some(Size::Two)
    } else if size == 3 {
        Some(Size::Three)
    } else if size == 4 {
        Some(Size::Four)
    } else {
        None
    }
}

/// How many bytes the number of a label has.
fn label_size(size: u16) -> Option<Size>
    ensures { result ≡ label_size size }
{
    if size == 1 {
        Some(Size::One)
    } else if size == 2 {
        Some(Size::Two)
    } else {
        None
    }
}

/// How many bytes the bits of labels have.
fn labels_size(size: u16) -> Option<Size>
    ensures { result ≡ labels_size size }
{
    if size == 1 {
        Some(Size::One)
    } else if size == 2 {
        Some(Size::Two)
    } else if size == 3 {
        Some(Size::Three)
    } else if size == 4 {
        Some(Size::Four)
    } else if size == 8 {
        Some(Size::Eight)
    } else {
        None
    }
}

/// SET of so many bytes, where the comma is known that parts its labels.
fn labels_kind(size: Option<Size>, comma: Option<Comma>) -> Option<Kind>
    ensures { result ≡ labels_kind size comma }
{
    Some(Kind::Labels(size?, comma?))
}

/// CHAR or BINARY of so many bytes.
fn char_kind(wanted: u32, width: u16) -> Option<Kind>
    ensures { result ≡ char_kind wanted width }
{
    if wanted == 6167 {
        Some(Kind::Counted(count_size(width)))
    } else if wanted == 10264 {
        Some(Kind::Padded(count_size(width), width))
    } else {
        None
    }
}

/// The kind of a column whose type stands in its metadata.
fn string_kind(wanted: u32, meta: u16, comma: Option<Comma>) -> Option<Kind>
    ensures { result ≡ string_kind wanted meta comma }
{
    if meta % 256 == 247 {
        if wanted == 2074 {
            return Some(Kind::Label(label_size(meta / 256)?));
        }
        return None;
    }
    if meta % 256 == 248 {
        if wanted == 2075 {
            return labels_kind(labels_size(meta / 256), comma);
        }
        return None;
    }
    if meta % 256 / 64 == 3 && meta % 16 == 14 {
        return char_kind(wanted, meta / 256 + 256 * (3 - meta / 16 % 4));
    }
    None
}

/// DECIMAL of 65 digits at most.
fn decimal_kind(meta: u16) -> Option<Kind>
    ensures { result ≡ decimal_kind meta }
{
    let (precision, scale) = (meta % 256, meta / 256);
    if precision <= 65 && scale <= precision {
        Some(Kind::Decimal(precision as u8, scale as u8))
    } else {
        None
    }
}

/// BIT: so many whole bytes, and one for the bits that are over.
fn bit_kind(meta: u16) -> Kind
    requires { meta ≤ 2048 }
    ensures { result ≡ bit_kind meta }
{
    if meta % 256 == 0 {
        Kind::Bits((meta / 256) as u8)
    } else {
        Kind::Bits((meta / 256 + 1) as u8)
    }
}

/// The kind of a column of texts, bytes, labels, bits or DECIMAL.
fn text_kind(wanted: u32, log_type: u8, meta: u16, comma: Option<Comma>) -> Option<Kind>
    ensures { result ≡ text_kind wanted log_type meta comma }
{
    if log_type == 15 && (wanted == 6165 || wanted == 10262) {
        return Some(Kind::Counted(count_size(meta)));
    }
    if log_type == 252 && (wanted == 6163 || wanted == 10260) {
        return Some(Kind::Counted(blob_size(meta)?));
    }
    if log_type == 254 {
        return string_kind(wanted, meta, comma);
    }
    if log_type == 246 && wanted == 18 {
        return decimal_kind(meta);
    }
    if log_type == 16 && wanted == 2073 && meta <= 2048 {
        return Some(bit_kind(meta));
    }
    None
}

/// How the values of a column of this type in the log and this metadata are written, where the workflow has the
/// type number (`query.proto`, Type), the labels of a SET with this comma; `None` where the two don't fit, or the type
/// isn't read, as a SET whose comma isn't known.
#[tactic(auto, unfolding(crate::specs::Kind::kind_of))]
pub fn kind_of(wanted: u32, log_type: u8, meta: u16, comma: Option<Comma>) -> Option<Kind>
    ensures { result ≡ kind_of wanted log_type meta comma }
{
    if log_type == 1 || log_type == 2 || log_type == 9 || log_type == 3 || log_type == 8 {
        return number_kind(wanted, log_type);
    }
    if log_type == 10 || log_type == 13 || log_type == 17 || log_type == 18 || log_type == 19 {
        return time_kind(wanted, log_type, meta);
    }
    text_kind(wanted, log_type, meta, comma)
}
