//! The text of a value.

ghost use Rattle.std.specs.Prelude.{◌≡◌, ◌++◌, ◌-◌, OnOk, map, length, drop, replicate};
ghost use Rattle.log_events.specs.Number.{size_of};
ghost use Rattle.log_values.specs.Value.{text};

use crate::civil::put_timestamp;
use crate::date::{put_date, put_datetime, put_year};
use crate::decimal::put_decimal;
use crate::digits::put;
use crate::kind::Kind;
use crate::labels::{put_label, put_labels};
use crate::size::bytes_of_size;
use crate::time::put_time;
use crate::whole::{put_number, put_signed};
use log_events::{Size, behind, number_at};
use std::alloc::AllocError;

/// What stands behind a count.
fn behind_count(size: Size, bytes: &[u8]) -> &[u8]
    ensures { result.now ≡ drop (size_of size) bytes.now }
{
    behind(bytes, usize::from(bytes_of_size(size)))
}

/// Appends bytes, and 00 up to so many.
fn put_padded(out: &mut Vec<u8>, bytes: &[u8], width: u16) -> Result<(), AllocError>
    ensures { OnOk result (out.new.items ≡ out.old.items ++ (bytes.now ++ replicate (width - length bytes.now) 0)) }
{
    put(out, bytes)?;
    let more = usize::from(width).saturating_sub(bytes.len());
    for _ in 0..more {
        out.push(0)?;
    }
    Ok(())
}

/// Appends the text of a value of these bytes.
pub(crate) fn put_text(
    out: &mut Vec<u8>,
    kind: Kind,
    labels: &[&[u8]],
    bytes: &[u8],
) -> Result<(), AllocError>
    ensures { OnOk result (out.new.items ≡ out.old.items ++ text kind (map (λ b. b.now) labels.now) bytes.now) }
{
    match kind {
        Kind::Signed(size) => put_signed(out, size, number_at(bytes, 0, size)),
        Kind::Unsigned(size) => put_number(out, number_at(bytes, 0, size)),
        Kind::Counted(size) => put(out, behind_count(size, bytes)),
        Kind::Padded(size, width) => put_padded(out, behind_count(size, bytes), width),
        Kind::Bits(_) => put(out, bytes),
        Kind::Decimal(precision, scale) => put_decimal(out, precision, scale, bytes),
        Kind::Date => put_date(out, bytes),
        Kind::Year => put_year(out, bytes),
        Kind::DateTime(fraction) => put_datetime(out, fraction, bytes),
        Kind::Time(fraction) => put_time(out, fraction, bytes),
        Kind::Timestamp(fraction) => put_timestamp(out, fraction, bytes),
        Kind::Label(size) => put_label(out, labels, number_at(bytes, 0, size)),
        Kind::Labels(size, comma) => put_labels(out, comma, labels, number_at(bytes, 0, size)),
    }
}
