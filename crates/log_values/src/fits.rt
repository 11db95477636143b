//! Whether a value is one that its type has.

ghost use Rattle.std.specs.Prelude.{◌≡◌, map};
ghost use Rattle.log_values.specs.Value.{fits};

use crate::civil::timestamp_fits;
use crate::date::{date_fits, datetime_fits};
use crate::decimal::decimal_fits;
use crate::kind::Kind;
use crate::labels::{are_bits, label_fits};
use crate::time::time_fits;
use log_events::number_at;

/// Whether a value of these bytes is one that its type has.
pub(crate) fn fits(kind: Kind, labels: &[&[u8]], bytes: &[u8]) -> bool
    ensures { result ≡ fits kind (map (λ b. b.now) labels.now) bytes.now }
{
    match kind {
        Kind::Decimal(precision, scale) => decimal_fits(precision, scale, bytes),
        Kind::Date => date_fits(bytes),
        Kind::DateTime(fraction) => datetime_fits(fraction, bytes),
        Kind::Time(fraction) => time_fits(fraction, bytes),
        Kind::Timestamp(fraction) => timestamp_fits(fraction, bytes),
        Kind::Label(size) => label_fits(labels, number_at(bytes, 0, size)),
        Kind::Labels(size, _) => are_bits(labels, number_at(bytes, 0, size)),
        _ => true,
    }
}
