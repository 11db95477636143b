//! Signs of columns of numbers.

ghost use Rattle.std.specs.Prelude.{◌≡◌, ◌<◌, ◌-◌, ◌^◌};
ghost use Rattle.log_tables.specs.Extra.{has_no_sign};
ghost use Rattle.log_tables.specs.Column.{is_number, sign_fits, is_signed_so};

use log_values::Kind;

/// Whether a type is one of numbers that may have a sign.
pub(crate) fn is_number(log_type: u8) -> bool
    ensures { result ≡ is_number log_type }
{
    log_type < 6 && 0 < log_type || log_type == 8 || log_type == 9 || log_type == 246
}

/// The number that a bit of a byte counts, the highest first.
fn weight_of(place: u64) -> u8
    requires { place < 8 }
    ensures { result ≡ 2 ^ (7 - place) }
{
    2u8.pow((7 - place) as u32)
}

/// Whether the column of numbers at this place has no sign.
fn has_no_sign(signs: &[u8], place: u64) -> bool
    ensures { result ≡ has_no_sign signs.now place }
{
    match signs.get((place / 8) as usize) {
        Some(byte) => *byte / weight_of(place % 8) % 2 == 1,
        None => false,
    }
}

/// Whether the sign of a column is the one that is told, where signs are told.
pub(crate) fn is_signed_so(kind: Kind, signs: &[u8], place: u64) -> bool
    ensures { result ≡ is_signed_so kind signs.now place }
{
    if signs.is_empty() {
        return true;
    }
    match kind {
        Kind::Signed(_) => !has_no_sign(signs, place),
        Kind::Unsigned(_) => has_no_sign(signs, place),
        _ => true,
    }
}
