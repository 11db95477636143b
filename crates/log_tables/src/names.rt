//! Names of columns.

ghost use Rattle.std.specs.Prelude.{◌≡◌, map};
ghost use Rattle.std.specs.Str.{bytes_eq};
ghost use Rattle.log_tables.specs.Column.{wanted_value, has_names};
ghost use Rattle.log_tables.specs.Extra.{are_names};

use crate::column::Wanted;
use crate::part::counted_of;

/// Whether a name is that of a column.
fn is_name(name: &[u8], column: &Wanted<'_>) -> bool
    ensures { result ≡ bytes_eq name.now (wanted_value column.now).name }
{
    name == column.name
}

/// Whether the names are those of these columns, each behind its size.
fn are_names(wanted: &[Wanted<'_>], names: &[u8]) -> bool
    ensures { result ≡ are_names (map (λ w. (wanted_value w).name) wanted.now) names.now }
{
    let mut left = names;
    for column in wanted {
        match counted_of(left) {
            Ok((name, rest)) => {
                if !is_name(name, column) {
                    return false;
                }
                left = rest;
            }
            Err(_) => return false,
        }
    }
    left.is_empty()
}

/// Whether the names are those of these columns, where names are told.
pub(crate) fn has_names(wanted: &[Wanted<'_>], names: &[u8]) -> bool
    ensures { result ≡ has_names (map wanted_value wanted.now) names.now }
{
    names.is_empty() || are_names(wanted, names)
}
