//! One value at the front of the bytes.

ghost use Rattle.std.specs.Prelude.{◌≡◌, map};
ghost use Rattle.std.specs.Result.{result_map_both};
ghost use Rattle.log_values.specs.Value.{value_at, PutsValue};

use crate::fault::{ValueError, ValueFault};
use crate::fits::fits;
use crate::kind::Kind;
use crate::put::put_text;
use crate::size::value_size;

/// Appends the text of the value at the front, and answers the bytes after it. `labels` are those of an ENUM
/// or a SET. A fault leaves what is there; want of memory may leave a beginning of the text behind it.
pub fn put_value<'b>(
    out: &mut Vec<u8>,
    kind: Kind,
    labels: &[&[u8]],
    bytes: &'b [u8],
) -> Result<&'b [u8], ValueError>
    ensures { PutsValue (value_at kind (map (λ b. b.now) labels.now) bytes.now) out.old.items out.new.items (result_map_both (λ b. b.now) (λ e. e) result) }
{
    let size = value_size(kind, bytes);
    if (bytes.len() as u128) < size {
        return Err(ValueError::Fault(ValueFault::CutValue));
    }
    let (value, rest) = bytes.split_at(size as usize);
    if !fits(kind, labels, value) {
        return Err(ValueError::Fault(ValueFault::OutOfRange));
    }
    match put_text(out, kind, labels, value) {
        Ok(()) => Ok(rest),
        Err(_) => Err(ValueError::Memory),
    }
}
