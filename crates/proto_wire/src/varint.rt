//! One varint at the front of the bytes.

ghost use Rattle.std.specs.Prelude.{◌≡◌, Ok, IfSome};
ghost use Rattle.list_laws.specs.Outcome.{Gives};
ghost use Rattle.proto_wire.specs.Varint.{varint_at};

use crate::fault::WireFault;

/// The varint at the front and the bytes after it, where it has one byte, as most have.
#[inline(always)]
#[tactic(auto, unfolding(crate::specs::Varint::varint_at, crate::specs::Varint::varint_within))]
pub(crate) fn short_varint_of(bytes: &[u8]) -> Option<(u8, &[u8])>
    ensures { IfSome result (λ x. varint_at bytes.now ≡ Ok (x.0, x.1.now)) }
{
    match bytes {
        [byte, after @ ..] if *byte < 128 => Some((*byte, after)),
        _ => None,
    }
}

/// The varint at the front, and the bytes after it. Most have one byte or two. Of no bytes it is
/// `Truncated`. Takes no memory.
#[inline(always)]
#[tactic(auto, unfolding(crate::specs::Varint::varint_at, crate::specs::Varint::varint_within))]
pub fn varint_of(bytes: &[u8]) -> Result<(u64, &[u8]), WireFault>
    ensures { Gives (λ x. (x.0, x.1.now)) result (varint_at bytes.now) }
{
    match bytes {
        [byte, after @ ..] if *byte < 128 => Ok((u64::from(*byte), after)),
        [low, high, after @ ..] if *high < 128 => {
            Ok((u64::from(*low) - 128 + u64::from(*high) * 128, after))
        }
        _ => longer_varint_of(bytes),
    }
}

/// The same of any number of bytes.
#[inline(never)]
fn longer_varint_of(bytes: &[u8]) -> Result<(u64, &[u8]), WireFault>
    ensures { Gives (λ x. (x.0, x.1.now)) result (varint_at bytes.now) }
{
    let mut value: u64 = 0;
    let mut weight: u64 = 1;
    let mut rest = bytes;
    for _ in 0..9u64 {
        let Some((byte, after)) = rest.split_first() else {
            return Err(WireFault::Truncated);
        };
        let byte = u64::from(*byte);
        rest = after;
        if byte < 128 {
            return Ok((value + byte * weight, rest));
        }
        value += (byte - 128) * weight;
        weight *= 128;
    }
    let Some((tenth, after)) = rest.split_first() else {
        return Err(WireFault::Truncated);
    };
    if *tenth > 1 {
        return Err(WireFault::VarintTooLong);
    }
    Ok((value + u64::from(*tenth) * weight, after))
}
