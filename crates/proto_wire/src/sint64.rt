//! Signed numbers as unsigned ones.

ghost use Rattle.std.specs.Prelude.{◌≡◌};
ghost use Rattle.list_laws.specs.Outcome.{Gives};
ghost use Rattle.proto_wire.specs.Zigzag.{zigzag_of, unzigzag_of, sint64_at};

use crate::fault::WireFault;
use crate::varint::varint_of;

/// The number that a `sint64` travels as: 0, -1, 1, -2 are 0, 1, 2, 3.
pub fn zigzag(value: i64) -> u64
    ensures value { result ≡ zigzag_of value }
    ensures undone { unzigzag_of result ≡ value }
{
    if value >= 0 {
        2 * (value as u64)
    } else {
        2 * ((-(value + 1)) as u64) + 1
    }
}

/// The `sint64` that travels as the number: 0, 1, 2, 3 are 0, -1, 1, -2.
pub fn unzigzag(number: u64) -> i64
    ensures value { result ≡ unzigzag_of number }
    ensures undone { zigzag_of result ≡ number }
{
    let half = (number / 2) as i64;
    if number % 2 == 0 { half } else { -half - 1 }
}

/// The `sint64` at the front, and the bytes after it. Of no bytes it is `Truncated`. Takes no memory.
#[inline(always)]
#[tactic(auto, unfolding(crate::specs::Zigzag::sint64_at))]
pub fn sint64_of(bytes: &[u8]) -> Result<(i64, &[u8]), WireFault>
    ensures { Gives (λ x. (x.0, x.1.now)) result (sint64_at bytes.now) }
{
    let (number, rest) = varint_of(bytes)?;
    Ok((unzigzag(number), rest))
}
