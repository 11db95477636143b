//! Numbers whose highest byte comes first.

ghost use Rattle.std.specs.Prelude.{◌≡◌, ◌<◌, ◌≤◌, ◌^◌, slice_index};
ghost use Rattle.log_values.specs.Big.{big};

/// The byte at a place; one that isn't there is 0.
#[inline(always)]
pub(crate) fn byte_at(bytes: &[u8], place: usize) -> u64
    ensures value { result ≡ slice_index bytes.now place }
    ensures below { result < 256 }
{
    match bytes.get(place) {
        Some(byte) => u64::from(*byte),
        None => 0,
    }
}

/// The number of so many bytes from a place on.
#[inline(always)]
pub(crate) fn big_at(bytes: &[u8], place: u8, count: u8) -> u64
    requires { count ≤ 6 }
    ensures value { result ≡ big place count bytes.now }
    ensures below { result < 256 ^ count }
{
    let mut number = 0;
    for i in 0..count {
        number = number * 256 + byte_at(bytes, usize::from(place) + usize::from(i));
    }
    number
}
