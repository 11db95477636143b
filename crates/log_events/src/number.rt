//! Numbers of one to eight bytes, least byte first.

ghost use Rattle.std.specs.Prelude.{◌≡◌, ◌<◌, ◌^◌, drop};
ghost use Rattle.log_events.specs.Number.{number, size_of};

/// How many bytes a number has.
#[derive(Clone, Copy, Debug, PartialEq, Eq)]
pub enum Size {
    One,
    Two,
    Three,
    Four,
    Six,
    Eight,
}

/// The bytes from a place on, none where there aren't so many.
pub fn behind(bytes: &[u8], place: usize) -> &[u8]
    ensures { result.now ≡ drop place bytes.now }
{
    if bytes.len() < place {
        return &[];
    }
    bytes.split_at(place).1
}

/// The first byte.
#[inline(always)]
#[tactic(auto, unfolding(crate::specs::Number::little))]
fn one_of(bytes: &[u8]) -> u64
    ensures value { result ≡ number 0 1 bytes.now }
    ensures below { result < 256 }
{
    match bytes {
        [byte, ..] => u64::from(*byte),
        _ => 0,
    }
}

/// The number of the first two bytes.
#[inline(always)]
fn two_of(bytes: &[u8]) -> u64
    ensures value { result ≡ number 0 2 bytes.now }
    ensures below { result < 65536 }
{
    one_of(bytes) + one_of(behind(bytes, 1)) * 256
}

/// The number of the first four bytes.
#[inline(always)]
fn four_of(bytes: &[u8]) -> u64
    ensures value { result ≡ number 0 4 bytes.now }
    ensures below { result < 2 ^ 32 }
{
    two_of(bytes) + two_of(behind(bytes, 2)) * 65536
}

/// The number of so many bytes at the front.
#[inline(always)]
fn front_of(bytes: &[u8], size: Size) -> u64
    ensures value { result ≡ number 0 (size_of size) bytes.now }
    ensures below { result < 256 ^ size_of size }
{
    match size {
        Size::One => one_of(bytes),
        Size::Two => two_of(bytes),
        Size::Three => two_of(bytes) + one_of(behind(bytes, 2)) * 65536,
        Size::Four => four_of(bytes),
        Size::Six => four_of(bytes) + two_of(behind(bytes, 4)) * (1 << 32),
        Size::Eight => four_of(bytes) + four_of(behind(bytes, 4)) * (1 << 32),
    }
}

/// The number of so many bytes at a place, least byte first; a byte that isn't there is 0. Takes no memory.
#[inline(always)]
pub fn number_at(bytes: &[u8], place: usize, size: Size) -> u64
    ensures value { result ≡ number place (size_of size) bytes.now }
    ensures below { result < 256 ^ size_of size }
{
    front_of(behind(bytes, place), size)
}
