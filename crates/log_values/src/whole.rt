//! Whole numbers.

ghost use Rattle.std.specs.Prelude.{◌≡◌, ◌<◌, ◌^◌, ◌*◌, ◌++◌, OnOk, decimal};
ghost use Rattle.log_events.specs.Number.{size_of};
ghost use Rattle.log_values.specs.Whole.{half, signed_text};

use crate::digits::put;
use itoa::Buffer;
use log_events::Size;
use std::alloc::AllocError;

/// The number from which on the bytes of a signed number mean one below 0.
fn half_of(size: Size) -> u64
    ensures value { result ≡ half size }
    ensures twice { 2 * result ≡ 256 ^ size_of size }
{
    match size {
        Size::One => 0x80,
        Size::Two => 0x8000,
        Size::Three => 0x80_0000,
        Size::Four => 0x8000_0000,
        Size::Six => 0x8000_0000_0000,
        Size::Eight => 0x8000_0000_0000_0000,
    }
}

/// Appends the text of a number.
pub(crate) fn put_number(out: &mut Vec<u8>, n: u64) -> Result<(), AllocError>
    ensures { OnOk result (out.new.items ≡ out.old.items ++ decimal n) }
{
    let mut buffer = Buffer::new();
    put(out, buffer.format(n).as_bytes())
}

/// Appends the text of a number in two's complement.
pub(crate) fn put_signed(out: &mut Vec<u8>, size: Size, n: u64) -> Result<(), AllocError>
    requires { n < 256 ^ size_of size }
    ensures { OnOk result (out.new.items ≡ out.old.items ++ signed_text size n) }
{
    let half = half_of(size);
    if n < half {
        return put_number(out, n);
    }
    put(out, b"-")?;
    put_number(out, half - (n - half))
}
