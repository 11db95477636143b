//! Decimal digits.

ghost use Rattle.std.specs.Prelude.{◌≡◌, ◌<◌, ◌++◌, OnOk};
ghost use Rattle.log_values.specs.Digits.{digit, nine, minus_text};

use std::alloc::AllocError;

/// The digit of a number that counts so many.
#[inline(always)]
pub(crate) fn digit(n: u64, unit: u64) -> u8
    requires { 0 < unit }
    ensures { result ≡ digit n unit }
{
    b'0' + (n / unit % 10) as u8
}

/// The last nine digits of a number.
pub(crate) fn nine(n: u64) -> [u8; 9]
    ensures { result ≡ nine n }
{
    [
        digit(n, 100_000_000),
        digit(n, 10_000_000),
        digit(n, 1_000_000),
        digit(n, 100_000),
        digit(n, 10_000),
        digit(n, 1_000),
        digit(n, 100),
        digit(n, 10),
        digit(n, 1),
    ]
}

/// Appends bytes.
pub(crate) fn put(out: &mut Vec<u8>, bytes: &[u8]) -> Result<(), AllocError>
    ensures { OnOk result (out.new.items ≡ out.old.items ++ bytes.now) }
{
    out.extend_from_slice(bytes)
}

/// Appends the sign of a number below 0.
pub(crate) fn put_minus(out: &mut Vec<u8>, minus: bool) -> Result<(), AllocError>
    ensures { OnOk result (out.new.items ≡ out.old.items ++ minus_text minus) }
{
    if minus { put(out, b"-") } else { put(out, &[]) }
}
