//! Texts, which are UTF-8.

ghost use Rattle.std.specs.Prelude.{◌≡◌, true};
ghost use Rattle.std.specs.Str.{is_utf8};

use std::str::{from_utf8, from_utf8_unchecked};

/// Whether the bytes are a text.
#[inline(always)]
pub(crate) fn is_text(bytes: &[u8]) -> bool
    ensures { result ≡ is_utf8 bytes.now }
{
    if bytes.is_ascii() {
        return true;
    }
    from_utf8(bytes).is_ok()
}

/// The bytes as the text that they were found to be. They aren't looked at again.
pub(crate) fn text_of(bytes: &[u8]) -> &str
    requires { is_utf8 bytes.now ≡ true }
    ensures { result.now ≡ bytes.now }
{
    unsafe { from_utf8_unchecked(bytes) }
}
