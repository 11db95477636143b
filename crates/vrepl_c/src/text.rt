//! Bytes as a text.

ghost use Rattle.std.specs.Prelude.{◌≡◌};
ghost use Rattle.std.specs.Option.{option_map};
ghost use Rattle.vrepl_c.specs.Readers.{text_of};

use std::str;

/// The bytes as a text, where they are UTF-8.
#[tactic(auto, using(crate::proofs::Texts::some_text, crate::proofs::Texts::no_text))]
pub(crate) fn text_of(bytes: &[u8]) -> Option<&str>
    ensures { option_map (λ text. text.now) result ≡ text_of bytes.now }
{
    match str::from_utf8(bytes) {
        Ok(text) => Some(text),
        Err(_) => None,
    }
}
