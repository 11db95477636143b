//! The parts of a text, one at a time and without memory.

ghost use Rattle.std.specs.Prelude.{◌≡◌, ◌==◌, ◌<◌, [], ◌∷◌, length, IfSome, IfNone};
ghost use Rattle.std.specs.List.{slice_split};
ghost use Rattle.live_requests.specs.Requests.{words_of};

/// What stands in front of the first such byte, and what stands behind it, if there is one.
pub(crate) fn first_part(text: &[u8], end: u8) -> (&[u8], Option<&[u8]>)
    ensures more { IfSome result.1 (λ rest. slice_split (λ b. b == end) text.now ≡ result.0.now ∷ slice_split (λ b. b == end) rest.now) }
    ensures smaller { IfSome result.1 (λ rest. length rest.now < length text.now) }
    ensures last { IfNone result.1 (slice_split (λ b. b == end) text.now ≡ result.0.now ∷ []) }
{
    match text.iter().position(|b| *b == end) {
        Some(place) => (&text[..place], Some(&text[place + 1..])),
        None => (text, None),
    }
}

/// What stands in front of the first tab, and what stands behind it, if there is one.
pub(crate) fn first_word(text: &[u8]) -> (&[u8], Option<&[u8]>)
    ensures more { IfSome result.1 (λ rest. words_of text.now ≡ result.0.now ∷ words_of rest.now) }
    ensures last { IfNone result.1 (words_of text.now ≡ result.0.now ∷ []) }
{
    first_part(text, b'\t')
}
