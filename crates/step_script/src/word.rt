//! Parts of a text, one at a time and without memory: the lines of a script, and the words of a line.

ghost use Rattle.std.specs.Prelude.{◌≡◌, ◌==◌, ◌<◌, [], ◌∷◌, length, IfSome, IfNone};
ghost use Rattle.std.specs.List.{slice_split};
ghost use Rattle.step_script.specs.ScriptLines.{is_word_gap, words_of_line};

/// The first line, and what stands behind its LF, if it has one.
pub(crate) fn first_line(text: &[u8]) -> (&[u8], Option<&[u8]>)
    ensures more { IfSome result.1 (λ rest. slice_split (λ b. b == 10) text.now ≡ result.0.now ∷ slice_split (λ b. b == 10) rest.now) }
    ensures smaller { IfSome result.1 (λ rest. length rest.now < length text.now) }
    ensures last { IfNone result.1 (slice_split (λ b. b == 10) text.now ≡ result.0.now ∷ []) }
{
    match text.iter().position(|b| *b == b'\n') {
        Some(end) => (&text[..end], Some(&text[end + 1..])),
        None => (text, None),
    }
}

/// What stands in front of the first blank or tab, and what stands behind it, if there is one.
fn first_part(text: &[u8]) -> (&[u8], Option<&[u8]>)
    ensures more { IfSome result.1 (λ rest. slice_split is_word_gap text.now ≡ result.0.now ∷ slice_split is_word_gap rest.now) }
    ensures smaller { IfSome result.1 (λ rest. length rest.now < length text.now) }
    ensures last { IfNone result.1 (slice_split is_word_gap text.now ≡ result.0.now ∷ []) }
{
    match text.iter().position(|b| *b == b' ' || *b == b'\t') {
        Some(end) => (&text[..end], Some(&text[end + 1..])),
        None => (text, None),
    }
}

/// The first word of a line and what stands behind it, if there is a word: words are parted by runs of blanks and
/// tabs.
pub(crate) fn next_word(text: &[u8]) -> Option<(&[u8], &[u8])>
    ensures some { IfSome result (λ found. words_of_line text.now ≡ found.0.now ∷ words_of_line found.1.now) }
    ensures none { IfNone result (words_of_line text.now ≡ []) }
{
    let mut text = text;
    loop {
        let (part, rest) = first_part(text);
        if !part.is_empty() {
            return Some((part, rest.unwrap_or(b"".as_slice())));
        }
        let Some(rest) = rest else {
            return None;
        };
        text = rest;
    }
}
