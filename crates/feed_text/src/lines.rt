//! The lines of a text.

ghost use Rattle.std.specs.Prelude.{◌<◌, ◌≤◌, length, IfSome};

use memchr::memchr;

/// The first line of a text, without its end, and what stands behind it; nothing where no line ends.
pub(crate) fn next_line(text: &[u8]) -> Option<(&[u8], &[u8])>
    ensures { IfSome result (λ parts. length parts.1.now < length text.now) }
{
    let place = memchr(b'\n', text)?;
    Some((&text[..place], &text[place + 1..]))
}

/// The first cell of a row's line, without the tab before it, and what stands behind it; nothing at the end.
pub(crate) fn next_cell(text: &[u8]) -> Option<(&[u8], &[u8])>
    ensures { IfSome result (λ parts. length parts.1.now < length text.now) }
{
    let (_, behind) = text.split_first()?;
    Some(up_to_tab(behind))
}

/// What stands before the first tab, and the rest with the tab.
pub(crate) fn up_to_tab(text: &[u8]) -> (&[u8], &[u8])
    ensures { length result.1.now ≤ length text.now }
{
    match memchr(b'\t', text) {
        Some(place) => text.split_at(place),
        None => (text, &[]),
    }
}
