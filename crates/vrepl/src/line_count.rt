//! How many lines a text has.

/// A line's end in each byte of a word.
const ENDS: u64 = 0x0a0a_0a0a_0a0a_0a0a;

/// All bits of each byte but the highest.
const LOW: u64 = 0x7f7f_7f7f_7f7f_7f7f;

/// How many bytes of a word are a line's end.
fn ends_in(word: u64) -> u32 {
    let differs = word ^ ENDS;
    // (the highest bit of each other byte is set, and every lower one)
    let others = (differs & LOW).wrapping_add(LOW) | differs | LOW;
    (!others).count_ones()
}

/// How many lines end in a text, which is looked through by eight bytes.
pub(crate) fn lines_in(text: &[u8]) -> usize {
    let mut lines: usize = 0;
    let mut rest = text;
    while let Some((word, behind)) = rest.split_first_chunk::<8>() {
        lines = lines.saturating_add(ends_in(u64::from_le_bytes(*word)) as usize);
        rest = behind;
    }
    lines.saturating_add(rest.iter().filter(|byte| **byte == b'\n').count())
}
