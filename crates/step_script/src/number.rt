//! The numbers of a script.

ghost use Rattle.std.specs.Prelude.{◌≡◌};
ghost use Rattle.step_script.specs.ScriptLines.{script_number_of};

/// The number that a word of digits spells, at most 2^32 - 1.
pub(crate) fn number_of(word: &[u8]) -> Option<u32>
    ensures { result ≡ script_number_of word.now }
{
    if word.is_empty() {
        return None;
    }
    let mut value: u64 = 0;
    for digit in word {
        if !digit.is_ascii_digit() {
            return None;
        }
        value = value * 10 + u64::from(*digit - b'0');
        if value > u64::from(u32::MAX) {
            return None;
        }
    }
    Some(value as u32)
}
